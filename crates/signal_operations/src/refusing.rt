//! Promises that are rejected since a signal is aborted.

ghost use Rattle.std.specs.Prelude.{◌≡◌, IfErr, IfOk};
ghost use Rattle.page_values.specs.Seen.{seen};
ghost use Rattle.page_model.specs.Operations as model;
ghost use Rattle.page_state.specs.PageActs.{read_by};
ghost use Rattle.page_answers.specs.Serving.{Serves};
ghost use Rattle.trace_text.specs.declared.lines.NoLine.TheVariants.{OutOfMemory};
ghost use Rattle.signal_operations.specs.OfValues.{rejected_for};

use lang_ast::HostStep;
use page_answers::reject_with;
use page_hosts::HostPort;
use page_state::PageState;
use page_values::Value;
use std::sync::ledger::Ledger;
use trace_text::{Lines, NoLine};

/// A promise that is rejected with the reason of an abort source.
pub(crate) fn reject_aborted<P: HostPort, M: Ledger, L: Lines>(
    page: &mut PageState<P, M>,
    signal: Option<u32>,
    lines: &mut L,
) -> Result<HostStep, NoLine>
    ensures { Serves L.Lines page.old lines.old (rejected_for signal) result page.new lines.new }
{
    let reason = source_reason(page, signal)?;
    reject_with(page, reason, lines)
}

// The reason of an abort source, and unit where it is not aborted.
fn source_reason<P: HostPort, M: Ledger>(
    page: &PageState<P, M>,
    signal: Option<u32>,
) -> Result<Value, NoLine>
    ensures reason { IfOk result (λ reason. seen reason ≡ read_by (λ p. model.source_reason p signal) page.now) }
    ensures memory { IfErr result (λ why. why ≡ OutOfMemory) }
{
    match signal {
        Some(s) => page.reason_value(s),
        None => Ok(Value::Unit),
    }
}
