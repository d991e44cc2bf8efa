//! Promises that are settled at once, as the answers of operations.

ghost use Rattle.page_parts.specs.Kinds.{a_fault};
ghost use Rattle.page_values.specs.Seen.{seen};
ghost use Rattle.promise_core.specs.Seen.{settled_seen};
ghost use Rattle.page_model.specs.Operations.{rejected_with};
ghost use Rattle.page_answers.specs.Serving.{Serves};
ghost use Rattle.page_answers.specs.Settling.{outcome_given};

use crate::left::is_promise_left;
use crate::steps::{give, throw};
use lang_ast::HostStep;
use page_hosts::HostPort;
use page_script::Settled;
use page_state::PageState;
use page_values::{FaultName, Value, fault};
use std::sync::ledger::Ledger;
use trace_text::{Lines, NoLine};

/// Gives a new promise that is resolved with a value, for `Ok`, or rejected with a reason. Throws RangeError where no promise is
/// left.
pub fn give_settled<P: HostPort, M: Ledger, L: Lines>(
    page: &mut PageState<P, M>,
    how: Settled,
    lines: &mut L,
) -> Result<HostStep, NoLine>
    ensures { Serves L.Lines page.old lines.old (outcome_given (settled_seen how)) result page.new lines.new }
{
    if !is_promise_left(page) {
        return Ok(throw(page.alloc(), FaultName::RangeError));
    }
    let promise = page.new_settled(how, lines)?;
    Ok(give(Value::Promise(promise)))
}

/// Gives a new promise that is rejected with a reason. Throws RangeError where no promise is left.
pub fn reject_with<P: HostPort, M: Ledger, L: Lines>(
    page: &mut PageState<P, M>,
    reason: Value,
    lines: &mut L,
) -> Result<HostStep, NoLine>
    ensures { Serves L.Lines page.old lines.old (rejected_with (seen reason)) result page.new lines.new }
{
    give_settled(page, Err(reason), lines)
}

/// Gives a new promise that is rejected with a fault, whose text is empty. Throws RangeError where no promise is left.
pub fn reject_fault<P: HostPort, M: Ledger, L: Lines>(
    page: &mut PageState<P, M>,
    name: FaultName,
    lines: &mut L,
) -> Result<HostStep, NoLine>
    ensures { Serves L.Lines page.old lines.old (rejected_with (a_fault name)) result page.new lines.new }
{
    let reason = fault(page.alloc(), name);
    reject_with(page, reason, lines)
}
