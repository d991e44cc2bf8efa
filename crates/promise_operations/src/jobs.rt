//! `queueMicrotask` (HTML, "Microtask queuing").

ghost use Rattle.page_values.specs.Seen.{seen};
ghost use Rattle.page_model.specs.Operations as model;
ghost use Rattle.page_answers.specs.Serving.{Serves};

use lang_ast::HostStep;
use page_answers::{function_of, give_unit, is_registration_left, throw};
use page_hosts::HostPort;
use page_state::PageState;
use page_values::{FaultName, Value};
use std::sync::ledger::Ledger;
use trace_text::{Lines, NoLine};

/// `queueMicrotask`: registers a callback and queues it behind all other jobs, with its lines. Throws TypeError where it is no
/// function, and RangeError where no registration is left.
pub fn queue_microtask<P: HostPort, M: Ledger, L: Lines>(
    page: &mut PageState<P, M>,
    callback: Value,
    lines: &mut L,
) -> Result<HostStep, NoLine>
    ensures { Serves L.Lines page.old lines.old (model.queue_microtask (seen callback)) result page.new lines.new }
{
    let Some(function) = function_of(callback) else {
        return Ok(throw(page.alloc(), FaultName::TypeError));
    };
    if !is_registration_left(page) {
        return Ok(throw(page.alloc(), FaultName::RangeError));
    }
    page.micro_registered(function, lines)?;
    Ok(give_unit())
}
