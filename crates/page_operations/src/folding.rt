//! Aborts and changes of a priority that a script asks for, to the first callback or to the end (DOM, "Interface AbortController";
//! Prioritized Task Scheduling, "The TaskController Interface").

ghost use Rattle.std.specs.Prelude.{◌↔◌, IsTrue, map};
ghost use Rattle.lang_ast.specs.Steps.{AllNumbered, StepIsNumbered, seen_step};
ghost use Rattle.page_values.specs.Seen.{seen};
ghost use Rattle.page_operations.specs.Asked.{functions_of};
ghost use Rattle.page_operations.specs.Folding.{Begins, abort_of, change_of};

use lang_ast::HostStep;
use page_answers::throw;
use page_hosts::HostPort;
use page_state::PageState;
use page_values::{FaultName, Value, as_controller};
use signal_operations::{priority_in, reason_given};
use std::sync::ledger::Ledger;
use trace_text::{Lines, NoLine};

/// `abort`: a controller aborts its signal with a reason, a new AbortError where that is unit. TypeError for any other value.
pub(crate) fn abort<P: HostPort, L: Lines, M: Ledger>(
    page: &mut PageState<P, M>,
    controller: &Value,
    reason: Value,
    lines: &mut L,
) -> Result<HostStep, NoLine>
    ensures { Begins L.Lines page.old lines.old (abort_of controller.now reason) result page.new lines.new }
{
    let Some(s) = as_controller(controller) else {
        return Ok(throw(page.alloc(), FaultName::TypeError));
    };
    let reason = reason_given(page.alloc(), reason);
    page.begin_abort(s, reason, lines)
}

/// `setPriority`: a controller changes the priority of its signal. TypeError for a value of another kind, and where the signal has no
/// priority; NotAllowedError while a change of it is in progress.
pub(crate) fn set_priority<P: HostPort, L: Lines, M: Ledger>(
    page: &mut PageState<P, M>,
    controller: &Value,
    priority: &Value,
    lines: &mut L,
) -> Result<HostStep, NoLine>
    ensures { Begins L.Lines page.old lines.old (change_of controller.now priority.now) result page.new lines.new }
{
    let Some(s) = as_controller(controller) else {
        return Ok(throw(page.alloc(), FaultName::TypeError));
    };
    let Some(priority) = priority_in(priority) else {
        return Ok(throw(page.alloc(), FaultName::TypeError));
    };
    if page.priority_of(s).is_none() {
        return Ok(throw(page.alloc(), FaultName::TypeError));
    }
    if page.is_changing(s) {
        return Ok(throw(page.alloc(), FaultName::NotAllowedError));
    }
    page.begin_change(s, priority, lines)
}

/// Whether each function that a step names has a name. Takes no memory, and costs at most the weight of the step.
pub(crate) fn is_numbered<P: HostPort, M: Ledger>(page: &PageState<P, M>, step: &HostStep) -> bool
    ensures { IsTrue result ↔ StepIsNumbered (functions_of page.now) (seen_step step.now) }
{
    match step {
        HostStep::Value(value) | HostStep::Throw(value) => page.is_numbered(value),
        HostStep::Invoke { callback, args, .. } => page.is_numbered(callback)
            && are_numbered(page, args),
    }
}

/// Whether each function that these values name has a name. Takes no memory, and costs at most their weight.
pub fn are_numbered<P: HostPort, M: Ledger>(page: &PageState<P, M>, values: &[Value]) -> bool
    ensures { IsTrue result ↔ AllNumbered (functions_of page.now) (map seen values.now) }
{
    for value in values {
        if !page.is_numbered(value) {
            return false;
        }
    }
    true
}
