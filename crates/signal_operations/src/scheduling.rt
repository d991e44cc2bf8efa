//! `postTask` and `yieldTask` (Prioritized Task Scheduling, "The Scheduler Interface" and "Scheduling Tasks and Continuations"). What
//! is refused rejects the promise; only where no number is left, RangeError is thrown.

ghost use Rattle.std.specs.Prelude.{◌≤◌};
ghost use Rattle.page_model.specs.Operations as model;
ghost use Rattle.page_script.specs.Seen.{state_seen};
ghost use Rattle.page_answers.specs.Serving.{Serves};
ghost use Rattle.signal_operations.specs.OfValues.{post_of, post_with};

use crate::arguments::{delay_in, priority_or_unit, signal_or_unit};
use crate::priorities::prio_source_of;
use crate::queueing::{continuation_queued, post_queued};
use crate::refusing::reject_aborted;
use lang_ast::HostStep;
use page_answers::{are_both_left, function_of, give, reject_fault, throw};
use page_hosts::HostPort;
use page_script::SchedulingState;
use page_signals::Priority;
use page_state::PageState;
use page_values::{FaultName, Func, Value};
use std::sync::ledger::Ledger;
use trace_text::{Lines, NoLine};

/// `postTask`: a function is to be called by the scheduler, with a priority or unit, a signal or unit, and a delay in milliseconds from
/// 0 to 1,000,000,000. It answers a promise, which is rejected with TypeError where an argument is of another kind, and with the reason
/// of the signal where that is aborted.
pub fn post_task<P: HostPort, M: Ledger, L: Lines>(
    page: &mut PageState<P, M>,
    callback: Value,
    priority: Value,
    signal: Value,
    ms: Value,
    lines: &mut L,
) -> Result<HostStep, NoLine>
    ensures { Serves L.Lines page.old lines.old (post_of callback priority signal ms) result page.new lines.new }
{
    let Some(callback) = function_of(callback) else {
        return reject_fault(page, FaultName::TypeError, lines);
    };
    let Some(priority) = priority_or_unit(&priority) else {
        return reject_fault(page, FaultName::TypeError, lines);
    };
    let Some(signal) = signal_or_unit(&signal) else {
        return reject_fault(page, FaultName::TypeError, lines);
    };
    let Some(ms) = delay_in(&ms) else {
        return reject_fault(page, FaultName::TypeError, lines);
    };
    post_accepted(page, callback, priority, signal, ms, lines)
}

// The same with arguments of the right kinds.
fn post_accepted<P: HostPort, M: Ledger, L: Lines>(
    page: &mut PageState<P, M>,
    callback: Func,
    priority: Option<Priority>,
    signal: Option<u32>,
    ms: u64,
    lines: &mut L,
) -> Result<HostStep, NoLine>
    requires { ms ≤ 1000000000 }
    ensures { Serves L.Lines page.old lines.old (post_with callback priority signal ms) result page.new lines.new }
{
    if page.is_aborted_source(signal) {
        return reject_aborted(page, signal, lines);
    }
    if !are_both_left(page) {
        return Ok(throw(page.alloc(), FaultName::RangeError));
    }
    let source = prio_source_of(page, priority, signal);
    post_queued(page, callback, source, signal, ms, lines)?;
    Ok(give(Value::Promise(page.promises_made())))
}

/// `yieldTask`: a continuation of the current scheduling state. It answers a promise, which is rejected with the reason of the abort
/// source where that is aborted.
pub fn yield_task<P: HostPort, M: Ledger, L: Lines>(
    page: &mut PageState<P, M>,
    lines: &mut L,
) -> Result<HostStep, NoLine>
    ensures { Serves L.Lines page.old lines.old model.yield_task result page.new lines.new }
{
    let state = page.current_state();
    yield_in(page, state, lines)
}

// The same in a scheduling state.
fn yield_in<P: HostPort, M: Ledger, L: Lines>(
    page: &mut PageState<P, M>,
    state: SchedulingState,
    lines: &mut L,
) -> Result<HostStep, NoLine>
    ensures { Serves L.Lines page.old lines.old (model.yield_in (state_seen state)) result page.new lines.new }
{
    if page.is_aborted_source(state.abort_source) {
        return reject_aborted(page, state.abort_source, lines);
    }
    if !are_both_left(page) {
        return Ok(throw(page.alloc(), FaultName::RangeError));
    }
    continuation_queued(page, state, lines)?;
    Ok(give(Value::Promise(page.promises_made())))
}
