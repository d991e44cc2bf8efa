//! Controllers and signals that are made (DOM, "Interface AbortController" and "Interface AbortSignal"; Prioritized Task Scheduling,
//! "The TaskController Interface" and "The TaskSignal Interface"). RangeError is thrown where no number is left.

ghost use Rattle.page_values.specs.Seen.{seen};
ghost use Rattle.page_model.specs.Operations as model;
ghost use Rattle.page_model.specs.Operations.{make_task_controller};
ghost use Rattle.page_answers.specs.Serving.{Serves};
ghost use Rattle.signal_operations.specs.OfValues.{any_of, task_any_of};

use crate::arguments::{delay_in, priority_in, reason_given, signals_in};
use crate::delays::timeout_signal_made;
use crate::room::{is_signal_left, is_timeout_left};
use lang_ast::HostStep;
use page_answers::{give, throw};
use page_hosts::HostPort;
use page_signals::Priority;
use page_state::PageState;
use page_values::{FaultName, Value, as_signal};
use std::sync::ledger::Ledger;
use trace_text::{Lines, NoLine};

/// `controller`: a controller, with a new signal.
pub fn controller<P: HostPort, M: Ledger, L: Lines>(
    page: &mut PageState<P, M>,
    lines: &L,
) -> Result<HostStep, NoLine>
    ensures { Serves L.Lines page.old lines.now model.make_controller result page.new lines.now }
{
    if !is_signal_left(page) {
        return Ok(throw(page.alloc(), FaultName::RangeError));
    }
    let s = page.make_signal()?;
    Ok(give(Value::Controller(s)))
}

/// `taskController`: a controller, with a new signal that has this priority. TypeError where it is none.
pub fn task_controller<P: HostPort, M: Ledger, L: Lines>(
    page: &mut PageState<P, M>,
    priority: Value,
    lines: &mut L,
) -> Result<HostStep, NoLine>
    ensures { Serves L.Lines page.old lines.old (make_task_controller (seen priority)) result page.new lines.new }
{
    let Some(priority) = priority_in(&priority) else {
        return Ok(throw(page.alloc(), FaultName::TypeError));
    };
    if !is_signal_left(page) {
        return Ok(throw(page.alloc(), FaultName::RangeError));
    }
    let s = page.task_signal_made(priority, lines)?;
    Ok(give(Value::Controller(s)))
}

/// `abortedSignal`: a signal that is aborted already, with this reason, and with a new AbortError for unit.
pub fn aborted_signal<P: HostPort, M: Ledger, L: Lines>(
    page: &mut PageState<P, M>,
    reason: Value,
    lines: &L,
) -> Result<HostStep, NoLine>
    ensures { Serves L.Lines page.old lines.now (model.aborted_signal (seen reason)) result page.new lines.now }
{
    if !is_signal_left(page) {
        return Ok(throw(page.alloc(), FaultName::RangeError));
    }
    let reason = reason_given(page.alloc(), reason);
    let s = page.make_aborted(reason)?;
    Ok(give(Value::Signal(s)))
}

/// `anySignal`: a signal that depends on those of a list. TypeError for any other value.
pub fn any_signal<P: HostPort, M: Ledger, L: Lines>(
    page: &mut PageState<P, M>,
    list: Value,
    lines: &L,
) -> Result<HostStep, NoLine>
    ensures { Serves L.Lines page.old lines.now (model.make_any (seen list)) result page.new lines.now }
{
    let Some(of) = signals_in(page.alloc(), &list)? else {
        return Ok(throw(page.alloc(), FaultName::TypeError));
    };
    if !is_signal_left(page) {
        return Ok(throw(page.alloc(), FaultName::RangeError));
    }
    let s = page.any(&of)?;
    Ok(give(Value::Signal(s)))
}

/// `taskAny`: a signal that depends on those of a list, with a priority: a fixed one, or that of a signal, which it follows. TypeError
/// for any other value, and where the signal has no priority.
pub fn task_any<P: HostPort, M: Ledger, L: Lines>(
    page: &mut PageState<P, M>,
    list: Value,
    priority: Value,
    lines: &mut L,
) -> Result<HostStep, NoLine>
    ensures { Serves L.Lines page.old lines.old (task_any_of list priority) result page.new lines.new }
{
    let Some(of) = signals_in(page.alloc(), &list)? else {
        return Ok(throw(page.alloc(), FaultName::TypeError));
    };
    if let Some(fixed) = priority_in(&priority) {
        return any_with_priority(page, &of, fixed, None, lines);
    }
    match as_signal(&priority) {
        Some(s) => any_following(page, &of, s, lines),
        None => Ok(throw(page.alloc(), FaultName::TypeError)),
    }
}

// The same with a signal: the new signal follows the one that is followed through it, and gets the priority that this has now.
fn any_following<P: HostPort, M: Ledger, L: Lines>(
    page: &mut PageState<P, M>,
    of: &[u32],
    s: u32,
    lines: &mut L,
) -> Result<HostStep, NoLine>
    ensures { Serves L.Lines page.old lines.old (model.any_following of.now s) result page.new lines.new }
{
    let on = page.followed_through(s);
    match page.priority_of(on) {
        Some(priority) => any_with_priority(page, of, priority, Some(on), lines),
        None => Ok(throw(page.alloc(), FaultName::TypeError)),
    }
}

// The same with a priority and the signal to follow, where there is one.
fn any_with_priority<P: HostPort, M: Ledger, L: Lines>(
    page: &mut PageState<P, M>,
    of: &[u32],
    priority: Priority,
    follows: Option<u32>,
    lines: &mut L,
) -> Result<HostStep, NoLine>
    ensures { Serves L.Lines page.old lines.old (any_of of.now priority follows) result page.new lines.new }
{
    if !is_signal_left(page) {
        return Ok(throw(page.alloc(), FaultName::RangeError));
    }
    let s = page.any_made(of, priority, follows, lines)?;
    Ok(give(Value::Signal(s)))
}

/// `timeoutSignal`: a signal that is aborted after so many milliseconds. TypeError where they are none from 0 to 1,000,000,000.
pub fn timeout_signal<P: HostPort, M: Ledger, L: Lines>(
    page: &mut PageState<P, M>,
    ms: Value,
    lines: &mut L,
) -> Result<HostStep, NoLine>
    ensures { Serves L.Lines page.old lines.old (model.make_timeout_signal (seen ms)) result page.new lines.new }
{
    let Some(ms) = delay_in(&ms) else {
        return Ok(throw(page.alloc(), FaultName::TypeError));
    };
    if !is_timeout_left(page) {
        return Ok(throw(page.alloc(), FaultName::RangeError));
    }
    timeout_signal_made(page, ms, lines)?;
    Ok(give(Value::Signal(page.signals_made())))
}
