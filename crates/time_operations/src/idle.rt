//! `requestIdleCallback`, `cancelIdleCallback` and `timeRemaining` (requestIdleCallback, "The requestIdleCallback() method" and
//! "The IdleDeadline interface").

ghost use Rattle.std.specs.Prelude.{◌≡◌};
ghost use Rattle.std.specs.Option.{option_map};
ghost use Rattle.page_model.specs.Operations.{remaining, with_handle};
ghost use Rattle.page_model.specs.PageTime.{cancel_idle};
ghost use Rattle.page_state.specs.PageActs.{read_by};
ghost use Rattle.page_values.specs.Seen.{seen};
ghost use Rattle.page_answers.specs.Serving.{Serves};
ghost use Rattle.time_operations.specs.Rows.{idle_left};
ghost use Rattle.time_operations.specs.OfValues.{idle_of, idle_with};

use crate::arguments::{LONGEST, long_number, not_below_zero, number};
use crate::requests::idle_requested;
use lang_ast::HostStep;
use page_answers::{function_of, give, give_unit, is_registration_left, throw};
use page_base::Micros;
use page_hosts::HostPort;
use page_state::PageState;
use page_values::{FaultName, Func, Value, as_deadline, as_int};
use std::sync::ledger::Ledger;
use trace_text::{Lines, NoLine};

/// `requestIdleCallback`: a callback is called in an idle period, or after so many milliseconds where that is positive. The answer
/// is its handle.
pub fn request_idle<P: HostPort, M: Ledger, L: Lines>(
    page: &mut PageState<P, M>,
    callback: Value,
    timeout: Value,
    lines: &mut L,
) -> Result<HostStep, NoLine>
    ensures { Serves L.Lines page.old lines.old (idle_of callback timeout) result page.new lines.new }
{
    let Some(callback) = function_of(callback) else {
        return Ok(throw(page.alloc(), FaultName::TypeError));
    };
    let Some(timeout) = as_int(&timeout) else {
        return Ok(throw(page.alloc(), FaultName::TypeError));
    };
    accept_idle(page, callback, timeout, lines)
}

/// `cancelIdleCallback`: the callback with this handle is not called. A number that is no handle, or is negative, does nothing.
pub fn cancel_idle<P: HostPort, M: Ledger, L: Lines>(
    page: &mut PageState<P, M>,
    handle: Value,
    lines: &mut L,
) -> Result<HostStep, NoLine>
    ensures { Serves L.Lines page.old lines.old (with_handle (seen handle) cancel_idle) result page.new lines.new }
{
    let Some(handle) = as_int(&handle) else {
        return Ok(throw(page.alloc(), FaultName::TypeError));
    };
    if handle < 0 {
        return Ok(give_unit());
    }
    page.cancel_idle(handle.unsigned_abs(), lines)?;
    Ok(give_unit())
}

/// `timeRemaining`: the microseconds that are left of a deadline.
pub fn time_remaining<P: HostPort, M: Ledger, L: Lines>(
    page: &PageState<P, M>,
    deadline: Value,
    lines: &L,
) -> Result<HostStep, NoLine>
    ensures { Serves L.Lines page.now lines.now (remaining (seen deadline)) result page.now lines.now }
{
    let _unused = lines;
    let Some(fixed) = as_deadline(&deadline) else {
        return Ok(throw(page.alloc(), FaultName::TypeError));
    };
    match long_number(page.time_remaining(moment_at(fixed))) {
        Some(left) => Ok(give(left)),
        None => Err(NoLine::OutOfMemory),
    }
}

// An idle callback with arguments of the right kinds.
fn accept_idle<P: HostPort, M: Ledger, L: Lines>(
    page: &mut PageState<P, M>,
    callback: Func,
    timeout: i64,
    lines: &mut L,
) -> Result<HostStep, NoLine>
    ensures { Serves L.Lines page.old lines.old (idle_with callback timeout) result page.new lines.new }
{
    if !has_idle_left(page, timeout) {
        return Ok(throw(page.alloc(), FaultName::RangeError));
    }
    idle_requested(page, callback, not_below_zero(timeout), lines)?;
    Ok(give(number(page.idle_made())))
}

// Whether one more registration and one more handle are left, and the timeout is in its range. Takes no memory.
fn has_idle_left<P: HostPort, M: Ledger>(page: &PageState<P, M>, timeout: i64) -> bool
    ensures { result ≡ read_by (idle_left timeout) page.now }
{
    timeout <= LONGEST && is_registration_left(page) && page.idle_made() < u32::MAX
}

// The moment at so many microseconds.
fn moment_at(time: Option<u64>) -> Option<Micros>
    ensures { option_map (λ moment. moment.0) result ≡ time }
{
    time.map(Micros)
}
