//! `setTimeout`, `setInterval`, `clearTimeout` and `clearInterval` (HTML, "Timers").

ghost use Rattle.std.specs.Prelude.{◌≡◌, true, false};
ghost use Rattle.page_types.specs.declared.RegKind.TheVariants.{Timeout as TimeoutKind, Interval as IntervalKind};
ghost use Rattle.page_model.specs.Operations.{with_handle};
ghost use Rattle.page_model.specs.PageTime.{clear_timer};
ghost use Rattle.page_state.specs.PageActs.{read_by};
ghost use Rattle.page_values.specs.Seen.{seen};
ghost use Rattle.page_answers.specs.Serving.{Serves};
ghost use Rattle.time_operations.specs.Rows.{timer_left};
ghost use Rattle.time_operations.specs.OfValues.{timed, timer_with};

use crate::arguments::number;
use crate::requests::timer_set;
use lang_ast::HostStep;
use page_answers::{function_of, give, give_unit, is_registration_left, throw};
use page_hosts::HostPort;
use page_state::PageState;
use page_values::{FaultName, Func, Value, as_int};
use std::sync::ledger::Ledger;
use trace_text::{Lines, NoLine, RegKind};

/// `setTimeout`: a callback is called once after so many milliseconds. The answer is the timer's id.
pub fn set_timeout<P: HostPort, M: Ledger, L: Lines>(
    page: &mut PageState<P, M>,
    callback: Value,
    delay: Value,
    lines: &mut L,
) -> Result<HostStep, NoLine>
    ensures { Serves L.Lines page.old lines.old (timed TimeoutKind false callback delay) result page.new lines.new }
{
    set_timer(page, RegKind::Timeout, false, callback, delay, lines)
}

/// `setInterval`: a callback is called again and again after so many milliseconds. The answer is the timer's id.
pub fn set_interval<P: HostPort, M: Ledger, L: Lines>(
    page: &mut PageState<P, M>,
    callback: Value,
    delay: Value,
    lines: &mut L,
) -> Result<HostStep, NoLine>
    ensures { Serves L.Lines page.old lines.old (timed IntervalKind true callback delay) result page.new lines.new }
{
    set_timer(page, RegKind::Interval, true, callback, delay, lines)
}

/// `clearTimeout` and `clearInterval`: the timer with this id runs no more. A number that is no id, or is negative, does nothing.
pub fn clear_timer<P: HostPort, M: Ledger, L: Lines>(
    page: &mut PageState<P, M>,
    id: Value,
    lines: &mut L,
) -> Result<HostStep, NoLine>
    ensures { Serves L.Lines page.old lines.old (with_handle (seen id) clear_timer) result page.new lines.new }
{
    let Some(id) = as_int(&id) else {
        return Ok(throw(page.alloc(), FaultName::TypeError));
    };
    if id < 0 {
        return Ok(give_unit());
    }
    page.clear_timer(id.unsigned_abs(), lines)?;
    Ok(give_unit())
}

fn set_timer<P: HostPort, M: Ledger, L: Lines>(
    page: &mut PageState<P, M>,
    kind: RegKind,
    repeats: bool,
    callback: Value,
    delay: Value,
    lines: &mut L,
) -> Result<HostStep, NoLine>
    ensures { Serves L.Lines page.old lines.old (timed kind repeats callback delay) result page.new lines.new }
{
    let Some(callback) = function_of(callback) else {
        return Ok(throw(page.alloc(), FaultName::TypeError));
    };
    let Some(delay) = as_int(&delay) else {
        return Ok(throw(page.alloc(), FaultName::TypeError));
    };
    accept_timer(page, kind, repeats, callback, delay, lines)
}

// A timer with arguments of the right kinds.
fn accept_timer<P: HostPort, M: Ledger, L: Lines>(
    page: &mut PageState<P, M>,
    kind: RegKind,
    repeats: bool,
    callback: Func,
    delay: i64,
    lines: &mut L,
) -> Result<HostStep, NoLine>
    ensures { Serves L.Lines page.old lines.old (timer_with kind repeats callback delay) result page.new lines.new }
{
    if !has_timer_left(page) {
        return Ok(throw(page.alloc(), FaultName::RangeError));
    }
    timer_set(page, kind, repeats, callback, delay, lines)?;
    Ok(give(number(page.timer_ids_made())))
}

// Whether one more registration and one more id are left. Takes no memory.
fn has_timer_left<P: HostPort, M: Ledger>(page: &PageState<P, M>) -> bool
    ensures { result ≡ read_by timer_left page.now }
{
    is_registration_left(page) && page.timer_ids_made() < u32::MAX
}
