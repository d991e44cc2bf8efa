//! `requestAnimationFrame` and `cancelAnimationFrame` (HTML, "Animation frames").

ghost use Rattle.std.specs.Prelude.{◌≡◌};
ghost use Rattle.page_model.specs.Operations.{with_handle};
ghost use Rattle.page_model.specs.PageTime.{cancel_frame};
ghost use Rattle.page_state.specs.PageActs.{read_by};
ghost use Rattle.page_values.specs.Seen.{seen};
ghost use Rattle.page_answers.specs.Serving.{Serves};
ghost use Rattle.time_operations.specs.Rows.{frame_left};
ghost use Rattle.time_operations.specs.OfValues.{frame_of, frame_with};

use crate::arguments::number;
use crate::requests::frame_requested;
use lang_ast::HostStep;
use page_answers::{function_of, give, give_unit, is_registration_left, throw};
use page_hosts::HostPort;
use page_state::PageState;
use page_values::{FaultName, Func, Value, as_int};
use std::sync::ledger::Ledger;
use trace_text::{Lines, NoLine};

/// `requestAnimationFrame`: a callback is called at the next rendering opportunity. The answer is its handle.
pub fn request_frame<P: HostPort, M: Ledger, L: Lines>(
    page: &mut PageState<P, M>,
    callback: Value,
    lines: &mut L,
) -> Result<HostStep, NoLine>
    ensures { Serves L.Lines page.old lines.old (frame_of callback) result page.new lines.new }
{
    let Some(callback) = function_of(callback) else {
        return Ok(throw(page.alloc(), FaultName::TypeError));
    };
    accept_frame(page, callback, lines)
}

/// `cancelAnimationFrame`: the callback with this handle is not called. A number that is no handle, or is negative, does nothing.
pub fn cancel_frame<P: HostPort, M: Ledger, L: Lines>(
    page: &mut PageState<P, M>,
    handle: Value,
    lines: &mut L,
) -> Result<HostStep, NoLine>
    ensures { Serves L.Lines page.old lines.old (with_handle (seen handle) cancel_frame) result page.new lines.new }
{
    let Some(handle) = as_int(&handle) else {
        return Ok(throw(page.alloc(), FaultName::TypeError));
    };
    if handle < 0 {
        return Ok(give_unit());
    }
    page.cancel_frame(handle.unsigned_abs(), lines)?;
    Ok(give_unit())
}

// A frame callback that is a function.
fn accept_frame<P: HostPort, M: Ledger, L: Lines>(
    page: &mut PageState<P, M>,
    callback: Func,
    lines: &mut L,
) -> Result<HostStep, NoLine>
    ensures { Serves L.Lines page.old lines.old (frame_with callback) result page.new lines.new }
{
    if !has_frame_left(page) {
        return Ok(throw(page.alloc(), FaultName::RangeError));
    }
    frame_requested(page, callback, lines)?;
    Ok(give(number(page.frames_made())))
}

// Whether one more registration and one more handle are left. Takes no memory.
fn has_frame_left<P: HostPort, M: Ledger>(page: &PageState<P, M>) -> bool
    ensures { result ≡ read_by frame_left page.now }
{
    is_registration_left(page) && page.frames_made() < u32::MAX
}
