//! Timers, frame callbacks and idle callbacks that are registered and then requested (HTML, "Timers" and "Animation frames";
//! requestIdleCallback).

ghost use Rattle.std.specs.Prelude.{◌≡◌, ◌^◌, ◌<◌};
ghost use Rattle.page_script.specs.Seen.{registration_seen};
ghost use Rattle.page_values.specs.Seen.{seen_func};
ghost use Rattle.page_state.specs.Makes.{Makes};
ghost use Rattle.time_operations.specs.Rows.{callback_of_kind};
ghost use Rattle.time_operations.specs.OfValues.{frame_requested_with, idle_requested_with, set_with};

use page_hosts::HostPort;
use page_script::{Callbacks, Registration, Role};
use page_state::PageState;
use page_values::Func;
use std::sync::ledger::Ledger;
use trace_text::{Lines, NoLine, RegKind};

/// A timer is registered under the id that it gets, and initialised, with their lines.
///
/// The timeout is in milliseconds, as the script gave it. Want of memory is told also where no number that it takes is left.
pub(crate) fn timer_set<P: HostPort, M: Ledger, L: Lines>(
    page: &mut PageState<P, M>,
    kind: RegKind,
    repeats: bool,
    callback: Func,
    timeout: i64,
    lines: &mut L,
) -> Result<(), NoLine>
    ensures { Makes L.Lines page.old lines.old (set_with kind repeats callback timeout) result page.new lines.new }
{
    let made = page.timer_ids_made();
    if made == u32::MAX {
        return Err(NoLine::OutOfMemory);
    }
    let registration = callback_of_kind(kind, callback, made + 1);
    let r = page.register_as(kind, registration, lines)?;
    page.init_timer(None, r, repeats, timeout, lines)
}

/// A frame callback is registered, with its line, and requested.
///
/// Want of memory is told also where no number that it takes is left.
pub(crate) fn frame_requested<P: HostPort, M: Ledger, L: Lines>(
    page: &mut PageState<P, M>,
    callback: Func,
    lines: &mut L,
) -> Result<(), NoLine>
    ensures { Makes L.Lines page.old lines.old (frame_requested_with callback) result page.new lines.new }
{
    let registration = callback_of_kind(RegKind::Frame, callback, 0);
    let r = page.register_as(RegKind::Frame, registration, lines)?;
    page.request_frame(r)
}

/// An idle callback is registered and requested, with their lines; a positive number of milliseconds starts its timeout.
///
/// Want of memory is told also where no number that it takes is left.
pub(crate) fn idle_requested<P: HostPort, M: Ledger, L: Lines>(
    page: &mut PageState<P, M>,
    callback: Func,
    ms: u64,
    lines: &mut L,
) -> Result<(), NoLine>
    requires { ms < 2 ^ 32 }
    ensures { Makes L.Lines page.old lines.old (idle_requested_with callback ms) result page.new lines.new }
{
    let registration = callback_of_kind(RegKind::Idle, callback, 0);
    let r = page.register_as(RegKind::Idle, registration, lines)?;
    page.request_idle(ms, r, lines)
}

// The registration of a callback of a kind, with this timer id, 0 where it has none.
fn callback_of_kind(kind: RegKind, callback: Func, timer_id: u32) -> Registration
    ensures { registration_seen result ≡ callback_of_kind kind (seen_func callback) timer_id }
{
    Registration {
        role: Role::Of(kind),
        callbacks: Callbacks::First(callback),
        timer_id,
        promise: 0,
        signal: None,
        finally: false,
    }
}
