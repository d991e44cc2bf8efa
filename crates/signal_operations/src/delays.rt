//! Delays, and what is started by one.

ghost use Rattle.std.specs.Prelude.{◌≤◌};
ghost use Rattle.page_model.specs.Operations as model;
ghost use Rattle.page_state.specs.Makes.{Makes};
ghost use Rattle.signal_operations.specs.Delays.{delay_told, starts_in};

use page_base::Micros;
use page_hosts::HostPort;
use page_script::{Callbacks, Registration, Role};
use page_state::PageState;
use parallel_items::Completion;
use std::sync::ledger::Ledger;
use trace_text::{Event, Lines, NoLine, RegKind};

/// The completion steps of a registration are started after so many milliseconds, with its `arm` line.
///
/// Want of memory is told also where the moment is no number of 64 bits, where no number of an active timer is left, or where the
/// `postTask` of the registration is delayed already.
pub(crate) fn start_after<P: HostPort, M: Ledger, L: Lines>(
    page: &mut PageState<P, M>,
    ms: u64,
    registration: u32,
    completion: Completion,
    lines: &mut L,
) -> Result<(), NoLine>
    requires { ms ≤ 1000000000 }
    ensures { Makes L.Lines page.old lines.old (starts_in ms registration completion) result page.new lines.new }
{
    tell_delay(page, ms, registration, lines)?;
    page.run_after(ms, completion)
}

// The `arm` line of a registration that is due after so many milliseconds.
fn tell_delay<P: HostPort, M: Ledger, L: Lines>(
    page: &PageState<P, M>,
    ms: u64,
    registration: u32,
    lines: &mut L,
) -> Result<(), NoLine>
    requires { ms ≤ 1000000000 }
    ensures { Makes L.Lines page.now lines.old (delay_told ms registration) result page.now lines.new }
{
    let Some(due) = page.now().0.checked_add(ms * 1000) else {
        return Err(NoLine::OutOfMemory);
    };
    page.emit(
        Event::Arm {
            r: registration as u64,
            due: Micros(due),
            level: 0,
        },
        lines,
    )
}

/// Makes a signal that is aborted after so many milliseconds, with the lines of its registration (DOM, "Interface AbortSignal":
/// timeout).
///
/// Want of memory is told also where a number is wanted that is not left.
pub(crate) fn timeout_signal_made<P: HostPort, M: Ledger, L: Lines>(
    page: &mut PageState<P, M>,
    ms: u64,
    lines: &mut L,
) -> Result<(), NoLine>
    requires { ms ≤ 1000000000 }
    ensures { Makes L.Lines page.old lines.old (model.timeout_signal_made ms) result page.new lines.new }
{
    let signal = page.make_signal()?;
    let registration = Registration {
        role: Role::Of(RegKind::Signal),
        callbacks: Callbacks::Absent,
        timer_id: 0,
        promise: 0,
        signal: None,
        finally: false,
    };
    let r = page.register_as(RegKind::Signal, registration, lines)?;
    let completion = Completion::QueueSignal {
        registration: r,
        signal,
    };
    start_after(page, ms, r, completion, lines)
}
