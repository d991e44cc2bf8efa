//! Scheduler tasks and questions to host closures that are made and wait (Prioritized Task Scheduling, "Scheduling Tasks and
//! Continuations"). Want of memory is told also where a number is wanted that is not left.

ghost use Rattle.std.specs.Prelude.{◌≤◌};
ghost use Rattle.page_model.specs.Operations.{continuation_queued};
ghost use Rattle.page_script.specs.Seen.{state_seen};
ghost use Rattle.page_state.specs.Makes.{Makes};
ghost use Rattle.signal_operations.specs.Asking.{QueuesHost};
ghost use Rattle.signal_operations.specs.OfValues.{queued_with};

use crate::delays::start_after;
use page_hosts::HostPort;
use page_script::SchedulingState;
use page_state::PageState;
use page_tasks::PrioSource;
use page_values::Func;
use parallel_items::Completion;
use std::sync::ledger::Ledger;
use trace_text::{Lines, NoLine, RegKind};

/// A `postTask` is registered with its promise, and its task is enqueued now or after so many milliseconds, with the lines.
///
/// Want of memory is told also where the signal that is its source has no priority.
pub(crate) fn post_queued<P: HostPort, M: Ledger, L: Lines>(
    page: &mut PageState<P, M>,
    callback: Func,
    source: PrioSource,
    signal: Option<u32>,
    ms: u64,
    lines: &mut L,
) -> Result<(), NoLine>
    requires { ms ≤ 1000000000 }
    ensures { Makes L.Lines page.old lines.old (queued_with callback source signal ms) result page.new lines.new }
{
    let registration = page.promised(RegKind::Post, Some(callback), signal, lines)?;
    if ms == 0 {
        return page.enqueue(registration, source, false, lines);
    }
    let completion = Completion::EnqueuePost {
        registration,
        source,
    };
    start_after(page, ms, registration, completion, lines)
}

/// A continuation is registered with its promise and enqueued, with the lines, for a scheduling state.
///
/// Want of memory is told also where the signal that is its source has no priority.
pub(crate) fn continuation_queued<P: HostPort, M: Ledger, L: Lines>(
    page: &mut PageState<P, M>,
    state: SchedulingState,
    lines: &mut L,
) -> Result<(), NoLine>
    ensures { Makes L.Lines page.old lines.old (continuation_queued (state_seen state)) result page.new lines.new }
{
    let registration = page.promised(RegKind::Yield, None, state.abort_source, lines)?;
    page.enqueue(registration, state.prio_source, true, lines)
}

/// A question to closure `k` is registered with its promise, and its answer is pending until the latency has passed, with the lines.
///
/// Want of memory is told also where the closure was asked before, or where the moment is no number of 64 bits.
pub(crate) fn host_queued<P: HostPort, M: Ledger, L: Lines>(
    page: &mut PageState<P, M>,
    k: u32,
    x: i64,
    signal: Option<u32>,
    lines: &mut L,
) -> Result<(), NoLine>
    ensures { QueuesHost L.Lines page.old lines.old k x signal result page.new lines.new }
{
    let registration = page.promised(RegKind::Host, None, signal, lines)?;
    page.await_answer(k, x, registration, lines)
}
