//! The tasks of idle callbacks (requestIdleCallback, "Invoke idle callbacks algorithm" and "Invoke idle callback timeout algorithm").

ghost use Rattle.std.specs.Prelude.{◌≡◌, ◌∷◌, [], map, IfErr, IfOk, None, OnOk};
ghost use Rattle.std.specs.Result.{result_err};
ghost use Rattle.page_types.specs.Values.{DeadlineValue};
ghost use Rattle.page_values.specs.Seen.{seen};
ghost use Rattle.page_model.specs.Tasks as model;
ghost use Rattle.page_frames.specs.Steps.{idle_registration};
ghost use Rattle.page_script.specs.Seen.{state_seen};
ghost use Rattle.page_state.specs.PageActs.{changed_by, read_by, IsWanted};
ghost use Rattle.page_host.specs.Moments.{CanCall};
ghost use Rattle.page_host.specs.Doing.{Acts};
ghost use Rattle.page_host.specs.Tasking.{idle_begun, idle_next, timeout_begun};
ghost use Rattle.page_host.specs.StepsOfTasks.{idle_invoked, idle_timed_out};
ghost use Rattle.page_host.specs.Running.{ActsOn, RunsWork};

use crate::pieces::noted;
use crate::{Did, Page};
use page_hosts::HostPort;
use page_interp::Machine;
use page_script::SchedulingState;
use page_state::PageState;
use page_tasks::{PrioSource, Priority};
use page_values::{MemoryFault, Value};
use std::alloc::Global;
use std::sync::ledger::Ledger;
use trace_text::{Event, Lines, NoLine};

impl<P: HostPort, L: Lines, M: Ledger> Page<P, L, M> {
    // The task that invokes idle callbacks: the first runnable one is called, and where more remain the task is queued again. It does
    // nothing once the deadline has come.
    pub(crate) fn invoke_idle(&mut self, machine: &mut Machine<'_>) -> Result<Did, NoLine>
        requires { CanCall machine.old self.old }
        ensures { RunsWork L.Lines idle_invoked result machine.old self.old machine.new self.new }
    {
        let Some(r) = self.idle_begun()? else {
            return Ok(Did::Finished);
        };
        let Ok(args) = deadline_given(self.state.alloc(), None) else {
            return Err(self.wanting());
        };
        match self.run_callback(machine, r, args)? {
            Did::Finished => {
                self.idle_again()?;
                Ok(Did::Finished)
            }
            Did::Fuel => Ok(Did::Fuel),
        }
    }

    // The task of an idle timeout: the callback with this handle, where it still waits, is called with a deadline fixed at now.
    pub(crate) fn time_out_idle(
        &mut self,
        machine: &mut Machine<'_>,
        handle: u32,
    ) -> Result<Did, NoLine>
        requires { CanCall machine.old self.old }
        ensures { RunsWork L.Lines (idle_timed_out handle) result machine.old self.old machine.new self.new }
    {
        let now = self.state.now();
        let Some(r) = self.timeout_begun(handle)? else {
            return Ok(Did::Finished);
        };
        let Ok(args) = deadline_given(self.state.alloc(), Some(now.0)) else {
            return Err(self.wanting());
        };
        self.run_callback(machine, r, args)
    }

    // The first runnable idle callback is taken, unless the deadline has come. None exactly where none is taken.
    fn idle_begun(&mut self) -> Result<Option<u32>, NoLine>
        requires { self.old.stopped ≡ None }
        ensures does { Acts L.keeping L.seen idle_begun (result_err result) self.old self.new }
        ensures taken { IfOk result (λ r. r ≡ read_by idle_next self.old.state) }
    {
        let done = idle_begun_in(&mut self.state, &mut self.lines);
        noted(done, &mut self.stopped, &mut self.stops)
    }

    // The idle callback with this handle is taken. None exactly where it does not wait.
    fn timeout_begun(&mut self, handle: u32) -> Result<Option<u32>, NoLine>
        requires { self.old.stopped ≡ None }
        ensures does { Acts L.keeping L.seen (timeout_begun handle) (result_err result) self.old self.new }
        ensures taken { IfOk result (λ r. r ≡ idle_registration handle self.old.state.frames) }
    {
        let done = timeout_begun_in(&mut self.state, handle);
        noted(done, &mut self.stopped, &mut self.stops)
    }

    // The task that invokes idle callbacks is queued again, where one is still runnable.
    fn idle_again(&mut self) -> Result<(), NoLine>
        requires { self.old.stopped ≡ None }
        ensures { Acts L.keeping L.seen model.invoke_idle_again (result_err result) self.old self.new }
    {
        let done = self.state.invoke_idle_again();
        noted(done, &mut self.stopped, &mut self.stops)
    }
}

// The first runnable idle callback is taken, with the line of the deadline that is computed now, and the scheduling state of idle callbacks
// is the current one. Nothing is done once the deadline has come, or where none is runnable.
fn idle_begun_in<P: HostPort, L: Lines, M: Ledger>(
    state: &mut PageState<P, M>,
    lines: &mut L,
) -> Result<Option<u32>, NoLine>
    ensures does { ActsOn L.Lines idle_begun result state.old lines.old state.new lines.new }
    ensures taken { IfOk result (λ r. r ≡ read_by idle_next state.old) }
{
    let deadline = state.idle_deadline();
    if state.now().0 >= deadline.0 {
        return Ok(None);
    }
    let Some(r) = state.pop_idle() else {
        return Ok(None);
    };
    state.emit(Event::Idle { d: deadline }, lines)?;
    state.with_state(background())?;
    Ok(Some(r))
}

// The idle callback with this handle is taken, where it waits, and the scheduling state of idle callbacks is then the current one.
fn timeout_begun_in<P: HostPort, M: Ledger>(
    state: &mut PageState<P, M>,
    handle: u32,
) -> Result<Option<u32>, NoLine>
    ensures begun { OnOk result (state.new ≡ changed_by (timeout_begun handle) state.old) }
    ensures taken { IfOk result (λ r. r ≡ idle_registration handle state.old.frames) }
    ensures memory { IfErr result (λ why. IsWanted why state.old state.new) }
{
    let Some(r) = state.take_idle(handle) else {
        return Ok(None);
    };
    state.with_state(background())?;
    Ok(Some(r))
}

// The scheduling state of idle callbacks.
fn background() -> SchedulingState
    ensures { state_seen result ≡ model.background }
{
    SchedulingState {
        abort_source: None,
        prio_source: PrioSource::Fixed(Priority::Background),
    }
}

// What an idle callback gets: its deadline, that of the period or one that is fixed at a time in microseconds.
fn deadline_given(alloc: Global, fixed: Option<u64>) -> Result<Vec<Value>, MemoryFault>
    ensures { IfOk result (λ args. map seen args.items ≡ DeadlineValue fixed ∷ []) }
{
    let mut args = Vec::new(alloc);
    args.push(Value::Deadline(fixed))?;
    Ok(args)
}
