//! The tasks of the scheduler (Prioritized Task Scheduling, "Scheduling Tasks and Continuations").

ghost use Rattle.std.specs.Prelude.{◌≡◌, false, None};
ghost use Rattle.std.specs.Result.{result_err};
ghost use Rattle.promise_core.specs.Seen.{settled_seen};
ghost use Rattle.page_tasks.specs.Seen.{sched_task};
ghost use Rattle.page_model.specs.State.{the_registration};
ghost use Rattle.page_model.specs.Tasks as model;
ghost use Rattle.page_state.specs.PageActs.{read_by};
ghost use Rattle.page_host.specs.Moments.{CanCall};
ghost use Rattle.page_host.specs.Doing.{Acts};
ghost use Rattle.page_host.specs.Tasking.{post_over};
ghost use Rattle.page_host.specs.StepsOfTasks.{post_settled, sched_performed};
ghost use Rattle.page_host.specs.Running.{ActsOn, RunsWork};

use crate::pieces::noted;
use crate::{Did, Page};
use page_hosts::HostPort;
use page_interp::{Machine, Ran};
use page_script::{SchedulingState, Settled};
use page_state::PageState;
use page_tasks::SchedTask;
use page_values::Value;
use std::sync::ledger::Ledger;
use trace_text::{Lines, NoLine};

impl<P: HostPort, L: Lines, M: Ledger> Page<P, L, M> {
    // A scheduler task: a continuation, which runs no script, or a posted callback.
    pub(crate) fn perform_sched(
        &mut self,
        machine: &mut Machine<'_>,
        task: SchedTask,
    ) -> Result<Did, NoLine>
        requires { CanCall machine.old self.old }
        ensures { RunsWork L.Lines (sched_performed task) result machine.old self.old machine.new self.new }
    {
        if task.continuation {
            self.continued(task.registration)?;
            return Ok(Did::Finished);
        }
        self.run_post(machine, task)
    }

    // A posted callback is called with its scheduling state, and then its promise is settled by what it gave or threw.
    fn run_post(&mut self, machine: &mut Machine<'_>, task: SchedTask) -> Result<Did, NoLine>
        requires ready { CanCall machine.old self.old }
        requires posted { task.continuation ≡ false }
        ensures { RunsWork L.Lines (sched_performed task) result machine.old self.old machine.new self.new }
    {
        let r = task.registration;
        let promise = promise_of(&self.state, r);
        self.post_begun(task)?;
        let none = Vec::new(self.state.alloc());
        match self.invoke_in_task(machine, r, false, none)? {
            Ran::Value(value) => {
                self.post_over(r, promise, Ok(value))?;
                Ok(Did::Finished)
            }
            Ran::Throw(reason) => {
                self.post_over(r, promise, Err(reason))?;
                Ok(Did::Finished)
            }
            Ran::Fuel => Ok(Did::Fuel),
        }
    }

    // A continuation resolves its promise, between the lines of its call.
    fn continued(&mut self, r: u32) -> Result<(), NoLine>
        requires { self.old.stopped ≡ None }
        ensures { Acts L.keeping L.seen (model.continued r) (result_err result) self.old self.new }
    {
        let done = continued_in(&mut self.state, r, &mut self.lines);
        noted(done, &mut self.stopped, &mut self.stops)
    }

    // The scheduling state of a posted callback is the current one: the signal of its registration, and its priority source.
    fn post_begun(&mut self, task: SchedTask) -> Result<(), NoLine>
        requires { self.old.stopped ≡ None }
        ensures { Acts L.keeping L.seen (model.post_state (sched_task task)) (result_err result) self.old self.new }
    {
        let state = SchedulingState {
            abort_source: signal_of(&self.state, task.registration),
            prio_source: task.source,
        };
        let done = self.state.with_state(state);
        noted(done, &mut self.stopped, &mut self.stops)
    }

    // The promise of a posted callback is settled, and its abort steps are taken off its signal.
    fn post_over(&mut self, r: u32, promise: u32, how: Settled) -> Result<(), NoLine>
        requires { self.old.stopped ≡ None }
        ensures { Acts L.keeping L.seen (post_over r promise (settled_seen how)) (result_err result) self.old self.new }
    {
        let done = post_over_in(&mut self.state, r, promise, how, &mut self.lines);
        noted(done, &mut self.stopped, &mut self.stops)
    }
}

// The steps of a continuation.
fn continued_in<P: HostPort, L: Lines, M: Ledger>(
    state: &mut PageState<P, M>,
    r: u32,
    lines: &mut L,
) -> Result<(), NoLine>
    ensures { ActsOn L.Lines (model.continued r) result state.old lines.old state.new lines.new }
{
    let promise = promise_of(state, r);
    state.call_begun(r, lines)?;
    state.settle(promise, Ok(Value::Unit), lines)?;
    state.returned(lines)?;
    state.unwatch(r);
    Ok(())
}

// The end of a posted callback, by what it gave or threw.
fn post_over_in<P: HostPort, L: Lines, M: Ledger>(
    state: &mut PageState<P, M>,
    r: u32,
    promise: u32,
    how: Settled,
    lines: &mut L,
) -> Result<(), NoLine>
    ensures { ActsOn L.Lines (post_settled r promise how) result state.old lines.old state.new lines.new }
{
    state.settle(promise, how, lines)?;
    state.unwatch(r);
    Ok(())
}

// The promise of a registration, 0 where it was never made. Takes no memory.
pub(crate) fn promise_of<P: HostPort, M: Ledger>(state: &PageState<P, M>, r: u32) -> u32
    ensures { result ≡ read_by (λ p. (the_registration p r).promise) state.now }
{
    match state.the_registration(r) {
        Some(registration) => registration.promise,
        None => 0,
    }
}

// The signal that can abort a registration, where there is one. Takes no memory.
fn signal_of<P: HostPort, M: Ledger>(state: &PageState<P, M>, r: u32) -> Option<u32>
    ensures { result ≡ read_by (λ p. (the_registration p r).signal) state.now }
{
    match state.the_registration(r) {
        Some(registration) => registration.signal,
        None => None,
    }
}
