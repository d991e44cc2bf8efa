//! The task of a host answer: a host closure that the script asked gives its answer. Ours: host closures.

ghost use Rattle.std.specs.Prelude.{◌≡◌, None, is_some, slice_get, IfOk, IsTrue, OnErr, OnOk};
ghost use Rattle.std.specs.Result.{result_err};
ghost use Rattle.promise_core.specs.Seen.{settled_seen};
ghost use Rattle.host_jobs.specs.Closures.{meets_at};
ghost use Rattle.host_jobs.specs.KeptAnswers.{FollowsKept};
ghost use Rattle.page_hosts.specs.Hosts.{IsUnfired};
ghost use Rattle.page_tasks.specs.Seen.{host_task};
ghost use Rattle.page_interp.specs.MachineNow.{MachineNow};
ghost use Rattle.page_model.specs.Operations.{fitting};
ghost use Rattle.page_model.specs.Turns.{not_dropped};
ghost use Rattle.page_host.specs.Moments.{CanCall};
ghost use Rattle.page_host.specs.Doing.{Acts};
ghost use Rattle.page_host.specs.Tasking.{answer_settles, answer_told};
ghost use Rattle.page_host.specs.Performing.{IsFired, RefusedByPort};
ghost use Rattle.page_host.specs.Running.{ActsOn, AnswersHost};

use crate::pieces::noted;
use crate::sched_tasks::promise_of;
use crate::stop::stop_for;
use crate::{Did, Page, PageStop};
use page_hosts::{HostPort, NoHost};
use page_script::Settled;
use page_state::PageState;
use page_tasks::HostTask;
use page_values::Value;
use std::sync::ledger::Ledger;
use trace_text::{Event, Lines, NoLine};

impl<P: HostPort, L: Lines, M: Ledger> Page<P, L, M> {
    // The task of a host answer: the port is asked, the closure is fired, and its promise is settled with the answer, behind its line.
    // Nothing is done where the closure was dropped. No script runs, so it says what it does by any machine.
    //
    // Want of memory is told also where the closure was not asked or does not take the number, which no run comes to.
    pub(crate) fn answer_host(&mut self, task: HostTask) -> Result<Did, PageStop>
        requires { self.old.stopped ≡ None }
        ensures { (m : MachineNow) → CanCall m self.old → AnswersHost L.Lines task result m self.old self.new }
    {
        if !can_answer(&self.state, task) {
            return Err(stop_for(self.wanting()));
        }
        if self.state.is_dropped(task.closure) {
            return Ok(Did::Finished);
        }
        let Ok(answer) = self.ask_port(task.closure, task.number) else {
            return Err(PageStop::NoHost);
        };
        match self.answer_told(task, answer) {
            Ok(()) => Ok(Did::Finished),
            Err(why) => Err(stop_for(why)),
        }
    }

    // The answer of the port for a closure, which is fired then. Where the port refuses, the page stops.
    fn ask_port(&mut self, k: u32, x: i64) -> Result<Result<i64, i64>, NoHost>
        requires running { self.old.stopped ≡ None }
        requires unfired { IsUnfired self.old.state.hosts k }
        requires undropped { IsTrue (is_some (not_dropped (slice_get self.old.state.hosts k))) }
        requires fits { IsTrue (is_some (fitting (slice_get self.old.state.hosts k) x)) }
        ensures met { IfOk result (λ answer. IsTrue (meets_at self.old.state.hosts k x answer)) }
        ensures kept { FollowsKept (meets_at self.old.state.hosts k x) self.old.state.kept result self.new.state.kept }
        ensures fired { OnOk result (IsFired k self.old self.new) }
        ensures refused { OnErr result (RefusedByPort self.old self.new) }
    {
        match self.state.fire(k, x) {
            Ok(answer) => Ok(answer),
            Err(refused) => {
                let _ = self.wanting();
                Err(refused)
            }
        }
    }

    // The line of an answer, and the promise is settled with it.
    fn answer_told(&mut self, task: HostTask, answer: Result<i64, i64>) -> Result<(), NoLine>
        requires { self.old.stopped ≡ None }
        ensures { Acts L.keeping L.seen (answer_told (host_task task) answer) (result_err result) self.old self.new }
    {
        let done = answer_told_in(&mut self.state, task, answer, &mut self.lines);
        noted(done, &mut self.stopped, &mut self.stops)
    }
}

// Whether the closure of a task was asked, and so was not fired, and takes the task's number. Takes no memory.
fn can_answer<P: HostPort, M: Ledger>(state: &PageState<P, M>, task: HostTask) -> bool
    ensures unfired { IsTrue result → IsUnfired state.now.hosts task.closure }
    ensures fits { IsTrue result → IsTrue (is_some (fitting (slice_get state.now.hosts task.closure) task.number)) }
{
    state.is_asked(task.closure) && state.takes(i64::from(task.closure), task.number)
}

// The line of an answer, its promise settled, and its abort steps taken off the signal.
fn answer_told_in<P: HostPort, L: Lines, M: Ledger>(
    state: &mut PageState<P, M>,
    task: HostTask,
    answer: Result<i64, i64>,
    lines: &mut L,
) -> Result<(), NoLine>
    ensures { ActsOn L.Lines (answer_told (host_task task) answer) result state.old lines.old state.new lines.new }
{
    let promise = promise_of(state, task.registration);
    let line = Event::Host {
        k: task.closure as u64,
        x: task.number,
        answer,
    };
    state.emit(line, lines)?;
    state.settle(promise, settled_by(answer), lines)?;
    state.unwatch(task.registration);
    Ok(())
}

// How a promise is settled with an answer. Takes no memory.
fn settled_by(answer: Result<i64, i64>) -> Settled
    ensures { settled_seen result ≡ answer_settles answer }
{
    match answer {
        Ok(number) => Ok(Value::Int(number)),
        Err(number) => Err(Value::Int(number)),
    }
}
