//! How the first task of a source is performed (HTML, "Event loops: processing model").

ghost use Rattle.std.specs.Prelude.{◌≡◌, ◌≢◌, ◌≤◌, None, IfNone, IfOk, IfSome};
ghost use Rattle.std.specs.Option.{option_map};
ghost use Rattle.page_types.specs.declared.Source.TheVariants.{Sched};
ghost use Rattle.page_tasks.specs.Queued.{taken};
ghost use Rattle.page_tasks.specs.Seen.{host_task, sched_task, steps_of};
ghost use Rattle.page_model.specs.PageSignals as asks;
ghost use Rattle.page_model.specs.State as steps;
ghost use Rattle.page_model.specs.PageTime.{first_task};
ghost use Rattle.page_model.specs.SchedulerTasks.{first_sched, without_sched};
ghost use Rattle.page_model.specs.Tasks as model;
ghost use Rattle.page_model.specs.Turns.{without_task};
ghost use Rattle.page_state.specs.PageActs.{read_by};
ghost use Rattle.page_host.specs.Moments.{CanCall};
ghost use Rattle.page_host.specs.Doing.{Acts, IfFinished, IsDried};
ghost use Rattle.page_host.specs.Stops.{stop_result};
ghost use Rattle.page_host.specs.Tasking.{no_task};
ghost use Rattle.page_host.specs.Performing.{CanPerform, stopped_by, page_changed};
ghost use Rattle.page_host.specs.StepsOfTasks.{next_sched_performed, signal_timed_out, steps_done};
ghost use Rattle.page_host.specs.Running.{PerformsFirst, PerformsSteps, PerformsTask, RunsWork};

use crate::stop::stop_for;
use crate::{Did, Page, PageStop};
use page_base::Source;
use page_hosts::HostPort;
use page_interp::Machine;
use page_tasks::{HostTask, SchedTask, TaskSteps};
use page_values::{FaultName, fault};
use std::sync::ledger::Ledger;
use trace_text::{Lines, NoLine};

impl<P: HostPort, L: Lines, M: Ledger> Page<P, L, M> {
    /// Performs the first task of a source: it leaves its queue and is done, then no task is current, and a microtask checkpoint is
    /// performed. Where the source has no task, that is all.
    ///
    /// The task of a host answer asks the host port, unless its closure was dropped. `NoHost` comes exactly where the port refused: then
    /// the closures are as they were and no line was given. `Fuel` comes only where no unit of fuel is left.
    ///
    /// It costs what the callbacks, the jobs and their lines cost.
    pub fn perform(&mut self, machine: &mut Machine<'_>, source: Source) -> Result<Did, PageStop>
        requires { CanPerform machine.old self.old }
        ensures performs { PerformsTask L.Lines source result machine.old self.old machine.new self.new }
        ensures ready { IfFinished result (CanCall machine.new self.new) }
        ensures program { machine.new.script ≡ machine.old.script }
        ensures fuel { self.new.fuel ≤ self.old.fuel }
        ensures dry { IfOk result (λ did. IsDried did self.new.fuel) }
        ensures stop { self.new.stopped ≡ stopped_by result }
    {
        // That so much fuel is left at most is known by the invariant.
        let _ = &self.state;
        match self.perform_first(machine, source)? {
            Did::Finished => or_page_stop(self.after_task(machine)),
            Did::Fuel => Ok(Did::Fuel),
        }
    }

    // The first task of a source leaves its queue and is done.
    fn perform_first(&mut self, machine: &mut Machine<'_>, source: Source) -> Result<Did, PageStop>
        requires { CanCall machine.old self.old }
        ensures { PerformsFirst L.Lines source result machine.old self.old machine.new self.new }
    {
        if source == Source::Sched {
            return or_page_stop(self.perform_next_sched(machine));
        }
        let Some((_, steps)) = self.take_task(source) else {
            return Ok(Did::Finished);
        };
        self.perform_task(machine, steps)
    }

    // The scheduler task that is next leaves its queue and is done.
    fn perform_next_sched(&mut self, machine: &mut Machine<'_>) -> Result<Did, NoLine>
        requires { CanCall machine.old self.old }
        ensures { RunsWork L.Lines next_sched_performed result machine.old self.old machine.new self.new }
    {
        let Some(task) = self.take_sched() else {
            return Ok(Did::Finished);
        };
        self.perform_sched(machine, task)
    }

    // A task of another source is done, which has left its queue.
    fn perform_task(&mut self, machine: &mut Machine<'_>, steps: TaskSteps) -> Result<Did, PageStop>
        requires { CanCall machine.old self.old }
        ensures { PerformsSteps L.Lines (steps_of steps) result machine.old self.old machine.new self.new }
    {
        match host_task_of(&steps) {
            Some(task) => self.answer_host(task),
            None => or_page_stop(self.run_steps(machine, steps)),
        }
    }

    // The steps of a task that asks no host closure.
    fn run_steps(&mut self, machine: &mut Machine<'_>, steps: TaskSteps) -> Result<Did, NoLine>
        requires { CanCall machine.old self.old }
        ensures { RunsWork L.Lines (steps_done (steps_of steps)) result machine.old self.old machine.new self.new }
    {
        match steps {
            TaskSteps::RunScript => self.run_script(machine),
            TaskSteps::RunTimer(task) => self.run_timer(machine, task),
            TaskSteps::TimeOutSignal(s) => self.time_out_signal(machine, s),
            TaskSteps::FireAtWindow(event) => self.fire_at_window(machine, Box::into_inner(event)),
            TaskSteps::AnswerHost(_) => Ok(Did::Finished),
            TaskSteps::RunFrame(time) => self.run_frame(machine, time),
            TaskSteps::InvokeIdle => self.invoke_idle(machine),
            TaskSteps::IdleTimeout(handle) => self.time_out_idle(machine, handle),
            TaskSteps::NotifyRejected(promises) => self.notify_rejected(machine, promises),
            TaskSteps::NotifyHandled(p) => self.notify_handled(machine, p),
        }
    }

    // The script's own body runs, which is the first registration.
    fn run_script(&mut self, machine: &mut Machine<'_>) -> Result<Did, NoLine>
        requires { CanCall machine.old self.old }
        ensures { RunsWork L.Lines (steps_done steps.RunScript) result machine.old self.old machine.new self.new }
    {
        let none = Vec::new(self.state.alloc());
        self.run_callback(machine, 1, none)
    }

    // A signal is aborted by its timeout.
    fn time_out_signal(&mut self, machine: &mut Machine<'_>, s: u32) -> Result<Did, NoLine>
        requires { CanCall machine.old self.old }
        ensures { RunsWork L.Lines (signal_timed_out s) result machine.old self.old machine.new self.new }
    {
        let reason = fault(self.state.alloc(), FaultName::TimeoutError);
        self.abort_in_task(machine, s, reason)
    }

    // No task is current, and a microtask checkpoint is performed.
    fn after_task(&mut self, machine: &mut Machine<'_>) -> Result<Did, NoLine>
        requires { CanCall machine.old self.old }
        ensures { RunsWork L.Lines model.after_task result machine.old self.old machine.new self.new }
    {
        self.no_task();
        self.perform_checkpoint(machine)
    }

    // No task is current.
    fn no_task(&mut self)
        requires { self.old.stopped ≡ None }
        ensures { Acts L.keeping L.seen no_task None self.old self.new }
    {
        self.state.under(0, None);
    }

    // The first task of a source leaves its queue, with its number. None exactly where there is none.
    fn take_task(&mut self, source: Source) -> Option<(u64, TaskSteps)>
        requires running { self.old.stopped ≡ None }
        requires source { source ≢ Sched }
        ensures first { option_map (taken source) result ≡ read_by (λ p. first_task source p.tasks) self.old.state }
        ensures gone { IfSome result (λ given. self.new ≡ page_changed (without_task given.0) self.old) }
        ensures none { IfNone result (self.new ≡ self.old) }
    {
        self.state.take_task(source)
    }

    // The scheduler task that is next leaves its queue. None exactly where none waits.
    fn take_sched(&mut self) -> Option<SchedTask>
        requires { self.old.stopped ≡ None }
        ensures first { option_map sched_task result ≡ read_by first_sched self.old.state }
        ensures gone { IfSome result (λ task. self.new ≡ page_changed (without_sched task.registration) self.old) }
        ensures none { IfNone result (self.new ≡ self.old) }
    {
        self.state.take_sched()
    }
}

// What a task asks of a host closure. Takes no memory.
fn host_task_of(steps: &TaskSteps) -> Option<HostTask>
    ensures { option_map host_task result ≡ asks.host_task_of (steps_of steps.now) }
{
    match steps {
        TaskSteps::AnswerHost(task) => Some(*task),
        _ => None,
    }
}

// What a call of a page answers, by how the page's own work ended.
fn or_page_stop(done: Result<Did, NoLine>) -> Result<Did, PageStop>
    ensures { result ≡ stop_result done }
{
    match done {
        Ok(did) => Ok(did),
        Err(why) => Err(stop_for(why)),
    }
}
