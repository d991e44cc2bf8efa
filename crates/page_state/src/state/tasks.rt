//! Queued tasks of the task sources and of the scheduler (HTML, "Event loops: definitions"; Prioritized Task Scheduling, "Scheduling
//! Tasks and Continuations").
ghost use Rattle.std.specs.Prelude.{◌≡◌, ◌≢◌, ◌≤◌, ℕ, suc, map, IfErr, IfNone, IfOk, IfSome, OnOk, option_map};
ghost use Rattle.page_types.specs.declared.Source.TheVariants.{Sched};
ghost use Rattle.page_parts.specs.Sources.{default_list};
ghost use Rattle.page_parts.specs.TaskSignals.{priority_of};
ghost use Rattle.page_parts.specs.Words.{is_empty};
ghost use Rattle.page_model.specs.PageTime.{first_task};
ghost use Rattle.page_model.specs.SchedulerTasks as model;
ghost use Rattle.page_model.specs.Turns.{without_task};
ghost use Rattle.page_model.specs.View.{first_number, view as view_of};
ghost use Rattle.post_task.specs.declared.level.PrioSource.TheVariants.{Signal};
ghost use Rattle.page_tasks.specs.Queued.{runnables, taken};
ghost use Rattle.page_tasks.specs.Seen.{prio_source, sched_task};
ghost use Rattle.trace_text.specs.EventSeen.{queue_seen};
ghost use Rattle.page_state.specs.PageActs.{changed_by, read_by, IsWanted};
ghost use Rattle.page_state.specs.Makes.{EnqueuesTask};
ghost use Rattle.page_state.specs.Pooled.{HoldsTasks, spare_of};
ghost use Rattle.page_state.specs.Selecting.{sched_put as added};

use super::PageState;
use crate::scheduling::make_room;
use page_base::Source;
use page_hosts::HostPort;
use page_tasks::{PageTask, Pool, PrioSource, Priority, SchedTask, TaskSteps};
use std::sync::ledger::Ledger;
use trace_text::{Event, Lines, NoLine, QueueName};

impl<P: HostPort, M: Ledger> PageState<P, M> {
    /// Takes the first task of a source with its number, none exactly where there is none. Takes no memory.
    pub fn take_task(&mut self, source: Source) -> Option<(u64, TaskSteps)>
        requires { source ≢ Sched }
        ensures first { option_map (taken source) result ≡ read_by (λ p. first_task source p.tasks) self.old }
        ensures gone { IfSome result (λ given. self.new ≡ changed_by (without_task given.0) self.old) }
        ensures none { IfNone result (self.new ≡ self.old) }
    {
        self.tasks.take(source)
    }

    /// Takes the scheduler task that is next, none exactly where none waits. Takes no memory.
    pub fn take_sched(&mut self) -> Option<SchedTask>
        ensures first { option_map sched_task result ≡ read_by model.first_sched self.old }
        ensures gone { IfSome result (λ task. self.new ≡ changed_by (model.without_sched task.registration) self.old) }
        ensures none { IfNone result (self.new ≡ self.old) }
    {
        self.tasks.take_sched()
    }

    /// A registration's scheduler task leaves its queue, where it has one. Takes no memory.
    pub fn without_sched(&mut self, registration: u32)
        ensures { self.new ≡ changed_by (model.without_sched registration) self.old }
    {
        let _ = self.tasks.drop_sched(registration);
    }

    /// Enqueues a scheduler task, with its line; a signal has its priority at each moment.
    ///
    /// Want of memory is told also where no number is left, where the registration has a scheduler task, or where the signal has no
    /// priority.
    pub fn enqueue<L: Lines>(
        &mut self,
        registration: u32,
        source: PrioSource,
        continuation: bool,
        lines: &mut L,
    ) -> Result<(), NoLine>
        ensures { EnqueuesTask L.Lines self.old lines.old registration source continuation result self.new lines.new }
    {
        let n = self.put_sched(registration, source, continuation)?;
        self.emit(
            Event::Enq {
                r: registration as u64,
                queue: queue_name(source),
                cont: continuation,
                n,
            },
            lines,
        )
    }

    /// The number of the first task of each source, of the scheduler's the order of the task that is next, none where a source has no
    /// task. The sources stand in the order user, render, sched, timer, net, dom, idle. Takes no memory.
    pub fn first_numbers(&self) -> [Option<u64>; 7]
        ensures numbers { result ≡ read_by (λ p. map (first_number p) default_list) self.now }
        ensures runnable { runnables result ≡ read_by view_of self.now }
    {
        self.tasks.first_numbers()
    }

    /// Whether no task is runnable. Takes no memory.
    pub fn has_no_task(&self) -> bool
        ensures { result ≡ read_by (λ p. is_empty (view_of p)) self.now }
    {
        self.tasks.is_empty()
    }

    /// The pool that the tasks stand in. Takes no memory.
    pub fn pool(&self) -> &Pool<PageTask>
        ensures held { HoldsTasks result.now self.now.tasks }
        ensures spare { spare_of self.now ≤ result.now.spare }
    {
        self.tasks.pool()
    }

    // Enqueues a scheduler task without its line, and gives its order.
    fn put_sched(
        &mut self,
        registration: u32,
        source: PrioSource,
        continuation: bool,
    ) -> Result<u64, NoLine>
        ensures order { IfOk result (λ n. n ≡ suc self.old.tasks.tasks_made) }
        ensures put { OnOk result (self.new ≡ changed_by (added registration (prio_source source) continuation) self.old) }
        ensures memory { IfErr result (λ why. IsWanted why self.old self.new) }
    {
        if self.tasks.made() == u64::MAX || self.tasks.has_sched(registration) {
            return Err(NoLine::OutOfMemory);
        }
        let priority = self.source_priority(source);
        make_room(&mut self.tasks, source, priority)?;
        match self.tasks.enqueue(registration, source, continuation) {
            Ok(n) => Ok(n),
            Err(_) => Err(NoLine::OutOfMemory),
        }
    }

    // The priority that the signal of a source has now. Takes no memory.
    fn source_priority(&self, source: PrioSource) -> Option<Priority>
        ensures { (s : ℕ) → source ≡ Signal s → result ≡ read_by (λ p. priority_of p.prios s) self.now }
    {
        match source {
            PrioSource::Signal(s) => self.signals.priority(s),
            PrioSource::Fixed(_) => None,
        }
    }
}

// The queue of a priority source, in its line.
fn queue_name(source: PrioSource) -> QueueName
    ensures { queue_seen result ≡ model.queue_name (prio_source source) }
{
    match source {
        PrioSource::Fixed(priority) => QueueName::Fixed(priority),
        PrioSource::Signal(s) => QueueName::Signal(s as u64),
    }
}
