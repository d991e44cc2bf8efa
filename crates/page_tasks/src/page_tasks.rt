ghost use Rattle.std.specs.Prelude.{[], ◌≡◌, ◌≢◌, ◌+◌, ◌^◌, ◌<◌, ◌≤◌, map, None, Some, IfOk, OnOk, OnErr, IsOk, IfSome, IfNone, if◌then◌else◌, option_map, is_some, not};
ghost use Rattle.std.specs.List.{list_all};
ghost use Rattle.page_tasks.specs.Standing.{AreNew};

use crate::asked::{Asked, asked_of, find_asked, forget, make_room, note};
use crate::page_task::{PageTask, PostedTask, SchedTask, TaskSteps, into_steps};
use crate::tasks::HostTask;
use crate::tickets::{has_ticket, make_place, put_ticket, take_ticket, ticket_of};
use page_base::Source;
use post_task::{PrioSource, Priority, SchedQueues};
use std::alloc::Global;
use std::collections::HashMap;
use std::marker::Model;
use std::sync::ledger::Ledger;
use task_pool::{MemoryFault, Pool, Steps, Ticket};
use task_queues::Queues;

/// All queued tasks of a page in one pool, seen as the fields of the model's page that have them: the tasks of the task sources in the
/// order of their numbers, the scheduler tasks in that of their orders, how many numbers were given out, and the priorities by which
/// scheduler tasks are selected.
///
/// Each call costs at most the logarithm of the number of signals for which room was made, but for the growth of its tables. The
/// tasks of host closures that wait are gone through, of which a page has 64 at most.
#[derive(Drop)]
pub struct PageTasks<L: Ledger> {
    pool: Pool<PageTask>,
    queues: Queues<PageTask>,
    sched: SchedQueues<PageTask>,
    // The scheduler task of each registration that has one.
    tickets: HashMap<u32, Ticket>,
    // The tasks of host closures, in the order of their numbers.
    asked: Vec<Asked>,
    // The last number that was given out.
    made: u64,
    accesses: Steps<L>,
}

impl<L: Ledger> Model for PageTasks<L> {
    ghost use Rattle.std.specs.Prelude.{nat_eq};
    ghost use Rattle.std.specs.HashMap.{get};
    ghost use Rattle.page_tasks.specs.Queued.{Queued, coded_queued};

    ghost Value = { Queued };

    ghost coded = { coded_queued };

    ghost use Rattle.page_tasks.specs.Standing.{seen_in, IsStanding};

    ghost view = { λ tasks. seen_in tasks.pool tasks.queues tasks.sched tasks.made };

    ghost invariant = { λ tasks. IsStanding tasks.pool tasks.queues tasks.sched (get nat_eq tasks.tickets) tasks.asked.items tasks.made };
}

impl<L: Ledger> PageTasks<L> {
    ghost use Rattle.page_types.specs.declared.Source.TheVariants.{Sched, Render};
    ghost use Rattle.page_parts.specs.Sources.{default_list};
    ghost use Rattle.page_parts.specs.Words.{is_empty, is_there};
    ghost use Rattle.page_model.specs.State.{Page};
    ghost use Rattle.page_model.specs.PageSignals.{host_task_of};
    ghost use Rattle.page_model.specs.PageTime.{first_task};
    ghost use Rattle.page_model.specs.SchedulerTasks.{first_sched};
    ghost use Rattle.page_model.specs.View.{first_number, view};
    ghost use Rattle.page_tasks.specs.Seen.{steps_of, sched_task};
    ghost use Rattle.page_tasks.specs.Asking.{IsNetTask};
    ghost use Rattle.page_tasks.specs.Held.{Holds};
    ghost use Rattle.page_tasks.specs.Queued.{IsOf, HasPriority, IsMoved, HasRoomFor, none_queued, with_spare, queued, without_registration, sched_task_for, taken, runnables, Enqueues, number_freed, registration_freed};

    /// No task, and no number given out. At least so many tasks are sure to find room in the pool.
    ///
    /// An error comes only for want of memory.
    pub fn new(alloc: Global, room: usize, accesses: Steps<L>) -> Result<PageTasks<L>, MemoryFault>
        ensures none { IfOk result (λ tasks. tasks ≡ none_queued tasks.spare) }
        ensures room { IfOk result (λ tasks. room ≤ tasks.spare) }
    {
        let mut pool = Pool::new(alloc);
        let (queues, sched) = new_queues(alloc, &mut pool, room)?;
        Ok(PageTasks {
            pool,
            queues,
            sched,
            tickets: HashMap::new(alloc),
            asked: Vec::new(alloc),
            made: 0,
            accesses,
        })
    }

    /// How many numbers were given out. Takes no memory.
    pub fn made(&self) -> u64
        ensures { result ≡ self.now.tasks_made }
    {
        self.made
    }

    /// Queues a task, with the next number (HTML, "Event loops: definitions": queue a task).
    ///
    /// An error comes only for want of memory, and then all is as it was; the pool has memory where `spare` is above 0. So the box
    /// of the steps is the caller's.
    pub fn queue(&mut self, source: Source, steps: Box<TaskSteps>) -> Result<(), MemoryFault>
        requires source { source ≢ Sched }
        requires made { self.old.tasks_made + 1 < 2 ^ 64 }
        ensures queued { OnOk result (self.new ≡ with_spare self.new.spare (queued source (steps_of steps.value) self.old)) }
        ensures spare { self.old.spare ≤ self.new.spare + 1 }
        ensures succeeds { 0 < self.old.spare → host_task_of (steps_of steps.value) ≡ None → IsOk result }
        ensures err { OnErr result (self.new ≡ self.old) }
    {
        let number = self.made + 1;
        let asked = asked_of(number, &steps);
        make_room(&mut self.asked, asked)?;
        let task = PageTask::OfSource(steps);
        let put = self
            .queues
            .queue(&mut self.pool, source, number, task, &mut self.accesses);
        ticket_of(put)?;
        note(&mut self.asked, asked);
        self.made = number;
        Ok(())
    }

    /// Takes the first task of a source with its number, none exactly where there is none. Takes no memory.
    pub fn take(&mut self, source: Source) -> Option<(u64, TaskSteps)>
        requires { source ≢ Sched }
        ensures first { option_map (taken source) result ≡ first_task source self.old.tasks }
        ensures gone { IfSome result (λ given. self.new ≡ number_freed given.0 self.old) }
        ensures none { IfNone result (self.new ≡ self.old) }
    {
        let (number, task) = self
            .queues
            .take(&mut self.pool, source, &mut self.accesses)?;
        forget(&mut self.asked, number);
        Some((number, into_steps(task)))
    }

    /// Enqueues a scheduler task, and gives its order, which is the next number (Prioritized Task Scheduling, "Scheduling tasks and
    /// continuations"). A signal has had room made for its tasks.
    ///
    /// An error comes only for want of memory, and then all is as it was.
    pub fn enqueue(
        &mut self,
        registration: u32,
        source: PrioSource,
        continuation: bool,
    ) -> Result<u64, MemoryFault>
        requires made { self.old.tasks_made + 1 < 2 ^ 64 }
        requires once { sched_task_for registration self.old ≡ None }
        requires room { HasPriority self.old source }
        ensures order { IfOk result (λ order. order ≡ self.new.tasks_made) }
        ensures enqueued { OnOk result (Enqueues registration source continuation self.old self.new) }
        ensures spare { self.old.spare ≤ self.new.spare + 1 }
        ensures err { OnErr result (self.new ≡ self.old) }
    {
        let order = self.made + 1;
        make_place(&mut self.tickets)?;
        let task = PageTask::OfScheduler(PostedTask {
            registration,
            source,
            continuation,
        });
        let put = self.sched.enqueue(
            &mut self.pool,
            source,
            continuation,
            order,
            task,
            &mut self.accesses,
        );
        let ticket = ticket_of(put)?;
        put_ticket(&mut self.tickets, registration, ticket);
        self.made = order;
        Ok(order)
    }

    /// Takes the scheduler task that is next: among those of greatest effective priority now the one of least order, none exactly
    /// where none waits (Prioritized Task Scheduling, "Selecting the Task Queue of the Next Scheduler Task"). Takes no memory.
    pub fn take_sched(&mut self) -> Option<SchedTask>
        ensures first { (p : Page) → IsOf self.old p → option_map sched_task result ≡ first_sched p }
        ensures gone { IfSome result (λ task. self.new ≡ registration_freed task.registration self.old) }
        ensures none { IfNone result (self.new ≡ self.old) }
    {
        let (order, task) = self.sched.take(&mut self.pool, &mut self.accesses)?;
        match task {
            PageTask::OfScheduler(posted) => {
                take_ticket(&mut self.tickets, posted.registration);
                Some(SchedTask {
                    registration: posted.registration,
                    source: posted.source,
                    continuation: posted.continuation,
                    order,
                })
            }
            PageTask::OfSource(_) => unreachable!(),
        }
    }

    /// Whether a registration has a scheduler task that waits. Takes no memory.
    pub fn has_sched(&self, registration: u32) -> bool
        ensures { result ≡ is_there (sched_task_for registration self.now) }
    {
        has_ticket(&self.tickets, registration)
    }

    /// Takes a registration's scheduler task out of its queue, and tells whether there was one. Takes no memory.
    pub fn drop_sched(&mut self, registration: u32) -> bool
        ensures there { result ≡ is_there (sched_task_for registration self.old) }
        ensures gone { self.new ≡ with_spare self.new.spare (without_registration registration self.old) }
        ensures spare { self.new.spare ≡ self.old.spare + (if result then 1 else 0) }
    {
        let Some(ticket) = take_ticket(&mut self.tickets, registration) else {
            return false;
        };
        self.sched
            .remove(&mut self.pool, ticket, &mut self.accesses);
        true
    }

    /// What a host closure is asked by the first task that waits for its answer to a registration. Takes no memory.
    pub fn net_task_of(&self, registration: u32) -> Option<HostTask>
        ensures { (p : Page) → IsOf self.now p → IsNetTask result registration p }
    {
        find_asked(&self.asked, registration)
    }

    /// The number of the first task of each source, of the scheduler's the order of the task that is next, none where a source has no
    /// task. The sources stand in the order user, render, sched, timer, net, dom, idle. Takes no memory.
    pub fn first_numbers(&self) -> [Option<u64>; 7]
        ensures numbers { (p : Page) → IsOf self.now p → result ≡ map (first_number p) default_list }
        ensures runnable { (p : Page) → IsOf self.now p → runnables result ≡ view p }
    {
        let mut numbers = self.queues.heads(&self.pool);
        numbers[2] = self.sched.select(&self.pool);
        numbers
    }

    /// Whether no task is runnable. Takes no memory.
    pub fn is_empty(&self) -> bool
        ensures { (p : Page) → IsOf self.now p → result ≡ is_empty (view p) }
    {
        has_none(&self.first_numbers())
    }

    /// Whether a task of the rendering source waits. Takes no memory.
    pub fn has_render(&self) -> bool
        ensures { result ≡ is_there (first_task Render self.now.tasks) }
    {
        self.queues.heads(&self.pool)[1].is_some()
    }

    /// The pool that the tasks stand in.
    pub fn pool(&self) -> &Pool<PageTask>
        ensures held { Holds result.now self.now }
        ensures spare { result.now.spare ≡ self.now.spare }
    {
        // What stands in it is known by the invariant.
        let _ = &self.queues;
        &self.pool
    }

    /// Makes room for the scheduler tasks of a signal, which have this priority from now on.
    ///
    /// An error comes only for want of memory, and then all is as it was.
    pub fn make_room_for(&mut self, signal: u32, priority: Priority) -> Result<(), MemoryFault>
        ensures room { OnOk result (HasRoomFor signal priority self.old self.new) }
        ensures same { OnOk result (self.new ≡ record self.old { priorities = self.new.priorities }) }
        ensures err { OnErr result (self.new ≡ self.old) }
    {
        self.sched.make_room_for(&mut self.pool, signal, priority)?;
        Ok(())
    }

    /// The scheduler tasks of a signal have this priority from now on, where room was made for them. Takes no memory.
    pub fn set_priority(&mut self, signal: u32, priority: Priority)
        ensures moved { IsMoved signal priority self.old self.new }
        ensures same { self.new ≡ record self.old { priorities = self.new.priorities } }
    {
        self.sched.move_priority(signal, priority);
    }
}

// The queues of the task sources and those of the scheduler, with no task, in a pool that had no
// list. At least so many tasks are sure to find room in the pool.
fn new_queues(
    alloc: Global,
    pool: &mut Pool<PageTask>,
    room: usize,
) -> Result<(Queues<PageTask>, SchedQueues<PageTask>), MemoryFault>
    requires lists { pool.old.lists ≡ [] }
    requires inserts { pool.old.inserts ≡ 0 }
    ensures made { IfOk result (λ made. AreNew pool.new made.0 made.1) }
    ensures room { OnOk result (room ≤ pool.new.spare) }
{
    pool.reserve(room)?;
    let queues = Queues::new(pool)?;
    let sched = SchedQueues::new(alloc, pool)?;
    Ok((queues, sched))
}

// Whether no source has a number.
fn has_none(numbers: &[Option<u64>; 7]) -> bool
    ensures { result ≡ list_all (λ number. not (is_some number)) numbers.now }
{
    numbers.iter().all(|number| number.is_none())
}
