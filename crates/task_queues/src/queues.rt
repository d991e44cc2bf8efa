ghost use Rattle.std.specs.Prelude.{◌≡◌, ◌≢◌, ℕ, ◌+◌, ◌^◌, ◌<◌, ◌≤◌, [], length, map, drop, None, IfOk, IfErr, OnOk, OnErr, OnSome, IfNone, IsOk};
ghost use Rattle.std.specs.Option.{option_map};
ghost use Rattle.page_types.specs.declared.Source.{Source as TaskSource};
ghost use Rattle.page_types.specs.declared.Source.TheVariants.{Sched};
ghost use Rattle.page_parts.specs.Sources.{default_list};
ghost use Rattle.task_pool.specs.Lists.{list_of, entry_at, entry_of, numbered, first_entry};

use page_base::Source;
use std::marker::PhantomData;
use std::sync::ledger::Ledger;
use task_pool::{ListId, MemoryFault, Pool, Steps, Ticket};

/// One list of numbered tasks for each task source other than the scheduler's (HTML, "Event loops: definitions").
///
/// The tasks stand in the pool that was handed to [`Queues::new`].
#[derive(Drop)]
pub struct Queues<T> {
    user: ListId,
    net: ListId,
    dom: ListId,
    timer: ListId,
    render: ListId,
    idle: ListId,
    tasks: PhantomData<T>,
    ghost rising: { (user.0 < net.0) × (net.0 < dom.0) × (dom.0 < timer.0) × (timer.0 < render.0) × (render.0 < idle.0) },
}

impl<T> Queues<T> {
    ghost use Rattle.task_queues.specs.BySource.{tasks_of, list_number, StandIn, IsApart, Queued, AddsTask, head};

    /// Six empty lists, which are new in the pool. Every other list of the pool is as it was, after an error too; then the pool
    /// may have further empty lists, which nothing names.
    pub fn new(pool: &mut Pool<T>) -> Result<Queues<T>, MemoryFault>
        ensures stand { IfOk result (λ queues. StandIn queues pool.new) }
        ensures made { IfOk result (λ queues. (l : ℕ) → l < length pool.old.lists → IsApart queues l) }
        ensures more { length pool.old.lists ≤ length pool.new.lists }
        ensures empty { IfOk result (λ queues. (s : TaskSource) → tasks_of queues pool.new s ≡ []) }
        ensures lists { (l : ℕ) → list_of pool.new l ≡ list_of pool.old l }
        ensures spare { pool.new.spare ≡ pool.old.spare }
        ensures inserts { pool.new.inserts ≡ pool.old.inserts }
    {
        Ok(Queues {
            user: pool.new_list()?,
            net: pool.new_list()?,
            dom: pool.new_list()?,
            timer: pool.new_list()?,
            render: pool.new_list()?,
            idle: pool.new_list()?,
            tasks: PhantomData,
        })
    }

    /// Puts a task at the end of the list of its source. Two accesses at most.
    ///
    /// The item comes back only for want of memory, never where `spare` is above 0, and then all is as it was.
    pub fn queue<L: Ledger>(
        &mut self,
        pool: &mut Pool<T>,
        s: Source,
        number: u64,
        item: T,
        steps: &mut Steps<L>,
    ) -> Result<Ticket, T>
        requires source { s ≢ Sched }
        requires stand { StandIn self.old pool.old }
        requires inserts { pool.old.inserts + 1 < 2 ^ 64 }
        ensures same { self.new ≡ self.old }
        ensures queued { IfOk result (λ ticket. AddsTask self.old pool.old pool.new s (entry_at ticket.0 number item)) }
        ensures others { (l : ℕ) → IsApart self.old l → list_of pool.new l ≡ list_of pool.old l }
        ensures stand { StandIn self.new pool.new }
        ensures count { length pool.new.lists ≡ length pool.old.lists }
        ensures fresh { IfOk result (λ ticket. entry_of pool.old ticket.0 ≡ None) }
        ensures generation { IfOk result (λ ticket. ticket.0.generation ≡ pool.old.inserts) }
        ensures inserts { OnOk result (pool.new.inserts ≡ pool.old.inserts + 1) }
        ensures spare { pool.old.spare ≤ pool.new.spare + 1 }
        ensures succeeds { 0 < pool.old.spare → IsOk result }
        ensures back { IfErr result (λ given. given ≡ item) }
        ensures err { OnErr result (pool.new ≡ pool.old) }
        ensures accesses { steps.new ≤ steps.old + 2 }
    {
        let l = self.list(s);
        pool.push_back(l, number, item, steps)
    }

    /// Takes the first task of a source, none exactly where there is none, and then nothing changes. Three accesses at most.
    /// Takes no memory.
    pub fn take<L: Ledger>(
        &mut self,
        pool: &mut Pool<T>,
        s: Source,
        steps: &mut Steps<L>,
    ) -> Option<(u64, T)>
        requires source { s ≢ Sched }
        requires stand { StandIn self.old pool.old }
        ensures same { self.new ≡ self.old }
        ensures item { result ≡ option_map numbered (first_entry (tasks_of self.old pool.old s)) }
        ensures taken { Queued self.old pool.old pool.new s (drop 1 (tasks_of self.old pool.old s)) }
        ensures others { (l : ℕ) → IsApart self.old l → list_of pool.new l ≡ list_of pool.old l }
        ensures stand { StandIn self.new pool.new }
        ensures count { length pool.new.lists ≡ length pool.old.lists }
        ensures spare { OnSome result (pool.new.spare ≡ pool.old.spare + 1) }
        ensures inserts { pool.new.inserts ≡ pool.old.inserts }
        ensures none { IfNone result (pool.new ≡ pool.old) }
        ensures accesses { steps.new ≤ steps.old + 3 }
    {
        let l = self.list(s);
        pool.pop_front(l, steps)
    }

    /// The number of the first task of each source, none where it has no task and at the scheduler's place. The sources stand
    /// in the order user, render, sched, timer, net, dom, idle. Takes no memory.
    pub fn heads(&self, pool: &Pool<T>) -> [Option<u64>; 7]
        requires { StandIn self.now pool.now }
        ensures { result ≡ map (head self.now pool.now) default_list }
    {
        [
            pool.front(self.user),
            pool.front(self.render),
            None,
            pool.front(self.timer),
            pool.front(self.net),
            pool.front(self.dom),
            pool.front(self.idle),
        ]
    }

    // The list of a source that is not the scheduler's.
    fn list(&self, s: Source) -> ListId
        requires { s ≢ Sched }
        ensures { result.0 ≡ list_number self.now s }
    {
        match s {
            Source::User => self.user,
            Source::Net => self.net,
            Source::Dom => self.dom,
            Source::Timer => self.timer,
            Source::Render => self.render,
            Source::Idle => self.idle,
            Source::Sched => unreachable!(),
        }
    }
}
