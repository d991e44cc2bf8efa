ghost use Rattle.std.specs.Prelude.{◌≡◌, ◌≢◌, ℕ, ◌+◌, ◌^◌, ◌<◌, ◌≤◌, [], ◌∷◌, ◌++◌, map, length, None, Some, IfOk, IfErr, OnOk, OnErr, OnSome, IfNone, IsOk};
ghost use Rattle.std.specs.List.{filter, find};
ghost use Rattle.std.specs.Option.{option_map};
ghost use Rattle.task_pool.specs.Lists.{Lists, list_of, entry_of, without};
ghost use Rattle.post_task.specs.Waiting.{Waiting, Among, IsSelected, ordered, has_cell, lacks_cell, moved, HasFirstOrder};
ghost use Rattle.post_task.specs.Levels.{all_queues, Lone, waiting, priority_in, place_of, HasRoom, Kept, AreKept, StandsNext, SameBut, ReadsAgain, Enqueues, IsTaken, moved_level, Added, IsNew, ListsRise, IsLone};

use crate::PrioSource;
use crate::heads::{place_of_list, read_first};
use crate::level::{Level, rank};
use crate::signals::{forget_place, note_place};
use crate::tournament::Tournament;
use std::alloc::Global;
use std::collections::BTreeMap;
use std::marker::{Model, PhantomData};
use std::sync::ledger::Ledger;
use task_pool::{ListId, MemoryFault, Pool, Steps, Ticket, Unlinked};
use task_signal::Priority;

/// The queues of scheduler tasks, seen as the priority sources with two lists each, one of them for continuations, and the first
/// task of each source.
///
/// The tasks stand in the pool that was handed to [`SchedQueues::new`]. Each call costs at most the logarithm of the number of
/// sources, however many tasks wait, but for the growth of its vectors where room is made.
#[derive(Drop)]
pub struct SchedQueues<T> {
    levels: Vec<Level>,
    // Where the lists of a signal are.
    signals: BTreeMap<u32, usize>,
    heads: Tournament,
    tasks: PhantomData<T>,
}

impl<T> Model for SchedQueues<T> {
    ghost use Rattle.std.specs.Prelude.{◌≡◌, length};
    ghost use Rattle.post_task.specs.Levels.{Sched, ArePlaced};

    ghost Value = { Sched };

    ghost view = { λ queues. record { levels = queues.levels.items; heads = queues.heads } };

    ghost invariant = { λ queues. (length queues.heads ≡ length queues.levels.items) × ArePlaced queues.levels.items queues.signals };
}

impl<T> SchedQueues<T> {
    /// The lists of the three fixed priorities, all empty and new in the pool. Every other list of the pool is as it was, after an
    /// error too; then the pool may have further empty lists, which nothing names.
    pub fn new(alloc: Global, pool: &mut Pool<T>) -> Result<SchedQueues<T>, MemoryFault>
        ensures kept { IfOk result (λ queues. Kept queues pool.new) }
        ensures empty { IfOk result (λ queues. waiting queues.levels pool.new ≡ []) }
        ensures made { IfOk result (λ queues. (l : ℕ) → l < length pool.old.lists → Lone l (all_queues queues.levels)) }
        ensures signals { IfOk result (λ queues. (s : ℕ) → priority_in queues.levels (PrioSource.Signal s) ≡ None) }
        ensures more { length pool.old.lists ≤ length pool.new.lists }
        ensures lists { (l : ℕ) → list_of pool.new l ≡ list_of pool.old l }
        ensures spare { pool.new.spare ≡ pool.old.spare }
        ensures inserts { pool.new.inserts ≡ pool.old.inserts }
    {
        let mut queues = SchedQueues {
            levels: Vec::new(alloc),
            signals: BTreeMap::new(alloc),
            heads: Tournament::new(alloc),
            tasks: PhantomData,
        };
        queues.add_fixed(pool)?;
        Ok(queues)
    }

    /// Makes the two lists of a signal that has this priority, which are new in the pool; where it has them already, this is its
    /// priority from now on.
    ///
    /// An error leaves the queues as they were. Every other list of the pool is as it was, after an error too; then the pool
    /// may have further empty lists, which nothing names.
    pub fn make_room_for(
        &mut self,
        pool: &mut Pool<T>,
        s: u32,
        p: Priority,
    ) -> Result<(), MemoryFault>
        requires { Kept self.old pool.old }
        ensures kept { Kept self.new pool.new }
        ensures room { OnOk result (priority_in self.new.levels (PrioSource.Signal s) ≡ Some p) }
        ensures sources { OnOk result (SameBut (PrioSource.Signal s) self.old.levels self.new.levels) }
        ensures waiting { OnOk result (waiting self.new.levels pool.new ≡ map (moved s p) (waiting self.old.levels pool.old)) }
        ensures err { OnErr result (self.new ≡ self.old) }
        ensures made { (l : ℕ) → l < length pool.old.lists → IsLone l self.old.levels → IsLone l self.new.levels }
        ensures stay { (l : ℕ) → Lone l (all_queues self.new.levels) → Lone l (all_queues self.old.levels) }
        ensures more { length pool.old.lists ≤ length pool.new.lists }
        ensures waiting_still { OnErr result (waiting self.new.levels pool.new ≡ waiting self.old.levels pool.old) }
        ensures lists { (l : ℕ) → list_of pool.new l ≡ list_of pool.old l }
        ensures spare { pool.new.spare ≡ pool.old.spare }
        ensures inserts { pool.new.inserts ≡ pool.old.inserts }
    {
        if self.place_of_signal(s).is_some() {
            self.move_priority(s, p);
            return Ok(());
        }
        self.add(pool, PrioSource::Signal(s), p)?;
        Ok(())
    }

    /// Puts a task at the end of the list of its source, under its order, which is greater than that of every task that waits. Every
    /// other list of the pool is as it was. Two accesses at most.
    ///
    /// The item comes back only for want of memory, never where `spare` is above 0, and then all is as it was.
    pub fn enqueue<L: Ledger>(
        &mut self,
        pool: &mut Pool<T>,
        source: PrioSource,
        continuation: bool,
        order: u64,
        item: T,
        steps: &mut Steps<L>,
    ) -> Result<Ticket, T>
        requires kept { Kept self.old pool.old }
        requires room { HasRoom self.old.levels source }
        requires later { (task : Waiting T) → Among task (waiting self.old.levels pool.old) → task.order < order }
        requires inserts { pool.old.inserts + 1 < 2 ^ 64 }
        ensures same { self.new.levels ≡ self.old.levels }
        ensures kept { Kept self.new pool.new }
        ensures waits { Enqueues result source continuation order item self.old pool.old self.new pool.new }
        ensures others { (l : ℕ) → Lone l (all_queues self.old.levels) → list_of pool.new l ≡ list_of pool.old l }
        ensures count { length pool.new.lists ≡ length pool.old.lists }
        ensures fresh { IfOk result (λ ticket. entry_of pool.old ticket.0 ≡ None) }
        ensures generation { IfOk result (λ ticket. ticket.0.generation ≡ pool.old.inserts) }
        ensures inserts { OnOk result (pool.new.inserts ≡ pool.old.inserts + 1) }
        ensures spare { pool.old.spare ≤ pool.new.spare + 1 }
        ensures succeeds { 0 < pool.old.spare → IsOk result }
        ensures back { IfErr result (λ given. given ≡ item) }
        ensures err { OnErr result (pool.new ≡ pool.old) }
        ensures accesses { steps.new ≤ steps.old + 2 }
    {
        let place = self.place(source).unwrap();
        let level = self.levels[place];
        let put = pool.push_back(level.list(continuation), order, item, steps);
        self.heads.set(place, read_first(pool, level));
        put
    }

    /// The order of the task of least order among those of greatest effective priority now, none exactly where no task waits.
    /// Takes no memory.
    pub fn select(&self, pool: &Pool<T>) -> Option<u64>
        requires { Kept self.now pool.now }
        ensures { IsSelected result (waiting self.now.levels pool.now) }
    {
        match self.heads.winner() {
            Some(winner) => Some(winner.head.order),
            None => None,
        }
    }

    /// Takes the task out that [`SchedQueues::select`] tells, none exactly where no task waits, and then nothing changes. Three
    /// accesses at most. Takes no memory.
    pub fn take<L: Ledger>(&mut self, pool: &mut Pool<T>, steps: &mut Steps<L>) -> Option<(u64, T)>
        requires { Kept self.old pool.old }
        ensures same { self.new.levels ≡ self.old.levels }
        ensures kept { Kept self.new pool.new }
        ensures order { HasFirstOrder result (waiting self.old.levels pool.old) }
        ensures first { IsTaken result (waiting self.old.levels pool.old) (waiting self.new.levels pool.new) }
        ensures others { (l : ℕ) → Lone l (all_queues self.old.levels) → list_of pool.new l ≡ list_of pool.old l }
        ensures count { length pool.new.lists ≡ length pool.old.lists }
        ensures spare { OnSome result (pool.new.spare ≡ pool.old.spare + 1) }
        ensures inserts { pool.new.inserts ≡ pool.old.inserts }
        ensures none { IfNone result (pool.new ≡ pool.old) }
        ensures accesses { steps.new ≤ steps.old + 3 }
    {
        let Some(winner) = self.heads.winner() else {
            return None;
        };
        let level = self.levels[winner.place];
        let taken = pool.pop_front(level.list(winner.head.is_continuation()), steps);
        self.heads.set(winner.place, read_first(pool, level));
        taken
    }

    /// Takes a task out by its ticket, which these queues handed out; none exactly where the ticket is not live, and then nothing
    /// changes. Three accesses at most. Takes no memory.
    pub fn remove<L: Ledger>(
        &mut self,
        pool: &mut Pool<T>,
        t: Ticket,
        steps: &mut Steps<L>,
    ) -> Option<(u64, T)>
        requires kept { Kept self.old pool.old }
        requires ours { entry_of pool.old t.0 ≢ None → find (has_cell t.0) (waiting self.old.levels pool.old) ≢ None }
        ensures same { self.new.levels ≡ self.old.levels }
        ensures kept { Kept self.new pool.new }
        ensures item { result ≡ option_map ordered (find (has_cell t.0) (waiting self.old.levels pool.old)) }
        ensures gone { waiting self.new.levels pool.new ≡ filter (lacks_cell t.0) (waiting self.old.levels pool.old) }
        ensures lists { pool.new.lists ≡ map (without t.0) pool.old.lists }
        ensures others { (l : ℕ) → Lone l (all_queues self.old.levels) → list_of pool.new l ≡ list_of pool.old l }
        ensures count { length pool.new.lists ≡ length pool.old.lists }
        ensures spare { OnSome result (pool.new.spare ≡ pool.old.spare + 1) }
        ensures inserts { pool.new.inserts ≡ pool.old.inserts }
        ensures none { IfNone result (pool.new ≡ pool.old) }
        ensures accesses { steps.new ≤ steps.old + 3 }
    {
        let Unlinked { list, number, item } = pool.unlink_listed(t, steps)?;
        self.read_again(pool, list);
        Some((number, item))
    }

    /// All tasks of a signal have this priority from now on. Takes no memory.
    pub fn move_priority(&mut self, s: u32, p: Priority)
        ensures levels { self.new.levels ≡ map (moved_level s p) self.old.levels }
        ensures kept { (pool : Lists T) → Kept self.old pool → Kept self.new pool }
        ensures others { (l : ℕ) → Lone l (all_queues self.old.levels) → Lone l (all_queues self.new.levels) }
        ensures waiting { (pool : Lists T) → waiting self.new.levels pool ≡ map (moved s p) (waiting self.old.levels pool) }
    {
        if let Some(place) = self.place_of_signal(s) {
            self.levels[place].priority = p;
            self.heads.change_priority(place, p);
        }
    }

    // The first task of the source that has this list, or may have it, is read again.
    fn read_again(&mut self, pool: &Pool<T>, list: ListId)
        requires { AreKept pool.now (all_queues self.old.levels) }
        ensures same { self.new.levels ≡ self.old.levels }
        ensures heads { (before : Lists T) → ReadsAgain list.0 before pool.now self.old self.new }
    {
        if let Some(place) = place_of_list(&self.levels, list) {
            self.heads.set(place, read_first(pool, self.levels[place]));
        }
    }

    // Where the lists of a source are, where it has some.
    fn place(&self, source: PrioSource) -> Option<usize>
        requires { (priority : Priority) → priority_in self.now.levels (PrioSource.Fixed priority) ≡ Some priority }
        ensures { result ≡ place_of self.now.levels source }
    {
        // The places of the fixed priorities stand by the invariant.
        let _ = &self.levels;
        match source {
            PrioSource::Fixed(priority) => Some(rank(priority) as usize),
            PrioSource::Signal(s) => self.place_of_signal(s),
        }
    }

    // Where the lists of a signal are, where it has some.
    fn place_of_signal(&self, s: u32) -> Option<usize>
        ensures { result ≡ place_of self.now.levels (PrioSource.Signal s) }
    {
        self.signals.get(&s).copied()
    }

    // The lists of the three fixed priorities, where there are no others yet. Every other list of
    // the pool is as it was, after an error too.
    fn add_fixed(&mut self, pool: &mut Pool<T>) -> Result<(), MemoryFault>
        requires none { self.old.levels ≡ [] }
        requires heads { self.old.heads ≡ [] }
        ensures kept { OnOk result (Kept self.new pool.new) }
        ensures empty { OnOk result (waiting self.new.levels pool.new ≡ []) }
        ensures made { OnOk result ((l : ℕ) → l < length pool.old.lists → IsLone l self.new.levels) }
        ensures signals { OnOk result ((s : ℕ) → priority_in self.new.levels (PrioSource.Signal s) ≡ None) }
        ensures more { length pool.old.lists ≤ length pool.new.lists }
        ensures lists { (l : ℕ) → list_of pool.new l ≡ list_of pool.old l }
        ensures spare { pool.new.spare ≡ pool.old.spare }
        ensures inserts { pool.new.inserts ≡ pool.old.inserts }
    {
        self.add(
            pool,
            PrioSource::Fixed(Priority::Background),
            Priority::Background,
        )?;
        self.add(
            pool,
            PrioSource::Fixed(Priority::UserVisible),
            Priority::UserVisible,
        )?;
        self.add(
            pool,
            PrioSource::Fixed(Priority::UserBlocking),
            Priority::UserBlocking,
        )?;
        Ok(())
    }

    // Two new lists for a priority source that has none. The fixed priorities come first, in their order.
    fn add(
        &mut self,
        pool: &mut Pool<T>,
        source: PrioSource,
        priority: Priority,
    ) -> Result<(), MemoryFault>
        requires next { StandsNext source self.old.levels }
        requires fresh { place_of self.old.levels source ≡ None }
        requires kept { AreKept pool.old (all_queues self.old.levels) }
        ensures added { OnOk result (Added self.old.levels self.new.levels pool.old pool.new source priority) }
        ensures head { OnOk result (self.new.heads ≡ self.old.heads ++ None ∷ []) }
        ensures err { OnErr result (self.new ≡ self.old) }
        ensures more { length pool.old.lists ≤ length pool.new.lists }
        ensures lists { (l : ℕ) → list_of pool.new l ≡ list_of pool.old l }
        ensures spare { pool.new.spare ≡ pool.old.spare }
        ensures inserts { pool.new.inserts ≡ pool.old.inserts }
    {
        let level = new_level(pool, source, priority)?;
        self.put(level)?;
        Ok(())
    }

    // A priority source that has no lists yet stands behind the others, with these lists. No task
    // waits in them.
    fn put(&mut self, level: Level) -> Result<(), MemoryFault>
        requires next { StandsNext level.source self.old.levels }
        requires fresh { place_of self.old.levels level.source ≡ None }
        requires rising { ListsRise self.old.levels → ListsRise (self.old.levels ++ level ∷ []) }
        ensures levels { OnOk result (self.new.levels ≡ self.old.levels ++ level ∷ []) }
        ensures head { OnOk result (self.new.heads ≡ self.old.heads ++ None ∷ []) }
        ensures err { OnErr result (self.new ≡ self.old) }
    {
        self.levels.reserve(1)?;
        note_place(&mut self.signals, level.source, self.levels.len())?;
        if self.heads.push().is_err() {
            forget_place(&mut self.signals, level.source);
            return Err(MemoryFault::OutOfMemory);
        }
        self.levels.push(level).unwrap();
        Ok(())
    }
}

// A priority source with two lists that are new in the pool. Every other list of the pool is as
// it was, after an error too.
fn new_level<T>(
    pool: &mut Pool<T>,
    source: PrioSource,
    priority: Priority,
) -> Result<Level, MemoryFault>
    ensures made { IfOk result (λ level. IsNew level pool.old pool.new source priority) }
    ensures more { length pool.old.lists ≤ length pool.new.lists }
    ensures lists { (l : ℕ) → list_of pool.new l ≡ list_of pool.old l }
    ensures spare { pool.new.spare ≡ pool.old.spare }
    ensures inserts { pool.new.inserts ≡ pool.old.inserts }
{
    let plain = pool.new_list()?;
    let continuations = pool.new_list()?;
    Ok(Level {
        source,
        priority,
        plain,
        continuations,
    })
}
