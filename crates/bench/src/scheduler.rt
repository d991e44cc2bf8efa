ghost use Rattle.std.specs.Prelude.{◌≡◌, ℕ, ◌<◌, [], IfOk, OnOk, IsSome};
ghost use Rattle.post_task.specs.Levels.{Kept, waiting, priority_in};

use post_task::{MemoryFault, Pool, PrioSource, Priority, SchedQueues, Steps};
use std::alloc::Global;
use std::marker::Brand;
use std::sync::ledger::{Blank, Ledger};

/// Makes room for signals with a priority.
pub(crate) fn room(alloc: Global, n: u32) -> Result<u32, MemoryFault> {
    let mut pool = Pool::new(alloc);
    with_room(alloc, &mut pool, n)?;
    Ok(n)
}

/// Enqueues a task by each signal.
pub(crate) fn enqueued(alloc: Global, n: u32) -> Result<u32, MemoryFault> {
    enqueued_in::<Brand>(alloc, n, Blank::new(1))
}

/// Enqueues a task by each signal, and takes them.
pub(crate) fn taken(alloc: Global, n: u32) -> Result<u32, MemoryFault> {
    taken_in::<Brand>(alloc, n, Blank::new(1))
}

/// Enqueues a task by each signal, and changes the priority of each.
pub(crate) fn moved(alloc: Global, n: u32) -> Result<u32, MemoryFault> {
    moved_in::<Brand>(alloc, n, Blank::new(1))
}

// Queues with room for this many signals.
fn with_room(alloc: Global, pool: &mut Pool<u32>, n: u32) -> Result<SchedQueues<u32>, MemoryFault>
    ensures kept { IfOk result (λ queues. Kept queues pool.new) }
    ensures empty { IfOk result (λ queues. waiting queues.levels pool.new ≡ []) }
    ensures room { IfOk result (λ queues. (s : ℕ) → s < n → IsSome (priority_in queues.levels (PrioSource.Signal s))) }
    ensures inserts { pool.new.inserts ≡ pool.old.inserts }
{
    let mut queues = SchedQueues::new(alloc, pool)?;
    for s in 0..n {
        queues.make_room_for(pool, s, Priority::Background)?;
    }
    Ok(queues)
}

// A task by each of this many signals.
fn enqueue_each<L: Ledger>(
    pool: &mut Pool<u32>,
    queues: &mut SchedQueues<u32>,
    n: u32,
    steps: &mut Steps<L>,
) -> Result<(), MemoryFault>
    requires kept { Kept queues.old pool.old }
    requires empty { waiting queues.old.levels pool.old ≡ [] }
    requires room { (s : ℕ) → s < n → IsSome (priority_in queues.old.levels (PrioSource.Signal s)) }
    requires inserts { pool.old.inserts ≡ 0 }
    ensures { Kept queues.new pool.new }
{
    for s in 0..n {
        let source = PrioSource::Signal(s);
        let order = u64::from(s) + 1;
        let Ok(_) = queues.enqueue(pool, source, s % 2 == 0, order, s, steps) else {
            return Err(MemoryFault::OutOfMemory);
        };
    }
    Ok(())
}

// Takes this many tasks, and answers how many there were.
fn take_each<L: Ledger>(
    pool: &mut Pool<u32>,
    queues: &mut SchedQueues<u32>,
    n: u32,
    steps: &mut Steps<L>,
) -> u32
    requires { Kept queues.old pool.old }
{
    let mut taken = 0u32;
    for _ in 0..n {
        if queues.take(pool, steps).is_some() {
            taken = taken.saturating_add(1);
        }
    }
    taken
}

fn enqueued_in<L: Ledger>(alloc: Global, n: u32, blank: Blank) -> Result<u32, MemoryFault>
    requires name { blank.name ≡ L.name }
    requires parts { blank.parts ≡ L.parts }
    requires some { 0 < blank.parts }
{
    let (book, share) = blank.open::<L>();
    let mut steps = Steps::new(book, share);
    let mut pool = Pool::new(alloc);
    let mut queues = with_room(alloc, &mut pool, n)?;
    enqueue_each(&mut pool, &mut queues, n, &mut steps)?;
    Ok(n)
}

fn taken_in<L: Ledger>(alloc: Global, n: u32, blank: Blank) -> Result<u32, MemoryFault>
    requires name { blank.name ≡ L.name }
    requires parts { blank.parts ≡ L.parts }
    requires some { 0 < blank.parts }
{
    let (book, share) = blank.open::<L>();
    let mut steps = Steps::new(book, share);
    let mut pool = Pool::new(alloc);
    let mut queues = with_room(alloc, &mut pool, n)?;
    enqueue_each(&mut pool, &mut queues, n, &mut steps)?;
    Ok(take_each(&mut pool, &mut queues, n, &mut steps))
}

fn moved_in<L: Ledger>(alloc: Global, n: u32, blank: Blank) -> Result<u32, MemoryFault>
    requires name { blank.name ≡ L.name }
    requires parts { blank.parts ≡ L.parts }
    requires some { 0 < blank.parts }
{
    let (book, share) = blank.open::<L>();
    let mut steps = Steps::new(book, share);
    let mut pool = Pool::new(alloc);
    let mut queues = with_room(alloc, &mut pool, n)?;
    enqueue_each(&mut pool, &mut queues, n, &mut steps)?;
    for s in 0..n {
        queues.move_priority(s, Priority::UserBlocking);
    }
    Ok(n)
}
