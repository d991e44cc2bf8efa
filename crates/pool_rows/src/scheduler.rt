//! The queues of scheduler tasks: which task comes first.
ghost use Rattle.std.specs.Prelude.{◌≡◌, ◌≢◌, ℕ, ◌+◌, ◌^◌, ◌<◌, None};
ghost use Rattle.std.specs.List.{find};
ghost use Rattle.post_task.specs.Waiting.{Waiting, Among, has_cell};
ghost use Rattle.post_task.specs.Levels.{waiting, HasRoom, Kept};
ghost use Rattle.post_task.specs.declared.level.PrioSource.TheVariants.{Fixed, Signal};
ghost use Rattle.page_types.specs.declared.Priority.TheVariants.{UserVisible};

use post_task::{PrioSource, Priority, SchedQueues};
use std::alloc::Global;
use std::marker::Brand;
use std::process::Abort;
use std::sync::ledger::{Blank, Ledger};
use std::test::Fail;
use task_pool::{Pool, Steps, Ticket};

const VISIBLE: PrioSource = PrioSource::Fixed(Priority::UserVisible);

/// A task to be enqueued.
struct Posted {
    source: PrioSource,
    continuation: bool,
    order: u64,
    item: char,
}

fn visible(order: u64, item: char) -> Posted
    ensures source { result.source ≡ Fixed UserVisible }
    ensures order { result.order ≡ order }
{
    Posted {
        source: VISIBLE,
        continuation: false,
        order,
        item,
    }
}

// Enqueues a task whose order is greater than that of every task that waits.
fn put<L: Ledger>(
    rt: &impl Abort,
    queues: &mut SchedQueues<char>,
    pool: &mut Pool<char>,
    task: Posted,
    steps: &mut Steps<L>,
) -> Ticket
    requires kept { Kept queues.old pool.old }
    requires room { HasRoom queues.old.levels task.source }
    requires later { (w : Waiting ℕ) → Among w (waiting queues.old.levels pool.old) → w.order < task.order }
    requires inserts { pool.old.inserts + 1 < 2 ^ 64 }
    ensures same { queues.new.levels ≡ queues.old.levels }
    ensures kept { Kept queues.new pool.new }
    ensures earlier { (w : Waiting ℕ) → Among w (waiting queues.new.levels pool.new) → w.order < task.order + 1 }
    ensures found { find (has_cell result.0) (waiting queues.new.levels pool.new) ≢ None }
    ensures inserts { pool.new.inserts ≡ pool.old.inserts + 1 }
{
    let Posted {
        source,
        continuation,
        order,
        item,
    } = task;
    match queues.enqueue(pool, source, continuation, order, item, steps) {
        Ok(ticket) => ticket,
        Err(_) => panic!(rt; "no memory"),
    }
}

// A continuation of fixed priority.
fn continuation(priority: Priority, order: u64, item: char) -> Posted
    ensures source { result.source ≡ Fixed priority }
    ensures order { result.order ≡ order }
{
    Posted {
        source: PrioSource::Fixed(priority),
        continuation: true,
        order,
        item,
    }
}

fn of_signal(signal: u32, order: u64, item: char) -> Posted
    ensures source { result.source ≡ Signal signal }
    ensures order { result.order ≡ order }
{
    Posted {
        source: PrioSource::Signal(signal),
        continuation: false,
        order,
        item,
    }
}

// Takes the first three tasks.
fn take_three<L: Ledger>(
    queues: &mut SchedQueues<char>,
    pool: &mut Pool<char>,
    steps: &mut Steps<L>,
) -> [Option<(u64, char)>; 3]
    requires { Kept queues.old pool.old }
    ensures { Kept queues.new pool.new }
{
    [
        queues.take(pool, steps),
        queues.take(pool, steps),
        queues.take(pool, steps),
    ]
}

fn by_priority<L: Ledger>(rt: &impl Abort, alloc: Global, blank: Blank) -> Result<(), Fail>
    requires name { blank.name ≡ L.name }
    requires parts { blank.parts ≡ L.parts }
    requires some { 0 < blank.parts }
{
    let (book, share) = blank.open::<L>();
    let mut steps = Steps::new(book, share);
    let mut pool = Pool::new(alloc);
    let mut queues = SchedQueues::new(alloc, &mut pool)?;
    assert_eq!(rt; queues.select(&pool), None);
    let (queues, pool, steps) = (&mut queues, &mut pool, &mut steps);
    put(rt, queues, pool, visible(1, 'a'), steps);
    put(rt, queues, pool, visible(2, 'b'), steps);
    put(
        rt,
        queues,
        pool,
        continuation(Priority::UserVisible, 3, 'c'),
        steps,
    );
    let last = put(
        rt,
        queues,
        pool,
        continuation(Priority::Background, 4, 'd'),
        steps,
    );
    assert_eq!(rt; queues.remove(pool, last, steps), Some((4, 'd')));
    assert_eq!(rt; queues.select(pool), Some(3));
    let taken = take_three(queues, pool, steps);
    assert_eq!(rt; taken, [Some((3, 'c')), Some((1, 'a')), Some((2, 'b'))]);
    assert_eq!(rt; queues.take(pool, steps), None);
    Ok(())
}

fn by_signal<L: Ledger>(rt: &impl Abort, alloc: Global, blank: Blank) -> Result<(), Fail>
    requires name { blank.name ≡ L.name }
    requires parts { blank.parts ≡ L.parts }
    requires some { 0 < blank.parts }
{
    let (book, share) = blank.open::<L>();
    let mut steps = Steps::new(book, share);
    let mut pool = Pool::new(alloc);
    let mut queues = SchedQueues::new(alloc, &mut pool)?;
    queues.make_room_for(&mut pool, 7, Priority::Background)?;
    let (queues, pool, steps) = (&mut queues, &mut pool, &mut steps);
    put(rt, queues, pool, of_signal(7, 1, 'a'), steps);
    put(rt, queues, pool, of_signal(7, 2, 'b'), steps);
    put(rt, queues, pool, visible(3, 'c'), steps);
    assert_eq!(rt; queues.select(pool), Some(3));
    queues.move_priority(7, Priority::UserBlocking);
    let taken = take_three(queues, pool, steps);
    assert_eq!(rt; taken, [Some((1, 'a')), Some((2, 'b')), Some((3, 'c'))]);
    Ok(())
}

#[test]
fn the_greatest_priority_goes_first_and_then_the_least_order(rt: HostRuntime) -> Result<(), Fail> {
    by_priority::<Brand>(&rt, rt.alloc(), Blank::new(1))
}

#[test]
fn a_priority_change_moves_all_tasks_of_its_signal(rt: HostRuntime) -> Result<(), Fail> {
    by_signal::<Brand>(&rt, rt.alloc(), Blank::new(1))
}
