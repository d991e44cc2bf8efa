//! The queues of the task sources.
ghost use Rattle.std.specs.Prelude.{◌≡◌, ◌≢◌, ◌+◌, ◌^◌, ◌<◌, OnOk};
ghost use Rattle.page_types.specs.declared.Source.TheVariants.{Sched};
ghost use Rattle.task_queues.specs.BySource.{StandIn};

use page_base::Source;
use std::alloc::Global;
use std::marker::Brand;
use std::process::Abort;
use std::sync::ledger::{Blank, Ledger};
use std::test::Fail;
use task_pool::{Pool, Steps};
use task_queues::Queues;

// Queues a task.
fn put<L: Ledger>(
    queues: &mut Queues<char>,
    pool: &mut Pool<char>,
    source: Source,
    number: u64,
    item: char,
    steps: &mut Steps<L>,
) -> Result<(), Fail>
    requires source { source ≢ Sched }
    requires stand { StandIn queues.old pool.old }
    requires inserts { pool.old.inserts + 1 < 2 ^ 64 }
    ensures stand { StandIn queues.new pool.new }
    ensures inserts { OnOk result (pool.new.inserts ≡ pool.old.inserts + 1) }
{
    match queues.queue(pool, source, number, item, steps) {
        Ok(_) => Ok(()),
        Err(_) => Err(Fail::from("no memory")),
    }
}

fn by_source<L: Ledger>(rt: &impl Abort, alloc: Global, blank: Blank) -> Result<(), Fail>
    requires name { blank.name ≡ L.name }
    requires parts { blank.parts ≡ L.parts }
    requires some { 0 < blank.parts }
{
    let (book, share) = blank.open::<L>();
    let mut steps = Steps::new(book, share);
    let mut pool = Pool::new(alloc);
    let mut queues = Queues::new(&mut pool)?;
    let (queues, pool, steps) = (&mut queues, &mut pool, &mut steps);
    put(queues, pool, Source::Timer, 1, 'a', steps)?;
    put(queues, pool, Source::Dom, 2, 'b', steps)?;
    put(queues, pool, Source::Timer, 3, 'c', steps)?;
    let heads = queues.heads(pool);
    assert_eq!(rt; heads, [None, None, None, Some(1), None, Some(2), None]);
    let taken = [
        queues.take(pool, Source::Timer, steps),
        queues.take(pool, Source::Idle, steps),
    ];
    assert_eq!(rt; taken, [Some((1, 'a')), None]);
    let heads = queues.heads(pool);
    assert_eq!(rt; heads, [None, None, None, Some(3), None, Some(2), None]);
    let taken = [
        queues.take(pool, Source::Timer, steps),
        queues.take(pool, Source::Timer, steps),
    ];
    assert_eq!(rt; taken, [Some((3, 'c')), None]);
    Ok(())
}

#[test]
fn each_source_has_its_own_tasks_in_order(rt: HostRuntime) -> Result<(), Fail> {
    by_source::<Brand>(&rt, rt.alloc(), Blank::new(1))
}
