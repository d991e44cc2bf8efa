//! All queued tasks of a page, those of the task sources and the scheduler's.
ghost use Rattle.std.specs.Prelude.{◌≡◌, ◌≢◌, ◌<◌};
ghost use Rattle.page_types.specs.declared.Source.TheVariants.{Sched};
ghost use Rattle.page_tasks.specs.Queued.{HasPriority};

use page_base::Source;
use page_tasks::{HostTask, PageTasks, TaskSteps};
use post_task::{PrioSource, Priority};
use std::alloc::Global;
use std::marker::Brand;
use std::process::Abort;
use std::sync::ledger::{Blank, Ledger};
use std::test::Fail;
use task_pool::Steps;

const ASKED: HostTask = HostTask {
    registration: 7,
    closure: 0,
    number: 5,
};

// Queues the task of a host closure.
fn ask<L: Ledger>(rt: &impl Abort, alloc: Global, tasks: &mut PageTasks<L>) -> Result<(), Fail> {
    assert!(rt; tasks.made() < 1000);
    let steps = Box::new(alloc, TaskSteps::AnswerHost(ASKED))?;
    tasks.queue(Source::Net, steps)?;
    Ok(())
}

// The number of the first task of a source, which is taken.
fn take<L: Ledger>(tasks: &mut PageTasks<L>, source: Source) -> Option<u64>
    requires { source ≢ Sched }
{
    let (number, _) = tasks.take(source)?;
    Some(number)
}

// Enqueues a scheduler task where a number is left and the registration has none.
fn enqueue<L: Ledger>(
    rt: &impl Abort,
    tasks: &mut PageTasks<L>,
    registration: u32,
    source: PrioSource,
) -> Result<u64, Fail>
    requires { HasPriority tasks.old source }
{
    assert!(rt; tasks.made() < 1000);
    assert!(rt; !tasks.has_sched(registration));
    Ok(tasks.enqueue(registration, source, false)?)
}

// What is told while the task of the host closure waits.
fn expect_asked<L: Ledger>(rt: &impl Abort, tasks: &PageTasks<L>) {
    let told = (
        tasks.net_task_of(7),
        tasks.first_numbers()[4],
        tasks.has_render(),
    );
    assert_eq!(rt; told, (Some(ASKED), Some(1), false));
}

fn asked<L: Ledger>(rt: &impl Abort, alloc: Global, blank: Blank) -> Result<(), Fail>
    requires name { blank.name ≡ L.name }
    requires parts { blank.parts ≡ L.parts }
    requires some { 0 < blank.parts }
{
    let (book, share) = blank.open::<L>();
    let mut tasks = PageTasks::new(alloc, 5, Steps::new(book, share))?;
    assert!(rt; tasks.is_empty());
    ask(rt, alloc, &mut tasks)?;
    expect_asked(rt, &tasks);
    let taken = [take(&mut tasks, Source::Net), take(&mut tasks, Source::Net)];
    assert_eq!(rt; taken, [Some(1), None]);
    assert_eq!(rt; (tasks.net_task_of(7), tasks.pool().spare()), (None, 5));
    Ok(())
}

#[test]
fn a_host_task_waits_until_it_is_taken(rt: HostRuntime) -> Result<(), Fail> {
    asked::<Brand>(&rt, rt.alloc(), Blank::new(1))
}

// Enqueues a task of fixed priority user-visible and one of a signal, whose priority is background.
fn enqueue_both<L: Ledger>(rt: &impl Abort, tasks: &mut PageTasks<L>) -> Result<[u64; 2], Fail> {
    let visible = PrioSource::Fixed(Priority::UserVisible);
    let first = enqueue(rt, tasks, 1, visible)?;
    tasks.make_room_for(3, Priority::Background)?;
    let second = enqueue(rt, tasks, 2, PrioSource::Signal(3))?;
    Ok([first, second])
}

// The first scheduler task before and after the signal's priority rises.
fn raise<L: Ledger>(tasks: &mut PageTasks<L>) -> [Option<u64>; 2] {
    let before = tasks.first_numbers()[2];
    tasks.set_priority(3, Priority::UserBlocking);
    [before, tasks.first_numbers()[2]]
}

// A task of a signal goes before one of fixed priority user-visible once its signal is user-blocking.
fn by_signal<L: Ledger>(rt: &impl Abort, alloc: Global, blank: Blank) -> Result<(), Fail>
    requires name { blank.name ≡ L.name }
    requires parts { blank.parts ≡ L.parts }
    requires some { 0 < blank.parts }
{
    let (book, share) = blank.open::<L>();
    let mut tasks = PageTasks::new(alloc, 0, Steps::new(book, share))?;
    assert_eq!(rt; enqueue_both(rt, &mut tasks)?, [1, 2]);
    assert_eq!(rt; raise(&mut tasks), [Some(1), Some(2)]);
    let taken = tasks.take_sched().map(|task| task.registration);
    assert_eq!(rt; taken, Some(2));
    assert_eq!(rt; [tasks.drop_sched(1), tasks.drop_sched(1)], [true, false]);
    Ok(())
}

#[test]
fn a_signal_moves_its_tasks(rt: HostRuntime) -> Result<(), Fail> {
    by_signal::<Brand>(&rt, rt.alloc(), Blank::new(1))
}
