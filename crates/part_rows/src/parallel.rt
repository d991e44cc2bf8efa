ghost use Rattle.std.specs.Prelude.{◌≡◌, IfOk};
ghost use Rattle.page_parts.specs.Timers.{no_timers};

use crate::rows::expect_met;
use page_base::Source;
use page_values::{Str, Value};
use parallel_items::{
    Arrival, Completion, HostAnswer, HostTask, MemoryFault, Micros, ParallelItems, PrioSource,
    Taken,
};
use post_task::Priority;
use std::alloc::Global;
use std::process::Abort;
use std::test::Fail;

fn nothing(alloc: Global) -> Result<ParallelItems, MemoryFault>
    ensures timers { IfOk result (λ items. items.waiting.timers ≡ no_timers) }
    ensures last_idle { IfOk result (λ items. items.last_idle ≡ 0) }
    ensures arrivals_made { IfOk result (λ items. items.arrivals_made ≡ 0) }
{
    ParallelItems::new(alloc, Vec::new(alloc))
}

fn arrival(alloc: Global, at: u64) -> Arrival {
    Arrival {
        at: Micros(at),
        source: Source::User,
        name: Str::new(Vec::new(alloc)),
        value: Value::Unit,
    }
}

fn answer(due: u64, registration: u32) -> HostAnswer {
    let task = HostTask {
        registration,
        closure: 0,
        number: -4,
    };
    HostAnswer {
        due: Micros(due),
        task,
    }
}

// The kind of what was taken, and its registration or an arrival's time.
fn kind(taken: Option<Taken>) -> Option<(char, u64)> {
    match taken? {
        Taken::Arrival(arrival) => Some(('a', arrival.at.0)),
        Taken::HostAnswer(task) => Some(('h', u64::from(task.registration))),
        Taken::Completion(Completion::QueueTimer(task)) => Some((
            't',
            u64::from(task.registration),
        )),
        Taken::Completion(Completion::EnqueuePost { registration, .. }) => Some((
            'p',
            u64::from(registration),
        )),
        Taken::Completion(Completion::QueueSignal { registration, .. }) => Some((
            's',
            u64::from(registration),
        )),
        Taken::IdleTimeout { registration, .. } => Some(('i', u64::from(registration))),
    }
}

// The timer of a registration: whether it repeats, its timeout in milliseconds, and the moment.
#[derive(Clone, Copy)]
struct Timer {
    registration: u32,
    repeats: bool,
    timeout: i64,
    now: u64,
}

// A call on the items, and what it answers.
enum Step {
    Init(Timer),
    // When the answer of a registration is due.
    Ask(u64, u32),
    // An idle timeout of 3 milliseconds at the moment 4: its handle, and its registration.
    Idle(u32, u32),
    Arrive(u64),
    Clear(u32, Option<u32>),
    NextDue(u64),
    NextTimerDue(u64),
    TakeDue(u64, Option<(char, u64)>),
    TakeFirst(char, u64),
    IsEmpty,
}

use Step::{Arrive, Ask, Clear, Idle, Init, IsEmpty, NextDue, NextTimerDue, TakeDue, TakeFirst};

fn init(rt: &impl Abort, items: &mut ParallelItems, timer: Timer) -> Result<(), Fail> {
    assert!(rt; items.ids_made() < 100 && items.handles_made() < 100 && items.starts_made() < 100);
    assert!(rt; timer.now < 1_000_000);
    items.init(
        None,
        timer.registration,
        timer.repeats,
        timer.timeout,
        0,
        Micros(timer.now),
    )?;
    Ok(())
}

fn idle(
    rt: &impl Abort,
    items: &mut ParallelItems,
    handle: u32,
    registration: u32,
) -> Result<(), Fail> {
    assert!(rt; items.last_idle() < handle);
    items.start_idle_timeout(handle, registration, 3, Micros(4))?;
    Ok(())
}

fn arrive(rt: &impl Abort, alloc: Global, items: &mut ParallelItems, at: u64) -> Result<(), Fail> {
    assert!(rt; items.arrivals_made() < 100);
    items.arrive(arrival(alloc, at))?;
    Ok(())
}

// Whether the call answers what is wanted.
fn take(
    rt: &impl Abort,
    alloc: Global,
    items: &mut ParallelItems,
    step: &Step,
) -> Result<bool, Fail> {
    match step {
        Init(timer) => init(rt, items, *timer)?,
        Ask(due, registration) => items.ask(answer(*due, *registration))?,
        Idle(handle, registration) => idle(rt, items, *handle, *registration)?,
        Arrive(at) => arrive(rt, alloc, items, *at)?,
        _ => return Ok(is_met(items, step)),
    }
    Ok(true)
}

fn is_met(items: &mut ParallelItems, step: &Step) -> bool {
    match step {
        Clear(id, registration) => items.clear(*id) == *registration,
        NextDue(due) => items.next_due() == Some(Micros(*due)),
        NextTimerDue(due) => items.next_timer_due() == Some(Micros(*due)),
        TakeDue(now, taken) => kind(items.take_due(Micros(*now))) == *taken,
        TakeFirst(kind_of_it, number) => kind(items.take_first()) == Some((*kind_of_it, *number)),
        IsEmpty => items.is_empty(),
        _ => false,
    }
}

fn take_all(
    rt: &impl Abort,
    alloc: Global,
    items: &mut ParallelItems,
    steps: &[Step],
) -> Result<(), Fail> {
    for (number, step) in steps.iter().enumerate() {
        expect_met(rt, take(rt, alloc, items, step)?, number);
    }
    Ok(())
}

// These steps are taken from the start of a page on.
fn expect(rt: &impl Abort, alloc: Global, steps: &[Step]) -> Result<(), Fail> {
    let mut items = nothing(alloc)?;
    let taken = take_all(rt, alloc, &mut items, steps);
    drop(items);
    taken
}

#[test]
fn an_answer_is_taken_before_a_timer_of_its_moment(rt: HostRuntime) -> Result<(), Fail> {
    const STEPS: [Step; 7] = [
        Init(Timer {
            registration: 3,
            repeats: false,
            timeout: 10,
            now: 0,
        }),
        Ask(10_000, 2),
        NextDue(10_000),
        TakeDue(9_999, None),
        TakeDue(10_000, Some(('h', 2))),
        TakeDue(10_000, Some(('t', 3))),
        IsEmpty,
    ];
    expect(&rt, rt.alloc(), &STEPS)
}

#[test]
fn idle_timeouts_and_arrivals_come_due(rt: HostRuntime) -> Result<(), Fail> {
    const STEPS: [Step; 5] = [
        Idle(7, 4),
        NextDue(3004),
        TakeFirst('i', 4),
        Arrive(2),
        TakeFirst('a', 2),
    ];
    expect(&rt, rt.alloc(), &STEPS)
}

#[test]
fn a_cleared_timer_comes_due(rt: HostRuntime) -> Result<(), Fail> {
    const STEPS: [Step; 4] = [
        Init(Timer {
            registration: 7,
            repeats: true,
            timeout: 300,
            now: 1000,
        }),
        Clear(1, Some(7)),
        Clear(1, None),
        NextTimerDue(301_000),
    ];
    expect(&rt, rt.alloc(), &STEPS)
}

// Whether the post of registration 5 is delayed until it is taken at 20 milliseconds.
fn is_delayed_till_taken(items: &mut ParallelItems) -> bool {
    items.is_delayed(5)
        && kind(items.take_due(Micros(20_000))) == Some(('p', 5))
        && !items.is_delayed(5)
}

#[test]
fn a_post_is_delayed_until_its_timer_completes(rt: HostRuntime) -> Result<(), Fail> {
    let post = Completion::EnqueuePost {
        registration: 5,
        source: PrioSource::Fixed(Priority::Background),
    };
    let mut items = nothing(rt.alloc())?;
    items.after(20, post, Micros(0))?;
    let is_delayed = is_delayed_till_taken(&mut items);
    drop(items);
    assert!(rt; is_delayed);
    Ok(())
}
