//! Timers: when they are due by timeout and nesting level, their ids and handles, and their order.

use crate::rows::expect_met;
use page_base::Micros;
use std::alloc::Global;
use std::process::Abort;
use std::test::Fail;
use timer_map::{Armed, MemoryFault, Timers};

// A call on the timers, and what it answers. Moments are in microseconds.
enum Step {
    // A timer under a new id: whether it repeats, its timeout, and the moment.
    Init(bool, i64, u64, Armed),
    // A timer of 0 that repeats, under this id and of this nesting level, at the start of a page.
    Again(u32, u32, Armed),
    Live(u32, u64, bool),
    Clear(u32, bool),
    NextDue(Option<Micros>),
    Complete(u64, Option<u64>),
}

use Step::{Again, Clear, Complete, Init, Live, NextDue};

// A timer under a new id, for which numbers are left.
fn init(
    rt: &impl Abort,
    timers: &mut Timers,
    repeat: bool,
    timeout: i64,
    nesting: u32,
    now: Micros,
) -> Result<Armed, MemoryFault> {
    assert!(rt; timers.made() < 1000 && timers.handles_made() < 1000);
    assert!(rt; timers.starts_made() < 1000 && nesting < 1000 && now.0 < 1_000_000);
    timers.init(None, repeat, timeout, nesting, now)
}

// A timer of 0 that repeats, under this id.
fn init_again(
    rt: &impl Abort,
    timers: &mut Timers,
    id: u32,
    nesting: u32,
) -> Result<Armed, MemoryFault> {
    assert!(rt; timers.handles_made() < 1000 && timers.starts_made() < 1000 && nesting < 1000);
    timers.init(Some(id), true, 0, nesting, Micros(0))
}

fn take(rt: &impl Abort, timers: &mut Timers, step: &Step) -> Result<bool, Fail> {
    match step {
        Init(repeat, timeout, now, armed) => {
            Ok(init(rt, timers, *repeat, *timeout, 0, Micros(*now))? == *armed)
        }
        Again(id, nesting, armed) => { Ok(init_again(rt, timers, *id, *nesting)? == *armed) }
        Live(id, handle, is_live) => Ok(timers.live(*id, *handle) == *is_live),
        Clear(id, was) => Ok(timers.clear(*id) == *was),
        NextDue(due) => Ok(timers.next_due() == *due),
        Complete(now, start) => Ok(timers.complete(Micros(*now)) == *start),
    }
}

fn take_all(rt: &impl Abort, alloc: Global, steps: &[Step]) -> Result<(), Fail> {
    let mut timers = Timers::new(alloc);
    for (number, step) in steps.iter().enumerate() {
        expect_met(rt, take(rt, &mut timers, step)?, number);
    }
    Ok(())
}

// Timeouts, nesting levels, and when such a timer is due that is set at the start of a page.
const TIMEOUTS: [(i64, u32, u64); 7] = [
    (2_147_483_647, 0, 2_147_483_647_000),
    (2_147_483_648, 0, 0),
    (4_294_967_301, 0, 5000),
    (-1, 0, 0),
    (3, 5, 3000),
    (3, 6, 4000),
    (5, 6, 5000),
];

fn due_of(
    rt: &impl Abort,
    alloc: Global,
    timeout: i64,
    nesting: u32,
) -> Result<Micros, MemoryFault> {
    let mut timers = Timers::new(alloc);
    let armed = init(rt, &mut timers, false, timeout, nesting, Micros(0));
    drop(timers);
    Ok(armed?.due)
}

#[test]
fn a_timeout_wraps_and_is_clamped(rt: HostRuntime) -> Result<(), Fail> {
    for (number, (timeout, nesting, due)) in TIMEOUTS.iter().enumerate() {
        let found = due_of(&rt, rt.alloc(), *timeout, *nesting)?;
        expect_met(&rt, found == Micros(*due), number);
    }
    Ok(())
}

// A timer of 0 comes due then.
fn expect_due(
    rt: &impl Abort,
    timers: &mut Timers,
    nesting: u32,
    now: Micros,
    due: u64,
) -> Result<Armed, Fail> {
    let armed = init(rt, timers, false, 0, nesting, now)?;
    let is_due = armed.due == Micros(due) && timers.complete(armed.due) == Some(armed.start);
    expect_met(rt, is_due, nesting as usize);
    Ok(armed)
}

// The nesting level of the last of these timers, each of which is set as the one before comes due.
fn nest(rt: &impl Abort, timers: &mut Timers, dues: &[u64]) -> Result<u32, Fail> {
    let mut now = Micros(0);
    let mut nesting = 0;
    for due in dues {
        let armed = expect_due(rt, timers, nesting, now, *due)?;
        now = armed.due;
        nesting = armed.level;
    }
    Ok(nesting)
}

#[test]
fn nested_timers_of_0_are_due_at_0_six_times_and_then_every_4_milliseconds(
    rt: HostRuntime,
) -> Result<(), Fail> {
    let mut timers = Timers::new(rt.alloc());
    let nesting = nest(&rt, &mut timers, &[0, 0, 0, 0, 0, 0, 4000, 8000]);
    drop(timers);
    assert!(rt; nesting? == 8);
    Ok(())
}

#[test]
fn a_cleared_timer_comes_due(rt: HostRuntime) -> Result<(), Fail> {
    const ARMED: Armed = Armed {
        id: 1,
        handle: 1,
        start: 1,
        due: Micros(301_000),
        level: 1,
    };
    const STEPS: [Step; 9] = [
        Init(false, 300, 1000, ARMED),
        Live(1, 1, true),
        Clear(1, true),
        Live(1, 1, false),
        Clear(1, false),
        NextDue(Some(Micros(301_000))),
        Complete(300_999, None),
        Complete(301_000, Some(1)),
        NextDue(None),
    ];
    take_all(&rt, rt.alloc(), &STEPS)
}

#[test]
fn a_repeating_timer_keeps_its_id_and_gets_a_new_handle(rt: HostRuntime) -> Result<(), Fail> {
    const FIRST: Armed = Armed {
        id: 1,
        handle: 1,
        start: 1,
        due: Micros(0),
        level: 1,
    };
    const AGAIN: Armed = Armed {
        id: 1,
        handle: 2,
        start: 2,
        due: Micros(0),
        level: 2,
    };
    const OTHER: Armed = Armed {
        id: 2,
        handle: 3,
        start: 3,
        due: Micros(0),
        level: 1,
    };
    const STEPS: [Step; 5] = [
        Init(true, 0, 0, FIRST),
        Again(1, 1, AGAIN),
        Live(1, 1, false),
        Live(1, 2, true),
        Init(false, 0, 0, OTHER),
    ];
    take_all(&rt, rt.alloc(), &STEPS)
}

// An entry of the plain list: when it is due, and its start number.
fn due_in(plain: &[(u64, u64)], now: u64) -> Option<(u64, u64)> {
    let first = plain.iter().copied().min()?;
    if first.0 > now { None } else { Some(first) }
}

// Whether both start a timer.
fn start_in_both(
    timers: &mut Timers,
    plain: &mut Vec<(u64, u64)>,
    ms: u64,
    now: u64,
) -> Result<bool, Fail> {
    if timers.starts_made() >= 1000 || ms >= 1000 || now >= 1_000_000 {
        return Ok(false);
    }
    let start = timers.after(ms, Micros(now))?;
    plain.push((now + ms * 1000, start))?;
    Ok(true)
}

// Whether both complete the same timer, or none.
fn complete_in_both(timers: &mut Timers, plain: &mut Vec<(u64, u64)>, now: u64) -> bool {
    let due = due_in(plain, now);
    if let Some(completed) = due {
        plain.retain(|timer| *timer != completed);
    }
    timers.complete(Micros(now)) == due.map(|timer| timer.1)
}

fn are_due_alike(timers: &Timers, plain: &[(u64, u64)]) -> bool {
    let least = plain.iter().map(|timer| timer.0).min();
    timers.next_due() == least.map(Micros)
}

// Whether both go on alike, as a number says.
fn go_on(
    timers: &mut Timers,
    plain: &mut Vec<(u64, u64)>,
    state: u32,
    now: u64,
) -> Result<bool, Fail> {
    let ms = u64::from(state >> 16) % 64;
    let is_alike = if state >> 24 < 160 {
        start_in_both(timers, plain, ms, now)?
    } else {
        complete_in_both(timers, plain, now)
    };
    Ok(is_alike && are_due_alike(timers, plain))
}

fn compare(rt: &impl Abort, timers: &mut Timers, plain: &mut Vec<(u64, u64)>) -> Result<(), Fail> {
    let mut state: u32 = 1;
    for step in 0..1000u32 {
        state = state.wrapping_mul(1_103_515_245).wrapping_add(12_345);
        let is_alike = go_on(timers, plain, state, u64::from(step) * 1000)?;
        expect_met(rt, is_alike, step as usize);
    }
    Ok(())
}

#[test]
fn a_plain_list_completes_the_same_timers(rt: HostRuntime) -> Result<(), Fail> {
    let mut timers = Timers::new(rt.alloc());
    let mut plain: Vec<(u64, u64)> = Vec::new(rt.alloc());
    let compared = compare(&rt, &mut timers, &mut plain);
    let started = timers.starts_made();
    drop(timers);
    drop(plain);
    compared?;
    assert!(rt; started > 500);
    Ok(())
}
