//! Idle callbacks in the order of their requests, and the deadline of an idle period.

use crate::rows::expect_met;
use idle_periods::{Idle, deadline};
use page_base::Micros;
use std::alloc::Global;
use std::process::Abort;
use std::test::Fail;

// A call that changes the callbacks, and what it answers; or what is seen of them.
enum Step {
    Request(u32, u32),
    Cancel(u32, Option<u32>),
    CancelNumber(u64, Option<u32>),
    FindTimeout(u32, Option<u32>),
    Start,
    Pop(Option<u32>),
    See(Seen),
}

// What is seen of the callbacks.
enum Seen {
    Registration(u32, Option<u32>),
    Waiting(bool),
    Runnable(bool),
    Made(u32),
}

use Seen::{Made, Registration, Runnable, Waiting};
use Step::{Cancel, CancelNumber, FindTimeout, Pop, Request, See, Start};

fn take(rt: &impl Abort, idle: &mut Idle, step: &Step) -> Result<bool, Fail> {
    match step {
        Request(registration, handle) => {
            assert!(rt; idle.made() < 1000);
            Ok(idle.request(*registration)? == *handle)
        }
        Cancel(handle, found) => Ok(idle.cancel(*handle) == *found),
        CancelNumber(n, found) => Ok(idle.cancel_number(*n) == *found),
        FindTimeout(handle, found) => Ok(idle.find_timeout(*handle) == *found),
        Start => {
            idle.start()?;
            Ok(true)
        }
        Pop(registration) => Ok(idle.pop() == *registration),
        See(seen) => Ok(is_seen(idle, seen)),
    }
}

fn is_seen(idle: &Idle, seen: &Seen) -> bool {
    match seen {
        Registration(handle, found) => idle.registration(*handle) == *found,
        Waiting(waits) => idle.waiting() == *waits,
        Runnable(is_runnable) => idle.runnable() == *is_runnable,
        Made(n) => idle.made() == *n,
    }
}

fn take_all(rt: &impl Abort, alloc: Global, steps: &[Step]) -> Result<(), Fail> {
    let mut idle = Idle::new(alloc);
    for (number, step) in steps.iter().enumerate() {
        expect_met(rt, take(rt, &mut idle, step)?, number);
    }
    Ok(())
}

#[test]
fn callbacks_run_in_the_order_of_the_requests(rt: HostRuntime) -> Result<(), Fail> {
    const STEPS: [Step; 15] = [
        See(Waiting(false)),
        Request(2, 1),
        Request(3, 2),
        See(Waiting(true)),
        See(Runnable(false)),
        Pop(None),
        Start,
        Request(4, 3),
        Pop(Some(2)),
        See(Runnable(true)),
        Start,
        Pop(Some(3)),
        Pop(Some(4)),
        Pop(None),
        See(Waiting(false)),
    ];
    take_all(&rt, rt.alloc(), &STEPS)
}

#[test]
fn a_cancel_and_a_timeout_reach_both_lists(rt: HostRuntime) -> Result<(), Fail> {
    const STEPS: [Step; 15] = [
        Request(2, 1),
        Request(3, 2),
        Start,
        Request(4, 3),
        See(Registration(1, Some(2))),
        See(Registration(3, Some(4))),
        Cancel(1, Some(2)),
        See(Registration(1, None)),
        Cancel(1, None),
        CancelNumber(4_294_967_299, None),
        FindTimeout(3, Some(4)),
        FindTimeout(3, None),
        Pop(Some(3)),
        See(Waiting(false)),
        See(Made(3)),
    ];
    take_all(&rt, rt.alloc(), &STEPS)
}

// When a period begins, when a timer and a rendering are due next, and when the period ends.
const PERIODS: [(u64, Option<Micros>, Option<Micros>, u64); 5] = [
    (0, None, None, 50_000),
    (60_000, None, None, 110_000),
    (0, Some(Micros(20_000)), None, 20_000),
    (0, Some(Micros(60_000)), None, 50_000),
    (0, Some(Micros(20_000)), Some(Micros(16_666)), 16_666),
];

fn ends(start: u64, timer: Option<Micros>, render: Option<Micros>, end: u64) -> bool {
    start < 1_000_000 && deadline(Micros(start), timer, render) == Micros(end)
}

#[test]
fn a_period_ends_before_the_next_timer_and_rendering(rt: HostRuntime) {
    for (number, (start, timer, render, end)) in PERIODS.iter().enumerate() {
        expect_met(&rt, ends(*start, *timer, *render, *end), number);
    }
}
