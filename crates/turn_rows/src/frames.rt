//! Animation frames and idle periods.

use crate::driving::Step;
use crate::row::{Row, expect_rows};
use page_base::Source;
use std::test::Fail;

// A frame visits the callbacks that were there when it began and are there still. With 50 opportunities a second there is one every 20
// milliseconds.
const FRAMES: [Row; 1] = [Row {
    script: "fn c(t) { log(t); } fn b(t) { log(\"b\"); } \
        fn a(t) { log(t); cancelAnimationFrame(2); requestAnimationFrame(c); } \
        requestAnimationFrame(a); requestAnimationFrame(b);",
    arrivals: "page 1\nrefresh 50\n",
    steps: &[
        Step::Next,
        Step::Wait(20_000, 20_000),
        Step::Next,
        Step::Wait(40_000, 40_000),
        Step::Next,
        Step::Done,
    ],
    lines: "trace 1\n\
        0 turn 1 dom\n\
        0 call 1\n\
        0 reg 2 frame\n\
        0 reg 3 frame\n\
        0 ret\n\
        20000 wait 20000\n\
        20000 turn 2 render\n\
        20000 frame 20000\n\
        20000 call 2\n\
        20000 log 20000\n\
        20000 drop 3\n\
        20000 reg 4 frame\n\
        20000 ret\n\
        40000 wait 40000\n\
        40000 turn 3 render\n\
        40000 frame 40000\n\
        40000 call 4\n\
        40000 log 40000\n\
        40000 ret\n\
        40000 end done\n",
}];

// An idle period ends after 50 milliseconds, or where a timer is due before. The task of one that is over calls nothing, and the callback
// waits for the next one. The timer of the second row is due at 20 milliseconds, and its task was queued behind that of the idle callbacks.
const PERIODS: [Row; 2] = [
    Row {
        script: "fn a(d) { log(timeRemaining(d)); busy(60000); } fn b(d) { log(timeRemaining(d)); } \
            requestIdleCallback(a, 0); requestIdleCallback(b, 0);",
        arrivals: "page 1\n",
        steps: &[Step::Next, Step::Next, Step::Next, Step::Next, Step::Done],
        lines: "trace 1\n\
            0 turn 1 dom\n\
            0 call 1\n\
            0 reg 2 idle\n\
            0 reg 3 idle\n\
            0 ret\n\
            0 period 50000\n\
            0 turn 2 idle\n\
            0 idle 50000\n\
            0 call 2\n\
            0 log 50000\n\
            60000 ret\n\
            60000 turn 3 idle\n\
            60000 period 110000\n\
            60000 turn 4 idle\n\
            60000 idle 110000\n\
            60000 call 3\n\
            60000 log 50000\n\
            60000 ret\n\
            60000 end done\n",
    },
    Row {
        script: "fn a(d) { log(timeRemaining(d)); busy(60000); } fn b(d) { log(timeRemaining(d)); } \
            requestIdleCallback(a, 0); requestIdleCallback(b, 0); fn g() { } setTimeout(g, 20);",
        arrivals: "page 1\n",
        steps: &[
            Step::Next,
            Step::Next,
            Step::Serve(Source::Timer),
            Step::Serve(Source::Idle),
            Step::Serve(Source::Idle),
            Step::Done,
        ],
        lines: "trace 1\n\
            0 turn 1 dom\n\
            0 call 1\n\
            0 reg 2 idle\n\
            0 reg 3 idle\n\
            0 reg 4 timeout\n\
            0 arm 4 20000 1\n\
            0 ret\n\
            0 period 20000\n\
            0 turn 2 idle\n\
            0 idle 20000\n\
            0 call 2\n\
            0 log 20000\n\
            60000 ret\n\
            60000 due 4\n\
            60000 turn 3 timer\n\
            60000 call 4\n\
            60000 ret\n\
            60000 turn 4 idle\n\
            60000 period 110000\n\
            60000 turn 5 idle\n\
            60000 idle 110000\n\
            60000 call 3\n\
            60000 log 50000\n\
            60000 ret\n\
            60000 end done\n",
    },
];

// A callback whose timeout is due is called outside of a period. A period is not ended early, so a callback that is requested in one
// waits for its end, where a turn with no task starts the next.
const REQUESTS: [Row; 2] = [
    Row {
        script: "fn g() { log(\"g\"); } fn h() { setTimeout(g, 0); busy(15000); } \
            fn f(d) { log(didTimeout(d)); log(timeRemaining(d)); } \
            requestIdleCallback(f, 10); setTimeout(h, 0);",
        arrivals: "page 1\n",
        steps: &[Step::Next, Step::Next, Step::Next, Step::Next, Step::Done],
        lines: "trace 1\n\
            0 turn 1 dom\n\
            0 call 1\n\
            0 reg 2 idle\n\
            0 arm 2 10000 0\n\
            0 reg 3 timeout\n\
            0 arm 3 0 1\n\
            0 ret\n\
            0 due 3\n\
            0 turn 2 timer\n\
            0 call 3\n\
            0 reg 4 timeout\n\
            0 arm 4 0 2\n\
            15000 ret\n\
            15000 due 4\n\
            15000 due 2\n\
            15000 turn 3 timer\n\
            15000 call 4\n\
            15000 log \"g\"\n\
            15000 ret\n\
            15000 turn 4 idle\n\
            15000 call 2\n\
            15000 log true\n\
            15000 log 0\n\
            15000 ret\n\
            15000 end done\n",
    },
    Row {
        script: "fn b(d) { log(timeRemaining(d)); } fn a(d) { requestIdleCallback(b, 0); } \
            requestIdleCallback(a, 0);",
        arrivals: "page 1\n",
        steps: &[
            Step::Next,
            Step::Next,
            Step::Wait(50_000, 50_000),
            Step::Rest,
            Step::Next,
            Step::Done,
        ],
        lines: "trace 1\n\
            0 turn 1 dom\n\
            0 call 1\n\
            0 reg 2 idle\n\
            0 ret\n\
            0 period 50000\n\
            0 turn 2 idle\n\
            0 idle 50000\n\
            0 call 2\n\
            0 reg 3 idle\n\
            0 ret\n\
            50000 wait 50000\n\
            50000 turn 3 none\n\
            50000 period 100000\n\
            50000 turn 4 idle\n\
            50000 idle 100000\n\
            50000 call 3\n\
            50000 log 50000\n\
            50000 ret\n\
            50000 end done\n",
    },
];

#[test]
fn a_frame_visits_the_callbacks_of_its_beginning(rt: HostRuntime) -> Result<(), Fail> {
    expect_rows(&rt, rt.alloc(), &FRAMES)
}

#[test]
fn an_idle_period_ends_by_its_deadline(rt: HostRuntime) -> Result<(), Fail> {
    expect_rows(&rt, rt.alloc(), &PERIODS)
}

#[test]
fn idle_callbacks_wait_for_a_timeout_or_for_the_next_period(rt: HostRuntime) -> Result<(), Fail> {
    expect_rows(&rt, rt.alloc(), &REQUESTS)
}
