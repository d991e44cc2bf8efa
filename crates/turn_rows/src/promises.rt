//! Promises, their jobs and their rejections.

use crate::driving::Step;
use crate::row::{Row, expect_rows};
use std::test::Fail;

// A promise that is resolved with another one costs two jobs: one that subscribes to it, and one that takes its value on. So `x` is
// called between the second and the third handler of a chain that begins after it.
const JOBS: [Row; 1] = [Row {
    script: "fn a(v) { log(\"a\"); } fn b(v) { log(\"b\"); } fn c(v) { log(\"c\"); } fn x(v) { log(\"x\"); } \
        var p = promise(); resolve(p, resolved(1)); then(p, x, unit); \
        then(then(then(resolved(0), a, unit), b, unit), c, unit);",
    arrivals: "page 1\n",
    steps: &[Step::Next, Step::Checkpoint, Step::Done],
    lines: "trace 1\n\
        0 turn 1 dom\n\
        0 call 1\n\
        0 settle 2 ok 1\n\
        0 job 1 adopt 1\n\
        0 reg 2 then\n\
        0 settle 4 ok 0\n\
        0 reg 3 then\n\
        0 job 2 react 4\n\
        0 reg 4 then\n\
        0 reg 5 then\n\
        0 ret\n\
        0 run 1\n\
        0 job 3 react 2\n\
        0 run 2\n\
        0 call 3\n\
        0 log \"a\"\n\
        0 ret\n\
        0 settle 5 ok unit\n\
        0 job 4 react 5\n\
        0 run 3\n\
        0 settle 1 ok 1\n\
        0 job 5 react 1\n\
        0 run 4\n\
        0 call 4\n\
        0 log \"b\"\n\
        0 ret\n\
        0 settle 6 ok unit\n\
        0 job 6 react 6\n\
        0 run 5\n\
        0 call 2\n\
        0 log \"x\"\n\
        0 ret\n\
        0 settle 3 ok unit\n\
        0 run 6\n\
        0 call 5\n\
        0 log \"c\"\n\
        0 ret\n\
        0 settle 7 ok unit\n\
        0 end done\n",
}];

// A rejection is told in a task of its own, unless it is handled before the checkpoint is over; one that was told and is handled later
// is told once more.
const REJECTIONS: [Row; 3] = [
    Row {
        script: "rejected(\"x\");",
        arrivals: "page 1\n",
        steps: &[Step::Next, Step::Next, Step::Done],
        lines: "trace 1\n\
            0 turn 1 dom\n\
            0 call 1\n\
            0 settle 1 err \"x\"\n\
            0 ret\n\
            0 turn 2 dom\n\
            0 unhandled 1\n\
            0 end done\n",
    },
    Row {
        script: "var p = rejected(\"x\"); fn g(v) { } fn h() { then(p, unit, g); } queueMicrotask(h);",
        arrivals: "page 1\n",
        steps: &[Step::Next, Step::Done],
        lines: "trace 1\n\
            0 turn 1 dom\n\
            0 call 1\n\
            0 settle 1 err \"x\"\n\
            0 reg 2 micro\n\
            0 job 1 micro 2\n\
            0 ret\n\
            0 run 1\n\
            0 call 2\n\
            0 reg 3 then\n\
            0 job 2 react 1\n\
            0 ret\n\
            0 run 2\n\
            0 call 3\n\
            0 ret\n\
            0 settle 2 ok unit\n\
            0 end done\n",
    },
    Row {
        script: "var p = rejected(\"x\"); fn g(v) { } fn h() { then(p, unit, g); } setTimeout(h, 1);",
        arrivals: "page 1\n",
        steps: &[
            Step::Next,
            Step::Next,
            Step::Wait(1_000, 1_000),
            Step::Next,
            Step::Next,
            Step::Done,
        ],
        lines: "trace 1\n\
            0 turn 1 dom\n\
            0 call 1\n\
            0 settle 1 err \"x\"\n\
            0 reg 2 timeout\n\
            0 arm 2 1000 1\n\
            0 ret\n\
            0 turn 2 dom\n\
            0 unhandled 1\n\
            1000 wait 1000\n\
            1000 due 2\n\
            1000 turn 3 timer\n\
            1000 call 2\n\
            1000 reg 3 then\n\
            1000 job 1 react 1\n\
            1000 ret\n\
            1000 run 1\n\
            1000 call 3\n\
            1000 ret\n\
            1000 settle 2 ok unit\n\
            1000 turn 4 dom\n\
            1000 handled 1\n\
            1000 end done\n",
    },
];

#[test]
fn a_promise_that_follows_another_takes_two_jobs_more(rt: HostRuntime) -> Result<(), Fail> {
    expect_rows(&rt, rt.alloc(), &JOBS)
}

#[test]
fn a_rejection_is_told_where_nobody_handles_it(rt: HostRuntime) -> Result<(), Fail> {
    expect_rows(&rt, rt.alloc(), &REJECTIONS)
}
