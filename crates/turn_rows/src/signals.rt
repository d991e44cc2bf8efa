//! Abort signals and their listeners.

use crate::driving::Step;
use crate::row::{Row, expect_rows};
use std::test::Fail;

// Between two listeners that a task calls stands a checkpoint. There is none between those that a script's own `abort` calls.
const LISTENERS: [Row; 2] = [
    Row {
        script: "fn m1() { log(\"m1\"); } fn m2() { log(\"m2\"); } \
            fn l1(s) { log(\"L1\"); queueMicrotask(m1); } fn l2(s) { log(\"L2\"); queueMicrotask(m2); } \
            var t = timeoutSignal(5); listen(t, \"abort\", l1); listen(t, \"abort\", l2);",
        arrivals: "page 1\n",
        steps: &[Step::Next, Step::Wait(5_000, 5_000), Step::Next, Step::Done],
        lines: "trace 1\n\
            0 turn 1 dom\n\
            0 call 1\n\
            0 reg 2 signal\n\
            0 arm 2 5000 0\n\
            0 reg 3 listener\n\
            0 reg 4 listener\n\
            0 ret\n\
            5000 wait 5000\n\
            5000 due 2\n\
            5000 turn 2 timer\n\
            5000 abort 1\n\
            5000 call 3\n\
            5000 log \"L1\"\n\
            5000 reg 5 micro\n\
            5000 job 1 micro 5\n\
            5000 ret\n\
            5000 run 1\n\
            5000 call 5\n\
            5000 log \"m1\"\n\
            5000 ret\n\
            5000 call 4\n\
            5000 log \"L2\"\n\
            5000 reg 6 micro\n\
            5000 job 2 micro 6\n\
            5000 ret\n\
            5000 run 2\n\
            5000 call 6\n\
            5000 log \"m2\"\n\
            5000 ret\n\
            5000 end done\n",
    },
    Row {
        script: "fn m1() { log(\"m1\"); } fn m2() { log(\"m2\"); } \
            fn l1(s) { log(\"L1\"); queueMicrotask(m1); } fn l2(s) { log(\"L2\"); queueMicrotask(m2); } \
            var c = controller(); var t = signal(c); listen(t, \"abort\", l1); listen(t, \"abort\", l2); \
            abort(c, unit);",
        arrivals: "page 1\n",
        steps: &[Step::Next, Step::Done],
        lines: "trace 1\n\
            0 turn 1 dom\n\
            0 call 1\n\
            0 reg 2 listener\n\
            0 reg 3 listener\n\
            0 abort 1\n\
            0 call 2\n\
            0 log \"L1\"\n\
            0 reg 4 micro\n\
            0 job 1 micro 4\n\
            0 ret\n\
            0 call 3\n\
            0 log \"L2\"\n\
            0 reg 5 micro\n\
            0 job 2 micro 5\n\
            0 ret\n\
            0 ret\n\
            0 run 1\n\
            0 call 4\n\
            0 log \"m1\"\n\
            0 ret\n\
            0 run 2\n\
            0 call 5\n\
            0 log \"m2\"\n\
            0 ret\n\
            0 end done\n",
    },
];

// The reason is set on all dependents before the first listener is called. A signal that depends on an aborted one, here on the fourth of
// the second row, takes its reason and depends on nothing.
const DEPENDENTS: [Row; 2] = [
    Row {
        script: "var c = controller(); var s = signal(c); var d = anySignal([s]); \
            fn l(x) { log(aborted(d)); } fn e(x) { log(\"d\"); } \
            listen(s, \"abort\", l); listen(d, \"abort\", e); abort(c, \"why\"); log(reason(d));",
        arrivals: "page 1\n",
        steps: &[Step::Next, Step::Done],
        lines: "trace 1\n\
            0 turn 1 dom\n\
            0 call 1\n\
            0 reg 2 listener\n\
            0 reg 3 listener\n\
            0 abort 1\n\
            0 abort 2\n\
            0 call 2\n\
            0 log true\n\
            0 ret\n\
            0 call 3\n\
            0 log \"d\"\n\
            0 ret\n\
            0 log \"why\"\n\
            0 ret\n\
            0 end done\n",
    },
    Row {
        script: "var c = controller(); var s = signal(c); var d = anySignal([s]); \
            fn l(x) { log(aborted(d)); } fn e(x) { log(\"d\"); } \
            listen(s, \"abort\", l); listen(d, \"abort\", e); \
            log(reason(anySignal([s, abortedSignal(\"no\")]))); abort(c, \"why\"); log(reason(d));",
        arrivals: "page 1\n",
        steps: &[Step::Next, Step::Done],
        lines: "trace 1\n\
            0 turn 1 dom\n\
            0 call 1\n\
            0 reg 2 listener\n\
            0 reg 3 listener\n\
            0 log \"no\"\n\
            0 abort 1\n\
            0 abort 2\n\
            0 call 2\n\
            0 log true\n\
            0 ret\n\
            0 call 3\n\
            0 log \"d\"\n\
            0 ret\n\
            0 log \"why\"\n\
            0 ret\n\
            0 end done\n",
    },
];

// What a posted callback gives counts for nothing once its signal was aborted.
const POSTS: [Row; 1] = [Row {
    script: "var c = controller(); fn f() { abort(c, unit); return 1; } postTask(f, unit, signal(c), 0);",
    arrivals: "page 1\n",
    steps: &[Step::Next, Step::Next, Step::Next, Step::Done],
    lines: "trace 1\n\
        0 turn 1 dom\n\
        0 call 1\n\
        0 reg 2 post\n\
        0 enq 2 user-visible task 2\n\
        0 ret\n\
        0 turn 2 sched\n\
        0 call 2\n\
        0 abort 1\n\
        0 settle 1 err AbortError(\"\")\n\
        0 ret\n\
        0 turn 3 dom\n\
        0 unhandled 1\n\
        0 end done\n",
}];

#[test]
fn listeners_in_a_task_are_parted_by_checkpoints(rt: HostRuntime) -> Result<(), Fail> {
    expect_rows(&rt, rt.alloc(), &LISTENERS)
}

#[test]
fn dependents_are_aborted_before_listeners_are_called(rt: HostRuntime) -> Result<(), Fail> {
    expect_rows(&rt, rt.alloc(), &DEPENDENTS)
}

#[test]
fn an_abort_during_a_posted_callback_rejects_its_promise(rt: HostRuntime) -> Result<(), Fail> {
    expect_rows(&rt, rt.alloc(), &POSTS)
}
