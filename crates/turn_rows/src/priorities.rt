//! Scheduler tasks, their priorities, and the choice among task sources.

use crate::driving::Step;
use crate::row::{Row, expect_rows};
use page_base::Source;
use std::test::Fail;

// The priority counts that a task has when one is chosen; among equal ones the number of the task. A signal made by `taskAny` follows
// the priority of another one.
const POSTED: [Row; 3] = [
    Row {
        script: "fn a() { log(\"a\"); } fn b() { log(\"b\"); } fn e() { log(\"e\"); } \
            postTask(a, \"background\", unit, 0); postTask(b, \"user-visible\", unit, 0); \
            postTask(e, \"user-blocking\", unit, 0);",
        arrivals: "page 1\n",
        steps: &[Step::Next, Step::Next, Step::Next, Step::Next, Step::Done],
        lines: "trace 1\n\
            0 turn 1 dom\n\
            0 call 1\n\
            0 reg 2 post\n\
            0 enq 2 background task 2\n\
            0 reg 3 post\n\
            0 enq 3 user-visible task 3\n\
            0 reg 4 post\n\
            0 enq 4 user-blocking task 4\n\
            0 ret\n\
            0 turn 2 sched\n\
            0 call 4\n\
            0 log \"e\"\n\
            0 ret\n\
            0 settle 3 ok unit\n\
            0 turn 3 sched\n\
            0 call 3\n\
            0 log \"b\"\n\
            0 ret\n\
            0 settle 2 ok unit\n\
            0 turn 4 sched\n\
            0 call 2\n\
            0 log \"a\"\n\
            0 ret\n\
            0 settle 1 ok unit\n\
            0 end done\n",
    },
    Row {
        script: "fn a() { log(\"a\"); } fn b() { log(\"b\"); } fn e() { log(\"e\"); } \
            var c = taskController(\"background\"); postTask(a, unit, signal(c), 0); \
            postTask(b, \"user-visible\", unit, 0); postTask(e, \"user-blocking\", unit, 0); \
            setPriority(c, \"user-blocking\");",
        arrivals: "page 1\n",
        steps: &[Step::Next, Step::Next, Step::Next, Step::Next, Step::Done],
        lines: "trace 1\n\
            0 turn 1 dom\n\
            0 call 1\n\
            0 prio 1 background\n\
            0 reg 2 post\n\
            0 enq 2 s1 task 2\n\
            0 reg 3 post\n\
            0 enq 3 user-visible task 3\n\
            0 reg 4 post\n\
            0 enq 4 user-blocking task 4\n\
            0 prio 1 user-blocking\n\
            0 ret\n\
            0 turn 2 sched\n\
            0 call 2\n\
            0 log \"a\"\n\
            0 ret\n\
            0 settle 1 ok unit\n\
            0 turn 3 sched\n\
            0 call 4\n\
            0 log \"e\"\n\
            0 ret\n\
            0 settle 3 ok unit\n\
            0 turn 4 sched\n\
            0 call 3\n\
            0 log \"b\"\n\
            0 ret\n\
            0 settle 2 ok unit\n\
            0 end done\n",
    },
    Row {
        script: "fn a() { log(\"a\"); } fn b() { log(\"b\"); } \
            var c = taskController(\"background\"); postTask(a, unit, taskAny([], signal(c)), 0); \
            postTask(b, \"user-visible\", unit, 0); setPriority(c, \"user-blocking\");",
        arrivals: "page 1\n",
        steps: &[Step::Next, Step::Next, Step::Next, Step::Done],
        lines: "trace 1\n\
            0 turn 1 dom\n\
            0 call 1\n\
            0 prio 1 background\n\
            0 prio 2 background\n\
            0 reg 2 post\n\
            0 enq 2 s2 task 2\n\
            0 reg 3 post\n\
            0 enq 3 user-visible task 3\n\
            0 prio 1 user-blocking\n\
            0 prio 2 user-blocking\n\
            0 ret\n\
            0 turn 2 sched\n\
            0 call 2\n\
            0 log \"a\"\n\
            0 ret\n\
            0 settle 1 ok unit\n\
            0 turn 3 sched\n\
            0 call 3\n\
            0 log \"b\"\n\
            0 ret\n\
            0 settle 2 ok unit\n\
            0 end done\n",
    },
];

// The priority of a signal is not changed while a change of it goes on. A continuation goes before what was posted earlier with its
// priority, and takes no unit and runs no script.
const CHANGES: [Row; 2] = [
    Row {
        script: "var c = taskController(\"background\"); \
            fn l(s, old) { log(old); setPriority(c, \"user-blocking\"); } \
            listen(signal(c), \"prioritychange\", l); setPriority(c, \"user-visible\"); \
            log(priority(signal(c)));",
        arrivals: "page 1\n",
        steps: &[Step::Next, Step::Done],
        lines: "trace 1\n\
            0 turn 1 dom\n\
            0 call 1\n\
            0 prio 1 background\n\
            0 reg 2 listener\n\
            0 prio 1 user-visible\n\
            0 call 2\n\
            0 log \"background\"\n\
            0 throw NotAllowedError(\"\")\n\
            0 report NotAllowedError(\"\")\n\
            0 log \"user-visible\"\n\
            0 ret\n\
            0 end done\n",
    },
    Row {
        script: "fn y(v) { log(\"y\"); } fn b() { log(\"b\"); } \
            fn a() { log(\"a\"); then(yieldTask(), y, unit); } \
            postTask(a, unit, unit, 0); postTask(b, unit, unit, 0);",
        arrivals: "page 1\n",
        steps: &[Step::Next, Step::Next, Step::Next, Step::Next, Step::Done],
        lines: "trace 1\n\
            0 turn 1 dom\n\
            0 call 1\n\
            0 reg 2 post\n\
            0 enq 2 user-visible task 2\n\
            0 reg 3 post\n\
            0 enq 3 user-visible task 3\n\
            0 ret\n\
            0 turn 2 sched\n\
            0 call 2\n\
            0 log \"a\"\n\
            0 reg 4 yield\n\
            0 enq 4 user-visible cont 4\n\
            0 reg 5 then\n\
            0 ret\n\
            0 settle 1 ok unit\n\
            0 turn 3 sched\n\
            0 call 4\n\
            0 settle 3 ok unit\n\
            0 job 1 react 3\n\
            0 ret\n\
            0 run 1\n\
            0 call 5\n\
            0 log \"y\"\n\
            0 ret\n\
            0 settle 4 ok unit\n\
            0 turn 4 sched\n\
            0 call 3\n\
            0 log \"b\"\n\
            0 ret\n\
            0 settle 2 ok unit\n\
            0 end done\n",
    },
];

// A timer's task and a scheduler task are both runnable: the one goes first whose source is served.
const SOURCES: [Row; 2] = [
    Row {
        script: "fn t() { log(\"t\"); } fn a() { log(\"a\"); } setTimeout(t, 0); postTask(a, unit, unit, 0);",
        arrivals: "page 1\npolicy rank timer sched user render net dom idle\n",
        steps: &[
            Step::Serve(Source::Dom),
            Step::Serve(Source::Timer),
            Step::Serve(Source::Sched),
            Step::Done,
        ],
        lines: "trace 1\n\
            0 turn 1 dom\n\
            0 call 1\n\
            0 reg 2 timeout\n\
            0 arm 2 0 1\n\
            0 reg 3 post\n\
            0 enq 3 user-visible task 2\n\
            0 ret\n\
            0 due 2\n\
            0 turn 2 timer\n\
            0 call 2\n\
            0 log \"t\"\n\
            0 ret\n\
            0 turn 3 sched\n\
            0 call 3\n\
            0 log \"a\"\n\
            0 ret\n\
            0 settle 1 ok unit\n\
            0 end done\n",
    },
    Row {
        script: "fn t() { log(\"t\"); } fn a() { log(\"a\"); } setTimeout(t, 0); postTask(a, unit, unit, 0);",
        arrivals: "page 1\n",
        steps: &[
            Step::Serve(Source::Dom),
            Step::Serve(Source::Sched),
            Step::Serve(Source::Timer),
            Step::Done,
        ],
        lines: "trace 1\n\
            0 turn 1 dom\n\
            0 call 1\n\
            0 reg 2 timeout\n\
            0 arm 2 0 1\n\
            0 reg 3 post\n\
            0 enq 3 user-visible task 2\n\
            0 ret\n\
            0 due 2\n\
            0 turn 2 sched\n\
            0 call 3\n\
            0 log \"a\"\n\
            0 ret\n\
            0 settle 1 ok unit\n\
            0 turn 3 timer\n\
            0 call 2\n\
            0 log \"t\"\n\
            0 ret\n\
            0 end done\n",
    },
];

#[test]
fn the_task_of_the_greatest_priority_now_goes_first(rt: HostRuntime) -> Result<(), Fail> {
    expect_rows(&rt, rt.alloc(), &POSTED)
}

#[test]
fn priorities_change_and_tasks_go_on_behind_a_yield(rt: HostRuntime) -> Result<(), Fail> {
    expect_rows(&rt, rt.alloc(), &CHANGES)
}

#[test]
fn the_source_that_is_served_decides(rt: HostRuntime) -> Result<(), Fail> {
    expect_rows(&rt, rt.alloc(), &SOURCES)
}
