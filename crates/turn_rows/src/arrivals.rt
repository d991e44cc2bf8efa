//! What comes from outside, and what goes there.

use crate::driving::Step;
use crate::row::{Row, expect_rows};
use page_base::Source;
use std::test::Fail;

// Two events are there at the beginning, which a listener of the window gets in the order of their turns. The second event of the third row
// is handed to the page while the first waits in its queue.
const EVENTS: [Row; 3] = [
    Row {
        script: "fn f(v) { log(v); } listen(unit, \"a\", f);",
        arrivals: "page 1\npolicy fifo\nat 0 net a 1\nat 0 user a 2\n",
        steps: &[Step::Next, Step::Next, Step::Next, Step::Done],
        lines: "trace 1\n\
            0 turn 1 dom\n\
            0 call 1\n\
            0 reg 2 listener\n\
            0 ret\n\
            0 turn 2 net\n\
            0 call 2\n\
            0 log 1\n\
            0 ret\n\
            0 turn 3 user\n\
            0 call 2\n\
            0 log 2\n\
            0 ret\n\
            0 end done\n",
    },
    Row {
        script: "fn f(v) { log(v); } listen(unit, \"a\", f);",
        arrivals: "page 1\nat 0 net a 1\nat 0 user a 2\n",
        steps: &[
            Step::Next,
            Step::Serve(Source::User),
            Step::Serve(Source::Net),
            Step::Done,
        ],
        lines: "trace 1\n\
            0 turn 1 dom\n\
            0 call 1\n\
            0 reg 2 listener\n\
            0 ret\n\
            0 turn 2 user\n\
            0 call 2\n\
            0 log 2\n\
            0 ret\n\
            0 turn 3 net\n\
            0 call 2\n\
            0 log 1\n\
            0 ret\n\
            0 end done\n",
    },
    Row {
        script: "fn f(v) { log(v); } listen(unit, \"a\", f);",
        arrivals: "page 1\nat 0 net a 1\n",
        steps: &[
            Step::Next,
            Step::Arrive(2),
            Step::Next,
            Step::Next,
            Step::Done,
        ],
        lines: "trace 1\n\
            0 turn 1 dom\n\
            0 call 1\n\
            0 reg 2 listener\n\
            0 ret\n\
            0 turn 2 net\n\
            0 call 2\n\
            0 log 1\n\
            0 ret\n\
            0 turn 3 user\n\
            0 call 2\n\
            0 log 2\n\
            0 ret\n\
            0 end done\n",
    },
];

// Each click clears the timer that saves and sets it anew. The first wait ends late by 500 microseconds; a cleared timer is due all the
// same, and its task does nothing.
const CLICKS: [Row; 1] = [Row {
    script: "var id = 0; fn save() { log(\"save\"); } \
        fn click(v) { clearTimeout(id); id = setTimeout(save, 300); } listen(unit, \"click\", click);",
    arrivals: "page 1\nlate 500\nat 1000 user click 1\nat 200000 user click 2\n",
    steps: &[
        Step::Next,
        Step::Wait(1_000, 1_500),
        Step::Next,
        Step::Wait(200_000, 200_000),
        Step::Next,
        Step::Wait(301_500, 301_500),
        Step::Next,
        Step::Wait(500_000, 500_000),
        Step::Next,
        Step::Done,
    ],
    lines: "trace 1\n\
        0 turn 1 dom\n\
        0 call 1\n\
        0 reg 2 listener\n\
        0 ret\n\
        1500 wait 1000\n\
        1500 turn 2 user\n\
        1500 call 2\n\
        1500 reg 3 timeout\n\
        1500 arm 3 301500 1\n\
        1500 ret\n\
        200000 wait 200000\n\
        200000 turn 3 user\n\
        200000 call 2\n\
        200000 drop 3\n\
        200000 reg 4 timeout\n\
        200000 arm 4 500000 1\n\
        200000 ret\n\
        301500 wait 301500\n\
        301500 due 3\n\
        301500 turn 4 timer\n\
        500000 wait 500000\n\
        500000 due 4\n\
        500000 turn 5 timer\n\
        500000 call 4\n\
        500000 log \"save\"\n\
        500000 ret\n\
        500000 end done\n",
}];

// A message goes to a port from 1 to 64, and is handed over once.
const MESSAGES: [Row; 1] = [Row {
    script: "postMessage(3, [1, \"a\"]); postMessage(0, 1);",
    arrivals: "page 1\n",
    steps: &[
        Step::Next,
        Step::TakePosts(1),
        Step::TakePosts(0),
        Step::Done,
    ],
    lines: "trace 1\n\
        0 turn 1 dom\n\
        0 call 1\n\
        0 send 3 [1,\"a\"]\n\
        0 throw TypeError(\"\")\n\
        0 report TypeError(\"\")\n\
        0 end done\n",
}];

#[test]
fn events_reach_listeners_in_the_order_of_their_turns(rt: HostRuntime) -> Result<(), Fail> {
    expect_rows(&rt, rt.alloc(), &EVENTS)
}

#[test]
fn a_page_saves_once_after_the_last_click(rt: HostRuntime) -> Result<(), Fail> {
    expect_rows(&rt, rt.alloc(), &CLICKS)
}

#[test]
fn messages_are_handed_over_once(rt: HostRuntime) -> Result<(), Fail> {
    expect_rows(&rt, rt.alloc(), &MESSAGES)
}
