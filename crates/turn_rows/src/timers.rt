//! The script, its timers and what it throws.

use crate::driving::Step;
use crate::row::{Row, expect_rows};
use std::test::Fail;

// The logs and faults of a script alone. A call inside the script is no callback, and has no line.
const SCRIPTS: [Row; 3] = [
    Row {
        script: "log(1 + 2);",
        arrivals: "page 1\n",
        steps: &[Step::Next, Step::Done],
        lines: "trace 1\n\
            0 turn 1 dom\n\
            0 call 1\n\
            0 log 3\n\
            0 ret\n\
            0 end done\n",
    },
    Row {
        script: "",
        arrivals: "page 1\nroom 3\n",
        steps: &[Step::HasRoom(3), Step::Next, Step::Done],
        lines: "trace 1\n\
            0 turn 1 dom\n\
            0 call 1\n\
            0 ret\n\
            0 end done\n",
    },
    Row {
        script: "try { throw 5; } catch (e) { log(e); } log([1, \"a\", [true]]); \
            fn h(a, b) { log(a + b); } var k = bind(h, [\"x\"]); log(k); k(\"y\"); log(7 / 0);",
        arrivals: "page 1\n",
        steps: &[Step::Next, Step::Done],
        lines: "trace 1\n\
            0 turn 1 dom\n\
            0 call 1\n\
            0 log 5\n\
            0 log [1,\"a\",[true]]\n\
            0 log fn:h(\"x\")\n\
            0 log \"xy\"\n\
            0 throw RangeError(\"\")\n\
            0 report RangeError(\"\")\n\
            0 end done\n",
    },
];

// Timers that are due together complete in the order of their starts. A timeout is taken modulo 2^32 into the range of a signed number of
// 32 bits: 2147483648 becomes the least one, and so 0.
const TIMERS: [Row; 3] = [
    Row {
        script: "fn a() { log(\"a\"); } fn b() { log(\"b\"); } setTimeout(a, 10); busy(5000); setTimeout(b, 5);",
        arrivals: "page 1\n",
        steps: &[
            Step::Next,
            Step::Wait(10_000, 10_000),
            Step::Next,
            Step::Next,
            Step::Done,
        ],
        lines: "trace 1\n\
            0 turn 1 dom\n\
            0 call 1\n\
            0 reg 2 timeout\n\
            0 arm 2 10000 1\n\
            5000 reg 3 timeout\n\
            5000 arm 3 10000 1\n\
            5000 ret\n\
            10000 wait 10000\n\
            10000 due 2\n\
            10000 due 3\n\
            10000 turn 2 timer\n\
            10000 call 2\n\
            10000 log \"a\"\n\
            10000 ret\n\
            10000 turn 3 timer\n\
            10000 call 3\n\
            10000 log \"b\"\n\
            10000 ret\n\
            10000 end done\n",
    },
    Row {
        script: "fn f() { log(now()); } setTimeout(f, 2147483648);",
        arrivals: "page 1\n",
        steps: &[Step::Next, Step::Next, Step::Done],
        lines: "trace 1\n\
            0 turn 1 dom\n\
            0 call 1\n\
            0 reg 2 timeout\n\
            0 arm 2 0 1\n\
            0 ret\n\
            0 due 2\n\
            0 turn 2 timer\n\
            0 call 2\n\
            0 log 0\n\
            0 ret\n\
            0 end done\n",
    },
    Row {
        script: "fn f() { log(now()); } setTimeout(f, 2147483647);",
        arrivals: "page 1\n",
        steps: &[Step::Next, Step::TimeUp(2_147_483_647_000)],
        lines: "trace 1\n\
            0 turn 1 dom\n\
            0 call 1\n\
            0 reg 2 timeout\n\
            0 arm 2 2147483647000 1\n\
            0 ret\n\
            10000000 end clock\n",
    },
];

// Nesting: the task of a timer of level 6 clamps a timeout of 0 to four milliseconds. The next waits would be past the end.
const NESTED: [Row; 2] = [
    Row {
        script: "fn f() { log(now()); setTimeout(f, 0); } setTimeout(f, 0);",
        arrivals: "page 1\nuntil 10000\n",
        steps: &[
            Step::Next,
            Step::Next,
            Step::Next,
            Step::Next,
            Step::Next,
            Step::Next,
            Step::Next,
            Step::Wait(4_000, 4_000),
            Step::Next,
            Step::Wait(8_000, 8_000),
            Step::Next,
            Step::TimeUp(12_000),
        ],
        lines: "trace 1\n\
            0 turn 1 dom\n\
            0 call 1\n\
            0 reg 2 timeout\n\
            0 arm 2 0 1\n\
            0 ret\n\
            0 due 2\n\
            0 turn 2 timer\n\
            0 call 2\n\
            0 log 0\n\
            0 reg 3 timeout\n\
            0 arm 3 0 2\n\
            0 ret\n\
            0 due 3\n\
            0 turn 3 timer\n\
            0 call 3\n\
            0 log 0\n\
            0 reg 4 timeout\n\
            0 arm 4 0 3\n\
            0 ret\n\
            0 due 4\n\
            0 turn 4 timer\n\
            0 call 4\n\
            0 log 0\n\
            0 reg 5 timeout\n\
            0 arm 5 0 4\n\
            0 ret\n\
            0 due 5\n\
            0 turn 5 timer\n\
            0 call 5\n\
            0 log 0\n\
            0 reg 6 timeout\n\
            0 arm 6 0 5\n\
            0 ret\n\
            0 due 6\n\
            0 turn 6 timer\n\
            0 call 6\n\
            0 log 0\n\
            0 reg 7 timeout\n\
            0 arm 7 0 6\n\
            0 ret\n\
            0 due 7\n\
            0 turn 7 timer\n\
            0 call 7\n\
            0 log 0\n\
            0 reg 8 timeout\n\
            0 arm 8 4000 7\n\
            0 ret\n\
            4000 wait 4000\n\
            4000 due 8\n\
            4000 turn 8 timer\n\
            4000 call 8\n\
            4000 log 4000\n\
            4000 reg 9 timeout\n\
            4000 arm 9 8000 8\n\
            4000 ret\n\
            8000 wait 8000\n\
            8000 due 9\n\
            8000 turn 9 timer\n\
            8000 call 9\n\
            8000 log 8000\n\
            8000 reg 10 timeout\n\
            8000 arm 10 12000 9\n\
            8000 ret\n\
            10000 end clock\n",
    },
    Row {
        script: "fn f() { log(now()); } setInterval(f, 0);",
        arrivals: "page 1\nuntil 10000\n",
        steps: &[
            Step::Next,
            Step::Next,
            Step::Next,
            Step::Next,
            Step::Next,
            Step::Next,
            Step::Next,
            Step::Wait(4_000, 4_000),
            Step::Next,
            Step::Wait(8_000, 8_000),
            Step::Next,
            Step::TimeUp(12_000),
        ],
        lines: "trace 1\n\
            0 turn 1 dom\n\
            0 call 1\n\
            0 reg 2 interval\n\
            0 arm 2 0 1\n\
            0 ret\n\
            0 due 2\n\
            0 turn 2 timer\n\
            0 call 2\n\
            0 log 0\n\
            0 ret\n\
            0 arm 2 0 2\n\
            0 due 2\n\
            0 turn 3 timer\n\
            0 call 2\n\
            0 log 0\n\
            0 ret\n\
            0 arm 2 0 3\n\
            0 due 2\n\
            0 turn 4 timer\n\
            0 call 2\n\
            0 log 0\n\
            0 ret\n\
            0 arm 2 0 4\n\
            0 due 2\n\
            0 turn 5 timer\n\
            0 call 2\n\
            0 log 0\n\
            0 ret\n\
            0 arm 2 0 5\n\
            0 due 2\n\
            0 turn 6 timer\n\
            0 call 2\n\
            0 log 0\n\
            0 ret\n\
            0 arm 2 0 6\n\
            0 due 2\n\
            0 turn 7 timer\n\
            0 call 2\n\
            0 log 0\n\
            0 ret\n\
            0 arm 2 4000 7\n\
            4000 wait 4000\n\
            4000 due 2\n\
            4000 turn 8 timer\n\
            4000 call 2\n\
            4000 log 4000\n\
            4000 ret\n\
            4000 arm 2 8000 8\n\
            8000 wait 8000\n\
            8000 due 2\n\
            8000 turn 9 timer\n\
            8000 call 2\n\
            8000 log 8000\n\
            8000 ret\n\
            8000 arm 2 12000 9\n\
            10000 end clock\n",
    },
];

#[test]
fn a_script_runs_in_the_first_turn(rt: HostRuntime) -> Result<(), Fail> {
    expect_rows(&rt, rt.alloc(), &SCRIPTS)
}

#[test]
fn timers_complete_in_the_order_of_due_time_and_start(rt: HostRuntime) -> Result<(), Fail> {
    expect_rows(&rt, rt.alloc(), &TIMERS)
}

#[test]
fn nested_timers_are_clamped(rt: HostRuntime) -> Result<(), Fail> {
    expect_rows(&rt, rt.alloc(), &NESTED)
}
