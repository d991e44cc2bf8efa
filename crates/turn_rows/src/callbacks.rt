//! Callbacks that are invoked alone.

use crate::driving::{Call, Step};
use crate::row::{Row, expect_rows};
use std::test::Fail;

// Both handlers of a `then`, of which a throw is not reported; and a listener, whose throw is reported behind the checkpoint. A checkpoint
// with nothing to do writes nothing.
const CALLBACKS: [Row; 2] = [
    Row {
        script: "fn m() { log(\"m\"); } fn f(v) { queueMicrotask(m); log(v); return v + 1; } \
            fn g(v) { log(\"g\"); throw v - 1; } then(promise(), f, g);",
        arrivals: "page 1\n",
        steps: &[
            Step::Next,
            Step::Invoke(Call {
                registration: 2,
                second: false,
                number: 5,
                gives: Ok(6),
            }),
            Step::Invoke(Call {
                registration: 2,
                second: true,
                number: 5,
                gives: Err(4),
            }),
            Step::Checkpoint,
            Step::Done,
        ],
        lines: "trace 1\n\
            0 turn 1 dom\n\
            0 call 1\n\
            0 reg 2 then\n\
            0 ret\n\
            0 call 2\n\
            0 reg 3 micro\n\
            0 job 1 micro 3\n\
            0 log 5\n\
            0 ret\n\
            0 run 1\n\
            0 call 3\n\
            0 log \"m\"\n\
            0 ret\n\
            0 call 2\n\
            0 log \"g\"\n\
            0 throw 4\n\
            0 end done\n",
    },
    Row {
        script: "fn m() { log(\"m\"); } fn l(v) { queueMicrotask(m); throw v; } listen(unit, \"a\", l);",
        arrivals: "page 1\n",
        steps: &[
            Step::Next,
            Step::Invoke(Call {
                registration: 2,
                second: false,
                number: 7,
                gives: Err(7),
            }),
            Step::Done,
        ],
        lines: "trace 1\n\
            0 turn 1 dom\n\
            0 call 1\n\
            0 reg 2 listener\n\
            0 ret\n\
            0 call 2\n\
            0 reg 3 micro\n\
            0 job 1 micro 3\n\
            0 throw 7\n\
            0 run 1\n\
            0 call 3\n\
            0 log \"m\"\n\
            0 ret\n\
            0 report 7\n\
            0 end done\n",
    },
];

#[test]
fn a_callback_gives_or_throws_and_a_checkpoint_follows(rt: HostRuntime) -> Result<(), Fail> {
    expect_rows(&rt, rt.alloc(), &CALLBACKS)
}
