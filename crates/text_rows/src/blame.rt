//! Which turns of a trace are long, and which call made them so.

use crate::rows::expect_met;
use std::alloc::Global;
use std::test::Fail;
use trace_blame::blame;
use trace_text::read_trace;

// Two idle callbacks, of which the first one is busy past its deadline.
const BUSY_IDLE: &[u8] =
    b"trace 1\n0 turn 1 dom\n0 call 1\n0 reg 2 idle\n0 reg 3 idle\n0 ret\n0 period 50000\n\
0 turn 2 idle\n0 idle 50000\n0 call 2\n0 log 50000\n60000 ret\n60000 turn 3 idle\n\
60000 period 110000\n60000 turn 4 idle\n60000 idle 110000\n60000 call 3\n60000 log 50000\n\
60000 ret\n60000 end done\n";

// The first of two outermost calls that are equally long, and the longest call inside another. A
// turn of exactly 50,000 microseconds is not long, and time that passes behind a turn's last line
// is not its own.
const NESTED: &[u8] =
    b"trace 1\n0 turn 1 dom\n0 call 1\n0 call 9\n30000 ret\n30000 ret\n30000 call 4\n60000 ret\n\
60000 wait 100000\n100000 turn 2 timer\n100000 call 2\n150000 ret\n150000 turn 3 dom\n\
150001 due 1\n250000 turn 4 none\n300001 due 1\n300001 end done\n";

// The call is open at the end.
const OPEN: &[u8] = b"trace 1\n5 turn 1 dom\n5 call 1\n6 call 2\n70000 log 1\n80000 end fuel\n";

fn is_blamed(alloc: Global, trace: &[u8], wanted: &[u8]) -> Result<bool, Fail> {
    let events = read_trace(alloc, trace)?;
    let text = blame(alloc, &events);
    drop(events);
    Ok(text?.as_slice() == wanted)
}

#[test]
fn long_turns_are_told_with_their_longest_call(rt: HostRuntime) -> Result<(), Fail> {
    const TABLE: [(&[u8], &[u8]); 3] = [
        (BUSY_IDLE, b"long 2 idle 0 60000 2\ntotal 1\n"),
        (
            NESTED,
            b"long 1 dom 0 60000 1\nlong 4 none 250000 50001 0\ntotal 2\n",
        ),
        (OPEN, b"long 1 dom 5 69995 1\ntotal 1\n"),
    ];
    for (number, (trace, wanted)) in TABLE.iter().enumerate() {
        expect_met(&rt, is_blamed(rt.alloc(), *trace, *wanted)?, number);
    }
    Ok(())
}
