//! Whole traces, and the line at which each of some others is refused.

use crate::rows::expect_met;
use page_io::MemSink;
use std::alloc::Global;
use std::test::Fail;
use trace_text::{BadLine, Events, LineSink, Lines, TraceFault, read_trace};

// A timer is served before the scheduler.
pub(crate) const TIMER_FIRST: &[u8] =
    b"trace 1\n0 turn 1 dom\n0 call 1\n0 reg 2 timeout\n0 arm 2 0 1\n0 reg 3 post\n0 enq 3 user-visible task 2\n\
0 ret\n0 due 2\n0 turn 2 timer\n0 call 2\n0 log \"t\"\n0 ret\n0 turn 3 sched\n0 call 3\n0 log \"a\"\n0 ret\n\
0 settle 1 ok unit\n0 end done\n";

const EACH_KIND: &[u8] =
    b"trace 1\n0 turn 18446744073709551615 none\n1 turn 1 sched\n1 call 0\n1 ret\n\
2 throw RangeError(\"\")\n2 report \"a b\"\n2 log [1,unit]\n3 reg 1 interval\n3 reg 2 signal\n3 arm 1 4000 5\n3 due 1\n\
3 drop 1\n4 job 1 micro 1\n4 job 2 react 10\n4 job 3 adopt 100\n4 run 1\n4 settle 1 ok \"ok v\"\n4 settle 1 err -5\n\
5 period 50000\n5 idle 50000\n5 frame 16666\n6 enq 1 user-blocking cont 1\n6 enq 2 s0 task 2\n6 prio 1 user-visible\n\
6 abort 1\n7 wait 10\n8 host 0 -9223372036854775808 ok 9223372036854775807\n8 host 4095 0 err -1\n8 unhandled 1\n\
9 handled 1\n9 send 64 unit\n18446744073709551615 end clock\n";

// Who registered is told, and a message is sent.
const SECOND_FORM: &[u8] =
    b"trace 2\n0 turn 1 dom\n0 call 1\n0 reg 2 frame 1\n0 reg 3 frame 1\n0 send 3 [1,\"a\"]\n\
0 throw TypeError(\"\")\n0 report TypeError(\"\")\n20000 reg 4 frame 2\n20000 end done\n";

/// Each event of the trace is taken.
pub(crate) fn takes_each<L: Lines>(lines: &mut L, events: &Events) -> bool {
    for event in events.items() {
        if lines.emit(event) != Ok(()) {
            return false;
        }
    }
    true
}

// The lines of the trace, as they stand there, are written.
fn are_written(alloc: Global, events: &Events, trace: &[u8]) -> Result<bool, Fail> {
    let mut lines = LineSink::new(alloc, MemSink::new(alloc, 4000, Vec::new(alloc))?);
    let are_taken = lines.head(events.form()) == Ok(()) && takes_each(&mut lines, events);
    let sink = lines.into_sink();
    let are_written = are_taken && sink.bytes() == trace;
    drop(sink);
    Ok(are_written)
}

// The trace is read in its form, and its lines are written as they stand there.
fn is_read(alloc: Global, form: u32, trace: &[u8]) -> Result<bool, Fail> {
    let events = read_trace(alloc, trace)?;
    let are_written = are_written(alloc, &events, trace);
    let is_form = events.form() == form;
    drop(events);
    let are_written = are_written?;
    Ok(is_form && are_written)
}

/// The trace is refused for this, or read.
pub(crate) fn has_fault(alloc: Global, trace: &[u8], fault: Option<TraceFault>) -> bool {
    read_trace(alloc, trace).err() == fault
}

fn is_refused(alloc: Global, trace: &[u8], line: usize) -> bool {
    has_fault(alloc, trace, Some(TraceFault::Is(BadLine { line })))
}

#[test]
fn traces_are_read_and_written_back(rt: HostRuntime) -> Result<(), Fail> {
    const TRACES: [(u32, &[u8]); 3] = [(1, TIMER_FIRST), (1, EACH_KIND), (2, SECOND_FORM)];
    for (number, (form, trace)) in TRACES.iter().enumerate() {
        expect_met(&rt, is_read(rt.alloc(), *form, *trace)?, number);
    }
    Ok(())
}

// Traces, and the lines at which they are refused.
const REFUSED: [(&'static [u8], usize); 31] = [
    // Lines stand in their order.
    (b"", 1),
    (b"trace 3\n0 end done\n", 1),
    (b"trace 1\r\n0 end done\n", 1),
    (b"0 end done\n", 1),
    (b"trace 1\n0 ret\n", 3),
    (b"trace 1\n0 ret\n0 end done", 3),
    (b"trace 1\n5 ret\n4 ret\n5 end done\n", 3),
    (b"trace 1\n5 ret\n4 end done\n", 3),
    (b"trace 1\n0 end done\n0 end done\n", 3),
    (b"trace 1\n0 ret\n0 end done\n0 ret\n", 4),
    (b"trace 1\n0 end done\n\n", 3),
    // Fields have one spelling.
    (b"trace 1\n0 reg 2 frame 1\n0 end done\n", 2),
    (b"trace 2\n0 reg 2 frame\n0 end done\n", 2),
    (b"trace 2\n0 reg 2 frame 01\n0 end done\n", 2),
    (b"trace 1\n0 send 3\n0 end done\n", 2),
    (b"trace 1\n00 ret\n0 end done\n", 2),
    (b"trace 1\n0 call 01\n0 end done\n", 2),
    (b"trace 1\n0 call +1\n0 end done\n", 2),
    (b"trace 1\n0 call\n0 end done\n", 2),
    (b"trace 1\n0 call 18446744073709551616\n0 end done\n", 2),
    (b"trace 1\n0  ret\n0 end done\n", 2),
    (b"trace 1\n0 ret \n0 end done\n", 2),
    (b"trace 1\n0 ret\r\n0 end done\n", 2),
    (b"trace 1\n0 Ret\n0 end done\n", 2),
    (b"trace 1\n0 turn 1\n0 end done\n", 2),
    (b"trace 1\n0 arm 1 1\n0 end done\n", 2),
    (b"trace 1\n0 enq 1 background 1\n0 end done\n", 2),
    (b"trace 1\n0 enq 1 s01 task 1\n0 end done\n", 2),
    (b"trace 1\n0 host 0 -0 ok 1\n0 end done\n", 2),
    (
        b"trace 1\n0 host 0 9223372036854775808 ok 1\n0 end done\n",
        2,
    ),
    (b"trace 1\n0 log -0\n0 end done\n", 2),
];

#[test]
fn lines_have_their_order_and_fields_one_spelling(rt: HostRuntime) {
    for (number, (trace, line)) in REFUSED.iter().enumerate() {
        expect_met(&rt, is_refused(rt.alloc(), *trace, *line), number);
    }
}

#[test]
fn a_start_of_a_trace_is_refused_where_it_ends(rt: HostRuntime) {
    let mut rest = TIMER_FIRST;
    while let Some((_, start)) = rest.split_last() {
        let ended = start.iter().filter(|byte| **byte == b'\n').count();
        let is_met = match ended.checked_add(1) {
            Some(line) => is_refused(rt.alloc(), start, line),
            None => false,
        };
        expect_met(&rt, is_met, ended);
        rest = start;
    }
}
