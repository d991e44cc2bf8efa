//! Lines of worked traces, and a sink that takes some.

ghost use Rattle.trace_text.specs.Trace.{IsPrinted};

use crate::rows::expect_met;
use page_base::{End, Micros, Source};
use page_io::MemSink;
use std::alloc::{AllocError, Global};
use std::process::Abort;
use std::test::Fail;
use trace_text::{
    Event, LineSink, Lines, NoLine, Printed, PrioName, QueueName, Queued, RegKind, Stamped,
    write_event,
};

// Whether the line of an event comes behind what was there.
fn is_written(alloc: Global, e: &Stamped, line: &str) -> Result<bool, Fail> {
    let mut text = b">".to_vec(alloc)?;
    write_event(alloc, e, &mut text)?;
    Ok(text.strip_prefix(b">") == Some(line.as_bytes()))
}

const VISIBLE: QueueName = QueueName::Fixed(PrioName::UserVisible);

// Events that hold no value, and their lines.
const PLAIN: [(Stamped, &'static str); 26] = [
    // Turns.
    (
        Stamped {
            time: Micros(0),
            event: Event::Turn {
                n: 1,
                source: Some(Source::Dom),
            },
        },
        "0 turn 1 dom\n",
    ),
    (
        Stamped {
            time: Micros(12),
            event: Event::Turn { n: 2, source: None },
        },
        "12 turn 2 none\n",
    ),
    (
        Stamped {
            time: Micros(0),
            event: Event::Call { r: 1 },
        },
        "0 call 1\n",
    ),
    (
        Stamped {
            time: Micros(5000),
            event: Event::Ret,
        },
        "5000 ret\n",
    ),
    (
        Stamped {
            time: Micros(1500),
            event: Event::Wait { t: Micros(1000) },
        },
        "1500 wait 1000\n",
    ),
    (
        Stamped {
            time: Micros(10000),
            event: Event::End(End::Clock),
        },
        "10000 end clock\n",
    ),
    // Registrations and timers.
    (
        Stamped {
            time: Micros(8000),
            event: Event::Reg {
                r: 10,
                kind: RegKind::Timeout,
                by: None,
            },
        },
        "8000 reg 10 timeout\n",
    ),
    (
        Stamped {
            time: Micros(20000),
            event: Event::Reg {
                r: 4,
                kind: RegKind::Frame,
                by: Some(2),
            },
        },
        "20000 reg 4 frame 2\n",
    ),
    (
        Stamped {
            time: Micros(0),
            event: Event::Arm {
                r: 2,
                due: Micros(10000),
                level: 1,
            },
        },
        "0 arm 2 10000 1\n",
    ),
    (
        Stamped {
            time: Micros(10000),
            event: Event::Due { r: 2 },
        },
        "10000 due 2\n",
    ),
    (
        Stamped {
            time: Micros(20000),
            event: Event::Drop { r: 3 },
        },
        "20000 drop 3\n",
    ),
    // Jobs, frames and periods.
    (
        Stamped {
            time: Micros(0),
            event: Event::Job {
                j: 1,
                what: Queued::Micro(2),
            },
        },
        "0 job 1 micro 2\n",
    ),
    (
        Stamped {
            time: Micros(0),
            event: Event::Job {
                j: 2,
                what: Queued::React(1),
            },
        },
        "0 job 2 react 1\n",
    ),
    (
        Stamped {
            time: Micros(0),
            event: Event::Run { j: 1 },
        },
        "0 run 1\n",
    ),
    (
        Stamped {
            time: Micros(0),
            event: Event::Period { d: Micros(50000) },
        },
        "0 period 50000\n",
    ),
    (
        Stamped {
            time: Micros(60000),
            event: Event::Idle { d: Micros(110000) },
        },
        "60000 idle 110000\n",
    ),
    (
        Stamped {
            time: Micros(20000),
            event: Event::Frame { t: Micros(20000) },
        },
        "20000 frame 20000\n",
    ),
    (
        Stamped {
            time: Micros(0),
            event: Event::Unhandled { p: 1 },
        },
        "0 unhandled 1\n",
    ),
    (
        Stamped {
            time: Micros(0),
            event: Event::Handled { p: 1 },
        },
        "0 handled 1\n",
    ),
    // Scheduler tasks.
    (
        Stamped {
            time: Micros(0),
            event: Event::Enq {
                r: 2,
                queue: VISIBLE,
                cont: false,
                n: 2,
            },
        },
        "0 enq 2 user-visible task 2\n",
    ),
    (
        Stamped {
            time: Micros(0),
            event: Event::Enq {
                r: 4,
                queue: VISIBLE,
                cont: true,
                n: 4,
            },
        },
        "0 enq 4 user-visible cont 4\n",
    ),
    (
        Stamped {
            time: Micros(0),
            event: Event::Enq {
                r: 2,
                queue: QueueName::Signal(1),
                cont: false,
                n: 2,
            },
        },
        "0 enq 2 s1 task 2\n",
    ),
    // Signals and hosts.
    (
        Stamped {
            time: Micros(0),
            event: Event::Prio {
                s: 1,
                p: PrioName::Background,
            },
        },
        "0 prio 1 background\n",
    ),
    (
        Stamped {
            time: Micros(0),
            event: Event::Abort { s: 1 },
        },
        "0 abort 1\n",
    ),
    (
        Stamped {
            time: Micros(3000),
            event: Event::Host {
                k: 0,
                x: 7,
                answer: Ok(49),
            },
        },
        "3000 host 0 7 ok 49\n",
    ),
    (
        Stamped {
            time: Micros(3000),
            event: Event::Host {
                k: 0,
                x: -7,
                answer: Err(-1),
            },
        },
        "3000 host 0 -7 err -1\n",
    ),
];

// The table is let go where it was made, once.
fn expect_lines(rt: &impl Abort, alloc: Global, table: &[(Stamped, &str)]) -> Result<(), Fail> {
    for (number, (e, line)) in table.iter().enumerate() {
        expect_met(rt, is_written(alloc, e, *line)?, number);
    }
    Ok(())
}

#[test]
fn lines_of_events_with_no_value(rt: HostRuntime) -> Result<(), Fail> {
    expect_lines(&rt, rt.alloc(), &PLAIN)
}

// What is said of a value.
#[derive(Clone, Copy)]
enum Said {
    Log,
    Settle { p: u64, ok: bool },
    Throw,
    Report,
}

use Said::{Log, Report, Settle, Throw};

fn event_of(said: Said, v: Printed) -> Event {
    match said {
        Log => Event::Log { v },
        Settle { p, ok } => Event::Settle { p, ok, v },
        Throw => Event::Throw { v },
        Report => Event::Report { v },
    }
}

fn printed(alloc: Global, spelling: &[u8]) -> Result<Printed, AllocError>
    requires { IsPrinted spelling.now }
{
    Ok(Printed::new(spelling.to_vec(alloc)?))
}

fn expect_line(
    rt: &impl Abort,
    alloc: Global,
    time: u64,
    said: Said,
    spelling: &[u8],
    line: &str,
) -> Result<(), Fail>
    requires { IsPrinted spelling.now }
{
    let e = Stamped {
        time: Micros(time),
        event: event_of(said, printed(alloc, spelling)?),
    };
    let is_written = is_written(alloc, &e, line);
    drop(e);
    expect_met(rt, is_written?, 0);
    Ok(())
}

#[test]
fn lines_of_values(rt: HostRuntime) -> Result<(), Fail> {
    let alloc = rt.alloc();
    let fulfilled = Settle { p: 2, ok: true };
    let rejected = Settle { p: 1, ok: false };
    expect_line(&rt, alloc, 0, Log, b"3", "0 log 3\n")?;
    expect_line(&rt, alloc, 10000, Log, b"\"a\"", "10000 log \"a\"\n")?;
    expect_line(&rt, alloc, 0, fulfilled, b"unit", "0 settle 2 ok unit\n")?;
    expect_line(&rt, alloc, 0, rejected, b"\"x\"", "0 settle 1 err \"x\"\n")?;
    expect_line(
        &rt,
        alloc,
        0,
        Throw,
        b"NotAllowedError(\"\")",
        "0 throw NotAllowedError(\"\")\n",
    )?;
    expect_line(
        &rt,
        alloc,
        0,
        Report,
        b"NotAllowedError(\"\")",
        "0 report NotAllowedError(\"\")\n",
    )
}

// Lines to a sink whose pieces of these numbers fail.
fn in_memory(alloc: Global, fails: &[(u64, usize)]) -> Result<LineSink<MemSink>, AllocError> {
    let sink = MemSink::new(alloc, 1000, fails.to_vec(alloc)?)?;
    Ok(LineSink::new(alloc, sink))
}

const TURN: Stamped = Stamped {
    time: Micros(0),
    event: Event::Turn {
        n: 1,
        source: Some(Source::Dom),
    },
};

const RET: Stamped = Stamped {
    time: Micros(0),
    event: Event::Ret,
};

const DONE: Stamped = Stamped {
    time: Micros(0),
    event: Event::End(End::Done),
};

fn are_taken(lines: &mut LineSink<MemSink>) -> bool {
    lines.head(1) == Ok(()) && lines.emit(&TURN) == Ok(()) && lines.emit(&DONE) == Ok(())
}

fn is_failed(lines: &mut LineSink<MemSink>) -> bool {
    lines.head(2) == Ok(()) && lines.emit(&RET) == Err(NoLine::Failed)
}

// The sink behind the lines has these bytes.
fn has_bytes(lines: LineSink<MemSink>, bytes: &[u8]) -> bool {
    let sink = lines.into_sink();
    let has_bytes = sink.bytes() == bytes;
    drop(sink);
    has_bytes
}

#[test]
fn a_sink_takes_a_trace(rt: HostRuntime) -> Result<(), Fail> {
    let mut lines = in_memory(rt.alloc(), &[])?;
    let are_taken = are_taken(&mut lines);
    let has_bytes = has_bytes(lines, b"trace 1\n0 turn 1 dom\n0 end done\n");
    expect_met(&rt, are_taken && has_bytes, 0);
    Ok(())
}

#[test]
fn a_line_that_failed_leaves_a_start(rt: HostRuntime) -> Result<(), Fail> {
    let mut lines = in_memory(rt.alloc(), &[(2, 5)])?;
    let is_failed = is_failed(&mut lines);
    let has_bytes = has_bytes(lines, b"trace 2\n0 ret");
    expect_met(&rt, is_failed && has_bytes, 0);
    Ok(())
}
