//! Calls of a page that answer a refusal: no fuel is left, a line is not taken, or the host port gives no answer.

ghost use Rattle.std.specs.Prelude.{◌≡◌, ◌≤◌, ◌^◌, length, IsTrue, IfOk, Ok, pos, negsuc, ◌≤ℤ◌, ◌*ℤ◌};
ghost use Rattle.std.specs.List.{list_all};
ghost use Rattle.host_jobs.specs.ToldTable.{closures_of};
ghost use Rattle.page_hosts.specs.Hosts.{is_unqueued};

use crate::driving::{Call, Step};
use crate::row::{Driven, Row, Written, drive, drive_over, sink, with_text};
use host_jobs::{HostKind, HostOnce, HostPort, HostTable, Recorded, RecordedHosts};
use page_host::{Did, PageStop};
use page_io::MemSink;
use std::alloc::{AllocError, Global};
use std::marker::Brand;
use std::process::Abort;
use std::sync::ledger::Blank;
use std::test::Fail;
use trace_text::{Events, LineCheck, LineSink, read_trace};

// A turn, a job, the call of a function and each entry into a loop take a unit of fuel. A job whose unit is wanting is not begun; a call is
// told before its unit is taken.
const DRY: [Row; 5] = [
    Row {
        script: "while (1 == 1) { }",
        arrivals: "page 1\nfuel 5\n",
        steps: &[Step::Next],
        lines: "trace 1\n\
            0 turn 1 dom\n\
            0 call 1\n\
            0 end fuel\n",
    },
    Row {
        script: "",
        arrivals: "page 1\nfuel 1\n",
        steps: &[Step::Next],
        lines: "trace 1\n\
            0 turn 1 dom\n\
            0 call 1\n\
            0 end fuel\n",
    },
    Row {
        script: "fn f() { queueMicrotask(f); } f();",
        arrivals: "page 1\nfuel 7\n",
        steps: &[Step::Next],
        lines: "trace 1\n\
            0 turn 1 dom\n\
            0 call 1\n\
            0 reg 2 micro\n\
            0 job 1 micro 2\n\
            0 ret\n\
            0 run 1\n\
            0 call 2\n\
            0 reg 3 micro\n\
            0 job 2 micro 3\n\
            0 ret\n\
            0 run 2\n\
            0 call 3\n\
            0 reg 4 micro\n\
            0 job 3 micro 4\n\
            0 ret\n\
            0 end fuel\n",
    },
    Row {
        script: "fn f() { } setTimeout(f, 0);",
        arrivals: "page 1\nfuel 2\n",
        steps: &[Step::Next, Step::Next],
        lines: "trace 1\n\
            0 turn 1 dom\n\
            0 call 1\n\
            0 reg 2 timeout\n\
            0 arm 2 0 1\n\
            0 ret\n\
            0 due 2\n\
            0 end fuel\n",
    },
    Row {
        script: "fn f(v) { } listen(unit, \"a\", f);",
        arrivals: "page 1\nfuel 2\n",
        steps: &[
            Step::Next,
            Step::Invoke(Call {
                registration: 2,
                second: false,
                number: 7,
                gives: Ok(0),
            }),
        ],
        lines: "trace 1\n\
            0 turn 1 dom\n\
            0 call 1\n\
            0 reg 2 listener\n\
            0 ret\n\
            0 call 2\n\
            0 end fuel\n",
    },
];

#[test]
fn a_step_without_fuel_ends_the_run(rt: HostRuntime) -> Result<(), Fail> {
    let alloc = rt.alloc();
    for row in &DRY {
        let driven = drive(&rt, alloc, row, HostTable::new(alloc), sink(alloc, &[])?)?;
        assert_eq!(rt; driven.did, Ok(Did::Fuel), "{}", row.script);
        assert_eq!(rt; driven.text.as_str(), row.lines, "{}", row.script);
    }
    Ok(())
}

/// The number of the piece that a sink does not take, counted from 1, and how many bytes of it are kept. The head is the first piece, and
/// each line is one.
type Failing = (u64, usize);

// Each of the calls that write a line is stopped at one: the beginning of a turn, a task, the idle step, a wait, the parallel items, a
// callback and the end of the run.
const UNWRITTEN: [(Failing, Row); 7] = [
    (
        (2, 3),
        Row {
            script: "log(1 + 2);",
            arrivals: "page 1\n",
            steps: &[Step::Next],
            lines: "trace 1\n0 t",
        },
    ),
    (
        (4, 4),
        Row {
            script: "log(1 + 2);",
            arrivals: "page 1\n",
            steps: &[Step::Next],
            lines: "trace 1\n0 turn 1 dom\n0 call 1\n0 lo",
        },
    ),
    (
        (6, 0),
        Row {
            script: "fn f(d) { } requestIdleCallback(f, 0);",
            arrivals: "page 1\n",
            steps: &[Step::Next],
            lines: "trace 1\n0 turn 1 dom\n0 call 1\n0 reg 2 idle\n0 ret\n",
        },
    ),
    (
        (7, 6),
        Row {
            script: "fn f() { } setTimeout(f, 1);",
            arrivals: "page 1\n",
            steps: &[Step::Next, Step::Wait(1_000, 1_000)],
            lines: "trace 1\n0 turn 1 dom\n0 call 1\n0 reg 2 timeout\n0 arm 2 1000 1\n0 ret\n1000 w",
        },
    ),
    (
        (7, 5),
        Row {
            script: "fn f() { } setTimeout(f, 0);",
            arrivals: "page 1\n",
            steps: &[Step::Next, Step::Next],
            lines: "trace 1\n0 turn 1 dom\n0 call 1\n0 reg 2 timeout\n0 arm 2 0 1\n0 ret\n0 due",
        },
    ),
    (
        (6, 8),
        Row {
            script: "fn f(v) { } listen(unit, \"a\", f);",
            arrivals: "page 1\n",
            steps: &[
                Step::Next,
                Step::Invoke(Call {
                    registration: 2,
                    second: false,
                    number: 7,
                    gives: Ok(0),
                }),
            ],
            lines: "trace 1\n0 turn 1 dom\n0 call 1\n0 reg 2 listener\n0 ret\n0 call 2",
        },
    ),
    (
        (5, 100),
        Row {
            script: "",
            arrivals: "page 1\n",
            steps: &[Step::Next, Step::Done],
            lines: "trace 1\n0 turn 1 dom\n0 call 1\n0 ret\n0 end done\n",
        },
    ),
];

#[test]
fn a_line_that_is_not_taken_stops_the_page(rt: HostRuntime) -> Result<(), Fail> {
    let alloc = rt.alloc();
    for (failing, row) in &UNWRITTEN {
        let driven = drive(
            &rt,
            alloc,
            row,
            HostTable::new(alloc),
            sink(alloc, &[*failing])?,
        )?;
        assert_eq!(rt; driven.did, Err(PageStop::WriteFault), "{}", row.lines);
        assert_eq!(rt; driven.text.as_str(), row.lines);
    }
    Ok(())
}

/// A row over a port that keeps an answer or none, the closure that its script asks, and how its last step ends.
#[derive(Clone, Copy)]
struct Kept {
    row: Row,
    answer: Option<Result<i64, i64>>,
    closure: u32,
    did: Result<Did, PageStop>,
}

// Closure 0 may answer anything, closure 1 squares. A port that keeps answers gives the next one, and refuses where there is none, or where
// it does not meet the relation of the closure; then no line is written, and the closure is live.
const KEPT: [Kept; 3] = [
    Kept {
        row: Row {
            script: "fn f(v) { log(v); } then(host(0, 7, unit), f, f);",
            arrivals: "page 1\n",
            steps: &[Step::Next, Step::Next],
            lines: "trace 1\n\
                0 turn 1 dom\n\
                0 call 1\n\
                0 reg 2 host\n\
                0 arm 2 0 0\n\
                0 reg 3 then\n\
                0 ret\n\
                0 due 2\n\
                0 turn 2 net\n",
        },
        answer: None,
        closure: 0,
        did: Err(PageStop::NoHost),
    },
    Kept {
        row: Row {
            script: "fn f(v) { log(v); } then(host(1, 7, unit), f, f);",
            arrivals: "page 1\n",
            steps: &[Step::Next, Step::Next],
            lines: "trace 1\n\
                0 turn 1 dom\n\
                0 call 1\n\
                0 reg 2 host\n\
                0 arm 2 0 0\n\
                0 reg 3 then\n\
                0 ret\n\
                0 due 2\n\
                0 turn 2 net\n",
        },
        answer: Some(Ok(48)),
        closure: 1,
        did: Err(PageStop::NoHost),
    },
    Kept {
        row: Row {
            script: "fn f(v) { log(v); } then(host(0, 7, unit), f, f);",
            arrivals: "page 1\n",
            steps: &[Step::Next, Step::Next, Step::Done],
            lines: "trace 1\n\
                0 turn 1 dom\n\
                0 call 1\n\
                0 reg 2 host\n\
                0 arm 2 0 0\n\
                0 reg 3 then\n\
                0 ret\n\
                0 due 2\n\
                0 turn 2 net\n\
                0 host 0 7 ok 48\n\
                0 settle 1 ok 48\n\
                0 job 1 react 1\n\
                0 run 1\n\
                0 call 3\n\
                0 log 48\n\
                0 ret\n\
                0 settle 2 ok unit\n\
                0 end done\n",
        },
        answer: Some(Ok(48)),
        closure: 0,
        did: Ok(Did::Finished),
    },
];

// The square of a number.
fn square(x: i64) -> Result<i64, i64>
    requires low { negsuc 3037000498 ≤ℤ x }
    requires high { x ≤ℤ pos 3037000499 }
    ensures { result ≡ Ok (x *ℤ x) }
{
    Ok(x * x)
}

// The two closures.
fn table(alloc: Global) -> Result<HostTable, AllocError>
    ensures count { IfOk result (λ hosts. length (closures_of hosts) ≤ 2 ^ 32) }
    ensures unqueued { IfOk result (λ hosts. IsTrue (list_all is_unqueued (closures_of hosts))) }
{
    let any = Box::new(alloc, |_x: i64| Ok(41))?;
    let job = Box::new(alloc, square)?;
    let mut hosts = HostTable::new(alloc);
    hosts.push(HostOnce::new(HostKind::Any, -9, 9, any))?;
    hosts.push(HostOnce::new(HostKind::Square, -3_037_000_499, 3_037_000_499, job))?;
    Ok(hosts)
}

// Drives the page of a row over a port that keeps its answer.
fn drive_kept(
    rt: &impl Abort,
    alloc: Global,
    kept: &Kept,
    hosts: &HostTable,
) -> Result<Written<RecordedHosts>, Fail>
    requires count { length (closures_of hosts.now) ≤ 2 ^ 32 }
    requires unqueued { IsTrue (list_all is_unqueued (closures_of hosts.now)) }
{
    let mut answers = Vec::new(alloc);
    if let Some(answer) = kept.answer {
        answers.push(Recorded { k: 5, x: 0, answer })?;
    }
    let port = RecordedHosts::new(alloc, hosts, answers)?;
    let lines = LineSink::new(alloc, sink(alloc, &[])?);
    let driven = drive_over::<RecordedHosts, LineSink<MemSink>, Brand>(
        rt,
        alloc,
        &kept.row,
        port,
        lines,
        Blank::new(1),
    )?;
    with_text(alloc, driven)
}

#[test]
fn a_port_without_a_fitting_answer_stops_the_page(rt: HostRuntime) -> Result<(), Fail> {
    let hosts = table(rt.alloc())?;
    for kept in &KEPT {
        let driven = drive_kept(&rt, rt.alloc(), kept, &hosts)?;
        assert_eq!(rt; driven.did, kept.did);
        assert_eq!(rt; driven.text.as_str(), kept.row.lines);
        assert_eq!(rt; driven.port.live(kept.closure), kept.did.is_err());
    }
    Ok(())
}

/// A row over a trace, of which so many lines are met, the head among them.
#[derive(Clone, Copy)]
struct Compared {
    row: Row,
    met: usize,
    did: Result<Did, PageStop>,
}

// The lines of a row are compared with those of a trace: all are met; one is another; the trace ends where the page goes on.
const COMPARED: [Compared; 3] = [
    Compared {
        row: Row {
            script: "log(1 + 2);",
            arrivals: "page 1\n",
            steps: &[Step::Next, Step::Done],
            lines: "trace 1\n0 turn 1 dom\n0 call 1\n0 log 3\n0 ret\n0 end done\n",
        },
        met: 6,
        did: Ok(Did::Finished),
    },
    Compared {
        row: Row {
            script: "log(1 + 2);",
            arrivals: "page 1\n",
            steps: &[Step::Next, Step::Done],
            lines: "trace 1\n0 turn 1 dom\n0 call 1\n0 log 4\n0 ret\n0 end done\n",
        },
        met: 3,
        did: Err(PageStop::Differs),
    },
    Compared {
        row: Row {
            script: "fn f() { } setTimeout(f, 0);",
            arrivals: "page 1\n",
            steps: &[Step::Next, Step::Next],
            lines: "trace 1\n0 turn 1 dom\n0 call 1\n0 reg 2 timeout\n0 arm 2 0 1\n0 ret\n0 end done\n",
        },
        met: 6,
        did: Err(PageStop::Differs),
    },
];

// Drives the page of a row, whose lines are compared with those of a trace.
fn drive_compared<'e>(
    rt: &impl Abort,
    alloc: Global,
    row: &Row,
    trace: &'e Events,
) -> Result<Driven<HostTable, LineCheck<'e>>, Fail> {
    let hosts = HostTable::new(alloc);
    let lines = LineCheck::new(alloc, trace);
    drive_over::<HostTable, LineCheck, Brand>(rt, alloc, row, hosts, lines, Blank::new(1))
}

#[test]
fn a_line_that_differs_stops_the_page(rt: HostRuntime) -> Result<(), Fail> {
    for compared in &COMPARED {
        let trace = read_trace(rt.alloc(), compared.row.lines.as_bytes())?;
        let driven = drive_compared(&rt, rt.alloc(), &compared.row, &trace)?;
        assert_eq!(rt; driven.did, compared.did);
        assert_eq!(rt; driven.lines.matched(), compared.met);
    }
    Ok(())
}
