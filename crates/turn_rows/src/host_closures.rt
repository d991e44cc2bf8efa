//! Host closures that answer as they like, and what becomes of them.

ghost use Rattle.std.specs.Prelude.{◌≤◌, ◌^◌, length, IsTrue, IfOk};
ghost use Rattle.std.specs.List.{list_all};
ghost use Rattle.host_jobs.specs.ToldTable.{closures_of};
ghost use Rattle.page_hosts.specs.Hosts.{is_unqueued};

use crate::driving::Step;
use crate::row::{Row, drive, sink};
use host_jobs::{Fired, HostKind, HostOnce, HostTable};
use page_base::Source;
use page_host::Did;
use std::alloc::{AllocError, Global};
use std::cell::Cell;
use std::process::Abort;
use std::rc::Rc;
use std::test::Fail;

/// A row, how often its closures are called, and what each of them answers that is fired behind it, by its number.
#[derive(Clone, Copy)]
struct Asked {
    row: Row,
    calls: u32,
    behind: [Fired; 2],
}

// A closure that was asked is asked no second time. One that throws rejects its promise with the number; a number that a closure does not
// take rejects with RangeError, and leaves it.
const ANSWERED: [Asked; 2] = [
    Asked {
        row: Row {
            script: "fn f(v) { log(v); } then(host(0, 7, unit), f, f); then(host(0, 1, unit), f, f);",
            arrivals: "page 1\nhost 0 3000\n",
            steps: &[Step::Next, Step::Wait(3_000, 3_000), Step::Next, Step::Done],
            lines: "trace 1\n\
                0 turn 1 dom\n\
                0 call 1\n\
                0 reg 2 host\n\
                0 arm 2 3000 0\n\
                0 reg 3 then\n\
                0 settle 3 err NotAllowedError(\"\")\n\
                0 reg 4 then\n\
                0 job 1 react 3\n\
                0 ret\n\
                0 run 1\n\
                0 call 4\n\
                0 log NotAllowedError(\"\")\n\
                0 ret\n\
                0 settle 4 ok unit\n\
                3000 wait 3000\n\
                3000 due 2\n\
                3000 turn 2 net\n\
                3000 host 0 7 ok 41\n\
                3000 settle 1 ok 41\n\
                3000 job 2 react 1\n\
                3000 run 2\n\
                3000 call 3\n\
                3000 log 41\n\
                3000 ret\n\
                3000 settle 2 ok unit\n\
                3000 end done\n",
        },
        calls: 1,
        behind: [Fired::Used, Fired::Answer(Err(-5))],
    },
    Asked {
        row: Row {
            script: "fn f(v) { log(v); } then(host(1, 2, unit), unit, f); then(host(0, 10, unit), unit, f);",
            arrivals: "page 1\n",
            steps: &[Step::Next, Step::Next, Step::Done],
            lines: "trace 1\n\
                0 turn 1 dom\n\
                0 call 1\n\
                0 reg 2 host\n\
                0 arm 2 0 0\n\
                0 reg 3 then\n\
                0 settle 3 err RangeError(\"\")\n\
                0 reg 4 then\n\
                0 job 1 react 3\n\
                0 ret\n\
                0 run 1\n\
                0 call 4\n\
                0 log RangeError(\"\")\n\
                0 ret\n\
                0 settle 4 ok unit\n\
                0 due 2\n\
                0 turn 2 net\n\
                0 host 1 2 err -5\n\
                0 settle 1 err -5\n\
                0 job 2 react 1\n\
                0 run 2\n\
                0 call 3\n\
                0 log -5\n\
                0 ret\n\
                0 settle 2 ok unit\n\
                0 end done\n",
        },
        calls: 1,
        behind: [Fired::Answer(Ok(41)), Fired::Used],
    },
];

const ABORTED: &str =
    "fn f(v) { log(v); } var c = controller(); then(host(0, 7, signal(c)), f, f); \
    fn k() { abort(c, unit); } setTimeout(k, 1);";

// The signal of a request is aborted before its answer is due; when it is due but before its task; and behind that task, where the closure
// has answered and the abort does nothing to it.
const DROPPED: [Asked; 3] = [
    Asked {
        row: Row {
            script: ABORTED,
            arrivals: "page 1\nhost 0 3000\n",
            steps: &[Step::Next, Step::Wait(1_000, 1_000), Step::Next, Step::Done],
            lines: "trace 1\n\
                0 turn 1 dom\n\
                0 call 1\n\
                0 reg 2 host\n\
                0 arm 2 3000 0\n\
                0 reg 3 then\n\
                0 reg 4 timeout\n\
                0 arm 4 1000 1\n\
                0 ret\n\
                1000 wait 1000\n\
                1000 due 4\n\
                1000 turn 2 timer\n\
                1000 call 4\n\
                1000 abort 1\n\
                1000 settle 1 err AbortError(\"\")\n\
                1000 job 1 react 1\n\
                1000 drop 2\n\
                1000 ret\n\
                1000 run 1\n\
                1000 call 3\n\
                1000 log AbortError(\"\")\n\
                1000 ret\n\
                1000 settle 2 ok unit\n\
                1000 end done\n",
        },
        calls: 0,
        behind: [Fired::Used, Fired::Answer(Err(-5))],
    },
    Asked {
        row: Row {
            script: ABORTED,
            arrivals: "page 1\nhost 0 1000\n",
            steps: &[
                Step::Next,
                Step::Wait(1_000, 1_000),
                Step::Serve(Source::Timer),
                Step::Serve(Source::Net),
                Step::Done,
            ],
            lines: "trace 1\n\
                0 turn 1 dom\n\
                0 call 1\n\
                0 reg 2 host\n\
                0 arm 2 1000 0\n\
                0 reg 3 then\n\
                0 reg 4 timeout\n\
                0 arm 4 1000 1\n\
                0 ret\n\
                1000 wait 1000\n\
                1000 due 2\n\
                1000 due 4\n\
                1000 turn 2 timer\n\
                1000 call 4\n\
                1000 abort 1\n\
                1000 settle 1 err AbortError(\"\")\n\
                1000 job 1 react 1\n\
                1000 drop 2\n\
                1000 ret\n\
                1000 run 1\n\
                1000 call 3\n\
                1000 log AbortError(\"\")\n\
                1000 ret\n\
                1000 settle 2 ok unit\n\
                1000 turn 3 net\n\
                1000 end done\n",
        },
        calls: 0,
        behind: [Fired::Used, Fired::Answer(Err(-5))],
    },
    Asked {
        row: Row {
            script: ABORTED,
            arrivals: "page 1\nhost 0 1000\n",
            steps: &[
                Step::Next,
                Step::Wait(1_000, 1_000),
                Step::Serve(Source::Net),
                Step::Serve(Source::Timer),
                Step::Done,
            ],
            lines: "trace 1\n\
                0 turn 1 dom\n\
                0 call 1\n\
                0 reg 2 host\n\
                0 arm 2 1000 0\n\
                0 reg 3 then\n\
                0 reg 4 timeout\n\
                0 arm 4 1000 1\n\
                0 ret\n\
                1000 wait 1000\n\
                1000 due 2\n\
                1000 due 4\n\
                1000 turn 2 net\n\
                1000 host 0 7 ok 41\n\
                1000 settle 1 ok 41\n\
                1000 job 1 react 1\n\
                1000 run 1\n\
                1000 call 3\n\
                1000 log 41\n\
                1000 ret\n\
                1000 settle 2 ok unit\n\
                1000 turn 3 timer\n\
                1000 call 4\n\
                1000 abort 1\n\
                1000 ret\n\
                1000 end done\n",
        },
        calls: 1,
        behind: [Fired::Used, Fired::Answer(Err(-5))],
    },
];

// Counts a call, and gives this answer.
fn counted(calls: Rc<Cell<u32>>, answer: Result<i64, i64>) -> Result<i64, i64> {
    calls.set(calls.get().saturating_add(1));
    answer
}

// A closure that gives this answer on each number from -9 to 9, and counts that it is called.
fn closure(
    alloc: Global,
    calls: &Rc<Cell<u32>>,
    answer: Result<i64, i64>,
) -> Result<HostOnce, AllocError> {
    let count = calls.clone()?;
    let job = Box::new(alloc, move |_x: i64| counted(count, answer))?;
    Ok(HostOnce::new(HostKind::Any, -9, 9, job))
}

// A table of two closures that are not bound to a relation: one answers 41, and one fails with -5.
fn table(alloc: Global, calls: &Rc<Cell<u32>>) -> Result<HostTable, AllocError>
    ensures count { IfOk result (λ hosts. length (closures_of hosts) ≤ 2 ^ 32) }
    ensures unqueued { IfOk result (λ hosts. IsTrue (list_all is_unqueued (closures_of hosts))) }
{
    let mut hosts = HostTable::new(alloc);
    hosts.push(closure(alloc, calls, Ok(41))?)?;
    hosts.push(closure(alloc, calls, Err(-5))?)?;
    Ok(hosts)
}

// Drives the page of each row with these closures. One that has answered or was dropped is used, and the other one is live.
fn expect_asked(rt: &impl Abort, alloc: Global, examples: &[Asked]) -> Result<(), Fail> {
    for asked in examples {
        let calls = Rc::new(alloc, Cell::new(0u32))?;
        let hosts = table(alloc, &calls)?;
        let mut driven = drive(rt, alloc, &asked.row, hosts, sink(alloc, &[])?)?;
        assert_eq!(rt; driven.did, Ok(Did::Finished));
        assert_eq!(rt; driven.text.as_str(), asked.row.lines);
        assert_eq!(rt; calls.get(), asked.calls);
        let [first, second] = asked.behind;
        assert_eq!(rt; driven.port.fire(0, 7), first);
        assert_eq!(rt; driven.port.fire(1, 7), second);
    }
    Ok(())
}

#[test]
fn a_closure_of_any_answer_is_called_once(rt: HostRuntime) -> Result<(), Fail> {
    expect_asked(&rt, rt.alloc(), &ANSWERED)
}

#[test]
fn a_closure_whose_request_is_aborted_is_dropped_uncalled(rt: HostRuntime) -> Result<(), Fail> {
    expect_asked(&rt, rt.alloc(), &DROPPED)
}
