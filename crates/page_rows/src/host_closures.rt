//! Host closures that a script asks, and their marks after the run.

ghost use Rattle.std.specs.Prelude.{◌≡◌, Ok, pos, negsuc, ◌≤ℤ◌, ◌*ℤ◌};

use crate::example::Example;
use host_jobs::{Fired, HostKind, HostOnce, HostTable};
use std::alloc::{AllocError, Global};
use std::test::Fail;

/// A script and arrivals whose closure answers.
const ANSWERING: (&[u8], &[u8]) = (
    b"fn f(v) { log(v); } then(host(0, 7, unit), f, f); then(host(0, 1, unit), f, f);",
    b"page 1\nhost 0 3000\n",
);

/// A script and arrivals whose closure is dropped by an abort.
const DROPPING: (&[u8], &[u8]) = (
    b"var c = controller(); fn f(v) { log(v); } fn k() { abort(c, unit); } \
then(host(0, 7, signal(c)), f, f); setTimeout(k, 1);",
    b"page 1\nhost 0 1000\n",
);

const ANSWERED: &str =
    "trace 1\n0 turn 1 dom\n0 call 1\n0 reg 2 host\n0 arm 2 3000 0\n0 reg 3 then\n\
0 settle 3 err NotAllowedError(\"\")\n0 reg 4 then\n0 job 1 react 3\n0 ret\n0 run 1\n0 call 4\n\
0 log NotAllowedError(\"\")\n0 ret\n0 settle 4 ok unit\n3000 wait 3000\n3000 due 2\n3000 turn 2 net\n\
3000 host 0 7 ok 49\n3000 settle 1 ok 49\n3000 job 2 react 1\n3000 run 2\n3000 call 3\n3000 log 49\n3000 ret\n\
3000 settle 2 ok unit\n3000 end done\n";

const DROPPED: &str =
    "1000 wait 1000\n1000 due 2\n1000 due 4\n1000 turn 2 timer\n1000 call 4\n1000 abort 1\n\
1000 settle 1 err AbortError(\"\")\n1000 job 1 react 1\n1000 drop 2\n1000 ret\n1000 run 1\n1000 call 3\n\
1000 log AbortError(\"\")\n1000 ret\n1000 settle 2 ok unit\n1000 turn 3 net\n1000 end done\n";

fn square(x: i64) -> Result<i64, i64>
    requires low { negsuc 3037000498 ≤ℤ x }
    requires high { x ≤ℤ pos 3037000499 }
    ensures { result ≡ Ok (x *ℤ x) }
{
    Ok(x * x)
}

/// A table whose one closure squares.
pub(crate) fn table(alloc: Global) -> Result<HostTable, AllocError> {
    let mut hosts = HostTable::new(alloc);
    let job = Box::new(alloc, square)?;
    hosts.push(HostOnce::new(HostKind::Square, -3_037_000_499, 3_037_000_499, job))?;
    Ok(hosts)
}

#[test]
fn a_closure_answers_once_and_is_fired(rt: HostRuntime) -> Result<(), Fail> {
    let example = Example::of_files(ANSWERING.0, ANSWERING.1);
    let mut ended = example.run_with(rt.alloc(), table(rt.alloc())?)?;
    assert_eq!(rt; ended.out.as_str(), ANSWERED);
    assert_eq!(rt; ended.status, 0);
    assert_eq!(rt; ended.hosts.fire(0, 7), Fired::Used);
    Ok(())
}

#[test]
fn a_closure_whose_answer_is_aborted_is_dropped(rt: HostRuntime) -> Result<(), Fail> {
    let example = Example::of_files(DROPPING.0, DROPPING.1);
    let mut ended = example.run_with(rt.alloc(), table(rt.alloc())?)?;
    assert!(rt; ended.out.as_str().ends_with(DROPPED));
    assert_eq!(rt; ended.status, 0);
    assert_eq!(rt; ended.hosts.fire(0, 7), Fired::Used);
    Ok(())
}

/// What the closure of a run gives whose output does not take this piece.
fn fired_after_stop(alloc: Global, files: (&[u8], &[u8]), put: u64) -> Result<(u8, Fired), Fail> {
    let failing_out = [(put, 0)];
    let example = Example {
        failing_out: &failing_out,
        ..Example::of_files(files.0, files.1)
    };
    let mut ended = example.run_with(alloc, table(alloc)?)?;
    Ok((ended.status, ended.hosts.fire(0, 7)))
}

#[test]
fn a_run_that_stopped_has_dropped_no_closure(rt: HostRuntime) -> Result<(), Fail> {
    let unanswered = fired_after_stop(rt.alloc(), ANSWERING, 18)?;
    assert_eq!(rt; unanswered, (75, Fired::Answer(Ok(49))));
    let answered = fired_after_stop(rt.alloc(), ANSWERING, 19)?;
    assert_eq!(rt; answered, (75, Fired::Used));
    let aborted = fired_after_stop(rt.alloc(), DROPPING, 22)?;
    assert_eq!(rt; aborted, (75, Fired::Answer(Ok(49))));
    Ok(())
}

#[test]
fn a_closure_that_no_script_asks_is_left(rt: HostRuntime) -> Result<(), Fail> {
    let examples: [(&[u8], &[u8], u8); 4] = [
        (b"log(1 + 2);", b"page 1\n", 0),
        (b"while (true) { }", b"page 1\nfuel 5\n", 10),
        (b"log(", b"page 1\n", 3),
        (b"host(0, 7, unit);", b"page 3\n", 4),
    ];
    for (script, arrivals, status) in examples {
        let example = Example::of_files(script, arrivals);
        let mut ended = example.run_with(rt.alloc(), table(rt.alloc())?)?;
        assert_eq!(rt; ended.status, status);
        assert_eq!(rt; ended.hosts.fire(0, 7), Fired::Answer(Ok(49)));
    }
    Ok(())
}
