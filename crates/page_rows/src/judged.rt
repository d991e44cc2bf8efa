//! Traces that are judged or told again. The file `s` holds the script, `a` the arrivals and `t` the trace.

use crate::example::{Ended, Example, joined};
use crate::host_closures::table;
use host_jobs::Fired;
use std::alloc::Global;
use std::test::Fail;

// A script that asks the first closure.
const ASKING: &[u8] = b"fn f(v) { log(v); } then(host(0, 7, unit), f, f);";

const ASKING_ARRIVALS: &[u8] = b"page 1\nhost 0 3000\n";

// The heads of its trace and of the registrations in it, in both forms, and its lines behind them, where the first closure squares.
const ASKED: &[u8] =
    b"trace 1\n0 turn 1 dom\n0 call 1\n0 reg 2 host\n0 arm 2 3000 0\n0 reg 3 then\n";

const ASKED_TOLD_MORE: &[u8] =
    b"trace 2\n0 turn 1 dom\n0 call 1\n0 reg 2 host 1\n0 arm 2 3000 0\n0 reg 3 then 1\n";

const WAITED: &[u8] = b"0 ret\n3000 wait 3000\n3000 due 2\n3000 turn 2 net\n";

const WAITED_TOO_SHORT: &[u8] = b"0 ret\n2999 wait 3000\n3000 due 2\n3000 turn 2 net\n";

const ANSWERED: &[u8] = b"3000 host 0 7 ok 49\n";

const ANSWERED_NO_SQUARE: &[u8] = b"3000 host 0 7 ok 48\n";

const SETTLED: &[u8] =
    b"3000 settle 1 ok 49\n3000 job 1 react 1\n3000 run 1\n3000 call 3\n3000 log 49\n3000 ret\n\
3000 settle 2 ok unit\n3000 end done\n";

const CHECK: &[&str] = &["check", "s", "a", "t"];

const MIGRATE: &[&str] = &["migrate", "s", "a", "t"];

/// The words, the trace in pieces, and the status, the output and the error output that are wanted.
type Judged = (
    &'static [&'static str],
    [&'static [u8]; 4],
    u8,
    &'static [&'static [u8]],
    &'static str,
);

const JUDGED: [Judged; 4] = [
    (
        CHECK,
        [ASKED, WAITED, ANSWERED, SETTLED],
        0,
        &[b"legal\n"],
        "",
    ),
    (
        CHECK,
        [ASKED, WAITED_TOO_SHORT, ANSWERED, SETTLED],
        7,
        &[],
        "pageloop: choice not legal at line 8\n",
    ),
    (
        CHECK,
        [ASKED, WAITED, ANSWERED_NO_SQUARE, SETTLED],
        7,
        &[],
        "pageloop: choice not legal at line 11\n",
    ),
    (
        MIGRATE,
        [ASKED, WAITED, ANSWERED, SETTLED],
        0,
        &[ASKED_TOLD_MORE, WAITED, ANSWERED, SETTLED],
        "",
    ),
];

// Whether the program answers what is wanted, and has called no closure.
fn is_judged(alloc: Global, row: &Judged) -> Result<bool, Fail> {
    let (words, pieces, status, wanted, line) = *row;
    let trace = joined(alloc, &pieces)?;
    let wanted = joined(alloc, wanted)?;
    let example = Example {
        words,
        ..Example::of_trace(ASKING, ASKING_ARRIVALS, &trace)
    };
    let mut ended = example.run_with(alloc, table(alloc)?)?;
    Ok(
        ended.status == status
            && ended.out.as_bytes() == wanted.as_slice()
            && ended.err.as_str() == line
            && ended.hosts.fire(0, 7) == Fired::Answer(Ok(49)),
    )
}

#[test]
fn answers_of_closures_are_judged_and_told_again_and_none_is_called(
    rt: HostRuntime,
) -> Result<(), Fail> {
    for (number, row) in JUDGED.iter().enumerate() {
        assert!(rt; is_judged(rt.alloc(), row)?, "row {number}");
    }
    Ok(())
}

const LINES: [&str; 6] = [
    "trace 1\n",
    "0 turn 1 dom\n",
    "0 call 1\n",
    "0 log 3\n",
    "0 ret\n",
    "0 end done\n",
];

fn check_sum(alloc: Global, trace: &[u8]) -> Result<Ended, Fail> {
    Example::of_trace(b"log(1 + 2);", b"page 1\n", trace).run(alloc)
}

fn is_cut(alloc: Global, start: &[u8], line: usize) -> Result<bool, Fail> {
    let complaint = format!(in alloc; "pageloop: trace: line {line}\n")?;
    let ended = check_sum(alloc, start)?;
    Ok(ended.status == 8 && ended.err.as_str() == complaint.as_str() && ended.out.is_empty())
}

#[test]
fn each_start_of_a_trace_is_refused_in_the_line_in_which_it_ends(
    rt: HostRuntime,
) -> Result<(), Fail> {
    let mut start = Vec::new(rt.alloc());
    for (number, line) in LINES.iter().enumerate() {
        for byte in line.as_bytes() {
            assert!(rt;
                is_cut(rt.alloc(), &start, number + 1)?,
                "{} bytes",
                start.len()
            );
            start.push(*byte)?;
        }
    }
    Ok(())
}
