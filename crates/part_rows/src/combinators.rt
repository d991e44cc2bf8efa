//! The answers of combinators.

use crate::rows::expect_bytes;
use crate::spellings::told;
use page_values::{Value, make_list};
use promise_combine::{Combine, Kind, Settled};
use std::alloc::Global;
use std::process::Abort;
use std::test::Fail;

// How an element settles.
#[derive(Clone, Copy)]
enum Outcome {
    Fulfilled(i64),
    Rejected(i64),
    // With a list of units, which weighs half of the most that a value may weigh.
    Heavy,
}

// The combinators; the last one passes an outcome on where its element is fulfilled.
#[derive(Clone, Copy)]
enum Which {
    All,
    Any,
    AllSettled,
    Pass(Outcome),
}

use Outcome::{Fulfilled, Heavy, Rejected};
use Which::{All, AllSettled, Any, Pass};

// A combinator of so many elements, what it answers at its begin, and what it answers as each
// element settles, by its place.
#[derive(Clone, Copy)]
struct Row {
    which: Which,
    count: u32,
    begin: &'static str,
    reports: &'static [(u32, Outcome, &'static str)],
}

const ROWS: [Row; 10] = [
    // The values stand by their places.
    Row {
        which: All,
        count: 2,
        begin: "none",
        reports: &[(1, Fulfilled(2), "none"), (0, Fulfilled(1), "ok [1,2]")],
    },
    // It is rejected once.
    Row {
        which: All,
        count: 2,
        begin: "none",
        reports: &[(1, Rejected(2), "err 2"), (0, Rejected(1), "none")],
    },
    // A list that is too heavy is a rejection.
    Row {
        which: All,
        count: 2,
        begin: "none",
        reports: &[(0, Heavy, "none"), (1, Heavy, "err RangeError(\"\")")],
    },
    // With no element there is an answer at once.
    Row {
        which: All,
        count: 0,
        begin: "ok []",
        reports: &[],
    },
    Row {
        which: Any,
        count: 0,
        begin: "err []",
        reports: &[],
    },
    // The first value counts, or all reasons by their places.
    Row {
        which: Any,
        count: 2,
        begin: "none",
        reports: &[(0, Rejected(1), "none"), (1, Fulfilled(2), "ok 2")],
    },
    Row {
        which: Any,
        count: 2,
        begin: "none",
        reports: &[(1, Rejected(2), "none"), (0, Rejected(1), "err [1,2]")],
    },
    // Each element is told of.
    Row {
        which: AllSettled,
        count: 2,
        begin: "none",
        reports: &[
            (1, Rejected(2), "none"),
            (0, Fulfilled(1), "ok [[true,1],[false,2]]"),
        ],
    },
    // An outcome is passed on, and a rejection instead of it.
    Row {
        which: Pass(Rejected(7)),
        count: 1,
        begin: "none",
        reports: &[(0, Fulfilled(1), "err 7")],
    },
    Row {
        which: Pass(Fulfilled(7)),
        count: 1,
        begin: "none",
        reports: &[(0, Rejected(1), "err 1")],
    },
];

fn heavy(alloc: Global) -> Result<Value, Fail> {
    let mut units = Vec::new(alloc);
    for _ in 0..32_767 {
        units.push(Value::Unit)?;
    }
    Ok(make_list(units)?)
}

fn settled(alloc: Global, outcome: Outcome) -> Result<Settled, Fail> {
    match outcome {
        Fulfilled(n) => Ok(Ok(Value::Int(n))),
        Rejected(n) => Ok(Err(Value::Int(n))),
        Heavy => Ok(Ok(heavy(alloc)?)),
    }
}

fn made(alloc: Global, which: Which, count: u32) -> Result<Combine, Fail> {
    match which {
        All => Ok(Combine::new(alloc, Kind::All, count)?),
        Any => Ok(Combine::new(alloc, Kind::Any, count)?),
        AllSettled => Ok(Combine::new(alloc, Kind::AllSettled, count)?),
        Pass(outcome) => {
            let outcome = settled(alloc, outcome)?;
            Ok(Combine::new(alloc, Kind::Pass(outcome), 1)?)
        }
    }
}

// How an answer settles its promise, and with what.
fn spelling(alloc: Global, answer: &Option<Settled>) -> Result<Vec<u8>, Fail> {
    match answer {
        None => Ok(b"none".to_vec(alloc)?),
        Some(Ok(value)) => told(alloc, b"ok ", value),
        Some(Err(reason)) => told(alloc, b"err ", reason),
    }
}

fn begun(alloc: Global, combine: &Combine) -> Result<Vec<u8>, Fail> {
    let answer = combine.begin();
    let line = spelling(alloc, &answer);
    drop(answer);
    line
}

fn report(
    rt: &impl Abort,
    alloc: Global,
    combine: &mut Combine,
    place: u32,
    outcome: Outcome,
) -> Result<Vec<u8>, Fail> {
    let outcome = settled(alloc, outcome)?;
    assert!(rt; combine.may_report(place));
    let answer = combine.report(place, outcome)?;
    let line = spelling(alloc, &answer);
    drop(answer);
    line
}

fn expect_reports(
    rt: &impl Abort,
    alloc: Global,
    combine: &mut Combine,
    reports: &[(u32, Outcome, &str)],
) -> Result<(), Fail> {
    for (place, outcome, wanted) in reports {
        let line = report(rt, alloc, combine, *place, *outcome)?;
        expect_bytes(rt, &line, wanted.as_bytes());
    }
    Ok(())
}

fn expect_begin(
    rt: &impl Abort,
    alloc: Global,
    combine: &Combine,
    wanted: &str,
) -> Result<(), Fail> {
    let line = begun(alloc, combine)?;
    expect_bytes(rt, &line, wanted.as_bytes());
    Ok(())
}

fn expect_answers(
    rt: &impl Abort,
    alloc: Global,
    combine: &mut Combine,
    row: &Row,
) -> Result<(), Fail> {
    expect_begin(rt, alloc, combine, row.begin)?;
    expect_reports(rt, alloc, combine, row.reports)
}

fn expect_row(rt: &impl Abort, alloc: Global, row: &Row) -> Result<(), Fail> {
    let mut combine = made(alloc, row.which, row.count)?;
    let met = expect_answers(rt, alloc, &mut combine, row);
    drop(combine);
    met
}

#[test]
fn combinators_answer_as_their_elements_settle(rt: HostRuntime) -> Result<(), Fail> {
    for row in &ROWS {
        expect_row(&rt, rt.alloc(), row)?;
    }
    Ok(())
}
