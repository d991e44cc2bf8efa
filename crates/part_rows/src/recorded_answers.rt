//! Ports that a page asks: one that answers from a record, and the table of closures itself.

use crate::answers::fail;
use crate::rows::expect_met;
use host_jobs::{HostKind, HostOnce, HostPort, HostTable, NoHost, Recorded, RecordedHosts};
use std::alloc::{AllocError, Global};
use std::process::Abort;
use std::test::Fail;

// What a port answers; None where it is not to be asked.
type Answered = Option<Result<Result<i64, i64>, NoHost>>;

// Asks a port as a page does.
fn ask<P: HostPort>(port: &mut P, k: u32, x: i64) -> Answered {
    if port.known(k) && port.live(k) && port.fits(k, x) {
        Some(port.fire_live(k, x))
    } else {
        None
    }
}

fn ask_each<P: HostPort>(rt: &impl Abort, port: &mut P, rows: &[(u32, i64, Answered)]) {
    for (number, (k, x, answered)) in rows.iter().enumerate() {
        expect_met(rt, ask(port, *k, *x) == *answered, number);
    }
}

fn answering_41(alloc: Global) -> Result<HostOnce, AllocError> {
    let job = Box::new(alloc, |_x: i64| Ok(41))?;
    Ok(HostOnce::new(HostKind::Any, -9, 9, job))
}

fn failing(alloc: Global) -> Result<HostOnce, AllocError> {
    let job = Box::new(alloc, fail)?;
    Ok(HostOnce::new(HostKind::Fail, i64::MIN, i64::MAX, job))
}

// Closure 0 answers 41 on each number from -9 to 9.
fn any(alloc: Global) -> Result<HostTable, AllocError> {
    let mut table = HostTable::new(alloc);
    table.push(answering_41(alloc)?)?;
    Ok(table)
}

// Closure 1 beside it fails with its number.
fn any_and_fail(alloc: Global) -> Result<HostTable, AllocError> {
    let mut table = HostTable::new(alloc);
    table.push(answering_41(alloc)?)?;
    table.push(failing(alloc)?)?;
    Ok(table)
}

// A port with the closures of a table that keeps these answers. Of which closure and number they
// are doesn't count.
fn recorded(
    alloc: Global,
    table: &HostTable,
    kept: &[Result<i64, i64>],
) -> Result<RecordedHosts, AllocError> {
    let mut answers = Vec::new(alloc);
    for answer in kept {
        answers.push(Recorded {
            k: 5,
            x: 0,
            answer: *answer,
        })?;
    }
    RecordedHosts::new(alloc, table, answers)
}

#[test]
fn takes_the_next_answer_where_it_meets_the_relation(rt: HostRuntime) -> Result<(), Fail> {
    const KEPT: [Result<i64, i64>; 2] = [Ok(-3), Err(7)];
    const OF_THE_PORT: [(u32, i64, Answered); 5] = [
        // 10 is not in its range.
        (0, 10, None),
        (0, 7, Some(Ok(Ok(-3)))),
        // It was fired.
        (0, 7, None),
        // The next answer is Err(7), on 8.
        (1, 8, Some(Err(NoHost))),
        (1, 7, Some(Ok(Err(7)))),
    ];
    const OF_THE_TABLE: [(u32, i64, Answered); 2] = [
        // It was not called before.
        (0, 7, Some(Ok(Ok(41)))),
        // There is no such closure.
        (2, 7, None),
    ];
    let mut table = any_and_fail(rt.alloc())?;
    let mut port = recorded(rt.alloc(), &table, &KEPT)?;
    ask_each(&rt, &mut port, &OF_THE_PORT);
    ask_each(&rt, &mut table, &OF_THE_TABLE);
    Ok(())
}

// Whether closure 0 of a port is asked no more once it is given up.
fn give_up<P: HostPort>(port: &mut P) -> bool {
    port.give_up(0);
    ask(port, 0, 7).is_none()
}

#[test]
fn a_given_up_closure_is_asked_no_more(rt: HostRuntime) -> Result<(), Fail> {
    let mut table = any(rt.alloc())?;
    let mut port = recorded(rt.alloc(), &table, &[])?;
    // No answer is left.
    let answered = ask(&mut port, 0, 7);
    let are_given_up = give_up(&mut port) && give_up(&mut table);
    drop(port);
    drop(table);
    assert!(rt; answered == Some(Err(NoHost)) && are_given_up);
    Ok(())
}
