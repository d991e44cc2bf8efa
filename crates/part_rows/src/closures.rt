//! Host closures in a table: each is called at most once, and answers by the relation of its kind.

use crate::answers::{GREATEST_HALF, double, fail, negate};
use crate::rows::expect_met;
use host_jobs::{Fired, HostKind, HostOnce, HostTable};
use std::alloc::{AllocError, Global};
use std::cell::Cell;
use std::process::Abort;
use std::rc::Rc;
use std::test::Fail;

// Fires each closure on its number.
fn fire_each(rt: &impl Abort, table: &mut HostTable, calls: &[(u32, i64, Fired)]) {
    for (number, (k, x, fired)) in calls.iter().enumerate() {
        expect_met(rt, table.fire(*k, *x) == *fired, number);
    }
}

fn answering_41(alloc: Global) -> Result<HostOnce, AllocError> {
    let job = Box::new(alloc, |_x: i64| Ok(41))?;
    Ok(HostOnce::new(HostKind::Any, -5, 5, job))
}

fn failing(alloc: Global) -> Result<HostOnce, AllocError> {
    let job = Box::new(alloc, fail)?;
    Ok(HostOnce::new(HostKind::Fail, i64::MIN, i64::MAX, job))
}

// Closure 0 answers 41 on each number from -5 to 5, and closure 1 fails with its number.
fn any_and_fail(rt: &impl Abort, alloc: Global) -> Result<HostTable, AllocError> {
    let mut table = HostTable::new(alloc);
    let first = table.push(answering_41(alloc)?)?;
    let second = table.push(failing(alloc)?)?;
    assert!(rt; first == 0 && second == 1);
    Ok(table)
}

#[test]
fn a_closure_is_called_once_and_gives_its_own_answer(rt: HostRuntime) -> Result<(), Fail> {
    const CALLS: [(u32, i64, Fired); 6] = [
        (0, 6, Fired::OutOfRange),
        (0, 5, Fired::Answer(Ok(41))),
        (0, 5, Fired::Used),
        (0, 6, Fired::Used),
        (2, 0, Fired::Unknown),
        (1, -7, Fired::Answer(Err(-7))),
    ];
    let mut table = any_and_fail(&rt, rt.alloc())?;
    fire_each(&rt, &mut table, &CALLS);
    Ok(())
}

fn doubling(alloc: Global) -> Result<HostOnce, AllocError> {
    let job = Box::new(alloc, double)?;
    Ok(HostOnce::new(HostKind::Double, -GREATEST_HALF, GREATEST_HALF, job))
}

fn negating(alloc: Global) -> Result<HostOnce, AllocError> {
    let job = Box::new(alloc, negate)?;
    Ok(HostOnce::new(HostKind::Negate, -i64::MAX, i64::MAX, job))
}

// Closure 0 doubles, and closure 1 negates.
fn double_and_negate(rt: &impl Abort, alloc: Global) -> Result<HostTable, AllocError> {
    let mut table = HostTable::new(alloc);
    let first = table.push(doubling(alloc)?)?;
    let second = table.push(negating(alloc)?)?;
    assert!(rt; first == 0 && second == 1);
    Ok(table)
}

#[test]
fn a_closure_of_a_kind_answers_by_its_relation(rt: HostRuntime) -> Result<(), Fail> {
    const CALLS: [(u32, i64, Fired); 3] = [
        (
            0,
            GREATEST_HALF,
            Fired::Answer(Ok(9_223_372_036_854_775_806)),
        ),
        (1, i64::MIN, Fired::OutOfRange),
        (1, i64::MAX, Fired::Answer(Ok(-i64::MAX))),
    ];
    let mut table = double_and_negate(&rt, rt.alloc())?;
    fire_each(&rt, &mut table, &CALLS);
    Ok(())
}

// Counts a call.
fn counted(calls: Rc<Cell<u32>>, x: i64) -> Result<i64, i64> {
    calls.set(calls.get().saturating_add(1));
    Ok(x)
}

// A closure that gives each number from 0 to 9 back, and counts that it is called.
fn counting(alloc: Global, calls: &Rc<Cell<u32>>) -> Result<HostOnce, AllocError> {
    let count = calls.clone()?;
    let job = Box::new(alloc, move |x: i64| counted(count, x))?;
    Ok(HostOnce::new(HostKind::Any, 0, 9, job))
}

// Two closures that count their calls together.
fn two_counting(alloc: Global, calls: &Rc<Cell<u32>>) -> Result<HostTable, AllocError> {
    let mut table = HostTable::new(alloc);
    table.push(counting(alloc, calls)?)?;
    table.push(counting(alloc, calls)?)?;
    Ok(table)
}

// A call on the table, and what it answers; or what is seen of the calls of its closures.
enum Step {
    Fire(u32, i64, Fired),
    DropJob(u32, bool),
    Owners(usize),
    Calls(u32),
}

use Step::{Calls, DropJob, Fire, Owners};

fn take(table: &mut HostTable, calls: &Rc<Cell<u32>>, step: &Step) -> bool {
    match step {
        Fire(k, x, fired) => table.fire(*k, *x) == *fired,
        DropJob(k, was_live) => table.drop_job(*k) == *was_live,
        Owners(n) => Rc::strong_count(calls) == *n,
        Calls(n) => calls.get() == *n,
    }
}

fn take_all(
    rt: &impl Abort,
    alloc: Global,
    calls: &Rc<Cell<u32>>,
    steps: &[Step],
) -> Result<(), Fail> {
    let mut table = two_counting(alloc, calls)?;
    for (number, step) in steps.iter().enumerate() {
        expect_met(rt, take(&mut table, calls, step), number);
    }
    Ok(())
}

#[test]
fn a_dropped_closure_was_never_called(rt: HostRuntime) -> Result<(), Fail> {
    const STEPS: [Step; 9] = [
        DropJob(0, true),
        Owners(2),
        Calls(0),
        Fire(1, 3, Fired::Answer(Ok(3))),
        Owners(1),
        Calls(1),
        DropJob(0, false),
        DropJob(1, false),
        DropJob(2, false),
    ];
    let calls = Rc::new(rt.alloc(), Cell::new(0u32))?;
    take_all(&rt, rt.alloc(), &calls, &STEPS)
}
