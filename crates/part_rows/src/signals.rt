//! Signals: which depend on which, what an abort marks, and the algorithms.

use crate::rows::expect_met;
use abort_graph::{MemoryFault, Signals};
use std::alloc::Global;
use std::process::Abort;
use std::test::Fail;

// A call on the signals, and what it answers. Signals have the numbers from 1 on.
enum Step {
    Make(u32),
    MakeAborted { reason: u32, number: u32 },
    Any(&'static [u32], u32),
    Mark(u32, u32, &'static [u32]),
    Reason(u32, Option<u32>),
    Add(u32, u64),
    Remove(u32, u64, bool),
    Taken(u32, &'static [u64]),
}

use Step::{Add, Any, Make, MakeAborted, Mark, Reason, Remove, Taken};

fn make(rt: &impl Abort, signals: &mut Signals<u32>) -> Result<u32, MemoryFault> {
    assert!(rt; signals.made() < 100);
    signals.make()
}

fn make_aborted(
    rt: &impl Abort,
    signals: &mut Signals<u32>,
    reason: u32,
) -> Result<u32, MemoryFault> {
    assert!(rt; signals.made() < 100);
    signals.make_aborted(reason)
}

fn any(rt: &impl Abort, signals: &mut Signals<u32>, of: &[u32]) -> Result<u32, MemoryFault> {
    assert!(rt; signals.made() < 100);
    signals.any(of)
}

// Whether an abort marks these signals, in this order.
fn marks(
    signals: &mut Signals<u32>,
    s: u32,
    reason: u32,
    expected: &[u32],
) -> Result<bool, MemoryFault> {
    let marked = signals.abort_mark(s, reason)?;
    let are_marked = marked.signals() == expected;
    Ok(are_marked && marked.into_signals().len() == expected.len())
}

fn has_reason(signals: &Signals<u32>, s: u32, reason: Option<u32>) -> bool {
    signals.reason(s).copied() == reason
}

fn add(signals: &mut Signals<u32>, s: u32, a: u64) -> Result<bool, Fail> {
    signals.add_algorithm(s, a)?;
    Ok(true)
}

fn are_taken(signals: &mut Signals<u32>, s: u32, expected: &[u64]) -> bool {
    signals.take_algorithms(s).as_slice() == expected
}

// Whether a call answers what is wanted.
fn take(rt: &impl Abort, signals: &mut Signals<u32>, step: &Step) -> Result<bool, Fail> {
    match step {
        Make(number) => Ok(make(rt, signals)? == *number),
        MakeAborted { reason, number } => Ok(make_aborted(rt, signals, *reason)? == *number),
        Any(of, number) => Ok(any(rt, signals, *of)? == *number),
        Mark(s, reason, expected) => Ok(marks(signals, *s, *reason, *expected)?),
        Reason(s, reason) => Ok(has_reason(signals, *s, *reason)),
        Add(s, a) => add(signals, *s, *a),
        Remove(s, a, was) => Ok(signals.remove_algorithm(*s, *a) == *was),
        Taken(s, expected) => Ok(are_taken(signals, *s, *expected)),
    }
}

fn take_all(rt: &impl Abort, alloc: Global, steps: &[Step]) -> Result<(), Fail> {
    let mut signals = Signals::new(alloc);
    for (number, step) in steps.iter().enumerate() {
        expect_met(rt, take(rt, &mut signals, step)?, number);
    }
    Ok(())
}

#[test]
fn an_abort_sets_the_reason_on_a_dependent_signal_before_any_step_runs(
    rt: HostRuntime,
) -> Result<(), Fail> {
    const STEPS: [Step; 13] = [
        Make(1),
        Any(&[1], 2),
        MakeAborted {
            reason: 40,
            number: 3,
        },
        Any(&[1, 3], 4),
        Reason(4, Some(40)),
        Reason(2, None),
        Mark(1, 70, &[1, 2]),
        Reason(1, Some(70)),
        Reason(2, Some(70)),
        Reason(4, Some(40)),
        Mark(1, 80, &[]),
        Mark(2, 80, &[]),
        Reason(2, Some(70)),
    ];
    take_all(&rt, rt.alloc(), &STEPS)
}

#[test]
fn a_dependent_signal_depends_on_signals_that_depend_on_none_each_once(
    rt: HostRuntime,
) -> Result<(), Fail> {
    const STEPS: [Step; 10] = [
        Make(1),
        Make(2),
        Make(3),
        Any(&[2, 1], 4),
        Any(&[4, 1, 3, 2], 5),
        Mark(3, 1, &[3, 5]),
        Mark(2, 2, &[2, 4]),
        Mark(1, 3, &[1]),
        Reason(5, Some(1)),
        Reason(4, Some(2)),
    ];
    take_all(&rt, rt.alloc(), &STEPS)
}

#[test]
fn the_first_aborted_signal_gives_the_reason_and_no_dependence(
    rt: HostRuntime,
) -> Result<(), Fail> {
    const STEPS: [Step; 9] = [
        Make(1),
        MakeAborted {
            reason: 5,
            number: 2,
        },
        MakeAborted {
            reason: 6,
            number: 3,
        },
        Any(&[1, 3, 2], 4),
        Reason(4, Some(6)),
        Mark(1, 9, &[1]),
        Any(&[], 5),
        Reason(5, None),
        Mark(5, 9, &[5]),
    ];
    take_all(&rt, rt.alloc(), &STEPS)
}

#[test]
fn algorithms_are_taken_in_order_and_once(rt: HostRuntime) -> Result<(), Fail> {
    const STEPS: [Step; 14] = [
        Make(1),
        Make(2),
        Add(1, 30),
        Add(1, 10),
        Add(1, 20),
        Add(1, 10),
        Add(2, 10),
        Remove(1, 10, true),
        Remove(1, 10, false),
        Remove(1, 40, false),
        Add(1, 10),
        Taken(1, &[30, 20, 10]),
        Taken(1, &[]),
        Taken(2, &[10]),
    ];
    take_all(&rt, rt.alloc(), &STEPS)
}

// The algorithm is added to the signal and to the plain list, or removed from both. Whether both
// had it where it is removed.
fn add_or_remove(
    signals: &mut Signals<u32>,
    s: u32,
    plain: &mut Vec<u64>,
    a: u64,
    adds: bool,
) -> Result<bool, Fail> {
    if adds {
        signals.add_algorithm(s, a)?;
        plain.push(a)?;
        return Ok(true);
    }
    let was = plain.contains(&a);
    plain.retain(|b| *b != a);
    Ok(signals.remove_algorithm(s, a) == was)
}

// Whether both go on alike, as a number says.
fn go_on(
    signals: &mut Signals<u32>,
    s: u32,
    plain: &mut Vec<u64>,
    state: u32,
) -> Result<bool, Fail> {
    let a = u64::from(state >> 16) % 16;
    let is_alike = add_or_remove(signals, s, plain, a, state >> 24 < 140)?;
    if state >> 24 > 0 {
        return Ok(is_alike);
    }
    let are_alike = are_taken(signals, s, plain);
    plain.clear();
    Ok(is_alike && are_alike)
}

fn compare(
    rt: &impl Abort,
    signals: &mut Signals<u32>,
    s: u32,
    plain: &mut Vec<u64>,
) -> Result<(), Fail> {
    let mut state: u32 = 1;
    for step in 0..2000u32 {
        state = state.wrapping_mul(1_103_515_245).wrapping_add(12_345);
        expect_met(rt, go_on(signals, s, plain, state)?, step as usize);
    }
    expect_met(rt, are_taken(signals, s, plain), 2000);
    Ok(())
}

#[test]
fn a_plain_list_has_the_same_algorithms(rt: HostRuntime) -> Result<(), Fail> {
    let mut signals = Signals::new(rt.alloc());
    let mut plain: Vec<u64> = Vec::new(rt.alloc());
    let s = make(&rt, &mut signals)?;
    compare(&rt, &mut signals, s, &mut plain)
}

// A hundred thousand algorithms of a signal are replaced by as many others, and all of these but
// the last are removed.
fn replace_algorithms(signals: &mut Signals<u32>, s: u32) -> Result<bool, Fail> {
    for a in 0..100_000u64 {
        signals.add_algorithm(s, a)?;
    }
    for a in 0..100_000u64 {
        if !signals.remove_algorithm(s, a) {
            return Ok(false);
        }
        signals.add_algorithm(s, a + 100_000)?;
    }
    for a in 100_000..199_999u64 {
        if !signals.remove_algorithm(s, a) {
            return Ok(false);
        }
    }
    Ok(true)
}

fn come_and_go(rt: &impl Abort, signals: &mut Signals<u32>) -> Result<bool, Fail> {
    let s = make(rt, signals)?;
    Ok(replace_algorithms(signals, s)? && are_taken(signals, s, &[199_999]))
}

#[test]
fn a_hundred_thousand_algorithms_come_and_go(rt: HostRuntime) -> Result<(), Fail> {
    let mut signals = Signals::new(rt.alloc());
    let is_one_left = come_and_go(&rt, &mut signals);
    drop(signals);
    assert!(rt; is_one_left?);
    Ok(())
}
