//! The priorities of signals: which signal follows which, and changes.

use std::alloc::Global;
use std::process::Abort;
use std::test::Fail;
use task_signal::{ChangeFault, Changing, MemoryFault, Moved, Priority, Prios};

// A call on the priorities, and what it answers.
enum Step {
    Give(u32, Priority),
    Depend(u32, u32),
    Follows(u32, Option<u32>),
    Has(u32, Option<Priority>),
    // A change from the second priority to the first one begins, and these signals follow.
    Change(u32, Priority, Priority, &'static [u32]),
    // No change begins, since this is the priority already.
    Keep(u32, Priority),
    // No change begins, since one of this signal is in progress.
    Refuse(u32, Priority),
    Finish(u32),
}

use Priority::{Background, UserBlocking, UserVisible};
use Step::{Change, Depend, Finish, Follows, Give, Has, Keep, Refuse};

fn give(rt: &impl Abort, prios: &mut Prios, s: u32, p: Priority) -> Result<(), MemoryFault> {
    assert!(rt; prios.priority(s).is_none());
    prios.give(s, p)
}

fn depend(rt: &impl Abort, prios: &mut Prios, s: u32, on: u32) -> Result<(), MemoryFault> {
    assert!(rt; prios.priority(s).is_some());
    assert!(rt; prios.priority(on).is_some());
    assert!(rt; prios.followed(s).is_none());
    assert!(rt; prios.followed(on).is_none());
    assert!(rt; s != on);
    prios.depend(s, on)
}

fn change(
    rt: &impl Abort,
    prios: &mut Prios,
    s: u32,
    p: Priority,
) -> Result<Option<Moved>, ChangeFault> {
    assert!(rt; prios.priority(s).is_some());
    prios.change(s, p)
}

// A change begins: the priority before, and the signals that follow.
fn expect_moved(
    rt: &impl Abort,
    prios: &mut Prios,
    s: u32,
    p: Priority,
    before: Priority,
    dependents: &[u32],
) -> Result<(), Fail> {
    match change(rt, prios, s, p)? {
        Some(moved) => {
            assert_eq!(rt; moved.before, before);
            assert_eq!(rt; moved.dependents.as_slice(), dependents);
            assert_eq!(rt; prios.priority(s), Some(p));
            Ok(())
        }
        None => panic!(rt; "no change began"),
    }
}

fn is_changing(answer: Result<Option<Moved>, ChangeFault>) -> bool {
    match answer {
        Err(fault) => fault == ChangeFault::Is(Changing),
        Ok(_) => false,
    }
}

fn take(rt: &impl Abort, prios: &mut Prios, step: &Step) -> Result<(), Fail> {
    match step {
        Give(s, p) => give(rt, prios, *s, *p)?,
        Depend(s, on) => depend(rt, prios, *s, *on)?,
        Follows(s, on) => assert_eq!(rt; prios.followed(*s), *on),
        Has(s, p) => assert_eq!(rt; prios.priority(*s), *p),
        Change(s, p, before, dependents) => {
            expect_moved(rt, prios, *s, *p, *before, *dependents)?;
        }
        Keep(s, p) => assert!(rt; change(rt, prios, *s, *p)?.is_none()),
        Refuse(s, p) => assert!(rt; is_changing(change(rt, prios, *s, *p))),
        Finish(s) => prios.finish(*s),
    }
    Ok(())
}

fn take_all(rt: &impl Abort, alloc: Global, steps: &[Step]) -> Result<(), Fail> {
    let mut prios = Prios::new(alloc);
    for step in steps {
        take(rt, &mut prios, step)?;
    }
    Ok(())
}

#[test]
fn a_change_within_a_change_of_the_same_signal_is_refused(rt: HostRuntime) -> Result<(), Fail> {
    const STEPS: [Step; 8] = [
        Give(1, Background),
        Change(1, UserVisible, Background, &[]),
        Refuse(1, UserBlocking),
        Refuse(1, UserVisible),
        Has(1, Some(UserVisible)),
        Finish(1),
        Keep(1, UserVisible),
        Change(1, UserBlocking, UserVisible, &[]),
    ];
    take_all(&rt, rt.alloc(), &STEPS)
}

#[test]
fn signals_that_follow_are_told_in_the_order_in_which_they_came(
    rt: HostRuntime,
) -> Result<(), Fail> {
    const STEPS: [Step; 20] = [
        Give(4, Background),
        Give(1, Background),
        Give(3, Background),
        Give(2, Background),
        Depend(3, 1),
        Depend(2, 1),
        Follows(3, Some(1)),
        Follows(2, Some(1)),
        Follows(1, None),
        Follows(9, None),
        Has(9, None),
        Change(1, UserBlocking, Background, &[3, 2]),
        Has(2, Some(Background)),
        Change(3, UserBlocking, Background, &[]),
        Change(4, UserVisible, Background, &[]),
        Finish(3),
        Refuse(1, Background),
        Finish(1),
        Finish(9),
        Change(1, Background, UserBlocking, &[3, 2]),
    ];
    take_all(&rt, rt.alloc(), &STEPS)
}

#[test]
fn a_hundred_thousand_signals_have_a_priority(rt: HostRuntime) -> Result<(), Fail> {
    let mut prios = Prios::new(rt.alloc());
    for s in 0..100_000u32 {
        give(&rt, &mut prios, s, UserVisible)?;
    }
    for s in 0..100_000u32 {
        expect_moved(&rt, &mut prios, s, Background, UserVisible, &[])?;
        prios.finish(s);
    }
    assert_eq!(rt; prios.priority(99_999), Some(Background));
    Ok(())
}
