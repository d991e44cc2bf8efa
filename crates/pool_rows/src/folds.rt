//! Dispatch, abort and priority change by single steps.
ghost use Rattle.std.specs.Prelude.{◌≡◌, length, OnOk, IsTrue};
ghost use Rattle.page_values.specs.Texts.{is_text};
ghost use Rattle.page_folds.specs.Seen.{open_of};

use page_events::Target;
use page_folds::{FoldStep, Folds};
use page_values::Str;
use std::alloc::Global;
use std::process::Abort;
use std::test::Fail;
use task_signal::{ChangeFault, Changing, MemoryFault, Priority};

// The name of an event.
#[derive(Clone, Copy)]
enum Name {
    Abort,
    Click,
    PriorityChange,
}

// What changes beside the open folds, and what is found there. Signals have the numbers from 1 on.
enum Part {
    Make(u32),
    // A signal that depends on the first number has the second one.
    Dependent(u32, u32),
    Algorithm(u32, u64),
    Listen(Target, Name, u32),
    Off(u32),
    Reason(u32, Option<u32>),
    // A signal gets its first priority.
    Give(u32),
    // From now on the first signal follows the second one.
    Depend(u32, u32),
}

// What a step of a fold says is to be done next.
#[derive(Clone, Copy)]
enum Visit {
    Run(u64),
    AtWindow(u32),
    AtSignal(u32, u32),
    // The tasks of a signal are to be moved, which had this priority until then.
    Move(u32, Priority),
}

// A call on the folds, and what it answers. The first number of each step of a fold is its ticket.
enum Step {
    On(Part),
    Dispatch(u64, Target, Name),
    // An abort of a signal for a reason marks these.
    Abort(u64, u32, u32, &'static [u32]),
    Change(u64, u32, Priority),
    // No change begins, since this is the priority already.
    Keep(u32, Priority),
    // No change begins, since one of this signal is in progress.
    Refuse(u32, Priority),
    Next(u64, Visit),
    // The next steps up to the end.
    Last(u64, &'static [Visit]),
}

use Part::{Algorithm, Depend, Dependent, Give, Listen, Make, Off, Reason};
use Step::{Change, Dispatch, Keep, Last, Next, On, Refuse};
use Target::{Signal, Window};
use Visit::{AtSignal, AtWindow, Move, Run};

fn text(alloc: Global, bytes: &[u8]) -> Result<Str, Fail>
    requires { IsTrue (is_text bytes.now) }
{
    Ok(Str::new(bytes.to_vec(alloc)?))
}

fn text_of(alloc: Global, name: Name) -> Result<Str, Fail> {
    match name {
        Name::Abort => text(alloc, b"abort"),
        Name::Click => text(alloc, b"click"),
        Name::PriorityChange => text(alloc, b"prioritychange"),
    }
}

fn step_of(visit: Visit) -> FoldStep {
    match visit {
        Run(a) => FoldStep::Algorithm(a),
        AtWindow(registration) => FoldStep::Listener {
            target: Window,
            registration,
        },
        AtSignal(s, registration) => FoldStep::Listener {
            target: Signal(s),
            registration,
        },
        Move(signal, before) => FoldStep::Changed { signal, before },
    }
}

// The next step of the innermost open fold.
fn next_step(
    rt: &impl Abort,
    folds: &mut Folds,
    depth: &mut u64,
    ticket: u64,
) -> Result<FoldStep, MemoryFault>
    requires { length (open_of folds.old) ≡ depth.old }
    ensures { OnOk result (length (open_of folds.new) ≡ depth.new) }
{
    assert!(rt; *depth > 0);
    assert!(rt; *depth - 1 == ticket);
    let step = folds.step(ticket)?;
    match step {
        FoldStep::Finished => *depth = ticket,
        FoldStep::Algorithm(_) | FoldStep::Listener { .. } | FoldStep::Changed { .. } => {}
    }
    Ok(step)
}

// The next steps of the innermost open fold, up to its end.
fn expect_steps(
    rt: &impl Abort,
    folds: &mut Folds,
    depth: &mut u64,
    ticket: u64,
    expected: &[Visit],
) -> Result<(), Fail>
    requires { length (open_of folds.old) ≡ depth.old }
    ensures { OnOk result (length (open_of folds.new) ≡ depth.new) }
{
    for visit in expected {
        assert_eq!(rt; next_step(rt, folds, depth, ticket)?, step_of(*visit));
    }
    assert_eq!(rt; next_step(rt, folds, depth, ticket)?, FoldStep::Finished);
    Ok(())
}

fn expect_dispatch(
    rt: &impl Abort,
    folds: &mut Folds,
    depth: &mut u64,
    ticket: u64,
    target: Target,
    name: &Str,
) -> Result<(), Fail>
    requires { length (open_of folds.old) ≡ depth.old }
    ensures { OnOk result (length (open_of folds.new) ≡ depth.new) }
{
    assert!(rt; *depth < 1000);
    assert_eq!(rt; folds.begin_dispatch(target, name)?, ticket);
    *depth += 1;
    Ok(())
}

fn expect_abort(
    rt: &impl Abort,
    folds: &mut Folds,
    depth: &mut u64,
    ticket: u64,
    s: u32,
    reason: u32,
    expected: &[u32],
) -> Result<(), Fail>
    requires { length (open_of folds.old) ≡ depth.old }
    ensures { OnOk result (length (open_of folds.new) ≡ depth.new) }
{
    assert!(rt; *depth < 1000);
    let aborting = folds.begin_abort(s, reason)?;
    *depth += 1;
    assert_eq!(rt; aborting.ticket, ticket);
    assert_eq!(rt; aborting.marked.as_slice(), expected);
    Ok(())
}

fn make(rt: &impl Abort, folds: &mut Folds) -> Result<u32, Fail>
    ensures { open_of folds.new ≡ open_of folds.old }
{
    assert!(rt; folds.signals.made() < 100);
    Ok(folds.signals.make()?)
}

// A signal that depends on another one.
fn make_dependent(rt: &impl Abort, folds: &mut Folds, on: u32) -> Result<u32, Fail>
    ensures { open_of folds.new ≡ open_of folds.old }
{
    assert!(rt; folds.signals.made() < 100);
    Ok(folds.signals.any(&[on])?)
}

// Gives a signal its first priority.
fn give(rt: &impl Abort, folds: &mut Folds, s: u32) -> Result<(), Fail>
    ensures { open_of folds.new ≡ open_of folds.old }
{
    assert!(rt; folds.prios.priority(s).is_none());
    folds.prios.give(s, Priority::UserVisible)?;
    Ok(())
}

// From now on the first signal follows the second one.
fn depend(rt: &impl Abort, folds: &mut Folds, s: u32, on: u32) -> Result<(), Fail>
    ensures { open_of folds.new ≡ open_of folds.old }
{
    assert!(rt; folds.prios.priority(s).is_some());
    assert!(rt; folds.prios.priority(on).is_some());
    assert!(rt; folds.prios.followed(s).is_none());
    assert!(rt; folds.prios.followed(on).is_none());
    assert!(rt; s != on);
    folds.prios.depend(s, on)?;
    Ok(())
}

fn begin_change(
    rt: &impl Abort,
    folds: &mut Folds,
    depth: &mut u64,
    s: u32,
    p: Priority,
) -> Result<Option<u64>, ChangeFault>
    requires { length (open_of folds.old) ≡ depth.old }
    ensures { length (open_of folds.new) ≡ depth.new }
{
    assert!(rt; *depth < 1000);
    assert!(rt; folds.prios.priority(s).is_some());
    let begun = folds.begin_change(s, p)?;
    if begun.is_some() {
        *depth += 1;
    }
    Ok(begun)
}

// A change begins.
fn expect_change(
    rt: &impl Abort,
    folds: &mut Folds,
    depth: &mut u64,
    ticket: u64,
    s: u32,
    p: Priority,
) -> Result<(), Fail>
    requires { length (open_of folds.old) ≡ depth.old }
    ensures { OnOk result (length (open_of folds.new) ≡ depth.new) }
{
    assert_eq!(rt; begin_change(rt, folds, depth, s, p)?, Some(ticket));
    assert_eq!(rt; folds.prios.priority(s), Some(p));
    Ok(())
}

// A change of the signal is in progress.
fn expect_refused(rt: &impl Abort, folds: &mut Folds, depth: &mut u64, s: u32, p: Priority)
    requires { length (open_of folds.old) ≡ depth.old }
    ensures { length (open_of folds.new) ≡ depth.new }
{
    let refused = begin_change(rt, folds, depth, s, p);
    assert!(rt; matches!(&refused, Err(ChangeFault::Is(Changing))));
}

fn take_part(rt: &impl Abort, alloc: Global, folds: &mut Folds, part: &Part) -> Result<(), Fail>
    ensures { OnOk result (open_of folds.new ≡ open_of folds.old) }
{
    match part {
        Make(number) => assert_eq!(rt; make(rt, folds)?, *number),
        Dependent(on, number) => assert_eq!(rt; make_dependent(rt, folds, *on)?, *number),
        Algorithm(s, a) => folds.signals.add_algorithm(*s, *a)?,
        Listen(target, name, registration) => {
            let name = text_of(alloc, *name)?;
            folds.listeners.add(*target, &name, *registration)?;
        }
        Off(registration) => assert!(rt; folds.listeners.off(*registration)),
        Reason(s, reason) => assert_eq!(rt; folds.signals.reason(*s).copied(), *reason),
        Give(s) => give(rt, folds, *s)?,
        Depend(s, on) => depend(rt, folds, *s, *on)?,
    }
    Ok(())
}

// Takes a step. The depth is how many folds are open.
fn take(
    rt: &impl Abort,
    alloc: Global,
    folds: &mut Folds,
    depth: &mut u64,
    step: &Step,
) -> Result<(), Fail>
    requires { length (open_of folds.old) ≡ depth.old }
    ensures { OnOk result (length (open_of folds.new) ≡ depth.new) }
{
    match step {
        On(part) => take_part(rt, alloc, folds, part)?,
        Dispatch(ticket, target, name) => {
            let name = text_of(alloc, *name)?;
            expect_dispatch(rt, folds, depth, *ticket, *target, &name)?;
        }
        Step::Abort(ticket, s, reason, marked) => {
            expect_abort(rt, folds, depth, *ticket, *s, *reason, *marked)?;
        }
        Change(ticket, s, p) => expect_change(rt, folds, depth, *ticket, *s, *p)?,
        Keep(s, p) => assert!(rt; begin_change(rt, folds, depth, *s, *p)?.is_none()),
        Refuse(s, p) => expect_refused(rt, folds, depth, *s, *p),
        Next(ticket, visit) => {
            assert_eq!(rt; next_step(rt, folds, depth, *ticket)?, step_of(*visit));
        }
        Last(ticket, expected) => expect_steps(rt, folds, depth, *ticket, *expected)?,
    }
    Ok(())
}

fn take_all(rt: &impl Abort, alloc: Global, steps: &[Step]) -> Result<(), Fail> {
    let mut folds = Folds::new(alloc);
    let mut depth = 0;
    for step in steps {
        take(rt, alloc, &mut folds, &mut depth, step)?;
    }
    Ok(())
}

#[test]
fn a_dispatch_within_another_goes_on_first(rt: HostRuntime) -> Result<(), Fail> {
    const STEPS: [Step; 12] = [
        On(Listen(Window, Name::Click, 2)),
        On(Listen(Window, Name::Click, 3)),
        On(Listen(Window, Name::Click, 4)),
        Dispatch(0, Window, Name::Click),
        Next(0, AtWindow(2)),
        On(Off(3)),
        On(Listen(Window, Name::Click, 5)),
        Dispatch(1, Window, Name::Click),
        Last(1, &[AtWindow(2), AtWindow(4), AtWindow(5)]),
        Last(0, &[AtWindow(4)]),
        Dispatch(0, Signal(1), Name::Click),
        Last(0, &[]),
    ];
    take_all(&rt, rt.alloc(), &STEPS)
}

#[test]
fn an_abort_visits_each_signal_with_its_algorithms_first(rt: HostRuntime) -> Result<(), Fail> {
    // The second signal depends on the first one, and so does the third, which has nothing to run.
    const STEPS: [Step; 15] = [
        On(Make(1)),
        On(Dependent(1, 2)),
        On(Dependent(1, 3)),
        On(Algorithm(1, 30)),
        On(Algorithm(1, 10)),
        On(Algorithm(2, 40)),
        On(Listen(Signal(2), Name::Abort, 7)),
        On(Listen(Signal(1), Name::Abort, 5)),
        On(Listen(Signal(1), Name::Click, 6)),
        Step::Abort(0, 1, 90, &[1, 2, 3]),
        On(Reason(3, Some(90))),
        Last(
            0,
            &[Run(30), Run(10), AtSignal(1, 5), Run(40), AtSignal(2, 7)],
        ),
        Step::Abort(0, 2, 91, &[]),
        Last(0, &[]),
        On(Reason(2, Some(90))),
    ];
    take_all(&rt, rt.alloc(), &STEPS)
}

#[test]
fn a_listener_that_a_listener_removes_is_no_step(rt: HostRuntime) -> Result<(), Fail> {
    const STEPS: [Step; 7] = [
        On(Make(1)),
        On(Listen(Signal(1), Name::Abort, 2)),
        On(Listen(Signal(1), Name::Abort, 3)),
        Step::Abort(0, 1, 1, &[1]),
        Next(0, AtSignal(1, 2)),
        On(Off(3)),
        Last(0, &[]),
    ];
    take_all(&rt, rt.alloc(), &STEPS)
}

#[test]
fn a_change_tells_its_own_listeners_before_its_followers(rt: HostRuntime) -> Result<(), Fail> {
    const STEPS: [Step; 19] = [
        On(Give(1)),
        On(Listen(Signal(1), Name::PriorityChange, 11)),
        On(Give(2)),
        On(Listen(Signal(2), Name::PriorityChange, 12)),
        On(Give(3)),
        On(Listen(Signal(3), Name::PriorityChange, 13)),
        On(Give(4)),
        On(Listen(Signal(4), Name::PriorityChange, 14)),
        On(Depend(3, 2)),
        On(Depend(2, 1)),
        On(Depend(4, 1)),
        Change(0, 1, Priority::UserBlocking),
        Next(0, Move(1, Priority::UserVisible)),
        Next(0, AtSignal(1, 11)),
        Refuse(1, Priority::Background),
        Last(
            0,
            &[
                Move(2, Priority::UserVisible),
                AtSignal(2, 12),
                Move(3, Priority::UserVisible),
                AtSignal(3, 13),
                Move(4, Priority::UserVisible),
                AtSignal(4, 14),
            ],
        ),
        Keep(1, Priority::UserBlocking),
        Change(0, 3, Priority::UserVisible),
        Last(0, &[Move(3, Priority::UserBlocking), AtSignal(3, 13)]),
    ];
    take_all(&rt, rt.alloc(), &STEPS)
}

#[test]
fn a_change_passes_over_a_signal_that_is_changed_within_it(rt: HostRuntime) -> Result<(), Fail> {
    const STEPS: [Step; 10] = [
        On(Give(1)),
        On(Give(2)),
        On(Give(3)),
        On(Depend(2, 1)),
        On(Depend(3, 1)),
        Change(0, 1, Priority::Background),
        Next(0, Move(1, Priority::UserVisible)),
        Change(1, 2, Priority::Background),
        Last(1, &[Move(2, Priority::UserVisible)]),
        Last(0, &[Move(3, Priority::UserVisible)]),
    ];
    take_all(&rt, rt.alloc(), &STEPS)
}
