//! Listeners, and what a dispatch calls of them.

ghost use Rattle.std.specs.Prelude.{IsTrue};
ghost use Rattle.page_values.specs.Texts.{is_text};

use crate::rows::expect_met;
use page_events::{Dispatch, Listeners, Target};
use page_values::Str;
use std::alloc::Global;
use std::process::Abort;
use std::test::Fail;

// The name of an event.
#[derive(Clone, Copy)]
enum Name {
    Abort,
    Click,
}

// A call on the listeners, and what it answers. Dispatches that begin have the numbers from 0 on.
enum Step {
    Add(Target, Name, u32),
    Off(u32, bool),
    // A dispatch calls these.
    Calls(Target, Name, &'static [u32]),
    Begin(Target, Name),
    // The dispatch of this number calls this one next.
    Next(usize, u32),
    // The dispatch of this number has these left to call.
    Left(usize, &'static [u32]),
}

use Step::{Add, Begin, Calls, Left, Next, Off};
use Target::{Signal, Window};

// Listeners, and the dispatches that have begun.
#[derive(Drop)]
struct Page {
    listeners: Listeners,
    begun: Vec<Dispatch>,
}

fn text(alloc: Global, bytes: &[u8]) -> Result<Str, Fail>
    requires { IsTrue (is_text bytes.now) }
{
    Ok(Str::new(bytes.to_vec(alloc)?))
}

fn text_of(alloc: Global, name: Name) -> Result<Str, Fail> {
    match name {
        Name::Abort => text(alloc, b"abort"),
        Name::Click => text(alloc, b"click"),
    }
}

// Whether a dispatch has these listeners still to call.
fn are_left(listeners: &Listeners, dispatch: &mut Dispatch, expected: &[u32]) -> bool {
    for registration in expected {
        if listeners.next(dispatch) != Some(*registration) {
            return false;
        }
    }
    listeners.next(dispatch).is_none()
}

impl Page {
    fn new(alloc: Global) -> Page {
        Page {
            listeners: Listeners::new(alloc),
            begun: Vec::new(alloc),
        }
    }

    fn dispatch(&self, alloc: Global, target: Target, name: Name) -> Result<Dispatch, Fail> {
        let name = text_of(alloc, name)?;
        Ok(self.listeners.begin(target, &name)?)
    }

    fn add(
        &mut self,
        alloc: Global,
        target: Target,
        name: Name,
        registration: u32,
    ) -> Result<bool, Fail> {
        let name = text_of(alloc, name)?;
        self.listeners.add(target, &name, registration)?;
        Ok(true)
    }

    fn begin(&mut self, alloc: Global, target: Target, name: Name) -> Result<bool, Fail> {
        let dispatch = self.dispatch(alloc, target, name)?;
        self.begun.push(dispatch)?;
        Ok(true)
    }

    fn calls(
        &self,
        alloc: Global,
        target: Target,
        name: Name,
        expected: &[u32],
    ) -> Result<bool, Fail> {
        let mut dispatch = self.dispatch(alloc, target, name)?;
        Ok(are_left(&self.listeners, &mut dispatch, expected))
    }

    fn calls_next(&mut self, number: usize, expected: u32) -> bool {
        let Page { listeners, begun } = self;
        match begun.get_mut(number) {
            Some(dispatch) => listeners.next(dispatch) == Some(expected),
            None => false,
        }
    }

    fn has_left(&mut self, number: usize, expected: &[u32]) -> bool {
        let Page { listeners, begun } = self;
        match begun.get_mut(number) {
            Some(dispatch) => are_left(listeners, dispatch, expected),
            None => false,
        }
    }

    // Whether a call answers what is wanted.
    fn take(&mut self, alloc: Global, step: &Step) -> Result<bool, Fail> {
        match step {
            Add(target, name, registration) => self.add(alloc, *target, *name, *registration),
            Off(registration, was) => Ok(self.listeners.off(*registration) == *was),
            Calls(target, name, expected) => self.calls(alloc, *target, *name, *expected),
            Begin(target, name) => self.begin(alloc, *target, *name),
            Next(number, registration) => Ok(self.calls_next(*number, *registration)),
            Left(number, expected) => Ok(self.has_left(*number, *expected)),
        }
    }
}

fn take_all(rt: &impl Abort, alloc: Global, steps: &[Step]) -> Result<(), Fail> {
    let mut page = Page::new(alloc);
    for (number, step) in steps.iter().enumerate() {
        expect_met(rt, page.take(alloc, step)?, number);
    }
    Ok(())
}

#[test]
fn a_dispatch_goes_to_one_target_and_name_in_the_order_of_adding(
    rt: HostRuntime,
) -> Result<(), Fail> {
    const STEPS: [Step; 9] = [
        Add(Window, Name::Click, 2),
        Add(Window, Name::Abort, 3),
        Add(Signal(1), Name::Abort, 4),
        Add(Signal(2), Name::Abort, 5),
        Add(Signal(1), Name::Abort, 7),
        Add(Window, Name::Click, 9),
        Calls(Signal(1), Name::Abort, &[4, 7]),
        Calls(Window, Name::Click, &[2, 9]),
        Calls(Signal(2), Name::Click, &[]),
    ];
    take_all(&rt, rt.alloc(), &STEPS)
}

#[test]
fn a_dispatch_passes_over_what_was_removed_and_what_was_added_since(
    rt: HostRuntime,
) -> Result<(), Fail> {
    const STEPS: [Step; 15] = [
        Add(Window, Name::Click, 2),
        Add(Window, Name::Click, 3),
        Add(Window, Name::Click, 4),
        Add(Window, Name::Click, 5),
        Begin(Window, Name::Click),
        Begin(Window, Name::Click),
        Next(0, 2),
        Off(2, true),
        Off(4, true),
        Off(4, false),
        Off(6, false),
        Add(Window, Name::Click, 6),
        Left(0, &[3, 5]),
        Left(1, &[3, 5]),
        Calls(Window, Name::Click, &[3, 5, 6]),
    ];
    take_all(&rt, rt.alloc(), &STEPS)
}

#[test]
fn the_order_is_that_of_adding_whatever_the_numbers(rt: HostRuntime) -> Result<(), Fail> {
    const STEPS: [Step; 7] = [
        Add(Window, Name::Click, 9),
        Add(Window, Name::Click, 4),
        Add(Window, Name::Click, 7),
        Off(9, true),
        Off(9, false),
        Add(Window, Name::Click, 9),
        Calls(Window, Name::Click, &[4, 7, 9]),
    ];
    take_all(&rt, rt.alloc(), &STEPS)
}

#[test]
fn a_number_that_was_added_twice_is_removed_once_for_all(rt: HostRuntime) -> Result<(), Fail> {
    const STEPS: [Step; 8] = [
        Add(Window, Name::Click, 2),
        Add(Signal(0), Name::Abort, 2),
        Add(Window, Name::Click, 3),
        Begin(Signal(0), Name::Abort),
        Off(2, true),
        Off(2, false),
        Left(0, &[]),
        Calls(Window, Name::Click, &[3]),
    ];
    take_all(&rt, rt.alloc(), &STEPS)
}

// Each of a hundred thousand signals has a listener.
fn add_each(listeners: &mut Listeners, abort: &Str) -> Result<(), Fail> {
    for number in 0..100_000u32 {
        listeners.add(Target::Signal(number), abort, number)?;
    }
    Ok(())
}

// Each of these listeners is removed, and added again, two to a signal.
fn move_each(listeners: &mut Listeners, abort: &Str) -> Result<bool, Fail> {
    for number in 0..100_000u32 {
        if !listeners.off(number) {
            return Ok(false);
        }
        listeners.add(Target::Signal(number / 2), abort, number)?;
    }
    Ok(true)
}

fn are_moved(listeners: &Listeners, abort: &Str) -> Result<bool, Fail> {
    for number in 0..50_000u32 {
        let mut dispatch = listeners.begin(Target::Signal(number), abort)?;
        let expected = [number * 2, number * 2 + 1];
        if !are_left(listeners, &mut dispatch, &expected) {
            return Ok(false);
        }
    }
    Ok(true)
}

fn come_and_go(listeners: &mut Listeners, abort: &Str) -> Result<bool, Fail> {
    add_each(listeners, abort)?;
    Ok(move_each(listeners, abort)? && are_moved(listeners, abort)?)
}

#[test]
fn a_hundred_thousand_signals_have_a_listener_that_is_removed_and_added_again(
    rt: HostRuntime,
) -> Result<(), Fail> {
    let abort = text(rt.alloc(), b"abort")?;
    let mut listeners = Listeners::new(rt.alloc());
    let are_moved = come_and_go(&mut listeners, &abort);
    drop(listeners);
    assert!(rt; are_moved?);
    Ok(())
}
