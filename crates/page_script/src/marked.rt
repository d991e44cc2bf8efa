//! The notices, and what each promise is besides.

ghost use Rattle.std.specs.Prelude.{◌≡◌, ◌+◌, ◌^◌, ◌<◌, ◌==◌, ◌↔◌, not, [], length, nat_lt, find};
ghost use Rattle.std.specs.Prelude.{IfOk, OnOk, OnErr, IsTrue};
ghost use Rattle.std.specs.Option.{option_map};
ghost use Rattle.page_parts.specs.Words.{has_number, numbered};
ghost use Rattle.page_script.specs.declared.parts.Mark.TheVariants.{Plain};
ghost use Rattle.page_parts.specs.Promises.{the_promise, settled_value};
ghost use Rattle.page_parts.specs.Notices as parts;
ghost use Rattle.page_parts.specs.Notices.{is_outstanding};
ghost use Rattle.page_values.specs.Written.{IsNumbered};
ghost use Rattle.promise_core.specs.Held.{IsMade, all_within};
ghost use Rattle.promise_core.specs.Seen.{settled_seen};
ghost use Rattle.page_notices.specs.Steps.{held};
ghost use Rattle.page_script.specs.Marks.{no_promises, with_promise};
ghost use Rattle.page_script.specs.Calls.{LendsSeen};
ghost use Rattle.page_script.specs.MarkSteps.{Notes, settle_at, follow_at, subscribe_at, micro_at, TakesOldest, without_oldest, element_at};

use crate::parts::{Mark, Moment};
use page_notices::{NextJob, Notices, Reaction, Settled};
use page_values::{FunNames, MemoryFault};
use std::alloc::Global;
use std::marker::Model;
use trace_text::{Lines, NoLine};

// The notices, with a mark for each promise. Where a call's lines stop, it holds no promise any more.
#[derive(Drop)]
pub(crate) struct Marked {
    alloc: Global,
    notices: Notices,
    marks: Vec<Mark>,
}

impl Model for Marked {
    ghost use Rattle.std.specs.Prelude.{◌≡◌, length};
    ghost use Rattle.page_script.specs.Marks.{Marked as MarkedPromises, coded_marked, script_numbers, elements_from};

    ghost Value = { MarkedPromises };

    ghost coded = { coded_marked };

    ghost view = { λ a. record {
      notices = a.notices;
      script_promises = script_numbers 1 a.marks.items;
      elements = elements_from 1 a.marks.items;
    } };

    ghost invariant = { λ a. length a.marks.items ≡ length a.notices.promises };
}

impl Marked {
    // There is no promise. Takes no memory.
    pub(crate) fn new(alloc: Global) -> Marked
        ensures { result ≡ no_promises }
    {
        Marked {
            alloc,
            notices: Notices::new(alloc),
            marks: Vec::new(alloc),
        }
    }

    // Makes a promise with this mark, and answers its number.
    pub(crate) fn make(&mut self, mark: Mark) -> Result<u32, MemoryFault>
        requires { length self.old.notices.promises + 1 < 2 ^ 32 }
        ensures number { IfOk result (λ p. p ≡ length self.old.notices.promises + 1) }
        ensures made { OnOk result (self.new ≡ with_promise mark self.old) }
        ensures err { OnErr result (self.new ≡ self.old) }
    {
        self.marks.push(mark)?;
        match self.notices.make() {
            Ok(p) => Ok(p),
            Err(fault) => {
                let _ = self.marks.pop();
                Err(fault)
            }
        }
    }

    // Resolves or rejects a promise, as `Notices::settle` does.
    pub(crate) fn settle<L: Lines>(
        &mut self,
        p: u32,
        how: Settled,
        now: Moment,
        names: &FunNames,
        lines: &mut L,
    ) -> Result<(), NoLine>
        requires made { IsMade (held self.old.notices) p }
        requires named { IsNumbered (length names.now) (settled_value (settled_seen how)) }
        ensures does { Notes L.keeping L.seen self.old lines.old (settle_at now names.now p how) result self.new lines.new }
        ensures others { OnOk result (self.new ≡ record self.old { notices = self.new.notices }) }
    {
        let done = self
            .notices
            .settle(p, how, now.level, now.state, now.at, names, lines);
        if done.is_err() {
            forget(self.alloc, &mut self.notices, &mut self.marks);
        }
        done
    }

    // Settles a promise as another was, as `Notices::follow` does.
    pub(crate) fn follow<L: Lines>(
        &mut self,
        p: u32,
        how: Settled,
        now: Moment,
        names: &FunNames,
        lines: &mut L,
    ) -> Result<(), NoLine>
        requires made { IsMade (held self.old.notices) p }
        requires named { IsNumbered (length names.now) (settled_value (settled_seen how)) }
        ensures does { Notes L.keeping L.seen self.old lines.old (follow_at now names.now p how) result self.new lines.new }
        ensures others { OnOk result (self.new ≡ record self.old { notices = self.new.notices }) }
    {
        let done = self
            .notices
            .follow(p, how, now.level, now.state, now.at, names, lines);
        if done.is_err() {
            forget(self.alloc, &mut self.notices, &mut self.marks);
        }
        done
    }

    // Gives a promise a reaction, as `Notices::subscribe` does. True exactly where it was outstanding.
    pub(crate) fn subscribe<L: Lines>(
        &mut self,
        p: u32,
        r: Reaction,
        now: Moment,
        lines: &mut L,
    ) -> Result<bool, NoLine>
        requires { IsMade (held self.old.notices) p }
        ensures does { Notes L.keeping L.seen self.old lines.old (subscribe_at now p r) result self.new lines.new }
        ensures was { IfOk result (λ was. was ≡ is_outstanding p self.old.notices) }
        ensures others { OnOk result (self.new ≡ record self.old { notices = self.new.notices }) }
    {
        let done = self
            .notices
            .subscribe(p, r, now.level, now.state, now.at, lines);
        if done.is_err() {
            forget(self.alloc, &mut self.notices, &mut self.marks);
        }
        done
    }

    // Queues the job of a `queueMicrotask` registration, as `Notices::queue_micro` does.
    pub(crate) fn queue_micro<L: Lines>(
        &mut self,
        registration: u32,
        now: Moment,
        lines: &mut L,
    ) -> Result<(), NoLine>
        ensures does { Notes L.keeping L.seen self.old lines.old (micro_at now registration) result self.new lines.new }
        ensures others { OnOk result (self.new ≡ record self.old { notices = self.new.notices }) }
    {
        let done = self
            .notices
            .queue_micro(registration, now.level, now.state, now.at, lines);
        if done.is_err() {
            forget(self.alloc, &mut self.notices, &mut self.marks);
        }
        done
    }

    // Whether a job waits. Takes no memory.
    pub(crate) fn has_job(&self) -> bool
        ensures { result ≡ nat_lt 0 (length self.now.notices.jobs) }
    {
        self.notices.has_job()
    }

    // Takes the oldest job out. Takes no memory.
    pub(crate) fn next_job(&mut self) -> Option<NextJob>
        ensures oldest { TakesOldest result self.old self.new }
        ensures others { self.new ≡ without_oldest self.old }
    {
        self.notices.next_job()
    }

    // Hands over the numbers of the rejected promises about to be notified about. Takes no memory.
    pub(crate) fn take_rejected(&mut self) -> Vec<u32>
        ensures list { result.items ≡ self.old.notices.rejected }
        ensures taken { self.new ≡ record self.old { notices = record self.old.notices { rejected = [] } } }
        ensures made { IsTrue (all_within (length self.old.notices.promises) result.items) }
    {
        self.notices.take_rejected()
    }

    // Notes a promise as outstanding, where it is still unhandled. True exactly where it is.
    pub(crate) fn note_outstanding(&mut self, p: u32) -> Result<bool, MemoryFault>
        requires { IsMade (held self.old.notices) p }
        ensures noted { IfOk result (λ noted. noted ≡ not (the_promise self.old.notices.promises p).handled) }
        ensures ok { OnOk result (self.new ≡ record self.old { notices = parts.note_outstanding p self.old.notices }) }
        ensures err { OnErr result (self.new ≡ self.old) }
    {
        self.notices.note_outstanding(p)
    }

    // How many promises were ever made. Takes no memory.
    pub(crate) fn made(&self) -> u32
        ensures { result ≡ length self.now.notices.promises }
    {
        self.notices.made()
    }

    // Whether a promise with this number was made. Takes no memory.
    pub(crate) fn is_made(&self, p: u32) -> bool
        ensures { IsTrue result ↔ IsMade (held self.now.notices) p }
    {
        p > 0 && p <= self.notices.made()
    }

    // Whether a promise has or had a handler; one that was never made has none. Takes no memory.
    pub(crate) fn handled(&self, p: u32) -> bool
        ensures { result ≡ (the_promise self.now.notices.promises p).handled }
    {
        if !self.is_made(p) {
            return false;
        }
        self.notices.handled(p)
    }

    // How a promise was settled; one that was never made was not. Takes no memory.
    pub(crate) fn outcome(&self, p: u32) -> Option<&Settled>
        ensures { LendsSeen settled_seen result (the_promise self.now.notices.promises p).outcome }
    {
        if !self.is_made(p) {
            return None;
        }
        self.notices.outcome(p)
    }

    // Whether the script made this promise itself. Takes no memory.
    pub(crate) fn is_of_script(&self, p: u32) -> bool
        requires { 0 < p }
        ensures { result ≡ has_number self.now.script_promises p }
    {
        match mark_of(&self.marks, p) {
            Mark::OfScript => true,
            Mark::Plain | Mark::Element { .. } => false,
        }
    }

    // The combinator of which a promise is an element, and its place there. Takes no memory.
    pub(crate) fn element(&self, p: u32) -> Option<(u32, u32)>
        requires { 0 < p }
        ensures { option_map (element_at p) result ≡ find (λ e. e.promise == p) self.now.elements }
    {
        match mark_of(&self.marks, p) {
            Mark::Element { combinator, place } => Some((combinator, place)),
            Mark::Plain | Mark::OfScript => None,
        }
    }
}

// No promise is held any more. Takes no memory.
fn forget(alloc: Global, notices: &mut Notices, marks: &mut Vec<Mark>)
    ensures { length marks.new.items ≡ length notices.new.promises }
{
    *notices = Notices::new(alloc);
    *marks = Vec::new(alloc);
}

// The mark of a promise; one that was not made has none.
fn mark_of(marks: &[Mark], p: u32) -> Mark
    requires { 0 < p }
    ensures { result ≡ numbered marks.now p Plain }
{
    match marks.get(p as usize - 1) {
        Some(mark) => *mark,
        None => Mark::Plain,
    }
}
