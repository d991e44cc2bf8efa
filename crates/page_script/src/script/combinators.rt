//! Combinators of promises, and what their elements report (ECMA-262, "Promise.all" and its like).

ghost use Rattle.std.specs.Prelude.{◌≡◌, ◌+◌, ◌^◌, ◌<◌, length, IfOk, IfErr, OnOk};
ghost use Rattle.page_parts.specs.Combinators.{combine, answer_of};
ghost use Rattle.page_parts.specs.Notices.{is_outstanding};
ghost use Rattle.page_values.specs.Seen.{seen};
ghost use Rattle.page_values.specs.Written.{IsNumbered};
ghost use Rattle.promise_core.specs.Held.{IsMade};
ghost use Rattle.page_notices.specs.Steps.{held};
ghost use Rattle.promise_combine.specs.Seen.{kind_seen, report_of};
ghost use Rattle.promise_combine.specs.Answers.{answer_seen};
ghost use Rattle.promise_combine.specs.Reports.{HasCount};
ghost use Rattle.page_model.specs.PageCombinators as model;
ghost use Rattle.trace_text.specs.declared.lines.NoLine.TheVariants.{OutOfMemory};
ghost use Rattle.page_script.specs.Script.{holding};
ghost use Rattle.page_script.specs.ScriptActs.{changed_by, read_by};
ghost use Rattle.page_script.specs.Leading.{noted_at, IsItem};
ghost use Rattle.page_script.specs.Calls.{Writes, Brings, lead_into, combinator_made, combinator_added, element_of, led, settle_result};

use super::PageScript;
use crate::combiner::Combining;
use crate::combining::{Answered, may_report, note_report};
use crate::parts::{Combined, Mark};
use page_notices::{Reaction, Settled};
use page_values::{Value, as_promise};
use promise_combine::{Combine, Kind};
use trace_text::{Lines, NoLine};

impl PageScript {
    /// Leads an outcome to where an inner subscription leads: an element of a combinator reports it and stays pending, and where
    /// that brings an answer, the result of the combinator is settled; any other promise follows the outcome.
    ///
    /// It answers `OutOfMemory` also where `into` was never made, where it is an element whose combinator was never made, whose
    /// place is none of it or has reported before, and where what is to be settled may not be, as [`PageScript::may_settle`]
    /// tells. No run comes to any of these.
    pub fn lead_into<L: Lines>(
        &mut self,
        into: u32,
        how: Settled,
        lines: &mut L,
    ) -> Result<(), NoLine>
        ensures { Writes L.keeping L.seen self.old lines.old (lead_into into how) result self.new lines.new }
    {
        if !self.is_promise(into) {
            return Err(NoLine::OutOfMemory);
        }
        match self.promises.element(into) {
            None => self.follow_if_made(into, how, lines),
            Some((combinator, place)) => self.report_for(into, combinator, place, how, lines),
        }
    }

    /// Makes a promise and a combinator of `count` elements whose answer settles it: at once where it has no element. Of the kind
    /// `Pass` it has one. Both numbers have to be below 2^32.
    ///
    /// It costs `count`, since it makes room for all reports.
    pub fn combine<L: Lines>(
        &mut self,
        kind: Kind,
        count: u32,
        lines: &mut L,
    ) -> Result<Combined, NoLine>
        requires count { HasCount (kind_seen kind) count }
        requires promises { length self.old.notices.promises + 1 < 2 ^ 32 }
        requires combinators { length self.old.combinators + 1 < 2 ^ 32 }
        ensures does { Writes L.keeping L.seen self.old lines.old (combinator_made kind count) result self.new lines.new }
        ensures combinator { IfOk result (λ made. made.combinator ≡ length self.old.combinators + 1) }
        ensures promise { IfOk result (λ made. made.result ≡ length self.old.notices.promises + 1) }
    {
        let (made, answer) = self.add_combinator(kind, count)?;
        self.settle_result(answer, made.result, lines)?;
        Ok(made)
    }

    /// Makes an element of a combinator, at a place from 0, and subscribes a promise into it. True exactly where that promise was
    /// outstanding, as [`PageScript::subscribe`] answers.
    pub fn element<L: Lines>(
        &mut self,
        combinator: u32,
        place: u32,
        p: u32,
        lines: &mut L,
    ) -> Result<bool, NoLine>
        requires made { IsMade (held self.old.notices) p }
        requires left { length self.old.notices.promises + 1 < 2 ^ 32 }
        ensures does { Writes L.keeping L.seen self.old lines.old (element_of combinator place p) result self.new lines.new }
        ensures was { IfOk result (λ was. was ≡ is_outstanding p self.old.notices) }
    {
        let into = self.make_marked(Mark::Element { combinator, place })?;
        let reaction = Reaction {
            registration: None,
            into,
            state: None,
        };
        self.subscribe(p, reaction, lines)
    }

    /// Makes a promise of the item of a combinator, and answers its number: a promise stays as it is, and any other value comes
    /// in a new promise.
    pub fn item<L: Lines>(&mut self, value: Value, lines: &mut L) -> Result<u32, NoLine>
        requires item { IsItem (seen value) self.old }
        requires named { IsNumbered (length self.old.names) (seen value) }
        ensures does { Writes L.keeping L.seen self.old lines.old (model.item_made (seen value)) result self.new lines.new }
        ensures number { IfOk result (λ n. n ≡ read_by (model.item_number (seen value)) self.new) }
    {
        match as_promise(&value) {
            Some(n) => Ok(n),
            None => self.settled_promise(Ok(value), lines),
        }
    }

    /// How many combinators were ever made. Takes no memory.
    pub fn combinators_made(&self) -> usize
        ensures { result ≡ read_by model.last_combinator self.now }
    {
        self.combinators.len()
    }

    // A new promise, and a combinator whose answer settles it, its answer not yet.
    fn add_combinator(
        &mut self,
        kind: Kind,
        count: u32,
    ) -> Result<(Combined, Option<Settled>), NoLine>
        requires count { HasCount (kind_seen kind) count }
        requires promises { length self.old.notices.promises + 1 < 2 ^ 32 }
        requires combinators { length self.old.combinators + 1 < 2 ^ 32 }
        ensures combinator { IfOk result (λ made. made.0.combinator ≡ length self.old.combinators + 1) }
        ensures promise { IfOk result (λ made. made.0.result ≡ length self.old.notices.promises + 1) }
        ensures answer { IfOk result (λ made. answer_seen made.1 ≡ answer_of (combine (kind_seen kind) count)) }
        ensures added { OnOk result (self.new ≡ changed_by (combinator_added kind count) self.old) }
        ensures memory { IfErr result (λ why. why ≡ OutOfMemory) }
    {
        let Ok(combine) = Combine::new(self.alloc, kind, count) else {
            return Err(NoLine::OutOfMemory);
        };
        let answer = combine.begin();
        let result = self.make_marked(Mark::Plain)?;
        if self
            .combinators
            .push(Combining { combine, result })
            .is_err()
        {
            return Err(NoLine::OutOfMemory);
        }
        let combinator = self.combinators.len() as u32;
        Ok((Combined { combinator, result }, answer))
    }

    // The element `into` of a combinator, at a place, reports its outcome, where it may.
    fn report_for<L: Lines>(
        &mut self,
        into: u32,
        combinator: u32,
        place: u32,
        how: Settled,
        lines: &mut L,
    ) -> Result<(), NoLine>
        ensures { Writes L.keeping L.seen self.old lines.old (led into combinator place how) result self.new lines.new }
    {
        let Answered { result, answer } = self.note(combinator, place, how)?;
        self.settle_result(answer, result, lines)
    }

    // An answer, where there is one, settles the promise of its combinator, where that may be settled so.
    fn settle_result<L: Lines>(
        &mut self,
        answer: Option<Settled>,
        promise: u32,
        lines: &mut L,
    ) -> Result<(), NoLine>
        ensures { Writes L.keeping L.seen self.old lines.old (settle_result answer promise) result self.new lines.new }
    {
        match answer {
            None => Ok(()),
            Some(how) => self.follow_if_made(promise, how, lines),
        }
    }

    // Notes the report of a combinator's element, where it may report, and answers what it brings.
    fn note(&mut self, combinator: u32, place: u32, how: Settled) -> Result<Answered, NoLine>
        ensures result { IfOk result (λ a. a.result ≡ (model.combining_at (holding self.old) combinator).result) }
        ensures answer { IfOk result (Brings place how (model.combining_at (holding self.old) combinator)) }
        ensures noted { OnOk result (self.new ≡ changed_by (noted_at combinator (report_of place how)) self.old) }
        ensures memory { IfErr result (λ why. why ≡ OutOfMemory) }
    {
        if !may_report(&self.combinators, combinator, place) {
            return Err(NoLine::OutOfMemory);
        }
        match note_report(&mut self.combinators, combinator, place, how) {
            Ok(answered) => Ok(answered),
            Err(_) => Err(NoLine::OutOfMemory),
        }
    }
}
