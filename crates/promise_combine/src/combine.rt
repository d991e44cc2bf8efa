//! A combinator, its reports and its one answer.

ghost use Rattle.std.specs.Prelude.{◌≡◌, ◌<◌, ◌≤◌, ◌↔◌, ℕ, [], length, replicate, is_some};
ghost use Rattle.std.specs.Prelude.{IfOk, OnOk, OnErr, IsOk, IsTrue, None, false};
ghost use Rattle.std.specs.Vec.{vec_capacity};
ghost use Rattle.page_types.specs.Values.{ListValue, no_values, UnitValue};
ghost use Rattle.page_values.specs.Seen.{seen};
ghost use Rattle.page_parts.specs.Promises.{Fulfilled};
ghost use Rattle.page_parts.specs.Combinators.{combine, with_report, answer_of, report_answer};
ghost use Rattle.promise_combine.specs.Seen.{kind_seen, outcome_of, report_of};
ghost use Rattle.promise_combine.specs.Answers.{answer_seen, IsAnswer};
ghost use Rattle.promise_combine.specs.Reports.{HasCount, has_reported};

use crate::kind::{Kind, brought_by, copy_settled};
use crate::listing::answer_of_all;
use page_values::{Items, MemoryFault, Value};
use promise_core::Settled;
use std::alloc::Global;
use std::marker::Model;

/// A combinator, seen as its kind, how many elements it has, and what they reported so far, in the order in which the reports
/// came.
///
/// It keeps each outcome that is reported, and answers copies.
#[derive(Drop)]
pub struct Combine {
    alloc: Global,
    kind: Kind,
    // What was reported at each place, and unit where nothing was reported yet.
    outcomes: Vec<Settled>,
    // The places of the elements that have reported, in the order of their reports.
    order: Vec<u32>,
    // Whether the element at each place has reported, so that no call looks for one among the others.
    reported: Vec<bool>,
    // Whether there is an answer already.
    answered: bool,
}

impl Model for Combine {
    ghost use Rattle.std.specs.Prelude.{length};
    ghost use Rattle.page_parts.specs.Combinators.{Combine as CombineRecord};
    ghost use Rattle.promise_combine.specs.Coded.{coded_combine};

    ghost Value = { CombineRecord };

    ghost coded = { coded_combine };

    ghost use Rattle.promise_combine.specs.Seen.{kind_seen, reports_of};
    ghost use Rattle.std.specs.Prelude.{◌≤◌};
    ghost use Rattle.std.specs.Vec.{vec_capacity};
    ghost use Rattle.promise_combine.specs.Reports.{IsKept, AreMarked};

    ghost view = { λ a. record {
      kind = kind_seen a.kind;
      count = length a.outcomes.items;
      reports = reports_of a.outcomes.items a.order.items;
    } };

    ghost invariant = { λ a. IsKept (kind_seen a.kind) a.outcomes.items a.order.items a.answered
        × (length a.outcomes.items ≤ vec_capacity a.order)
        × AreMarked (length a.outcomes.items) a.order.items a.reported.items };
}

impl Combine {
    /// A combinator of `n` elements, of which none has reported. Of the kind `Pass` it has one.
    ///
    /// It costs `n`, since it makes room for all reports. The one error is want of memory.
    pub fn new(alloc: Global, kind: Kind, n: u32) -> Result<Combine, MemoryFault>
        requires { HasCount (kind_seen kind) n }
        ensures { IfOk result (λ c. c ≡ combine (kind_seen kind) n) }
    {
        let (outcomes, order, reported) = silent_rows(alloc, n)?;
        Ok(Combine {
            alloc,
            kind,
            outcomes,
            order,
            reported,
            answered: n == 0,
        })
    }

    /// The answer that there is with no report: Some exactly where the combinator has no element. Takes no memory.
    pub fn begin(&self) -> Option<Settled>
        ensures { answer_seen result ≡ answer_of (combine self.now.kind self.now.count) }
    {
        if !self.outcomes.is_empty() {
            return None;
        }
        match &self.kind {
            Kind::All | Kind::AllSettled => Some(Ok(empty_list(self.alloc))),
            Kind::Any => Some(Err(empty_list(self.alloc))),
            Kind::Pass(_) => None,
        }
    }

    /// Notes what the element at a place, from 0, was settled with, and answers how the promise of the combinator is settled
    /// by that: Some exactly where there is an answer now and was none before. A list of all outcomes that is too heavy or
    /// nests too deep is a rejection with a RangeError of empty text.
    ///
    /// An error leaves all as it was. Only an answer takes memory, since it is a copy, so that any other report succeeds. A
    /// report that brings no answer costs the same however many elements there are and have reported. One that does costs
    /// what it answers, and with a list the number of elements besides.
    pub fn report(&mut self, place: u32, outcome: Settled) -> Result<Option<Settled>, MemoryFault>
        requires within { place < self.old.count }
        requires fresh { has_reported place self.old ≡ false }
        ensures answer { IsAnswer result (report_answer (report_of place outcome) self.old) }
        ensures noted { OnOk result (self.new ≡ with_report (report_of place outcome) self.old) }
        ensures err { OnErr result (self.new ≡ self.old) }
        ensures memory { report_answer (report_of place outcome) self.old ≡ None → IsOk result }
    {
        let answer = self.answer_by(place, &outcome)?;
        self.note(place, outcome, answer.is_some());
        Ok(answer)
    }

    /// Whether the element at a place, from 0, may report: the place is one of the combinator, and has not reported. Takes no
    /// memory.
    pub fn may_report(&self, place: u32) -> bool
        ensures { IsTrue result ↔ ((place < self.now.count) × (has_reported place self.now ≡ false)) }
    {
        match self.reported.get(place as usize) {
            Some(reported) => !*reported,
            None => false,
        }
    }

    // Notes the report of an outcome at a place, and whether it brings an answer. There is room for each report.
    fn note(&mut self, place: u32, outcome: Settled, answers: bool)
        requires within { place < self.old.count }
        requires fresh { has_reported place self.old ≡ false }
        requires answers { answers ≡ is_some (report_answer (report_of place outcome) self.old) }
        ensures { self.new ≡ with_report (report_of place outcome) self.old }
    {
        self.order.push_reserved(place);
        self.reported[place as usize] = true;
        self.answered |= answers;
        self.outcomes[place as usize] = outcome;
    }

    // The answer that this report would bring.
    fn answer_by(&self, place: u32, outcome: &Settled) -> Result<Option<Settled>, MemoryFault>
        requires within { place < self.now.count }
        requires fresh { has_reported place self.now ≡ false }
        ensures answer { IsAnswer result (report_answer (report_of place outcome.now) self.now) }
        ensures memory { report_answer (report_of place outcome.now) self.now ≡ None → IsOk result }
    {
        if self.answered {
            return Ok(None);
        }
        if let Some(brought) = brought_by(&self.kind, outcome) {
            let copied = copy_settled(self.alloc, brought)?;
            return Ok(Some(copied));
        }
        if self.order.len() + 1 != self.outcomes.len() {
            return Ok(None);
        }
        let answer = answer_of_all(self.alloc, &self.kind, &self.outcomes, place, outcome)?;
        Ok(Some(answer))
    }
}

// The rows of a combinator of which no element has reported: an outcome and a mark for each place,
// and room for an order of them all.
fn silent_rows(alloc: Global, n: u32) -> Result<(Vec<Settled>, Vec<u32>, Vec<bool>), MemoryFault>
    ensures count { IfOk result (λ rows. length rows.0.items ≡ n) }
    ensures silent { IfOk result (λ rows. (k : ℕ) → outcome_of rows.0.items k ≡ Fulfilled UnitValue) }
    ensures order { IfOk result (λ rows. (rows.1.items ≡ []) × (n ≤ vec_capacity rows.1)) }
    ensures marks { IfOk result (λ rows. rows.2.items ≡ replicate n false) }
{
    let order = Vec::with_capacity(alloc, n as usize)?;
    let reported = vec![in alloc; false; n as usize]?;
    let outcomes = silent_outcomes(alloc, n)?;
    Ok((outcomes, order, reported))
}

// So many outcomes, of places that have not reported.
fn silent_outcomes(alloc: Global, n: u32) -> Result<Vec<Settled>, MemoryFault>
    ensures count { IfOk result (λ outcomes. length outcomes.items ≡ n) }
    ensures silent { IfOk result (λ outcomes. (k : ℕ) → outcome_of outcomes.items k ≡ Fulfilled UnitValue) }
{
    let mut outcomes = Vec::with_capacity(alloc, n as usize)?;
    for _ in 0..n {
        outcomes.push(Ok(Value::Unit))?;
    }
    Ok(outcomes)
}

// The list with no item. Takes no memory.
fn empty_list(alloc: Global) -> Value
    ensures { seen result ≡ ListValue no_values }
{
    Value::List(Items::new(Vec::new(alloc)))
}
