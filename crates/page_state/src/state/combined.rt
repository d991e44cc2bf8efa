//! What a page makes of the items of a combinator, and of the value that a handler of `finally` returned (ECMA-262, "Promise.all" and
//! its like, "Promise.prototype.finally").

ghost use Rattle.std.specs.Prelude.{◌≡◌, ◌+◌, ◌^◌, ◌<◌, suc, length, IfOk, IfErr};
ghost use Rattle.page_parts.specs.Kinds.{a_fault};
ghost use Rattle.page_types.specs.declared.FaultName.TheVariants.{RangeError};
ghost use Rattle.page_values.specs.Seen.{seen};
ghost use Rattle.promise_combine.specs.Seen.{kind_seen};
ghost use Rattle.promise_combine.specs.Reports.{HasCount};
ghost use Rattle.page_model.specs.PagePromises.{last_promise};
ghost use Rattle.page_model.specs.PageCombinators as model;
ghost use Rattle.trace_text.specs.declared.lines.NoLine.TheVariants.{OutOfMemory};
ghost use Rattle.page_state.specs.PageActs.{read_by};
ghost use Rattle.page_state.specs.Makes.{Makes};
ghost use Rattle.page_state.specs.CodeValues.{all_made, race_made, elements_of, added, all_subscribed, item_subscribed, pass_on, passed_on, passed_item, passed_through};

use super::PageState;
use page_hosts::HostPort;
use page_script::{Combined, Kind, Settled};
use page_values::{FaultName, Value, as_promise, copy, fault};
use std::sync::ledger::Ledger;
use trace_text::{Lines, NoLine};

impl<P: HostPort, M: Ledger> PageState<P, M> {
    /// `all`, `any` and `allSettled`: makes the promise of a combinator, and an element for each item. Answers the number of that
    /// promise, which is made first.
    ///
    /// It costs what the items weigh.
    pub fn all_made<L: Lines>(
        &mut self,
        kind: Kind,
        items: &[Value],
        lines: &mut L,
    ) -> Result<u32, NoLine>
        requires count { HasCount (kind_seen kind) (length items.now) }
        requires few { length items.now < 2 ^ 32 }
        ensures does { Makes L.Lines self.old lines.old (all_made kind items.now) result self.new lines.new }
        ensures first { IfOk result (λ p. p ≡ suc (read_by last_promise self.old)) }
    {
        let made = self.combinator_made(kind, items.len() as u32, lines)?;
        self.elements_made(made.combinator, items, lines)?;
        Ok(made.result)
    }

    /// `race`: makes a promise that follows the first item that is settled, and answers its number.
    ///
    /// It costs what the items weigh.
    pub fn race_made<L: Lines>(&mut self, items: &[Value], lines: &mut L) -> Result<u32, NoLine>
        ensures does { Makes L.Lines self.old lines.old (race_made items.now) result self.new lines.new }
        ensures first { IfOk result (λ p. p ≡ suc (read_by last_promise self.old)) }
    {
        let into = self.new_promise()?;
        self.all_subscribed(into, items, lines)?;
        Ok(into)
    }

    /// The value that a handler of `finally` returned is waited for, and then the outcome is passed on: where the promises that
    /// this takes are left, and else the promise is rejected with RangeError.
    pub fn pass_on<L: Lines>(
        &mut self,
        into: u32,
        how: Settled,
        value: Value,
        lines: &mut L,
    ) -> Result<(), NoLine>
        ensures { Makes L.Lines self.old lines.old (pass_on into how value) result self.new lines.new }
    {
        if !self.may_pass(&value) {
            let reason = self.range_error();
            return self.settle(into, Err(reason), lines);
        }
        self.passed_on(into, how, value, lines)
    }

    /// The same where the promises are left.
    pub fn passed_on<L: Lines>(
        &mut self,
        into: u32,
        how: Settled,
        value: Value,
        lines: &mut L,
    ) -> Result<(), NoLine>
        ensures { Makes L.Lines self.old lines.old (passed_on into how value) result self.new lines.new }
    {
        let n = self.item_made(value, lines)?;
        self.pass_item(into, how, n, lines)
    }

    // A promise is resolved with the result of a new combinator that has promise number n as its one item.
    fn pass_item<L: Lines>(
        &mut self,
        into: u32,
        how: Settled,
        n: u32,
        lines: &mut L,
    ) -> Result<(), NoLine>
        ensures { Makes L.Lines self.old lines.old (passed_item into how n) result self.new lines.new }
    {
        let made = self.combinator_made(Kind::Pass(how), 1, lines)?;
        self.pass_through(into, made, n, lines)
    }

    // The one element of a combinator is made, and a promise is resolved with its result.
    fn pass_through<L: Lines>(
        &mut self,
        into: u32,
        made: Combined,
        n: u32,
        lines: &mut L,
    ) -> Result<(), NoLine>
        ensures { Makes L.Lines self.old lines.old (passed_through into n made) result self.new lines.new }
    {
        self.element_made(made.combinator, 0, n, lines)?;
        self.settle(into, Ok(Value::Promise(made.result)), lines)
    }

    // An element is made of each item, at its place.
    fn elements_made<L: Lines>(
        &mut self,
        combinator: u32,
        items: &[Value],
        lines: &mut L,
    ) -> Result<(), NoLine>
        requires { length items.now < 2 ^ 32 }
        ensures { Makes L.Lines self.old lines.old (elements_of combinator items.now) result self.new lines.new }
    {
        let mut place = 0;
        for value in items {
            self.element_of(combinator, place, value, lines)?;
            place += 1;
        }
        Ok(())
    }

    // An element is made of an item, at a place.
    fn element_of<L: Lines>(
        &mut self,
        combinator: u32,
        place: u32,
        value: &Value,
        lines: &mut L,
    ) -> Result<(), NoLine>
        ensures { Makes L.Lines self.old lines.old (added combinator place value.now) result self.new lines.new }
    {
        let item = self.copied(value)?;
        let n = self.item_made(item, lines)?;
        self.element_made(combinator, place, n, lines)
    }

    // Each item is subscribed into a result.
    fn all_subscribed<L: Lines>(
        &mut self,
        into: u32,
        items: &[Value],
        lines: &mut L,
    ) -> Result<(), NoLine>
        ensures { Makes L.Lines self.old lines.old (all_subscribed into items.now) result self.new lines.new }
    {
        for value in items {
            self.subscribed_of(into, value, lines)?;
        }
        Ok(())
    }

    // An item is subscribed into a result.
    fn subscribed_of<L: Lines>(
        &mut self,
        into: u32,
        value: &Value,
        lines: &mut L,
    ) -> Result<(), NoLine>
        ensures { Makes L.Lines self.old lines.old (item_subscribed into value.now) result self.new lines.new }
    {
        let item = self.copied(value)?;
        let n = self.item_made(item, lines)?;
        self.subscribe_into(into, n, lines)
    }

    // Whether the promises are left that it takes to pass an outcome on behind this value. Takes no memory.
    fn may_pass(&self, value: &Value) -> bool
        ensures { result ≡ read_by (model.are_promises_left (model.promises_for (seen value.now) + 2)) self.now }
    {
        let needed = match as_promise(value) {
            Some(_) => 2,
            None => 3,
        };
        self.script.promises_made() <= u32::MAX - needed
    }

    // A fault RangeError with an empty text. Takes no memory.
    fn range_error(&self) -> Value
        ensures { seen result ≡ a_fault RangeError }
    {
        fault(self.alloc, FaultName::RangeError)
    }

    // A copy of a value.
    pub(super) fn copied(&self, value: &Value) -> Result<Value, NoLine>
        ensures copy { IfOk result (λ v. v ≡ value.now) }
        ensures memory { IfErr result (λ why. why ≡ OutOfMemory) }
    {
        match copy(self.alloc, value) {
            Ok(value) => Ok(value),
            Err(_) => Err(NoLine::OutOfMemory),
        }
    }
}
