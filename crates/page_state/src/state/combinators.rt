//! Combinators of promises (ECMA-262, "Promise.all" and its like).

ghost use Rattle.std.specs.Prelude.{◌≡◌, ◌<◌, suc, IfOk, IsTrue};
ghost use Rattle.page_parts.specs.Notices.{is_outstanding};
ghost use Rattle.page_values.specs.Seen.{seen};
ghost use Rattle.promise_combine.specs.Seen.{kind_seen};
ghost use Rattle.promise_combine.specs.Reports.{HasCount};
ghost use Rattle.page_model.specs.PagePromises.{last_promise};
ghost use Rattle.page_model.specs.PageCombinators as model;
ghost use Rattle.page_model.specs.PageCombinators.{element_made};
ghost use Rattle.page_script.specs.Leading.{IsItem};
ghost use Rattle.page_state.specs.PageActs.{read_by};
ghost use Rattle.page_state.specs.Handling.{element_reacted as element_put};
ghost use Rattle.page_state.specs.Makes.{Makes};
ghost use Rattle.page_script.specs.Calls.{combinator_made};

use super::PageState;
use page_hosts::HostPort;
use page_script::{Combined, Kind, Reaction};
use page_values::{Items, Value, as_promise, copy};
use std::sync::ledger::Ledger;
use trace_text::{Lines, NoLine};

impl<P: HostPort, M: Ledger> PageState<P, M> {
    /// Makes a promise and a combinator of `count` elements whose answer settles it: at once where it has no element. Of the kind
    /// `Pass` it has one.
    ///
    /// It costs `count`, since it makes room for all reports.
    pub fn combinator_made<L: Lines>(
        &mut self,
        kind: Kind,
        count: u32,
        lines: &mut L,
    ) -> Result<Combined, NoLine>
        requires { HasCount (kind_seen kind) count }
        ensures does { Makes L.Lines self.old lines.old (combinator_made kind count) result self.new lines.new }
        ensures combinator { IfOk result (λ made. made.combinator ≡ read_by model.last_combinator self.new) }
        ensures first { IfOk result (λ made. made.result ≡ suc (read_by last_promise self.old)) }
        ensures last { IfOk result (λ made. made.result ≡ read_by last_promise self.new) }
    {
        if self.script.promises_made() == u32::MAX
            || self.script.combinators_made() >= u32::MAX as usize
        {
            return Err(NoLine::OutOfMemory);
        }
        self.script.combine(kind, count, lines)
    }

    /// Makes a promise of the item of a combinator, and answers its number: a promise stays as it is, and any other value comes
    /// in a new promise.
    pub fn item_made<L: Lines>(&mut self, value: Value, lines: &mut L) -> Result<u32, NoLine>
        ensures does { Makes L.Lines self.old lines.old (model.item_made (seen value)) result self.new lines.new }
        ensures number { IfOk result (λ n. n ≡ read_by (model.item_number (seen value)) self.new) }
    {
        if !self.is_item(&value) || !self.script.is_numbered(&value) {
            return Err(NoLine::OutOfMemory);
        }
        self.script.item(value, lines)
    }

    /// Makes an element of a combinator, at a place from 0, and subscribes a promise into it.
    pub fn element_made<L: Lines>(
        &mut self,
        combinator: u32,
        place: u32,
        p: u32,
        lines: &mut L,
    ) -> Result<(), NoLine>
        ensures { Makes L.Lines self.old lines.old (element_made combinator place p) result self.new lines.new }
    {
        let outstanding = self.element(combinator, place, p, lines)?;
        self.tell_handled(outstanding, p)
    }

    /// Subscribes a promise into a result, as `race` does.
    pub fn subscribe_into<L: Lines>(
        &mut self,
        into: u32,
        p: u32,
        lines: &mut L,
    ) -> Result<(), NoLine>
        ensures { Makes L.Lines self.old lines.old (model.subscribe_into into 0 p) result self.new lines.new }
    {
        let reaction = Reaction {
            registration: None,
            into,
            state: None,
        };
        self.subscribe(p, reaction, lines)
    }

    // Makes an element of a combinator, and answers whether the promise that is subscribed into it was outstanding.
    fn element<L: Lines>(
        &mut self,
        combinator: u32,
        place: u32,
        p: u32,
        lines: &mut L,
    ) -> Result<bool, NoLine>
        ensures does { Makes L.Lines self.old lines.old (element_put combinator place p) result self.new lines.new }
        ensures was { IfOk result (λ was. was ≡ is_outstanding p self.old.script.notices) }
    {
        if self.script.promises_made() == u32::MAX || !self.script.is_promise(p) {
            return Err(NoLine::OutOfMemory);
        }
        self.script.element(combinator, place, p, lines)
    }

    // Whether a value may become the item of a combinator: a promise that was made, or any other value where one more promise is
    // left. Takes no memory.
    fn is_item(&self, value: &Value) -> bool
        ensures { IsTrue result → IsItem (seen value.now) self.now.script }
    {
        match as_promise(value) {
            Some(n) => self.script.is_promise(n),
            None => self.script.promises_made() < u32::MAX,
        }
    }
}
