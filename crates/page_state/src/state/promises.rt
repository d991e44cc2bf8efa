//! The promises of a page: making and settling them, and giving them handlers.

ghost use Rattle.std.specs.Prelude.{◌≡◌, ◌↔◌, ◌<◌, length, IfOk, IfErr, OnOk, IsTrue};
ghost use Rattle.page_parts.specs.Words.{has_number};
ghost use Rattle.page_parts.specs.Promises.{settled_value};
ghost use Rattle.page_parts.specs.Notices.{is_outstanding};
ghost use Rattle.page_values.specs.Written.{IsNumbered};
ghost use Rattle.promise_core.specs.Held.{IsMade};
ghost use Rattle.promise_core.specs.Seen.{settled_seen, reaction_seen, IsOutcome};
ghost use Rattle.page_notices.specs.Steps.{held};
ghost use Rattle.page_model.specs.PagePromises as model;
ghost use Rattle.page_model.specs.PagePromises.{subscribe};
ghost use Rattle.page_model.specs.Operations.{script_promise};
ghost use Rattle.page_script.specs.Marks.{settled_at_once};
ghost use Rattle.page_state.specs.PageActs.{changed_by, read_by, IsWanted};
ghost use Rattle.page_state.specs.Makes.{Makes};
ghost use Rattle.page_state.specs.JobActs.{outcome_now};
ghost use Rattle.page_state.specs.Handling.{told_if, reacted};

use super::PageState;
use page_base::Source;
use page_hosts::HostPort;
use page_script::{Reaction, Settled};
use page_tasks::TaskSteps;
use std::sync::ledger::Ledger;
use trace_text::{Lines, NoLine};

impl<P: HostPort, M: Ledger> PageState<P, M> {
    /// Makes a pending promise and answers its number. Promises are counted from 1, and their numbers are below 2^32. The one
    /// error is want of memory.
    pub fn new_promise(&mut self) -> Result<u32, NoLine>
        ensures made { OnOk result (self.new ≡ changed_by model.new_promise self.old) }
        ensures number { IfOk result (λ p. p ≡ read_by model.last_promise self.new) }
        ensures memory { IfErr result (λ why. IsWanted why self.old self.new) }
    {
        if self.script.promises_made() == u32::MAX {
            return Err(NoLine::OutOfMemory);
        }
        let Ok(p) = self.script.new_promise() else {
            return Err(NoLine::OutOfMemory);
        };
        Ok(p)
    }

    /// Makes a pending promise that the script may settle itself, as [`PageState::new_promise`] does.
    pub fn script_promise(&mut self) -> Result<u32, NoLine>
        ensures made { OnOk result (self.new ≡ changed_by script_promise self.old) }
        ensures number { IfOk result (λ p. p ≡ read_by model.last_promise self.new) }
        ensures memory { IfErr result (λ why. IsWanted why self.old self.new) }
    {
        if self.script.promises_made() == u32::MAX {
            return Err(NoLine::OutOfMemory);
        }
        let Ok(p) = self.script.script_promise() else {
            return Err(NoLine::OutOfMemory);
        };
        Ok(p)
    }

    /// How many promises were ever made. Takes no memory.
    pub fn promises_made(&self) -> u32
        ensures { result ≡ read_by model.last_promise self.now }
    {
        self.script.promises_made()
    }

    /// Whether a promise with this number was made. Takes no memory.
    pub fn is_promise(&self, p: u32) -> bool
        ensures { IsTrue result ↔ IsMade (held self.now.script.notices) p }
    {
        self.script.is_promise(p)
    }

    /// Whether the script made a promise itself, and so may settle it. Takes no memory.
    pub fn is_script_promise(&self, p: u32) -> bool
        requires { 0 < p }
        ensures { result ≡ has_number self.now.script.script_promises p }
    {
        self.script.is_script_promise(p)
    }

    /// How a promise was settled, and None exactly while it is pending or where it was never made. Takes no memory.
    pub fn outcome(&self, p: u32) -> Option<&Settled>
        ensures { IsOutcome result (read_by (outcome_now p) self.now) }
    {
        self.script.outcome(p)
    }

    /// Whether a promise has or had a handler; one that was never made has none. Takes no memory.
    pub fn handled(&self, p: u32) -> bool
        ensures { result ≡ read_by (λ q. (model.promise_at q p).handled) self.now }
    {
        self.script.handled(p)
    }

    /// Resolves a promise with a value, for `Ok`, or rejects it with a reason (ECMA-262, "Promise Resolve Functions" and
    /// "Promise Reject Functions"): its `settle` line, where this settles it, and then a job for each of its reactions, in
    /// order, with its `job` line.
    ///
    /// It costs what the spelling of the value and the promise's own reactions cost.
    pub fn settle<L: Lines>(&mut self, p: u32, how: Settled, lines: &mut L) -> Result<(), NoLine>
        ensures { Makes L.Lines self.old lines.old (model.settle p (settled_seen how)) result self.new lines.new }
    {
        if !self.script.may_settle(p, &how) {
            return Err(NoLine::OutOfMemory);
        }
        self.script.settle(p, how, lines)
    }

    /// Settles a pending promise as the promise was that it was resolved with, also where it is locked, and leaves a settled
    /// one. The lines, the jobs and the cost are those of [`PageState::settle`].
    pub fn follow<L: Lines>(&mut self, p: u32, how: Settled, lines: &mut L) -> Result<(), NoLine>
        ensures { Makes L.Lines self.old lines.old (model.follow p (settled_seen how)) result self.new lines.new }
    {
        if !self.script.may_settle(p, &how) {
            return Err(NoLine::OutOfMemory);
        }
        self.script.follow(p, how, lines)
    }

    /// Makes a promise which is settled at once, and answers its number, as [`PageState::new_promise`] and
    /// [`PageState::settle`] do.
    pub fn new_settled<L: Lines>(&mut self, how: Settled, lines: &mut L) -> Result<u32, NoLine>
        ensures does { Makes L.Lines self.old lines.old (settled_at_once (settled_seen how)) result self.new lines.new }
        ensures number { IfOk result (λ p. p ≡ read_by model.last_promise self.new) }
    {
        if self.script.promises_made() == u32::MAX || !self.is_named(&how) {
            return Err(NoLine::OutOfMemory);
        }
        self.script.settled_promise(how, lines)
    }

    /// Gives a promise a reaction, which waits while the promise is pending, and for which else a job is queued, with its `job`
    /// line (ECMA-262, "PerformPromiseThen"). The promise is handled from now on; where it was outstanding, a task is queued
    /// that tells `rejectionhandled` (HTML, "Unhandled promise rejections").
    pub fn subscribe<L: Lines>(
        &mut self,
        p: u32,
        reaction: Reaction,
        lines: &mut L,
    ) -> Result<(), NoLine>
        ensures { Makes L.Lines self.old lines.old (subscribe p (reaction_seen reaction)) result self.new lines.new }
    {
        let outstanding = self.react(p, reaction, lines)?;
        self.tell_handled(outstanding, p)
    }

    // Where a promise was outstanding, a task is queued that tells `rejectionhandled`.
    pub(super) fn tell_handled(&mut self, was: bool, p: u32) -> Result<(), NoLine>
        ensures queued { OnOk result (self.new ≡ changed_by (told_if was p) self.old) }
        ensures memory { IfErr result (λ why. IsWanted why self.old self.new) }
    {
        if !was {
            return Ok(());
        }
        self.queue(Source::Dom, TaskSteps::NotifyHandled(p))
    }

    // Gives a promise a reaction, and answers whether it was outstanding.
    fn react<L: Lines>(&mut self, p: u32, reaction: Reaction, lines: &mut L) -> Result<bool, NoLine>
        ensures does { Makes L.Lines self.old lines.old (reacted p (reaction_seen reaction)) result self.new lines.new }
        ensures was { IfOk result (λ was. was ≡ is_outstanding p self.old.script.notices) }
    {
        if !self.script.is_promise(p) {
            return Err(NoLine::OutOfMemory);
        }
        self.script.subscribe(p, reaction, lines)
    }

    // Whether each function that an outcome names has a name here. Takes no memory.
    fn is_named(&self, how: &Settled) -> bool
        ensures { IsTrue result ↔ IsNumbered (length self.now.script.names) (settled_value (settled_seen how.now)) }
    {
        match how {
            Ok(value) | Err(value) => self.script.is_numbered(value),
        }
    }
}
