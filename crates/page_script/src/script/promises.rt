//! The promises of a page: making and settling them, and giving them handlers.

ghost use Rattle.std.specs.Prelude.{◌≡◌, ◌+◌, ◌^◌, ◌<◌, ◌↔◌, length, IfOk, IfErr, OnOk, OnErr, IsTrue};
ghost use Rattle.page_parts.specs.Words.{has_number};
ghost use Rattle.page_parts.specs.Promises.{settled_value};
ghost use Rattle.page_parts.specs.Notices.{is_outstanding};
ghost use Rattle.page_values.specs.Written.{IsNumbered};
ghost use Rattle.promise_core.specs.Held.{IsMade};
ghost use Rattle.promise_core.specs.Seen.{settled_seen};
ghost use Rattle.page_notices.specs.Steps.{held};
ghost use Rattle.page_model.specs.PagePromises as model;
ghost use Rattle.page_model.specs.Operations.{script_promise};
ghost use Rattle.page_script.specs.ScriptActs.{changed_by, read_by};
ghost use Rattle.trace_text.specs.declared.lines.NoLine.TheVariants.{OutOfMemory};
ghost use Rattle.page_script.specs.Marks.{made_with};
ghost use Rattle.page_script.specs.Calls.{Writes, LendsSeen, MaySettle, settle, made_settled, follow, subscribe, queue_micro};

use super::PageScript;
use crate::parts::Mark;
use page_notices::{Reaction, Settled};
use page_values::MemoryFault;
use trace_text::{Lines, NoLine};

impl PageScript {
    /// Makes a pending promise and answers its number, which has to be below 2^32. Promises are counted from 1. For want of
    /// memory nothing changes.
    pub fn new_promise(&mut self) -> Result<u32, MemoryFault>
        requires { length self.old.notices.promises + 1 < 2 ^ 32 }
        ensures number { IfOk result (λ p. p ≡ length self.old.notices.promises + 1) }
        ensures made { OnOk result (self.new ≡ changed_by model.new_promise self.old) }
        ensures err { OnErr result (self.new ≡ self.old) }
    {
        self.make(Mark::Plain)
    }

    /// Makes a pending promise that the script may settle itself, as [`PageScript::new_promise`] does.
    pub fn script_promise(&mut self) -> Result<u32, MemoryFault>
        requires { length self.old.notices.promises + 1 < 2 ^ 32 }
        ensures number { IfOk result (λ p. p ≡ length self.old.notices.promises + 1) }
        ensures made { OnOk result (self.new ≡ changed_by script_promise self.old) }
        ensures err { OnErr result (self.new ≡ self.old) }
    {
        self.make(Mark::OfScript)
    }

    /// How many promises were ever made. Takes no memory.
    pub fn promises_made(&self) -> u32
        ensures { result ≡ read_by model.last_promise self.now }
    {
        self.promises.made()
    }

    /// Whether the script made a promise itself, and so may settle it. Takes no memory.
    pub fn is_script_promise(&self, p: u32) -> bool
        requires { 0 < p }
        ensures { result ≡ has_number self.now.script_promises p }
    {
        self.promises.is_of_script(p)
    }

    /// Whether a promise with this number was made. Takes no memory.
    pub fn is_promise(&self, p: u32) -> bool
        ensures { IsTrue result ↔ IsMade (held self.now.notices) p }
    {
        self.promises.is_made(p)
    }

    /// Whether a promise may be settled so, by [`PageScript::settle`] or [`PageScript::follow`]: it was made, and each function
    /// that the outcome names has a name here. Takes no memory, and costs at most the weight of the outcome's value.
    pub fn may_settle(&self, p: u32, how: &Settled) -> bool
        ensures { IsTrue result ↔ MaySettle p (settled_seen how.now) self.now }
    {
        match how {
            Ok(value) | Err(value) => self.is_promise(p) && self.is_numbered(value),
        }
    }

    /// How a promise was settled, and None exactly while it is pending or where it was never made. Takes no memory.
    pub fn outcome(&self, p: u32) -> Option<&Settled>
        ensures { LendsSeen settled_seen result (read_by (λ q. (model.promise_at q p).outcome) self.now) }
    {
        self.promises.outcome(p)
    }

    /// Resolves a promise with a value, for `Ok`, or rejects it with a reason (ECMA-262, "Promise Resolve Functions" and
    /// "Promise Reject Functions"): its `settle` line, where this settles it, and then a job for each of its reactions, in
    /// order, with its `job` line.
    ///
    /// It costs what the spelling of the value and the promise's own reactions cost.
    pub fn settle<L: Lines>(&mut self, p: u32, how: Settled, lines: &mut L) -> Result<(), NoLine>
        requires made { IsMade (held self.old.notices) p }
        requires named { IsNumbered (length self.old.names) (settled_value (settled_seen how)) }
        ensures { Writes L.keeping L.seen self.old lines.old (settle p how) result self.new lines.new }
    {
        self.promises
            .settle(p, how, self.moment, &self.names, lines)
    }

    /// Makes a promise which is settled at once, and answers its number, as [`PageScript::new_promise`] and
    /// [`PageScript::settle`] do.
    pub fn settled_promise<L: Lines>(&mut self, how: Settled, lines: &mut L) -> Result<u32, NoLine>
        requires left { length self.old.notices.promises + 1 < 2 ^ 32 }
        requires named { IsNumbered (length self.old.names) (settled_value (settled_seen how)) }
        ensures does { Writes L.keeping L.seen self.old lines.old (made_settled how) result self.new lines.new }
        ensures number { IfOk result (λ p. p ≡ length self.old.notices.promises + 1) }
        ensures count { OnOk result (length self.new.notices.promises ≡ length self.old.notices.promises + 1) }
    {
        let p = self.make_marked(Mark::Plain)?;
        self.settle(p, how, lines)?;
        Ok(p)
    }

    /// Settles a pending promise as the promise was that it was resolved with, also where it is locked, and leaves a settled
    /// one. The lines, the jobs and the cost are those of [`PageScript::settle`].
    pub fn follow<L: Lines>(&mut self, p: u32, how: Settled, lines: &mut L) -> Result<(), NoLine>
        requires made { IsMade (held self.old.notices) p }
        requires named { IsNumbered (length self.old.names) (settled_value (settled_seen how)) }
        ensures { Writes L.keeping L.seen self.old lines.old (follow p how) result self.new lines.new }
    {
        self.promises
            .follow(p, how, self.moment, &self.names, lines)
    }

    /// Gives a promise a reaction, which waits while the promise is pending, and for which else a job is queued, with its `job`
    /// line (ECMA-262, "PerformPromiseThen"). The promise is handled from now on.
    ///
    /// True exactly where it was outstanding: then whoever keeps the tasks queues the one that tells `rejectionhandled`.
    pub fn subscribe<L: Lines>(
        &mut self,
        p: u32,
        reaction: Reaction,
        lines: &mut L,
    ) -> Result<bool, NoLine>
        requires { IsMade (held self.old.notices) p }
        ensures does { Writes L.keeping L.seen self.old lines.old (subscribe p reaction) result self.new lines.new }
        ensures was { IfOk result (λ was. was ≡ is_outstanding p self.old.notices) }
    {
        self.promises.subscribe(p, reaction, self.moment, lines)
    }

    /// Queues the job of a `queueMicrotask` registration behind all others, with its `job` line (HTML, "Microtask queuing").
    pub fn queue_micro<L: Lines>(&mut self, registration: u32, lines: &mut L) -> Result<(), NoLine>
        ensures { Writes L.keeping L.seen self.old lines.old (queue_micro registration) result self.new lines.new }
    {
        self.promises.queue_micro(registration, self.moment, lines)
    }

    // A promise follows an outcome, where it may be settled so. No run comes to another answer than [`PageScript::follow`] gives.
    pub(super) fn follow_if_made<L: Lines>(
        &mut self,
        p: u32,
        how: Settled,
        lines: &mut L,
    ) -> Result<(), NoLine>
        ensures { Writes L.keeping L.seen self.old lines.old (follow p how) result self.new lines.new }
    {
        if !self.may_settle(p, &how) {
            return Err(NoLine::OutOfMemory);
        }
        self.follow(p, how, lines)
    }

    // Makes a promise with this mark, and answers its number.
    fn make(&mut self, mark: Mark) -> Result<u32, MemoryFault>
        requires { length self.old.notices.promises + 1 < 2 ^ 32 }
        ensures number { IfOk result (λ p. p ≡ length self.old.notices.promises + 1) }
        ensures made { OnOk result (self.new ≡ changed_by (made_with mark) self.old) }
        ensures err { OnErr result (self.new ≡ self.old) }
    {
        self.promises.make(mark)
    }

    // The same, where want of memory is a fault of the lines.
    pub(super) fn make_marked(&mut self, mark: Mark) -> Result<u32, NoLine>
        requires { length self.old.notices.promises + 1 < 2 ^ 32 }
        ensures number { IfOk result (λ p. p ≡ length self.old.notices.promises + 1) }
        ensures made { OnOk result (self.new ≡ changed_by (made_with mark) self.old) }
        ensures memory { IfErr result (λ why. why ≡ OutOfMemory) }
    {
        match self.make(mark) {
            Ok(p) => Ok(p),
            Err(_) => Err(NoLine::OutOfMemory),
        }
    }
}
