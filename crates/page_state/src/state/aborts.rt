//! Abort steps of registrations (DOM, "Interface AbortSignal"; Prioritized Task Scheduling, "Scheduling
//! Tasks and Continuations").
ghost use Rattle.std.specs.Prelude.{◌≡◌, Option, IfErr, IfOk, OnOk};
ghost use Rattle.page_model.specs.State.{last_registration, the_registration};
ghost use Rattle.page_model.specs.PageSignals as model;
ghost use Rattle.page_state.specs.PageActs.{changed_by, read_by, IsWanted};
ghost use Rattle.page_state.specs.Makes.{Makes};
ghost use Rattle.page_state.specs.CodeValues.{promised, abort_registration, promise_rejected};

use super::PageState;
use page_hosts::HostPort;
use page_script::{Callbacks, Registration, Role};
use page_values::{Func, Value};
use std::sync::ledger::Ledger;
use trace_text::{Lines, NoLine, RegKind};

impl<P: HostPort, M: Ledger> PageState<P, M> {
    /// The abort steps of a registration are added to its signal, where it has one. The one error is want of memory.
    pub fn watch(&mut self, signal: Option<u32>, r: u32) -> Result<(), NoLine>
        ensures watched { OnOk result (self.new ≡ changed_by (model.watch signal r) self.old) }
        ensures memory { IfErr result (λ why. IsWanted why self.old self.new) }
    {
        let Some(s) = signal else {
            return Ok(());
        };
        match self.signals.add_algorithm(s, r) {
            Ok(()) => Ok(()),
            Err(_) => Err(NoLine::OutOfMemory),
        }
    }

    /// The abort steps of a registration are taken off its signal, where it has one. Takes no memory.
    pub fn unwatch(&mut self, r: u32)
        ensures { self.new ≡ changed_by (model.unwatch r) self.old }
    {
        if let Some(s) = self.signal_of(r) {
            let _ = self.signals.remove_algorithm(s, r);
        }
    }

    /// Makes the promise and the registration of a task, a delay or a host answer, with its line, adds its abort steps to its
    /// signal, where it has one, and answers the number of the registration.
    pub fn promised<L: Lines>(
        &mut self,
        kind: RegKind,
        callback: Option<Func>,
        signal: Option<u32>,
        lines: &mut L,
    ) -> Result<u32, NoLine>
        ensures does { Makes L.Lines self.old lines.old (promised kind callback signal) result self.new lines.new }
        ensures number { IfOk result (λ r. r ≡ read_by last_registration self.new) }
    {
        let promise = self.new_promise()?;
        let callbacks = Callbacks::first_alone(callback);
        let registration = Registration {
            role: Role::Of(kind),
            callbacks,
            timer_id: 0,
            promise,
            signal,
            finally: false,
        };
        let r = self.register_as(kind, registration, lines)?;
        self.watch(signal, r)?;
        Ok(r)
    }

    /// The abort steps of a registration: its promise is rejected with the reason, and it is dropped where it had not begun.
    ///
    /// Want of memory is told also where there is no such registration.
    pub fn abort_registration<L: Lines>(
        &mut self,
        reason: Value,
        r: u32,
        lines: &mut L,
    ) -> Result<(), NoLine>
        ensures { Makes L.Lines self.old lines.old (abort_registration reason r) result self.new lines.new }
    {
        let has_not_begun = self.has_not_begun(r);
        self.reject_promise_of(r, reason, lines)?;
        if has_not_begun {
            self.drop_registration(r, lines)
        } else {
            Ok(())
        }
    }

    // The promise of a registration is rejected.
    fn reject_promise_of<L: Lines>(
        &mut self,
        r: u32,
        reason: Value,
        lines: &mut L,
    ) -> Result<(), NoLine>
        ensures { Makes L.Lines self.old lines.old (promise_rejected reason r) result self.new lines.new }
    {
        let Some(registration) = self.the_registration(r) else {
            return Err(NoLine::OutOfMemory);
        };
        let promise = registration.promise;
        self.settle(promise, Err(reason), lines)
    }

    // The signal of a registration, none where it has none or was never made. Takes no memory.
    fn signal_of(&self, r: u32) -> Option<u32>
        ensures { result ≡ read_by (λ p. (the_registration p r).signal) self.now }
    {
        if !self.script.is_registered(r) {
            return None;
        }
        self.script.registration(r).signal
    }
}
