//! The callbacks of a page: their registrations, their calls and the reports of what they throw.

ghost use Rattle.std.specs.Prelude.{◌≡◌, ◌↔◌, ◌<◌, ◌≤◌, length, IfOk, IfSome, IsSome, IsTrue, MatchOption};
ghost use Rattle.page_types.specs.Events.{Ret};
ghost use Rattle.page_values.specs.Seen.{seen};
ghost use Rattle.page_values.specs.Written.{IsNumbered};
ghost use Rattle.page_model.specs.State.{the_registration, last_registration};
ghost use Rattle.page_model.specs.Invoke as model;
ghost use Rattle.page_script.specs.Seen.{registration_seen};
ghost use Rattle.page_script.specs.Reports.{logged};
ghost use Rattle.page_state.specs.PageActs.{read_by};
ghost use Rattle.page_state.specs.Makes.{Makes};
ghost use Rattle.page_state.specs.CodeValues.{HasCallback, HasNoCallback};
ghost use Rattle.page_script.specs.Calls.{register_as, report_after, report_before};

use super::PageState;
use page_hosts::HostPort;
use page_script::{Registration, WhenReported};
use page_values::{Func, Value};
use std::sync::ledger::Ledger;
use trace_text::{Lines, NoLine, RegKind};

impl<P: HostPort, M: Ledger> PageState<P, M> {
    /// Makes a registration, with its line, and answers its number. Registrations are counted from 1, and their numbers are
    /// below 2^32.
    pub fn register_as<L: Lines>(
        &mut self,
        kind: RegKind,
        registration: Registration,
        lines: &mut L,
    ) -> Result<u32, NoLine>
        ensures does { Makes L.Lines self.old lines.old (register_as kind registration) result self.new lines.new }
        ensures number { IfOk result (λ r. r ≡ read_by last_registration self.new) }
    {
        if self.script.registered() >= u32::MAX as usize {
            return Err(NoLine::OutOfMemory);
        }
        self.script.register(kind, registration, lines)
    }

    /// A registration by its number. None exactly where it was never made. Takes no memory.
    pub fn the_registration(&self, r: u32) -> Option<&Registration>
        ensures there { IsSome result ↔ ((0 < r) × (r ≤ length self.now.script.registrations)) }
        ensures seen { IfSome result (λ x. registration_seen x.now ≡ read_by (λ p. the_registration p r) self.now) }
    {
        if !self.script.is_registered(r) {
            return None;
        }
        Some(self.script.registration(r))
    }

    /// The function that a registration calls: its second callback, or the first. None exactly where there is none, as of a
    /// registration that was never made. Takes no memory.
    pub fn callback_of(&self, r: u32, second: bool) -> Option<&Func>
        ensures { MatchOption result (HasNoCallback self.now r second) (λ f. HasCallback self.now r second f.now) }
    {
        if !self.script.is_registered(r) {
            return None;
        }
        self.script.callback(r, second)
    }

    /// Whether each function that a value names has a name here. Takes no memory, and costs at most the weight of the value.
    pub fn is_numbered(&self, value: &Value) -> bool
        ensures { IsTrue result ↔ IsNumbered (length self.now.script.names) (seen value.now) }
    {
        self.script.is_numbered(value)
    }

    /// How many registrations were ever made. Takes no memory.
    pub fn registered(&self) -> usize
        ensures { result ≡ read_by last_registration self.now }
    {
        self.script.registered()
    }

    /// The innermost call returns, with its line.
    pub fn returned<L: Lines>(&mut self, lines: &mut L) -> Result<(), NoLine>
        ensures { Makes L.Lines self.old lines.old (model.call_ended Ret) result self.new lines.new }
    {
        self.script.returned(lines)
    }

    /// The innermost call ends with a throw, with its line.
    pub fn thrown<L: Lines>(&mut self, value: &Value, lines: &mut L) -> Result<(), NoLine>
        ensures { Makes L.Lines self.old lines.old (model.thrown (seen value.now)) result self.new lines.new }
    {
        if !self.script.is_numbered(value) {
            return Err(NoLine::OutOfMemory);
        }
        self.script.thrown(value, lines)
    }

    /// A value that was thrown is reported, with its line (HTML, "Runtime script errors").
    pub fn report<L: Lines>(&self, value: &Value, lines: &mut L) -> Result<(), NoLine>
        ensures { Makes L.Lines self.now lines.old (model.report (seen value.now)) result self.now lines.new }
    {
        if !self.script.is_numbered(value) {
            return Err(NoLine::OutOfMemory);
        }
        self.script.report(value, lines)
    }

    /// Logs a value, with its line. It costs what the spelling of the value costs.
    pub fn log<L: Lines>(&self, value: &Value, lines: &mut L) -> Result<(), NoLine>
        ensures { Makes L.Lines self.now lines.old (logged (seen value.now)) result self.now lines.new }
    {
        if !self.script.is_numbered(value) {
            return Err(NoLine::OutOfMemory);
        }
        self.script.log(value, lines)
    }

    /// The report of a throw before the checkpoint, where it belongs there.
    pub fn report_before<L: Lines>(
        &self,
        when: WhenReported,
        value: &Value,
        lines: &mut L,
    ) -> Result<(), NoLine>
        ensures { Makes L.Lines self.now lines.old (report_before when value.now) result self.now lines.new }
    {
        if !self.script.is_numbered(value) {
            return Err(NoLine::OutOfMemory);
        }
        self.script.report_before(when, value, lines)
    }

    /// The report of a throw after the checkpoint, where it belongs there.
    pub fn report_after<L: Lines>(
        &self,
        when: WhenReported,
        value: &Value,
        lines: &mut L,
    ) -> Result<(), NoLine>
        ensures { Makes L.Lines self.now lines.old (report_after when value.now) result self.now lines.new }
    {
        if !self.script.is_numbered(value) {
            return Err(NoLine::OutOfMemory);
        }
        self.script.report_after(when, value, lines)
    }
}
