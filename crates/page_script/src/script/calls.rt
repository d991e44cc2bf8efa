//! The calls of a script's callbacks: their beginning, their end and the reports of what they throw.

ghost use Rattle.std.specs.Prelude.{◌≡◌, ◌∷◌, length, IfErr, OnOk};
ghost use Rattle.page_types.specs.Events.{Ret};
ghost use Rattle.page_values.specs.Seen.{seen};
ghost use Rattle.page_values.specs.Written.{IsNumbered};
ghost use Rattle.lang_meaning.specs.Evaluation.{without_first};
ghost use Rattle.page_model.specs.Invoke as model;
ghost use Rattle.trace_text.specs.declared.lines.NoLine.TheVariants.{OutOfMemory};
ghost use Rattle.page_script.specs.Reports.{logged};
ghost use Rattle.page_script.specs.Calls.{Writes, report_before, report_after};

use super::PageScript;
use crate::parts::WhenReported;
use page_values::Value;
use trace_text::{Event, Lines, NoLine};

impl PageScript {
    /// The call of a registration's callback begins, with its line: it is the innermost one that is open.
    pub fn call_begun<L: Lines>(&mut self, r: u32, lines: &mut L) -> Result<(), NoLine>
        ensures { Writes L.keeping L.seen self.old lines.old (model.call_begun r) result self.new lines.new }
    {
        self.open_call(r)?;
        self.emit(Event::Call { r: r as u64 }, lines)
    }

    /// The innermost call returns, with its line.
    pub fn returned<L: Lines>(&mut self, lines: &mut L) -> Result<(), NoLine>
        ensures { Writes L.keeping L.seen self.old lines.old (model.call_ended Ret) result self.new lines.new }
    {
        self.close_call();
        self.emit(Event::Ret, lines)
    }

    /// The innermost call ends with a throw, with its line.
    pub fn thrown<L: Lines>(&mut self, value: &Value, lines: &mut L) -> Result<(), NoLine>
        requires { IsNumbered (length self.old.names) (seen value.now) }
        ensures { Writes L.keeping L.seen self.old lines.old (model.thrown (seen value.now)) result self.new lines.new }
    {
        let v = self.printed(value)?;
        self.close_call();
        self.emit(Event::Throw { v }, lines)
    }

    /// A value that was thrown is reported, with its line (HTML, "Runtime script errors").
    pub fn report<L: Lines>(&self, value: &Value, lines: &mut L) -> Result<(), NoLine>
        requires { IsNumbered (length self.now.names) (seen value.now) }
        ensures { Writes L.keeping L.seen self.now lines.old (model.report (seen value.now)) result self.now lines.new }
    {
        let v = self.printed(value)?;
        self.emit(Event::Report { v }, lines)
    }

    /// Logs a value, with its line. It costs what the spelling of the value costs.
    pub fn log<L: Lines>(&self, value: &Value, lines: &mut L) -> Result<(), NoLine>
        requires { IsNumbered (length self.now.names) (seen value.now) }
        ensures { Writes L.keeping L.seen self.now lines.old (logged (seen value.now)) result self.now lines.new }
    {
        let v = self.printed(value)?;
        self.emit(Event::Log { v }, lines)
    }

    /// The report of a throw before the checkpoint, where it belongs there.
    pub fn report_before<L: Lines>(
        &self,
        when: WhenReported,
        value: &Value,
        lines: &mut L,
    ) -> Result<(), NoLine>
        requires { IsNumbered (length self.now.names) (seen value.now) }
        ensures { Writes L.keeping L.seen self.now lines.old (report_before when value.now) result self.now lines.new }
    {
        match when {
            WhenReported::BeforeCheckpoint => self.report(value, lines),
            WhenReported::AfterCheckpoint | WhenReported::Never => Ok(()),
        }
    }

    /// The report of a throw after the checkpoint, where it belongs there.
    pub fn report_after<L: Lines>(
        &self,
        when: WhenReported,
        value: &Value,
        lines: &mut L,
    ) -> Result<(), NoLine>
        requires { IsNumbered (length self.now.names) (seen value.now) }
        ensures { Writes L.keeping L.seen self.now lines.old (report_after when value.now) result self.now lines.new }
    {
        match when {
            WhenReported::AfterCheckpoint => self.report(value, lines),
            WhenReported::BeforeCheckpoint | WhenReported::Never => Ok(()),
        }
    }

    // One more open call, the innermost.
    fn open_call(&mut self, r: u32) -> Result<(), NoLine>
        ensures memory { IfErr result (λ why. why ≡ OutOfMemory) }
        ensures open { OnOk result (self.new ≡ record self.old { calls = r ∷ self.old.calls }) }
    {
        if self.calls.push(r).is_err() {
            return Err(NoLine::OutOfMemory);
        }
        Ok(())
    }

    // The innermost call is no longer open. Takes no memory.
    fn close_call(&mut self)
        ensures { self.new ≡ record self.old { calls = without_first self.old.calls } }
    {
        let _ = self.calls.pop();
    }
}
