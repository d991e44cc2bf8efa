//! Aborts and priority changes, in which callbacks nest, by steps (DOM, "Interface AbortSignal" and "Dispatching events"; Prioritized
//! Task Scheduling, "The TaskSignal Interface").
ghost use Rattle.std.specs.Prelude.{◌≡◌, ◌-◌, length, not, IfErr, IfOk, OnOk};
ghost use Rattle.std.specs.Option.{option_map};
ghost use Rattle.page_parts.specs.AbortGraph.{marked};
ghost use Rattle.lang_ast.specs.Steps.{seen_step};
ghost use Rattle.page_values.specs.Seen.{seen};
ghost use Rattle.task_signal.specs.Changes.{HasPriority, IsStill};
ghost use Rattle.page_signals.specs.Steps.{IsMade, abort_opened, change_opened, reported_in, stepped, Falls};
ghost use Rattle.page_signals.specs.Seen as fold;
ghost use Rattle.page_signals.specs.Seen.{visit_seen};
ghost use Rattle.page_signals.specs.Kept.{AreFitting};
ghost use Rattle.trace_text.specs.declared.lines.NoLine.TheVariants.{OutOfMemory};
ghost use Rattle.page_state.specs.PageActs.{read_by, IsWanted};
ghost use Rattle.page_state.specs.CodeFolds.{called_seen};
ghost use Rattle.page_state.specs.FoldActs.{signalling_in, having, rest_step};
ghost use Rattle.page_state.specs.FoldActs.{called_by, listener_called};
ghost use Rattle.page_state.specs.Makes.{Makes, TakesStep};
ghost use Rattle.page_state.specs.CodeSteps.{abort_begun, change_begun, resumed, invoking, callback_ended, reported, is_priority};

use super::PageState;
use crate::copies::function_copied;
use crate::stepping::{next_step, open_change};
use crate::whens::{in_fold, in_script};
use lang_ast::{HostStep, Outcome};
use page_hosts::HostPort;
use page_script::WhenReported;
use page_signals::{Priority, Visit};
use page_values::Value;
use std::sync::ledger::Ledger;
use trace_text::{Event, Lines, NoLine};

// A callback that is called next, and when a throw of it is reported.
#[derive(Drop)]
pub struct NextCallback {
    pub callback: Value,
    pub when: page_signals::WhenReported,
}

impl<P: HostPort, M: Ledger> PageState<P, M> {
    /// Aborts a signal: the reason is set, with the lines, and then the abort steps are run of the signal and of those that depend on
    /// it, to the first callback or to the end.
    ///
    /// Want of memory is told also where there is no such signal, and where 2^32 reasons were set before.
    pub fn begin_abort<L: Lines>(
        &mut self,
        s: u32,
        reason: Value,
        lines: &mut L,
    ) -> Result<HostStep, NoLine>
        ensures { TakesStep L.Lines self.old lines.old (abort_begun s reason) result self.new lines.new }
    {
        let signals = self.open_abort(s, reason)?;
        self.emit_aborts(&signals, lines)?;
        self.reach(lines)
    }

    /// Changes the priority of a signal and of those that follow it, to the first callback or to the end.
    ///
    /// Want of memory is told also where the signal has no priority, or while a change of it is in progress.
    pub fn begin_change<L: Lines>(
        &mut self,
        s: u32,
        priority: Priority,
        lines: &mut L,
    ) -> Result<HostStep, NoLine>
        ensures { TakesStep L.Lines self.old lines.old (change_begun s priority) result self.new lines.new }
    {
        if !self.change_opened(s, priority)? {
            return Ok(HostStep::Value(Value::Unit));
        }
        self.reach(lines)
    }

    /// The innermost fold goes on where its callback has ended, to the next callback or to the end. With no fold open there is nothing
    /// to do.
    ///
    /// Want of memory is told also where no callback runs under the innermost fold.
    pub fn resume_innermost<L: Lines>(
        &mut self,
        end: Outcome,
        lines: &mut L,
    ) -> Result<HostStep, NoLine>
        ensures { TakesStep L.Lines self.old lines.old (resumed end) result self.new lines.new }
    {
        if self.signals.open_count() == 0 {
            return Ok(HostStep::Value(Value::Unit));
        }
        if !self.signals.is_calling() {
            return Err(NoLine::OutOfMemory);
        }
        let when = in_script(self.signals.when());
        self.callback_ended(when, &end, lines)?;
        self.reach(lines)
    }

    // The innermost fold goes on to its next callback, or to its end.
    fn reach<L: Lines>(&mut self, lines: &mut L) -> Result<HostStep, NoLine>
        ensures { TakesStep L.Lines self.old lines.old rest_step result self.new lines.new }
    {
        'steps: loop {
            match self.fold_step()? {
                Visit::Algorithm {
                    registration,
                    reason,
                } => self.abort_registration(reason, registration, lines)?,
                Visit::Listener {
                    registration,
                    arguments,
                } => {
                    if let Some(calling) = self.listener_begun(registration, lines)? {
                        return Ok(self.invoked(calling, arguments));
                    }
                }
                Visit::Changed {
                    signal,
                    priority,
                    ..
                } => self.emit(
                    Event::Prio {
                        s: signal as u64,
                        p: priority,
                    },
                    lines,
                )?,
                Visit::Finished => return Ok(HostStep::Value(Value::Unit)),
            }
        }
    }

    // The next step of the innermost fold. Where it sets a priority, the scheduler tasks of the signal are selected by it.
    fn fold_step(&mut self) -> Result<Visit, NoLine>
        ensures step { IfOk result (λ visit. (visit_seen visit, signalling_in self.new) ≡ stepped (signalling_in self.old)) }
        ensures falls { IfOk result (λ visit. Falls (visit_seen visit) (signalling_in self.old) (signalling_in self.new)) }
        ensures before { AreFitting (signalling_in self.old) }
        ensures after { AreFitting (signalling_in self.new) }
        ensures others { self.new ≡ having (signalling_in self.new) self.old }
        ensures memory { IfErr result (λ why. IsWanted why self.old self.new) }
    {
        next_step(&mut self.signals, &mut self.tasks)
    }

    // The call of a listener begins, with its line. Where it has no callback it has ended, and nothing is answered.
    fn listener_begun<L: Lines>(
        &mut self,
        r: u32,
        lines: &mut L,
    ) -> Result<Option<NextCallback>, NoLine>
        ensures does { Makes L.Lines self.old lines.old (listener_called r) result self.new lines.new }
        ensures called { IfOk result (λ c. option_map called_seen c ≡ read_by (λ p. called_by p r) self.old) }
    {
        let Some(calling) = self.calling_of(r)? else {
            self.call_begun(r, lines)?;
            self.returned(lines)?;
            return Ok(None);
        };
        self.call_begun(r, lines)?;
        Ok(Some(calling))
    }

    // The callback of a registration, none where it has none.
    //
    // Want of memory is told also where it was never made.
    fn calling_of(&self, r: u32) -> Result<Option<NextCallback>, NoLine>
        ensures called { IfOk result (λ c. option_map called_seen c ≡ read_by (λ p. called_by p r) self.now) }
        ensures memory { IfErr result (λ why. why ≡ OutOfMemory) }
    {
        let Some(registration) = self.the_registration(r) else {
            return Err(NoLine::OutOfMemory);
        };
        let Some(function) = registration.callbacks.first() else {
            return Ok(None);
        };
        let callback = function_copied(self.alloc, function)?;
        let when = in_fold(registration.role.when_reported());
        Ok(Some(NextCallback { callback, when }))
    }

    // The callback runs under the innermost fold from now on, with these arguments. Takes no memory.
    fn invoked(&mut self, calling: NextCallback, arguments: Vec<Value>) -> HostStep
        ensures step { seen_step result ≡ invoking calling arguments (length self.old.folds - 1) }
        ensures folds { self.new ≡ record self.old { folds = reported_in (fold.when_seen calling.when) self.old.folds } }
    {
        self.signals.set_when(calling.when);
        HostStep::Invoke {
            callback: calling.callback,
            args: arguments,
            ticket: self.signals.open_count().saturating_sub(1),
        }
    }

    // The line of a callback's end, and the report of a throw.
    fn callback_ended<L: Lines>(
        &mut self,
        when: WhenReported,
        end: &Outcome,
        lines: &mut L,
    ) -> Result<(), NoLine>
        ensures { Makes L.Lines self.old lines.old (callback_ended when end.now) result self.new lines.new }
    {
        match end {
            Outcome::Value(_) => self.returned(lines),
            Outcome::Throw(value) => self.reported(when, value, lines),
        }
    }

    // The line of a callback's throw, and its report.
    fn reported<L: Lines>(
        &mut self,
        when: WhenReported,
        value: &Value,
        lines: &mut L,
    ) -> Result<(), NoLine>
        ensures { Makes L.Lines self.old lines.old (reported when value.now) result self.new lines.new }
    {
        self.thrown(value, lines)?;
        self.report_before(when, value, lines)?;
        self.report_after(when, value, lines)
    }

    // The reason is set, and the abort steps are opened of the signals that are answered.
    fn open_abort(&mut self, s: u32, reason: Value) -> Result<Vec<u32>, NoLine>
        ensures signals { IfOk result (λ ss. ss.items ≡ read_by (λ p. marked s p.signals) self.old) }
        ensures made { OnOk result (IsMade s self.old.signals.signals) }
        ensures opened { OnOk result (self.new ≡ having (abort_opened s (seen reason) (signalling_in self.old)) self.old) }
        ensures memory { IfErr result (λ why. IsWanted why self.old self.new) }
    {
        if s == 0 || s > self.signals.made() {
            return Err(NoLine::OutOfMemory);
        }
        match self.signals.open_abort(s, reason) {
            Ok(signals) => Ok(signals),
            Err(_) => Err(NoLine::OutOfMemory),
        }
    }

    // The change of a priority is opened, and whether there is one is told.
    fn change_opened(&mut self, s: u32, priority: Priority) -> Result<bool, NoLine>
        ensures answer { IfOk result (λ is_opened. is_opened ≡ not (read_by (is_priority s priority) self.old)) }
        ensures given { OnOk result (HasPriority s self.old.signals.prios) }
        ensures still { OnOk result (IsStill s self.old.signals.prios) }
        ensures opened { OnOk result (self.new ≡ having (change_opened s priority (signalling_in self.old)) self.old) }
        ensures memory { IfErr result (λ why. IsWanted why self.old self.new) }
    {
        open_change(&mut self.signals, &mut self.tasks, s, priority)
    }
}
