//! Signals and their priorities (DOM, "Interface AbortSignal"; Prioritized Task Scheduling, "The TaskSignal Interface").
ghost use Rattle.std.specs.Prelude.{◌≡◌, IfErr, IfOk, OnOk};
ghost use Rattle.page_parts.specs.AbortGraph as graph;
ghost use Rattle.page_parts.specs.TaskSignals as prios;
ghost use Rattle.page_model.specs.Operations as model;
ghost use Rattle.page_model.specs.PageSignals.{is_aborted, is_aborted_source, give_priority, reason_value};
ghost use Rattle.page_values.specs.Seen.{seen};
ghost use Rattle.trace_text.specs.declared.lines.NoLine.TheVariants.{OutOfMemory};
ghost use Rattle.page_state.specs.PageActs.{changed_by, read_by, IsWanted};
ghost use Rattle.page_state.specs.Makes.{Makes};
ghost use Rattle.page_state.specs.SignalActs.{priority_given, depending};

use super::PageState;
use page_hosts::HostPort;
use page_signals::Priority;
use page_values::{Value, copy};
use std::sync::ledger::Ledger;
use trace_text::{Event, Lines, NoLine};

impl<P: HostPort, M: Ledger> PageState<P, M> {
    /// How many signals were made, which is the number of the last one. Takes no memory.
    pub fn signals_made(&self) -> u32
        ensures { result ≡ read_by model.last_signal self.now }
    {
        self.signals.made()
    }

    /// Makes a signal and answers its number. Signals are counted from 1, and their numbers are below 2^32.
    ///
    /// The one error is want of memory, also where no number is left.
    pub fn make_signal(&mut self) -> Result<u32, NoLine>
        ensures made { OnOk result (self.new ≡ changed_by (model.with_signals graph.make) self.old) }
        ensures number { IfOk result (λ s. s ≡ read_by model.last_signal self.new) }
        ensures memory { IfErr result (λ why. IsWanted why self.old self.new) }
    {
        if self.signals.made() == u32::MAX {
            return Err(NoLine::OutOfMemory);
        }
        match self.signals.make() {
            Ok(s) => Ok(s),
            Err(_) => Err(NoLine::OutOfMemory),
        }
    }

    /// Makes a signal that is aborted already, as [`PageState::make_signal`] does (DOM, "Interface AbortSignal": abort).
    pub fn make_aborted(&mut self, reason: Value) -> Result<u32, NoLine>
        ensures made { OnOk result
            (self.new ≡ changed_by (model.with_signals (graph.make_aborted (seen reason))) self.old) }
        ensures number { IfOk result (λ s. s ≡ read_by model.last_signal self.new) }
        ensures memory { IfErr result (λ why. IsWanted why self.old self.new) }
    {
        if self.signals.made() == u32::MAX {
            return Err(NoLine::OutOfMemory);
        }
        match self.signals.make_aborted(reason) {
            Ok(s) => Ok(s),
            Err(_) => Err(NoLine::OutOfMemory),
        }
    }

    /// Makes a signal that depends on these, as [`PageState::make_signal`] does (DOM, "Interface AbortSignal": create a dependent
    /// abort signal).
    pub fn any(&mut self, of: &[u32]) -> Result<u32, NoLine>
        ensures made { OnOk result (self.new ≡ changed_by (model.with_signals (graph.any of.now)) self.old) }
        ensures number { IfOk result (λ s. s ≡ read_by model.last_signal self.new) }
        ensures memory { IfErr result (λ why. IsWanted why self.old self.new) }
    {
        if self.signals.made() == u32::MAX {
            return Err(NoLine::OutOfMemory);
        }
        match self.signals.any(of) {
            Ok(s) => Ok(s),
            Err(_) => Err(NoLine::OutOfMemory),
        }
    }

    /// Gives a signal its first priority, with its line.
    ///
    /// Want of memory is told also where it has one.
    pub fn give_priority<L: Lines>(
        &mut self,
        s: u32,
        priority: Priority,
        lines: &mut L,
    ) -> Result<(), NoLine>
        ensures { Makes L.Lines self.old lines.old (give_priority s priority) result self.new lines.new }
    {
        self.give(s, priority)?;
        self.emit(
            Event::Prio {
                s: s as u64,
                p: priority,
            },
            lines,
        )
    }

    /// Makes a signal with a priority, with its line, and answers its number (Prioritized Task Scheduling, "The TaskController
    /// Interface").
    pub fn task_signal_made<L: Lines>(
        &mut self,
        priority: Priority,
        lines: &mut L,
    ) -> Result<u32, NoLine>
        ensures does { Makes L.Lines self.old lines.old (model.task_signal_made priority) result self.new lines.new }
        ensures number { IfOk result (λ s. s ≡ read_by model.last_signal self.new) }
    {
        let s = self.make_signal()?;
        self.give_priority(s, priority, lines)?;
        Ok(s)
    }

    /// Makes a signal that depends on these, with a priority and its line, and answers its number; where that is the priority of a
    /// signal, it follows that one from now on (Prioritized Task Scheduling, "The TaskSignal Interface").
    ///
    /// Want of memory is told also where the signal to follow has no priority, or follows one itself.
    pub fn any_made<L: Lines>(
        &mut self,
        of: &[u32],
        priority: Priority,
        follows: Option<u32>,
        lines: &mut L,
    ) -> Result<u32, NoLine>
        ensures does { Makes L.Lines self.old lines.old (model.any_made of.now priority follows) result self.new lines.new }
        ensures number { IfOk result (λ s. s ≡ read_by model.last_signal self.new) }
    {
        let s = self.any(of)?;
        self.give_priority(s, priority, lines)?;
        self.depend(s, follows)?;
        Ok(s)
    }

    /// The signal that is followed through `s`: the one that `s` follows, or `s` itself. Takes no memory.
    pub fn followed_through(&self, s: u32) -> u32
        ensures { result ≡ read_by (λ p. model.followed_through p s) self.now }
    {
        self.signals.followed(s).unwrap_or(s)
    }

    /// Whether a signal is aborted. Takes no memory.
    pub fn is_aborted(&self, s: u32) -> bool
        ensures { result ≡ read_by (λ p. is_aborted p s) self.now }
    {
        self.signals.is_aborted(s)
    }

    /// Whether an abort source is aborted, where there is one. Takes no memory.
    pub fn is_aborted_source(&self, s: Option<u32>) -> bool
        ensures { result ≡ read_by (λ p. is_aborted_source p s) self.now }
    {
        match s {
            Some(s) => self.signals.is_aborted(s),
            None => false,
        }
    }

    /// The reason of a signal, and unit where it is not aborted. The one error is want of memory.
    pub fn reason_value(&self, s: u32) -> Result<Value, NoLine>
        ensures reason { IfOk result (λ reason. seen reason ≡ read_by (λ p. reason_value p s) self.now) }
        ensures memory { IfErr result (λ why. why ≡ OutOfMemory) }
    {
        let Some(reason) = self.signals.reason(s) else {
            return Ok(Value::Unit);
        };
        match copy(self.alloc, reason) {
            Ok(reason) => Ok(reason),
            Err(_) => Err(NoLine::OutOfMemory),
        }
    }

    /// The priority of a signal now, none exactly where it was given none. Takes no memory.
    pub fn priority_of(&self, s: u32) -> Option<Priority>
        ensures { result ≡ read_by (λ p. prios.priority_of p.prios s) self.now }
    {
        self.signals.priority(s)
    }

    /// Whether a change of a signal's priority is in progress. Takes no memory.
    pub fn is_changing(&self, s: u32) -> bool
        ensures { result ≡ read_by (λ p. prios.is_changing p.prios s) self.now }
    {
        self.signals.is_changing(s)
    }

    // Gives a signal its first priority, without its line.
    fn give(&mut self, s: u32, priority: Priority) -> Result<(), NoLine>
        ensures given { OnOk result (self.new ≡ changed_by (priority_given s priority) self.old) }
        ensures memory { IfErr result (λ why. IsWanted why self.old self.new) }
    {
        if self.signals.has_priority(s) {
            return Err(NoLine::OutOfMemory);
        }
        match self.signals.give(s, priority) {
            Ok(()) => Ok(()),
            Err(_) => Err(NoLine::OutOfMemory),
        }
    }

    // The signal follows this one from now on, where there is one.
    fn depend(&mut self, s: u32, follows: Option<u32>) -> Result<(), NoLine>
        ensures follows { OnOk result (self.new ≡ changed_by (depending s follows) self.old) }
        ensures memory { IfErr result (λ why. IsWanted why self.old self.new) }
    {
        let Some(on) = follows else {
            return Ok(());
        };
        let may_follow = s != on
            && self.signals.has_priority(s)
            && self.signals.has_priority(on)
            && self.signals.followed(s).is_none()
            && self.signals.followed(on).is_none();
        if !may_follow {
            return Err(NoLine::OutOfMemory);
        }
        match self.signals.follow(s, on) {
            Ok(()) => Ok(()),
            Err(_) => Err(NoLine::OutOfMemory),
        }
    }
}
