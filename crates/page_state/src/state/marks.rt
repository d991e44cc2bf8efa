//! Reasons of aborts that are set, and the abort steps of registrations (DOM, "Interface AbortSignal").
ghost use Rattle.std.specs.Prelude.{◌≡◌, map, IfErr, IfOk, OnOk};
ghost use Rattle.page_types.specs.Events as events;
ghost use Rattle.page_parts.specs.AbortGraph.{marked, the_signal};
ghost use Rattle.page_values.specs.Seen.{seen};
ghost use Rattle.page_model.specs.State.{emit_each};
ghost use Rattle.page_model.specs.PageSignals as model;
ghost use Rattle.page_model.specs.PageSignals.{abort_registrations as abort_in_order};
ghost use Rattle.page_state.specs.PageActs.{changed_by, read_by, IsWanted};
ghost use Rattle.page_state.specs.Makes.{Makes, Writes};
ghost use Rattle.page_state.specs.AbortActs.{reason_marked, reason_silent, algorithms_taken};

use super::PageState;
use crate::copies::copied;
use page_hosts::HostPort;
use page_signals::Algorithms;
use page_values::Value;
use std::sync::ledger::Ledger;
use trace_text::{Event, Lines, NoLine};

impl<P: HostPort, M: Ledger> PageState<P, M> {
    /// The abort steps of the registrations of a signal, in the order in which they were added, which leaves it none.
    pub fn run_algorithms<L: Lines>(&mut self, s: u32, lines: &mut L) -> Result<(), NoLine>
        ensures { Makes L.Lines self.old lines.old (model.run_algorithms s) result self.new lines.new }
    {
        let reason = self.reason_value(s)?;
        let algorithms = self.take_algorithms(s);
        self.abort_registrations(&reason, algorithms, lines)
    }

    /// The reason is set on a signal and on those that depend on it, but on none where it is aborted, with an `abort` line for each, and
    /// these are answered, the signal first.
    ///
    /// Want of memory is told also where 2^32 reasons were set before.
    pub fn reason_set<L: Lines>(
        &mut self,
        s: u32,
        reason: Value,
        lines: &mut L,
    ) -> Result<Vec<u32>, NoLine>
        ensures does { Makes L.Lines self.old lines.old (reason_marked s (seen reason)) result self.new lines.new }
        ensures signals { IfOk result (λ ss. ss.items ≡ read_by (λ p. marked s p.signals) self.old) }
    {
        let signals = self.set_reason(s, reason)?;
        self.emit_aborts(&signals, lines)?;
        Ok(signals)
    }

    // The reason is set without the lines, and the signals on which it was set are answered.
    fn set_reason(&mut self, s: u32, reason: Value) -> Result<Vec<u32>, NoLine>
        ensures signals { IfOk result (λ ss. ss.items ≡ read_by (λ p. marked s p.signals) self.old) }
        ensures set { OnOk result (self.new ≡ changed_by (reason_silent s (seen reason)) self.old) }
        ensures memory { IfErr result (λ why. IsWanted why self.old self.new) }
    {
        match self.signals.abort_mark(s, reason) {
            Ok(signals) => Ok(signals),
            Err(_) => Err(NoLine::OutOfMemory),
        }
    }

    // An `abort` line for each of these signals.
    pub(crate) fn emit_aborts<L: Lines>(&self, signals: &[u32], lines: &mut L) -> Result<(), NoLine>
        ensures { Writes L.Lines self.now lines.old (emit_each (map events.Abort signals.now)) result lines.new }
    {
        for s in signals {
            self.emit(Event::Abort { s: *s as u64 }, lines)?;
        }
        Ok(())
    }

    // The abort steps of these registrations, with this reason.
    fn abort_registrations<L: Lines>(
        &mut self,
        reason: &Value,
        mut left: Algorithms,
        lines: &mut L,
    ) -> Result<(), NoLine>
        ensures { Makes L.Lines self.old lines.old (abort_in_order (seen reason.now) left) result self.new lines.new }
    {
        'registrations: while let Some(r) = left.next() {
            let reason = copied(self.alloc, reason)?;
            self.abort_registration(reason, r, lines)?;
        }
        Ok(())
    }

    // The registrations of a signal that have abort steps, which are taken off it. Takes no memory.
    fn take_algorithms(&mut self, s: u32) -> Algorithms
        ensures all { result ≡ (the_signal self.old.signals.signals s).algorithms }
        ensures taken { self.new ≡ changed_by (algorithms_taken s) self.old }
    {
        self.signals.take_algorithms(s)
    }
}
