//! Aborts that tasks do (DOM, "Interface AbortSignal": signal abort).

ghost use Rattle.std.specs.Prelude.{◌≡◌, None, IfOk};
ghost use Rattle.std.specs.Result.{result_err};
ghost use Rattle.page_parts.specs.AbortGraph.{marked};
ghost use Rattle.page_values.specs.Seen.{seen};
ghost use Rattle.page_model.specs.PageSignals as aborting;
ghost use Rattle.page_state.specs.AbortActs.{reason_marked};
ghost use Rattle.page_state.specs.PageActs.{read_by};
ghost use Rattle.page_host.specs.Moments.{CanCall};
ghost use Rattle.page_host.specs.Doing.{Acts};
ghost use Rattle.page_host.specs.StepsOfTasks.{abort_done, abort_told, each_abort_done, signal_aborted};
ghost use Rattle.page_host.specs.Running.{RunsWork};

use crate::event_tasks::lone_argument;
use crate::pieces::noted;
use crate::{Did, Page};
use page_hosts::HostPort;
use page_interp::Machine;
use page_signals::Target;
use page_values::Value;
use std::sync::ledger::Ledger;
use trace_text::{Lines, NoLine};

impl<P: HostPort, L: Lines, M: Ledger> Page<P, L, M> {
    // A signal is aborted: the reason is set on it and on those that depend on it, and then come the abort steps of each.
    pub(crate) fn abort_in_task(
        &mut self,
        machine: &mut Machine<'_>,
        s: u32,
        reason: Value,
    ) -> Result<Did, NoLine>
        requires { CanCall machine.old self.old }
        ensures { RunsWork L.Lines (signal_aborted s reason) result machine.old self.old machine.new self.new }
    {
        let signals = self.reason_set(s, reason)?;
        self.abort_each(machine, &signals)
    }

    // The abort steps of these signals, one after another.
    fn abort_each(&mut self, machine: &mut Machine<'_>, signals: &[u32]) -> Result<Did, NoLine>
        requires { CanCall machine.old self.old }
        ensures { RunsWork L.Lines (each_abort_done signals.now) result machine.old self.old machine.new self.new }
    {
        for s in signals {
            match self.abort_steps(machine, *s)? {
                Did::Finished => {}
                Did::Fuel => return Ok(Did::Fuel),
            }
        }
        Ok(Did::Finished)
    }

    // The abort steps of a signal: its algorithms, and then `abort` is fired at it.
    fn abort_steps(&mut self, machine: &mut Machine<'_>, s: u32) -> Result<Did, NoLine>
        requires { CanCall machine.old self.old }
        ensures { RunsWork L.Lines (abort_done s) result machine.old self.old machine.new self.new }
    {
        self.run_algorithms(s)?;
        self.fire_abort(machine, s)
    }

    // `abort` is fired at a signal, with the signal.
    fn fire_abort(&mut self, machine: &mut Machine<'_>, s: u32) -> Result<Did, NoLine>
        requires { CanCall machine.old self.old }
        ensures { RunsWork L.Lines (abort_told s) result machine.old self.old machine.new self.new }
    {
        let Ok(args) = lone_argument(self.state.alloc(), Value::Signal(s)) else {
            return Err(self.wanting());
        };
        self.fire(machine, Target::Signal(s), b"abort", &args)
    }

    // The reason is set on a signal and on those that depend on it, with a line for each, and these are answered.
    fn reason_set(&mut self, s: u32, reason: Value) -> Result<Vec<u32>, NoLine>
        requires { self.old.stopped ≡ None }
        ensures does { Acts L.keeping L.seen (reason_marked s (seen reason)) (result_err result) self.old self.new }
        ensures signals { IfOk result (λ ss. ss.items ≡ read_by (λ p. marked s p.signals) self.old.state) }
    {
        let done = self.state.reason_set(s, reason, &mut self.lines);
        noted(done, &mut self.stopped, &mut self.stops)
    }

    // The abort steps of the registrations of a signal, which leave it none.
    fn run_algorithms(&mut self, s: u32) -> Result<(), NoLine>
        requires { self.old.stopped ≡ None }
        ensures { Acts L.keeping L.seen (aborting.run_algorithms s) (result_err result) self.old self.new }
    {
        let done = self.state.run_algorithms(s, &mut self.lines);
        noted(done, &mut self.stopped, &mut self.stops)
    }
}
