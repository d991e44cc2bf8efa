//! Tasks that notify about promises which were rejected, and about those that were handled after all (HTML, "Unhandled promise
//! rejections").

ghost use Rattle.std.specs.Prelude.{◌≡◌, None, map, IfOk};
ghost use Rattle.std.specs.Result.{result_err};
ghost use Rattle.page_parts.specs.Promises.{settled_value};
ghost use Rattle.page_values.specs.Seen.{seen};
ghost use Rattle.promise_core.specs.Seen.{settled_seen};
ghost use Rattle.page_model.specs.Tasks as tasks;
ghost use Rattle.page_state.specs.PageActs.{read_by};
ghost use Rattle.page_host.specs.Moments.{CanCall};
ghost use Rattle.page_host.specs.Doing.{Acts};
ghost use Rattle.page_host.specs.Tasking.{rejection_args};
ghost use Rattle.page_host.specs.StepsOfTasks.{each_notified, handled_told, handling_notified, rejection_notified, unhandled_told};
ghost use Rattle.page_host.specs.Running.{RunsWork};

use crate::pieces::noted;
use crate::{Did, Page};
use page_hosts::HostPort;
use page_interp::Machine;
use page_script::Settled;
use page_signals::Target;
use page_state::PageState;
use page_values::{MemoryFault, Value, copy};
use std::alloc::Global;
use std::sync::ledger::Ledger;
use trace_text::{Event, Lines, NoLine};

impl<P: HostPort, L: Lines, M: Ledger> Page<P, L, M> {
    // Scripts are notified about these rejected promises, one after another.
    pub(crate) fn notify_rejected(
        &mut self,
        machine: &mut Machine<'_>,
        promises: Vec<u32>,
    ) -> Result<Did, NoLine>
        requires { CanCall machine.old self.old }
        ensures { RunsWork L.Lines (each_notified promises.items) result machine.old self.old machine.new self.new }
    {
        for n in &promises {
            match self.notify_one(machine, *n)? {
                Did::Finished => {}
                Did::Fuel => return Ok(Did::Fuel),
            }
        }
        Ok(Did::Finished)
    }

    // For a promise that is still unhandled `unhandledrejection` is fired at the window, and where it is unhandled after that it joins
    // the outstanding ones.
    fn notify_one(&mut self, machine: &mut Machine<'_>, n: u32) -> Result<Did, NoLine>
        requires { CanCall machine.old self.old }
        ensures { RunsWork L.Lines (rejection_notified n) result machine.old self.old machine.new self.new }
    {
        if self.state.handled(n) {
            return Ok(Did::Finished);
        }
        let Ok(args) = rejection_arguments(&self.state, n) else {
            return Err(self.wanting());
        };
        match self.fire_unhandled(machine, n, &args)? {
            Did::Finished => {
                self.note_outstanding(n)?;
                Ok(Did::Finished)
            }
            Did::Fuel => Ok(Did::Fuel),
        }
    }

    // `unhandledrejection` is fired at the window, behind its line.
    fn fire_unhandled(
        &mut self,
        machine: &mut Machine<'_>,
        n: u32,
        args: &[Value],
    ) -> Result<Did, NoLine>
        requires { CanCall machine.old self.old }
        ensures { RunsWork L.Lines (unhandled_told n args.now) result machine.old self.old machine.new self.new }
    {
        self.event_told(Event::Unhandled { p: n as u64 })?;
        self.fire(machine, Target::Window, b"unhandledrejection", args)
    }

    // A promise that is still unhandled joins the outstanding ones.
    fn note_outstanding(&mut self, n: u32) -> Result<(), NoLine>
        requires { self.old.stopped ≡ None }
        ensures { Acts L.keeping L.seen (tasks.outstanding_if_unhandled n) (result_err result) self.old self.new }
    {
        let done = self.state.outstanding_if_unhandled(n);
        noted(done, &mut self.stopped, &mut self.stops)
    }

    // Scripts are notified that this promise was handled after all.
    pub(crate) fn notify_handled(
        &mut self,
        machine: &mut Machine<'_>,
        n: u32,
    ) -> Result<Did, NoLine>
        requires { CanCall machine.old self.old }
        ensures { RunsWork L.Lines (handling_notified n) result machine.old self.old machine.new self.new }
    {
        let Ok(args) = rejection_arguments(&self.state, n) else {
            return Err(self.wanting());
        };
        self.fire_handled(machine, n, &args)
    }

    // `rejectionhandled` is fired at the window, behind its line.
    fn fire_handled(
        &mut self,
        machine: &mut Machine<'_>,
        n: u32,
        args: &[Value],
    ) -> Result<Did, NoLine>
        requires { CanCall machine.old self.old }
        ensures { RunsWork L.Lines (handled_told n args.now) result machine.old self.old machine.new self.new }
    {
        self.event_told(Event::Handled { p: n as u64 })?;
        self.fire(machine, Target::Window, b"rejectionhandled", args)
    }
}

// What the events of a rejected promise have with them: the promise, and its reason. It costs what the reason weighs.
fn rejection_arguments<P: HostPort, M: Ledger>(
    state: &PageState<P, M>,
    n: u32,
) -> Result<Vec<Value>, MemoryFault>
    ensures { IfOk result (λ args. map seen args.items ≡ read_by (λ p. rejection_args p n) state.now) }
{
    let reason = promise_reason(state, n)?;
    let mut args = Vec::new(state.alloc());
    args.push(Value::Promise(n))?;
    args.push(reason)?;
    Ok(args)
}

// A copy of the reason of a rejected promise. It costs what the reason weighs.
fn promise_reason<P: HostPort, M: Ledger>(
    state: &PageState<P, M>,
    n: u32,
) -> Result<Value, MemoryFault>
    ensures { IfOk result (λ reason. seen reason ≡ read_by (λ p. tasks.promise_reason p n) state.now) }
{
    let Some(how) = state.outcome(n) else {
        return Ok(Value::Unit);
    };
    settled_copied(state.alloc(), how)
}

// A copy of the value or the reason of an outcome. It costs what that weighs.
fn settled_copied(alloc: Global, how: &Settled) -> Result<Value, MemoryFault>
    ensures { IfOk result (λ value. seen value ≡ settled_value (settled_seen how.now)) }
{
    match how {
        Ok(value) | Err(value) => copy(alloc, value),
    }
}
