//! The jobs of a page (ECMA-262, "NewPromiseReactionJob" and "NewPromiseResolveThenableJob").

ghost use Rattle.std.specs.Prelude.{◌≡◌, map, IfOk};
ghost use Rattle.std.specs.Option.{option_map};
ghost use Rattle.page_values.specs.Seen.{seen};
ghost use Rattle.promise_core.specs.Seen.{settled_seen};
ghost use Rattle.page_model.specs.State.{the_registration};
ghost use Rattle.page_model.specs.PagePromises.{promise_at};
ghost use Rattle.page_state.specs.PageActs.{read_by};
ghost use Rattle.page_host.specs.Moments.{CanCall};
ghost use Rattle.page_host.specs.Doing.{arguments_of};
ghost use Rattle.page_host.specs.StepsOfCalls.{handler_called, job_run, reacted, reacted_then};
ghost use Rattle.page_host.specs.Running.{RunsCall};

use crate::Page;
use page_hosts::HostPort;
use page_interp::{Machine, Ran};
use page_script::{Job, Reaction, Settled, Todo};
use page_state::PageState;
use page_values::{MemoryFault, Value, copy};
use std::sync::ledger::Ledger;
use trace_text::{Lines, NoLine};

impl<P: HostPort, L: Lines, M: Ledger> Page<P, L, M> {
    // A job runs.
    pub(crate) fn run_job(&mut self, machine: &mut Machine<'_>, todo: Todo) -> Result<Ran, NoLine>
        requires { CanCall machine.old self.old }
        ensures { RunsCall L.Lines (job_run todo) result machine.old self.old machine.new self.new }
    {
        match todo {
            Todo::Micro(r) => {
                let none = Vec::new(self.state.alloc());
                self.invoke_in_checkpoint(machine, r, false, none)
            }
            Todo::Promise(Job::React { of, reaction }) => self.react(machine, of, reaction),
            Todo::Promise(Job::Adopt { into, from }) => {
                let inner = Reaction {
                    registration: None,
                    into,
                    state: None,
                };
                self.subscribe(from, inner)?;
                Ok(Ran::Value(Value::Unit))
            }
        }
    }

    // The reaction to a promise that is settled by then.
    fn react(
        &mut self,
        machine: &mut Machine<'_>,
        of: u32,
        reaction: Reaction,
    ) -> Result<Ran, NoLine>
        requires { CanCall machine.old self.old }
        ensures { RunsCall L.Lines (reacted of reaction) result machine.old self.old machine.new self.new }
    {
        let Ok(outcome) = outcome_copied(&self.state, of) else {
            return Err(self.wanting());
        };
        let Some(how) = outcome else {
            return Ok(Ran::Value(Value::Unit));
        };
        let Some(r) = reaction.registration else {
            self.lead_into(reaction.into, how)?;
            return Ok(Ran::Value(Value::Unit));
        };
        self.react_then(machine, r, reaction, how)
    }

    // A `then` reaction: its handler is called, and an absent handler passes the outcome on.
    fn react_then(
        &mut self,
        machine: &mut Machine<'_>,
        r: u32,
        reaction: Reaction,
        how: Settled,
    ) -> Result<Ran, NoLine>
        requires { CanCall machine.old self.old }
        ensures { RunsCall L.Lines (reacted_then r reaction how) result machine.old self.old machine.new self.new }
    {
        if self.state.callback_of(r, how.is_err()).is_none() {
            self.settle(reaction.into, how)?;
            return Ok(Ran::Value(Value::Unit));
        }
        self.handle(machine, r, reaction, how)
    }

    // The handler of a reaction is called, with the scheduling state in which the reaction was made, and the derived promise is settled by
    // what it gives.
    fn handle(
        &mut self,
        machine: &mut Machine<'_>,
        r: u32,
        reaction: Reaction,
        how: Settled,
    ) -> Result<Ran, NoLine>
        requires { CanCall machine.old self.old }
        ensures { RunsCall L.Lines (handler_called r reaction how) result machine.old self.old machine.new self.new }
    {
        let finally = is_finally(&self.state, r);
        let second = how.is_err();
        let Ok(args) = handler_arguments(&self.state, finally, &how) else {
            return Err(self.wanting());
        };
        self.set_scheduling(reaction.state);
        match self.invoke_in_checkpoint(machine, r, second, args)? {
            Ran::Value(value) => {
                self.derive(finally, reaction.into, how, value)?;
                Ok(Ran::Value(Value::Unit))
            }
            Ran::Throw(reason) => {
                self.settle(reaction.into, Err(reason))?;
                Ok(Ran::Value(Value::Unit))
            }
            Ran::Fuel => Ok(Ran::Fuel),
        }
    }
}

// A copy of a promise's outcome. It costs what its value weighs.
fn outcome_copied<P: HostPort, M: Ledger>(
    state: &PageState<P, M>,
    p: u32,
) -> Result<Option<Settled>, MemoryFault>
    ensures { IfOk result (λ how. option_map settled_seen how ≡ read_by (λ q. (promise_at q p).outcome) state.now) }
{
    match state.outcome(p) {
        None => Ok(None),
        Some(Ok(value)) => Ok(Some(Ok(copy(state.alloc(), value)?))),
        Some(Err(reason)) => Ok(Some(Err(copy(state.alloc(), reason)?))),
    }
}

// Whether a registration is that of a handler of `finally`. Takes no memory.
fn is_finally<P: HostPort, M: Ledger>(state: &PageState<P, M>, r: u32) -> bool
    ensures { result ≡ read_by (λ p. (the_registration p r).finally) state.now }
{
    match state.the_registration(r) {
        Some(registration) => registration.finally,
        None => false,
    }
}

// What a handler gets: the value or the reason; that of `finally` gets none.
fn handler_arguments<P: HostPort, M: Ledger>(
    state: &PageState<P, M>,
    finally: bool,
    how: &Settled,
) -> Result<Vec<Value>, MemoryFault>
    ensures { IfOk result (λ args. map seen args.items ≡ arguments_of finally (settled_seen how.now)) }
{
    let mut args = Vec::new(state.alloc());
    if finally {
        return Ok(args);
    }
    match how {
        Ok(value) | Err(value) => args.push(copy(state.alloc(), value)?)?,
    }
    Ok(args)
}
