//! Callbacks of a page: each is called with its line, and what comes behind it (HTML, "Calling scripts").

ghost use Rattle.std.specs.Prelude.{◌≡◌, ◌≢◌, ◌≤◌, map, IfErr, IfOk};
ghost use Rattle.std.specs.Option.{option_map};
ghost use Rattle.page_values.specs.Seen.{seen, seen_func};
ghost use Rattle.page_values.specs.Written.{AreNumbered};
ghost use Rattle.lang_ast.specs.Steps.{AllNumbered};
ghost use Rattle.page_interp.specs.Machines.{functions_in};
ghost use Rattle.page_model.specs.State.{the_registration};
ghost use Rattle.page_model.specs.Invoke as model;
ghost use Rattle.page_script.specs.Reports.{when_seen};
ghost use Rattle.page_state.specs.PageActs.{read_by};
ghost use Rattle.page_state.specs.Standing.{port_of};
ghost use Rattle.page_host.specs.Moments.{CanCall, IfEnded, SamePort};
ghost use Rattle.page_host.specs.Doing.{ended_in_task, IsDry};
ghost use Rattle.page_host.specs.Tasking.{did_of};
ghost use Rattle.page_host.specs.Stops.{fault_of};
ghost use Rattle.page_host.specs.StepsOfCalls.{bound_called, callback_read, callback_run, called_with, function_called};
ghost use Rattle.page_host.specs.StepsOfCalls.{invoked, job_invoked, thrown_in_task};
ghost use Rattle.page_host.specs.Running.{Invokes, RunsCall, RunsWork};
ghost use Rattle.page_host.specs.declared.stop.PageStop.TheVariants.{NoHost};

use crate::stop::stop_for;
use crate::{Did, Page, PageStop};
use page_hosts::HostPort;
use page_interp::{Machine, Ran, Stopped};
use page_operations::are_numbered;
use page_script::WhenReported;
use page_state::PageState;
use page_values::{Func, MemoryFault, Value, copy_items};
use std::snapshot::Snapshot;
use std::sync::ledger::Ledger;
use trace_text::{Lines, NoLine};

impl<P: HostPort, L: Lines, M: Ledger> Page<P, L, M> {
    /// Invokes the callback of a registration, its second one or its first, with arguments, in a task: its lines, and behind it a
    /// microtask checkpoint (HTML, "Calling scripts": clean up after running script). A throw is reported before or after that
    /// checkpoint, by the kind of the registration.
    ///
    /// `Fuel` comes only where no unit of fuel is left. It never ends with `NoHost`.
    pub fn invoke(
        &mut self,
        machine: &mut Machine<'_>,
        registration: u32,
        second: bool,
        args: Vec<Value>,
    ) -> Result<Ran, PageStop>
        requires { CanCall machine.old self.old }
        ensures steps { Invokes L.Lines registration second args.items result machine.old self.old machine.new self.new }
        ensures ready { IfEnded result (CanCall machine.new self.new) }
        ensures port { IfOk result (λ ran. SamePort self.old self.new) }
        ensures left { port_of self.new.state ≡ port_of self.old.state }
        ensures program { machine.new.script ≡ machine.old.script }
        ensures fuel { self.new.fuel ≤ self.old.fuel }
        ensures dry { IfOk result (λ ran. IsDry ran self.new.fuel) }
        ensures stop { self.new.stopped ≡ fault_of result }
        ensures no_host { IfErr result (λ stop. stop ≢ NoHost) }
    {
        match self.invoke_in_task(machine, registration, second, args) {
            Ok(ran) => Ok(ran),
            Err(why) => Err(stop_for(why)),
        }
    }

    // The same, with the reason of a stop.
    pub(crate) fn invoke_in_task(
        &mut self,
        machine: &mut Machine<'_>,
        r: u32,
        second: bool,
        args: Vec<Value>,
    ) -> Result<Ran, NoLine>
        requires { CanCall machine.old self.old }
        ensures { RunsCall L.Lines (invoked r second args.items) result machine.old self.old machine.new self.new }
    {
        let when = when_reported(&self.state, r);
        match self.called(machine, r, second, args)? {
            Ran::Value(value) => self.ended_in_task(machine, value),
            Ran::Throw(value) => self.threw_in_task(machine, when, value),
            Ran::Fuel => Ok(Ran::Fuel),
        }
    }

    // The same, whatever the callback gives or throws.
    pub(crate) fn run_callback(
        &mut self,
        machine: &mut Machine<'_>,
        r: u32,
        args: Vec<Value>,
    ) -> Result<Did, NoLine>
        requires { CanCall machine.old self.old }
        ensures { RunsWork L.Lines (callback_run r args.items) result machine.old self.old machine.new self.new }
    {
        let ran = self.invoke_in_task(machine, r, false, args)?;
        Ok(did_of(&ran))
    }

    // In a task a callback has returned: its line, and a checkpoint.
    fn ended_in_task(&mut self, machine: &mut Machine<'_>, value: Value) -> Result<Ran, NoLine>
        requires { CanCall machine.old self.old }
        ensures { RunsCall L.Lines (ended_in_task (seen value)) result machine.old self.old machine.new self.new }
    {
        self.returned()?;
        match self.perform_checkpoint(machine)? {
            Did::Finished => Ok(Ran::Value(value)),
            Did::Fuel => Ok(Ran::Fuel),
        }
    }

    // In a task a callback has thrown: its line, a checkpoint, and the report before or after it.
    fn threw_in_task(
        &mut self,
        machine: &mut Machine<'_>,
        when: WhenReported,
        value: Value,
    ) -> Result<Ran, NoLine>
        requires { CanCall machine.old self.old }
        ensures { RunsCall L.Lines (thrown_in_task when value) result machine.old self.old machine.new self.new }
    {
        self.threw(when, &value)?;
        match self.perform_checkpoint(machine)? {
            Did::Finished => {
                self.reported(when, &value)?;
                Ok(Ran::Throw(value))
            }
            Did::Fuel => Ok(Ran::Fuel),
        }
    }

    // A callback is invoked inside a checkpoint: nothing more is done when it has returned.
    pub(crate) fn invoke_in_checkpoint(
        &mut self,
        machine: &mut Machine<'_>,
        r: u32,
        second: bool,
        args: Vec<Value>,
    ) -> Result<Ran, NoLine>
        requires { CanCall machine.old self.old }
        ensures { RunsCall L.Lines (job_invoked r second args.items) result machine.old self.old machine.new self.new }
    {
        let when = when_reported(&self.state, r);
        match self.called(machine, r, second, args)? {
            Ran::Value(value) => {
                self.returned()?;
                Ok(Ran::Value(value))
            }
            Ran::Throw(value) => {
                self.threw(when, &value)?;
                self.reported(when, &value)?;
                Ok(Ran::Throw(value))
            }
            Ran::Fuel => Ok(Ran::Fuel),
        }
    }

    // The callback of a registration is called, with its line.
    fn called(
        &mut self,
        machine: &mut Machine<'_>,
        r: u32,
        second: bool,
        args: Vec<Value>,
    ) -> Result<Ran, NoLine>
        requires { CanCall machine.old self.old }
        ensures { RunsCall L.Lines (called_with r second args.items) result machine.old self.old machine.new self.new }
    {
        let Ok(fun) = callback_copied(&self.state, r, second) else {
            return Err(self.wanting());
        };
        self.call_begun(r)?;
        self.call_back(machine, fun, args)
    }

    // A function is called with arguments, after its bound ones; an absent one does nothing. Want of memory is told also where a value
    // names a function that the script does not have, which no run comes to.
    fn call_back(
        &mut self,
        machine: &mut Machine<'_>,
        fun: Option<Func>,
        args: Vec<Value>,
    ) -> Result<Ran, NoLine>
        requires { CanCall machine.old self.old }
        ensures { RunsCall L.Lines (function_called fun args.items) result machine.old self.old machine.new self.new }
    {
        let Some(fun) = fun else {
            return Ok(Ran::Value(Value::Unit));
        };
        if !are_numbered(&self.state, fun.bound.items()) || !are_numbered(&self.state, &args) {
            return Err(self.wanting());
        }
        self.since = Snapshot::of(&self.lines);
        self.run(machine, &fun, args)
    }

    // The script machine calls a function around the page, whose lines are as they were marked.
    fn run(
        &mut self,
        machine: &mut Machine<'_>,
        fun: &Func,
        args: Vec<Value>,
    ) -> Result<Ran, NoLine>
        requires ready { CanCall machine.old self.old }
        requires since { L.seen self.old.since ≡ L.seen self.old.lines }
        requires bound { AreNumbered (functions_in machine.old) fun.now.bound }
        requires args { AllNumbered (functions_in machine.old) (map seen args.items) }
        ensures { RunsCall L.Lines (bound_called fun.now args) result machine.old self.old machine.new self.new }
    {
        let mut fuel = self.fuel;
        let done = machine.call(self, fun, args, &mut fuel);
        self.fuel = fuel;
        let stopped = match done {
            Ok(ran) => return Ok(ran),
            Err(stopped) => stopped,
        };
        match stopped {
            Stopped::Host(_) => Err(self.stopped.unwrap_or(NoLine::OutOfMemory)),
            Stopped::OutOfMemory => Err(self.wanting()),
        }
    }
}

// How much of a callback was done, whatever it gave or threw. Takes no memory.
pub(crate) fn did_of(ran: &Ran) -> Did
    ensures { result ≡ did_of ran.now }
{
    match ran {
        Ran::Value(_) | Ran::Throw(_) => Did::Finished,
        Ran::Fuel => Did::Fuel,
    }
}

// When a throw of a registration's callback is reported. Takes no memory.
fn when_reported<P: HostPort, M: Ledger>(state: &PageState<P, M>, r: u32) -> WhenReported
    ensures { when_seen result ≡ read_by (λ p. model.when_reported (the_registration p r).role) state.now }
{
    match state.the_registration(r) {
        Some(registration) => registration.role.when_reported(),
        None => WhenReported::BeforeCheckpoint,
    }
}

// A copy of the function that a registration calls: its second callback, or the first. It costs what the bound arguments weigh.
fn callback_copied<P: HostPort, M: Ledger>(
    state: &PageState<P, M>,
    r: u32,
    second: bool,
) -> Result<Option<Func>, MemoryFault>
    ensures { IfOk result (λ fun. option_map seen_func fun ≡ callback_read r second state.now) }
{
    let Some(fun) = state.callback_of(r, second) else {
        return Ok(None);
    };
    Ok(Some(Func {
        function: fun.function,
        bound: copy_items(state.alloc(), &fun.bound)?,
    }))
}
