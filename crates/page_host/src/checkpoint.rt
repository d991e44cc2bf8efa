//! The microtask checkpoint of a page (HTML, "Event loops: processing model": perform a microtask checkpoint).

ghost use Rattle.std.specs.Prelude.{◌≡◌, ◌≢◌, ◌<◌, ◌≤◌, ◌-◌, IfErr, IfOk};
ghost use Rattle.page_model.specs.Invoke as model;
ghost use Rattle.page_state.specs.Standing.{port_of};
ghost use Rattle.page_host.specs.Moments.{CanCall, SamePort};
ghost use Rattle.page_host.specs.Doing.{run_next, IfFinished, IsDried};
ghost use Rattle.page_host.specs.Stops.{fault_of};
ghost use Rattle.page_host.specs.StepsOfCalls.{jobs_run, oldest_run};
ghost use Rattle.page_host.specs.Running.{RunsCall, RunsWork, StepsWork};
ghost use Rattle.page_host.specs.declared.stop.PageStop.TheVariants.{NoHost};

use crate::callbacks::did_of;
use crate::stop::stop_for;
use crate::{Did, Page, PageStop};
use page_hosts::HostPort;
use page_interp::{Machine, Ran};
use page_values::Value;
use std::sync::ledger::Ledger;
use trace_text::{Lines, NoLine};

impl<P: HostPort, L: Lines, M: Ledger> Page<P, L, M> {
    /// Performs a microtask checkpoint: each job takes a unit of fuel and runs, the oldest first, until there is none, and then promises
    /// that were rejected and have no handler are noted for a task that notifies about them. While a checkpoint is being performed
    /// another one does nothing.
    ///
    /// `Fuel` comes only where no unit of fuel is left. It never ends with `NoHost`.
    pub fn checkpoint(&mut self, machine: &mut Machine<'_>) -> Result<Did, PageStop>
        requires { CanCall machine.old self.old }
        ensures steps { StepsWork L.Lines model.checkpoint result machine.old self.old machine.new self.new }
        ensures ready { IfFinished result (CanCall machine.new self.new) }
        ensures port { IfOk result (λ did. SamePort self.old self.new) }
        ensures left { port_of self.new.state ≡ port_of self.old.state }
        ensures program { machine.new.script ≡ machine.old.script }
        ensures fuel { self.new.fuel ≤ self.old.fuel }
        ensures dry { IfOk result (λ did. IsDried did self.new.fuel) }
        ensures stop { self.new.stopped ≡ fault_of result }
        ensures no_host { IfErr result (λ stop. stop ≢ NoHost) }
    {
        match self.perform_checkpoint(machine) {
            Ok(did) => Ok(did),
            Err(why) => Err(stop_for(why)),
        }
    }

    // The same, with the reason of a stop.
    pub(crate) fn perform_checkpoint(&mut self, machine: &mut Machine<'_>) -> Result<Did, NoLine>
        requires { CanCall machine.old self.old }
        ensures { RunsWork L.Lines model.checkpoint result machine.old self.old machine.new self.new }
    {
        if self.state.is_performing() {
            return Ok(Did::Finished);
        }
        self.run_checkpoint(machine)
    }

    // A checkpoint is performed.
    fn run_checkpoint(&mut self, machine: &mut Machine<'_>) -> Result<Did, NoLine>
        requires { CanCall machine.old self.old }
        ensures { RunsWork L.Lines model.perform_checkpoint result machine.old self.old machine.new self.new }
    {
        let (level, state) = self.state.context();
        self.checkpoint_begun();
        match self.run_jobs(machine)? {
            Did::Finished => {
                self.checkpoint_ended(level, state)?;
                Ok(Did::Finished)
            }
            Did::Fuel => Ok(Did::Fuel),
        }
    }

    // The oldest job runs until there is none, a unit of fuel for each.
    fn run_jobs(&mut self, machine: &mut Machine<'_>) -> Result<Did, NoLine>
        requires { CanCall machine.old self.old }
        ensures { RunsWork L.Lines jobs_run result machine.old self.old machine.new self.new }
    {
        'jobs: while self.state.has_job() {
            if self.fuel == 0 {
                return Ok(Did::Fuel);
            }
            match self.run_one_job(machine)? {
                Did::Finished => {}
                Did::Fuel => return Ok(Did::Fuel),
            }
        }
        Ok(Did::Finished)
    }

    // The same of one job, whatever it gives or throws.
    fn run_one_job(&mut self, machine: &mut Machine<'_>) -> Result<Did, NoLine>
        requires ready { CanCall machine.old self.old }
        requires fuel { 0 < self.old.fuel }
        ensures runs { RunsWork L.Lines oldest_run result machine.old self.old machine.new self.new }
        ensures taken { self.new.fuel < self.old.fuel }
    {
        let ran = self.run_oldest(machine)?;
        Ok(did_of(&ran))
    }

    // The oldest job takes a unit of fuel and runs.
    fn run_oldest(&mut self, machine: &mut Machine<'_>) -> Result<Ran, NoLine>
        requires ready { CanCall machine.old self.old }
        requires fuel { 0 < self.old.fuel }
        ensures runs { RunsCall L.Lines run_next result machine.old self.old machine.new self.new }
        ensures taken { self.new.fuel < self.old.fuel }
    {
        self.take_unit();
        match self.next_job()? {
            Some(job) => self.run_job(machine, job.todo),
            None => Ok(Ran::Value(Value::Unit)),
        }
    }
    // A unit of fuel is taken.
    fn take_unit(&mut self)
        requires { 0 < self.old.fuel }
        ensures { self.new ≡ record self.old { fuel = self.old.fuel - 1 } }
    {
        self.fuel -= 1;
    }
}
