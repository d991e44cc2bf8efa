//! Calls from outside of the script.

ghost use Rattle.std.specs.Prelude.{◌≡◌, ◌≤◌, IfOk, map};
ghost use Rattle.page_values.specs.Seen.{seen};
ghost use Rattle.lang_ast.specs.SeenProgram.{seen_program};
ghost use Rattle.page_interp.specs.Machines.{ran_left, bound_args};
ghost use Rattle.page_interp.specs.Runs.{value_left, as_called};

use crate::code::Code;
use crate::exit::{Exit, Store};
use crate::machine::{Machine, Ran, Stopped};
use crate::stepping::run_function;
use crate::values::joined;
use crate::variables::locals_for;
use lang_ast::{Host, Program};
use page_values::{Func, MemoryFault, Value, copy_items};
use std::alloc::Global;

impl<'p> Machine<'p> {
    ghost use Rattle.page_values.specs.Written.{AreNumbered};
    ghost use Rattle.lang_ast.specs.Steps.{AllNumbered};
    ghost use Rattle.lang_meaning.specs.Evaluation.{first_globals};
    ghost use Rattle.page_interp.specs.Runs.{IsDry, LeftIsNumbered};
    ghost use Rattle.page_interp.specs.Machines.{functions_in, Stands, Refuses, UsesTickets, CallMeans};

    /// The machine of a script. Its global variables are unit.
    pub fn new(alloc: Global, program: &'p Program) -> Result<Machine<'p>, MemoryFault>
        ensures script { IfOk result (λ m. m.script ≡ program.now) }
        ensures globals { IfOk result (λ m. m.globals ≡ first_globals (seen_program program.now)) }
    {
        let code = Code::new(alloc, program)?;
        let globals = locals_for(0, code.globals(), Vec::new(alloc))?;
        let store = Store { globals, fuel: 0 };
        Ok(Machine { code, store })
    }

    /// Calls a function, or the script's own body, where no call is open: it gets the arguments
    /// that are bound to it, and then the given ones. What the host asks to be called back is
    /// called in that place, and the host is resumed with what comes of it.
    ///
    /// `fuel` is what is left of it before and after. The host has the script's functions, and room
    /// for as many calls of `busy` as there are units. A call that would be the 257th open one
    /// throws RangeError and takes no unit. `Fuel` comes only where no unit is left.
    ///
    /// After an `Err` the host has been asked what the script asks of it, in order, up to one of
    /// its asks: that ask was refused, or it was the last one before memory was wanting.
    pub fn call<H: Host>(
        &mut self,
        host: &mut H,
        fun: &Func,
        args: Vec<Value>,
        fuel: &mut u64,
    ) -> Result<Ran, Stopped<H::Stop>>
        requires functions { (H.now host.old).functions ≡ functions_in self.old }
        requires room { fuel.old ≤ (H.now host.old).room }
        requires bound { AreNumbered (functions_in self.old) fun.now.bound }
        requires args { AllNumbered (functions_in self.old) (map seen args.items) }
        ensures meaning { CallMeans H.rules H.now self.old fuel.old host.old fun.now args result
            self.new fuel.new host.new }
        ensures stands { Stands H.rules H.leaves self.old fuel.old (H.now host.old) fun.now args
            result (H.now host.new) }
        ensures refusals { Refuses result (H.now host.old) (H.now host.new) }
        ensures tickets { UsesTickets result (H.now host.old) (H.now host.new) }
        ensures numbered { LeftIsNumbered (functions_in self.old) (ran_left result) }
        ensures program { self.new.script ≡ self.old.script }
        ensures functions { (H.now host.new).functions ≡ (H.now host.old).functions }
        ensures fuel { fuel.new ≤ fuel.old }
        ensures no_fuel { IsDry (ran_left result) fuel.new }
        ensures room { fuel.new ≤ (H.now host.new).room }
    {
        let all = match bound_first(self.code.alloc(), fun, args) {
            Ok(all) => all,
            Err(_) => return Err(Stopped::OutOfMemory),
        };
        self.store.fuel = *fuel;
        let done = run_function(&self.code, host, &mut self.store, fun.function, all);
        *fuel = self.store.fuel;
        call_end(done)
    }
}

/// The arguments that are bound to a function, and then the given ones.
fn bound_first(alloc: Global, fun: &Func, args: Vec<Value>) -> Result<Vec<Value>, MemoryFault>
    ensures { IfOk result (λ all. map seen all.items ≡ bound_args fun.now args) }
{
    let bound = copy_items(alloc, &fun.bound)?;
    Ok(joined(bound, args)?)
}

/// How a call ended. No call ends in a `return` of its caller.
fn call_end<S: Drop>(done: Result<Value, Exit<S>>) -> Result<Ran, Stopped<S>>
    ensures { ran_left result ≡ as_called (value_left done) }
{
    match done {
        Ok(v) => Ok(Ran::Value(v)),
        Err(Exit::Throw(v)) => Ok(Ran::Throw(v)),
        Err(Exit::Return(v)) => Ok(Ran::Value(v)),
        Err(Exit::Fuel) => Ok(Ran::Fuel),
        Err(Exit::Host(stop)) => Err(Stopped::Host(stop)),
        Err(Exit::OutOfMemory) => Err(Stopped::OutOfMemory),
    }
}
