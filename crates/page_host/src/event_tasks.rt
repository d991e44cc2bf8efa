//! Events that tasks fire (DOM, "Dispatching events").

ghost use Rattle.std.specs.Prelude.{◌≡◌, ◌∷◌, [], None, map, IfOk, IsTrue};
ghost use Rattle.std.specs.Result.{result_err};
ghost use Rattle.page_values.specs.Seen.{seen};
ghost use Rattle.page_values.specs.Texts.{is_text};
ghost use Rattle.page_events.specs.Dispatching.{next_listening, behind_next};
ghost use Rattle.page_model.specs.State.{emit};
ghost use Rattle.trace_text.specs.EventSeen.{event_seen};
ghost use Rattle.page_state.specs.PageActs.{read_by};
ghost use Rattle.page_host.specs.Moments.{CanCall};
ghost use Rattle.page_host.specs.Doing.{Acts};
ghost use Rattle.page_host.specs.StepsOfCalls.{callback_run};
ghost use Rattle.page_host.specs.StepsOfTasks.{arrival_fired, fired, listeners_called};
ghost use Rattle.page_host.specs.Running.{RunsWork};

use crate::pieces::noted;
use crate::{Did, Page};
use page_hosts::HostPort;
use page_interp::Machine;
use page_signals::{Dispatch, Target};
use page_tasks::WindowEvent;
use page_values::{MemoryFault, Str, Value, copy};
use std::alloc::Global;
use std::sync::ledger::Ledger;
use trace_text::{Event, Lines, NoLine};

impl<P: HostPort, L: Lines, M: Ledger> Page<P, L, M> {
    // An event of an arrival is fired at the window, with its value.
    pub(crate) fn fire_at_window(
        &mut self,
        machine: &mut Machine<'_>,
        event: WindowEvent,
    ) -> Result<Did, NoLine>
        requires { CanCall machine.old self.old }
        ensures { RunsWork L.Lines (arrival_fired event) result machine.old self.old machine.new self.new }
    {
        let WindowEvent { name, value } = event;
        let Ok(args) = lone_argument(self.state.alloc(), value) else {
            return Err(self.wanting());
        };
        self.dispatch_in_task(machine, Target::Window, &name, &args)
    }

    // An event whose name is this text is fired.
    pub(crate) fn fire(
        &mut self,
        machine: &mut Machine<'_>,
        target: Target,
        name: &[u8],
        args: &[Value],
    ) -> Result<Did, NoLine>
        requires ready { CanCall machine.old self.old }
        requires text { IsTrue (is_text name.now) }
        ensures { RunsWork L.Lines (fired target name.now args.now) result machine.old self.old machine.new self.new }
    {
        let Ok(bytes) = Vec::from_slice(self.state.alloc(), name) else {
            return Err(self.wanting());
        };
        let name = Str::new(bytes);
        self.dispatch_in_task(machine, target, &name, args)
    }

    // An event is fired: the listeners as they are at its start are called in order, but those removed since. Each of them gets a copy
    // of the arguments.
    pub(crate) fn dispatch_in_task(
        &mut self,
        machine: &mut Machine<'_>,
        target: Target,
        name: &Str,
        args: &[Value],
    ) -> Result<Did, NoLine>
        requires { CanCall machine.old self.old }
        ensures { RunsWork L.Lines (fired target name.now args.now) result machine.old self.old machine.new self.new }
    {
        let Ok(left) = self.state.begin_dispatch(target, name) else {
            return Err(self.wanting());
        };
        self.call_listeners(machine, left, args)
    }

    // The listeners that are left are called in order, but those removed since.
    fn call_listeners(
        &mut self,
        machine: &mut Machine<'_>,
        left: Dispatch,
        args: &[Value],
    ) -> Result<Did, NoLine>
        requires { CanCall machine.old self.old }
        ensures { RunsWork L.Lines (listeners_called left args.now) result machine.old self.old machine.new self.new }
    {
        let mut left = left;
        'listeners: while let Some(r) = self.next_listener(&mut left) {
            match self.call_listener(machine, r, args)? {
                Did::Finished => {}
                Did::Fuel => return Ok(Did::Fuel),
            }
        }
        Ok(Did::Finished)
    }

    // The next listener of a dispatch that was not removed, none exactly where the dispatch is over. Takes no memory.
    fn next_listener(&self, left: &mut Dispatch) -> Option<u32>
        ensures registration { result ≡ read_by (λ p. next_listening p.listeners left.old) self.now.state }
        ensures left { left.new ≡ read_by (λ p. behind_next p.listeners left.old) self.now.state }
    {
        self.state.next_listener(left)
    }

    // A listener is called, whatever it gives or throws.
    fn call_listener(
        &mut self,
        machine: &mut Machine<'_>,
        r: u32,
        args: &[Value],
    ) -> Result<Did, NoLine>
        requires { CanCall machine.old self.old }
        ensures { RunsWork L.Lines (callback_run r args.now) result machine.old self.old machine.new self.new }
    {
        let Ok(given) = arguments_copied(self.state.alloc(), args) else {
            return Err(self.wanting());
        };
        self.run_callback(machine, r, given)
    }

    // The line of an event is given.
    pub(crate) fn event_told(&mut self, event: Event) -> Result<(), NoLine>
        requires { self.old.stopped ≡ None }
        ensures { Acts L.keeping L.seen (emit (event_seen event)) (result_err result) self.old self.new }
    {
        let done = self.state.emit(event, &mut self.lines);
        noted(done, &mut self.stopped, &mut self.stops)
    }
}

// The arguments of a callback that gets one.
pub(crate) fn lone_argument(alloc: Global, value: Value) -> Result<Vec<Value>, MemoryFault>
    ensures { IfOk result (λ args. map seen args.items ≡ seen value ∷ []) }
{
    let mut args = Vec::new(alloc);
    args.push(value)?;
    Ok(args)
}

// A copy of each argument. It costs what they weigh.
fn arguments_copied(alloc: Global, args: &[Value]) -> Result<Vec<Value>, MemoryFault>
    ensures { IfOk result (λ given. given.items ≡ args.now) }
{
    let mut given = Vec::new(alloc);
    given.reserve(args.len())?;
    for value in args {
        given.push(copy(alloc, value)?)?;
    }
    Ok(given)
}
