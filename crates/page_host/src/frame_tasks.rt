//! The task of a frame (HTML, "Animation frames": run the animation frame callbacks).

ghost use Rattle.std.specs.Prelude.{◌≡◌, ◌∷◌, [], None, map, pos, IfOk};
ghost use Rattle.std.specs.Result.{result_err};
ghost use Rattle.page_types.specs.Values.{IntValue};
ghost use Rattle.page_types.specs.Events.{Frame};
ghost use Rattle.page_values.specs.Seen.{seen};
ghost use Rattle.page_frames.specs.Fields.{fields_of};
ghost use Rattle.page_frames.specs.Steps.{frame_registration};
ghost use Rattle.page_model.specs.State.{emit};
ghost use Rattle.page_model.specs.PageTime.{without_frame};
ghost use Rattle.page_state.specs.PageActs.{read_by};
ghost use Rattle.page_host.specs.Moments.{CanCall};
ghost use Rattle.page_host.specs.Doing.{Acts};
ghost use Rattle.page_host.specs.StepsOfTasks.{frame_run, key_visited, keys_visited};
ghost use Rattle.page_host.specs.Running.{RunsWork};

use crate::pieces::noted;
use crate::{Did, Page};
use page_base::Micros;
use page_hosts::HostPort;
use page_interp::Machine;
use page_values::{MemoryFault, Value};
use std::alloc::Global;
use std::sync::ledger::Ledger;
use trace_text::{Event, Lines, NoLine};

impl<P: HostPort, L: Lines, M: Ledger> Page<P, L, M> {
    // A frame: its line, and then each callback that is in the map at its start, in order: where it is still in the map it is taken out
    // and called with the timestamp.
    pub(crate) fn run_frame(
        &mut self,
        machine: &mut Machine<'_>,
        time: Micros,
    ) -> Result<Did, NoLine>
        requires { CanCall machine.old self.old }
        ensures { RunsWork L.Lines (frame_run time.0) result machine.old self.old machine.new self.new }
    {
        let Ok(keys) = self.state.frame_keys() else {
            return Err(self.wanting());
        };
        self.frame_told(time)?;
        self.visit_keys(machine, time, &keys)
    }

    // Keys of the map are visited, one after another.
    fn visit_keys(
        &mut self,
        machine: &mut Machine<'_>,
        time: Micros,
        keys: &[u32],
    ) -> Result<Did, NoLine>
        requires { CanCall machine.old self.old }
        ensures { RunsWork L.Lines (keys_visited time.0 keys.now) result machine.old self.old machine.new self.new }
    {
        for key in keys {
            match self.visit_key(machine, time, *key)? {
                Did::Finished => {}
                Did::Fuel => return Ok(Did::Fuel),
            }
        }
        Ok(Did::Finished)
    }

    // The callback of a key, where it is still in the map, is taken out and called with the timestamp, whatever it gives or throws.
    fn visit_key(
        &mut self,
        machine: &mut Machine<'_>,
        time: Micros,
        key: u32,
    ) -> Result<Did, NoLine>
        requires { CanCall machine.old self.old }
        ensures { RunsWork L.Lines (key_visited time.0 key) result machine.old self.old machine.new self.new }
    {
        let Some(r) = self.take_frame(key) else {
            return Ok(Did::Finished);
        };
        let Ok(args) = timestamp(self.state.alloc(), time) else {
            return Err(self.wanting());
        };
        self.run_callback(machine, r, args)
    }

    // The line of a frame is given.
    fn frame_told(&mut self, time: Micros) -> Result<(), NoLine>
        requires { self.old.stopped ≡ None }
        ensures { Acts L.keeping L.seen (emit (Frame time.0)) (result_err result) self.old self.new }
    {
        let done = self.state.emit(Event::Frame { t: time }, &mut self.lines);
        noted(done, &mut self.stopped, &mut self.stops)
    }

    // The frame callback of a key leaves the map, and its registration is answered. None exactly where it is not in the map.
    fn take_frame(&mut self, key: u32) -> Option<u32>
        requires { self.old.stopped ≡ None }
        ensures registration { result ≡ read_by (λ p. frame_registration key (fields_of p)) self.old.state }
        ensures gone { Acts L.keeping L.seen (without_frame key) None self.old self.new }
    {
        self.state.take_frame(key)
    }
}

// What a frame callback gets: the timestamp. Want of memory is told also where it is 2^63 or more, which no time of a run is.
fn timestamp(alloc: Global, time: Micros) -> Result<Vec<Value>, MemoryFault>
    ensures { IfOk result (λ args. map seen args.items ≡ IntValue (pos time.0) ∷ []) }
{
    let Ok(number) = i64::try_from(time.0) else {
        return Err(MemoryFault::OutOfMemory);
    };
    let mut args = Vec::new(alloc);
    args.push(Value::Int(number))?;
    Ok(args)
}
