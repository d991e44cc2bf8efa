ghost use Rattle.std.specs.Prelude.{◌≡◌, ◌<◌, IfErr, OnOk};
ghost use Rattle.page_model.specs.State as model;
ghost use Rattle.page_model.specs.PageTime as model_time;
ghost use Rattle.page_model.specs.Invoke as model_invoke;
ghost use Rattle.trace_text.specs.EventSeen.{event_seen};
ghost use Rattle.page_tasks.specs.Seen.{steps_of};
ghost use Rattle.page_state.specs.PageActs.{changed_by, IsWanted};
ghost use Rattle.page_types.specs.declared.Source.TheVariants.{Sched};
ghost use Rattle.std.specs.Prelude.{◌≢◌};
ghost use Rattle.page_state.specs.Makes.{Makes};

mod aborts;
mod callbacks;
mod combinators;
mod combined;
mod first;
mod folds;
mod frames;
mod handlers;
mod hosts;
mod idle;
mod jobs;
mod listeners;
mod marks;
mod parallel;
mod promises;
mod running;
mod signals;
mod tasks;
mod timers;

pub use folds::NextCallback;
use indexmap::IndexMap;
use page_base::{Micros, Source};
use page_frames::PageFrames;
use page_hosts::{HostPort, PageHosts};
use page_script::PageScript;
use page_signals::PageSignals;
use page_tasks::{PageTasks, TaskSteps};
use page_values::FunNames;
use parallel_items::{Completion, ParallelItems};
use std::alloc::Global;
use std::marker::Model;
use std::sync::ledger::Ledger;
use trace_text::{Event, Lines, NoLine};

/// All that a page keeps besides the lines that it writes and the fuel of its script.
#[derive(Drop)]
pub struct PageState<P: HostPort, M: Ledger> {
    alloc: Global,
    script: PageScript,
    tasks: PageTasks<M>,
    items: ParallelItems,
    frames: PageFrames,
    signals: PageSignals,
    hosts: PageHosts<P>,
    latencies: IndexMap<u32, Micros>,
    // How many tasks in all, from the first number on, are sure to find memory in the pool.
    room: usize,
}

impl<P: HostPort, M: Ledger> Model for PageState<P, M> {
    ghost use Rattle.std.specs.Prelude.{map};
    ghost use Rattle.page_state.specs.Standing.{Standing};
    ghost use Rattle.page_state.specs.Codes.{coded_standing};
    ghost use Rattle.page_state.specs.Seen.{latency_seen};

    ghost Value = { Standing };

    ghost coded = { coded_standing };

    ghost view = { λ a. record {
      script = a.script;
      tasks = record { tasks = a.tasks.tasks; sched_tasks = a.tasks.sched_tasks; tasks_made = a.tasks.tasks_made };
      waiting = a.items.waiting;
      frames = a.frames;
      signals = record { signals = a.signals.signals; prios = a.signals.prios; listeners = a.signals.listeners };
      hosts = a.hosts.closures;
      latencies = map latency_seen a.latencies.entries;
      folds = a.signals.folds;
      at_port = a.hosts.at_port;
      kept = a.hosts.kept;
      refusals = a.hosts.refusals;
      room = a.room;
    } };

    ghost use Rattle.page_state.specs.Selecting.{AreSelectedBy};
    ghost use Rattle.page_state.specs.Pooled.{HasRoom};

    ghost invariant = { λ a. AreSelectedBy a.signals.prios a.tasks.priorities × HasRoom a.room a.tasks };
}

impl<P: HostPort, M: Ledger> PageState<P, M> {
    /// The allocator. Takes no memory.
    pub fn alloc(&self) -> Global {
        self.alloc
    }

    /// The names of the script's functions. Takes no memory.
    pub fn names(&self) -> &FunNames
        ensures { result.now ≡ self.now.script.names }
    {
        self.script.names()
    }

    /// Writes the line of an event, at the time now.
    pub fn emit<L: Lines>(&self, event: Event, lines: &mut L) -> Result<(), NoLine>
        ensures { Makes L.Lines self.now lines.old (model.emit (event_seen event)) result self.now lines.new }
    {
        self.script.emit(event, lines)
    }

    /// The call of a registration's callback begins, with its line.
    pub fn call_begun<L: Lines>(&mut self, r: u32, lines: &mut L) -> Result<(), NoLine>
        ensures { Makes L.Lines self.old lines.old (model_invoke.call_begun r) result self.new lines.new }
    {
        self.script.call_begun(r, lines)
    }

    /// Queues a task, with the next number.
    pub fn queue(&mut self, source: Source, steps: TaskSteps) -> Result<(), NoLine>
        requires { source ≢ Sched }
        ensures queued { OnOk result (self.new ≡ changed_by (model.queue_task source (steps_of steps)) self.old) }
        ensures memory { IfErr result (λ why. IsWanted why self.old self.new) }
    {
        if self.tasks.made() == u64::MAX {
            return Err(NoLine::OutOfMemory);
        }
        let Ok(steps) = Box::new(self.alloc, steps) else {
            return Err(NoLine::OutOfMemory);
        };
        match self.tasks.queue(source, steps) {
            Ok(()) => Ok(()),
            Err(_) => Err(NoLine::OutOfMemory),
        }
    }

    /// `clearTimeout()` and `clearInterval()`: the id leaves the map.
    pub fn clear_id(&mut self, id: u32)
        ensures { self.new ≡ changed_by (model_time.clear_id id) self.old }
    {
        self.items.clear(id);
    }
}
