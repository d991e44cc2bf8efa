//! The tasks of timers (HTML, "Timers": timer initialisation steps).

ghost use Rattle.std.specs.Prelude.{◌≡◌, None};
ghost use Rattle.std.specs.Result.{result_err};
ghost use Rattle.page_tasks.specs.Seen.{timer_task};
ghost use Rattle.page_host.specs.Moments.{CanCall};
ghost use Rattle.page_host.specs.Doing.{Acts};
ghost use Rattle.page_host.specs.Tasking.{level_set, timer_over};
ghost use Rattle.page_host.specs.StepsOfTasks.{timer_run};
ghost use Rattle.page_host.specs.Running.{ActsOn, RunsWork};

use crate::pieces::noted;
use crate::{Did, Page};
use page_hosts::HostPort;
use page_interp::Machine;
use page_state::PageState;
use page_tasks::TimerTask;
use std::sync::ledger::Ledger;
use trace_text::{Lines, NoLine};

impl<P: HostPort, L: Lines, M: Ledger> Page<P, L, M> {
    // A timer's task: while its id is in the map with its handle, the callback is called at the nesting level of the task. After it an
    // interval is initialised again, and any other timer removes its id; neither where the callback took the id out of the map.
    pub(crate) fn run_timer(
        &mut self,
        machine: &mut Machine<'_>,
        task: TimerTask,
    ) -> Result<Did, NoLine>
        requires { CanCall machine.old self.old }
        ensures { RunsWork L.Lines (timer_run task) result machine.old self.old machine.new self.new }
    {
        self.set_level(task.level);
        if !self.state.is_live(task.id, task.handle) {
            return Ok(Did::Finished);
        }
        let none = Vec::new(self.state.alloc());
        match self.run_callback(machine, task.registration, none)? {
            Did::Finished => {
                self.timer_over(task)?;
                Ok(Did::Finished)
            }
            Did::Fuel => Ok(Did::Fuel),
        }
    }

    // This nesting level is the current one.
    fn set_level(&mut self, level: u32)
        requires { self.old.stopped ≡ None }
        ensures { Acts L.keeping L.seen (level_set level) None self.old self.new }
    {
        self.state.set_level(level);
    }

    // The callback of a timer is over.
    fn timer_over(&mut self, task: TimerTask) -> Result<(), NoLine>
        requires { self.old.stopped ≡ None }
        ensures { Acts L.keeping L.seen (timer_over (timer_task task)) (result_err result) self.old self.new }
    {
        let done = timer_over_in(&mut self.state, task, &mut self.lines);
        noted(done, &mut self.stopped, &mut self.stops)
    }
}

// An interval is initialised again, with its line, and any other timer removes its id, where the id is still in the map with the handle.
fn timer_over_in<P: HostPort, L: Lines, M: Ledger>(
    state: &mut PageState<P, M>,
    task: TimerTask,
    lines: &mut L,
) -> Result<(), NoLine>
    ensures { ActsOn L.Lines (timer_over (timer_task task)) result state.old lines.old state.new lines.new }
{
    if !state.is_live(task.id, task.handle) {
        return Ok(());
    }
    if task.repeats {
        return state.init_timer(
            Some(task.id),
            task.registration,
            task.repeats,
            task.timeout,
            lines,
        );
    }
    state.clear_id(task.id);
    Ok(())
}
