//! The steps of a turn besides its task: what goes on in parallel, what is waited for, and the idle step (HTML, "Event loops: processing
//! model").

ghost use Rattle.std.specs.Prelude.{◌≡◌, ◌≤◌, IfErr, IfOk, true, None};
ghost use Rattle.std.specs.Option.{option_map};
ghost use Rattle.loop_policy.specs.Views.{runnables};
ghost use Rattle.page_parts.specs.Words.{is_empty};
ghost use Rattle.page_model.specs.PageTime as time;
ghost use Rattle.page_model.specs.Parallel as items;
ghost use Rattle.page_model.specs.Turns as model;
ghost use Rattle.page_model.specs.View as seeing;
ghost use Rattle.page_state.specs.PageActs.{on_page, read_by};
ghost use Rattle.page_state.specs.Pooled.{HoldsTasks, spare_of};
ghost use Rattle.page_host.specs.Stops.{KeepsSetting, PageDoes, Stops};
ghost use Rattle.page_host.specs.Turning.{AwaitsPending, no_task_runs};
ghost use Rattle.page_host.specs.declared.stop.PageStop.TheVariants.{OutOfMemory};

use crate::stopping::or_stop;
use crate::{Page, PageStop};
use loop_policy::View;
use page_base::Micros;
use page_hosts::HostPort;
use page_tasks::{PageTask, Pool};
use std::sync::ledger::Ledger;
use trace_text::Lines;

impl<P: HostPort, L: Lines, M: Ledger> Page<P, L, M> {
    /// Takes the parallel items that are due, one after another in the order of their due times, each with its lines.
    ///
    /// It costs the sum of what the items that it takes cost: for each a logarithm of those that wait, and its lines.
    pub fn parallel(&mut self) -> Result<(), PageStop>
        requires running { self.old.stopped ≡ None }
        ensures does { PageDoes L.keeping L.seen self.old (on_page items.parallel) result self.new }
        ensures stops { Stops L.seen self.old result self.new }
        ensures fuel { self.new.fuel ≡ self.old.fuel }
        ensures same { KeepsSetting self.old self.new }
    {
        let done = self.state.parallel(&mut self.lines);
        or_stop(done, &mut self.stopped, &mut self.stops)
    }

    /// The idle step of a turn: the last idle period start is now, and an idle period starts, unless its start is delayed
    /// (requestIdleCallback, "Start an idle period algorithm").
    ///
    /// It is also out of memory where the time is 2^63 or more. It costs its line and some reads and writes, however many
    /// callbacks become runnable.
    pub fn idle_step(&mut self) -> Result<(), PageStop>
        requires running { self.old.stopped ≡ None }
        ensures does { PageDoes L.keeping L.seen self.old (on_page time.idle_step) result self.new }
        ensures stops { Stops L.seen self.old result self.new }
        ensures fuel { self.new.fuel ≡ self.old.fuel }
        ensures same { KeepsSetting self.old self.new }
    {
        let done = self.state.idle_step(&mut self.lines);
        or_stop(done, &mut self.stopped, &mut self.stops)
    }

    /// What a chooser sees of the page: the first runnable task of each source. Takes no memory, and costs a logarithm of the signals that
    /// have a priority.
    pub fn view(&self) -> View
        ensures { runnables result ≡ read_by seeing.view self.now.state }
    {
        View {
            first: self.state.first_numbers(),
        }
    }

    /// Whether no task is runnable. Takes no memory, and costs some reads.
    pub fn has_no_task(&self) -> bool
        ensures { result ≡ read_by (λ p. is_empty (seeing.view p)) self.now.state }
    {
        self.state.has_no_task()
    }

    /// Whether anything is pending: an active timer, an idle timeout, a host's answer, an arrival, a frame callback or an idle callback.
    /// Takes no memory, and costs some reads.
    pub fn is_pending(&self) -> bool
        ensures { result ≡ read_by model.is_pending self.now.state }
    {
        self.state.is_pending()
    }

    /// The moment for which a turn with no runnable task waits: the least of the next due time, the next rendering opportunity and the
    /// idle moment. Where no task is runnable there is none exactly where nothing is pending.
    ///
    /// The one error is want of memory, which is told where the time is 2^63 or more and leaves the page as it was. It takes no memory,
    /// and costs some reads.
    pub fn target(&self) -> Result<Option<Micros>, PageStop>
        ensures moment { IfOk result (λ moment. option_map (λ m. m.0) moment ≡ read_by model.target self.now.state) }
        ensures pending { no_task_runs self.now.state ≡ true → IfOk result (AwaitsPending self.now.state) }
        ensures memory { IfErr result (λ stop. stop ≡ OutOfMemory) }
    {
        match self.state.target() {
            Ok(moment) => Ok(moment),
            Err(_) => Err(PageStop::OutOfMemory),
        }
    }

    /// The pool that the queued tasks stand in: its lists hold exactly these, each once, under its number and with its content, and as many
    /// more as are sure to find memory do so in it. Takes no memory, and costs one read.
    pub fn pool(&self) -> &Pool<PageTask>
        ensures held { HoldsTasks result.now self.now.state.tasks }
        ensures spare { spare_of self.now.state ≤ result.now.spare }
    {
        self.state.pool()
    }
}
