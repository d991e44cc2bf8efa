//! The time of a page and its fuel, and how a turn begins and a run ends (HTML, "Event loops: processing model").

ghost use Rattle.std.specs.Prelude.{◌≡◌, ◌↔◌, ◌≤◌, ◌+◌, IsTrue, None};
ghost use Rattle.page_types.specs.Events.{Wait};
ghost use Rattle.page_model.specs.State.{emit};
ghost use Rattle.page_model.specs.Turns.{at_time};
ghost use Rattle.page_state.specs.PageActs.{changed_by, on_page, read_by};
ghost use Rattle.page_host.specs.Stops.{KeepsSetting, PageDoes, Stops};
ghost use Rattle.page_host.specs.Turning.{run_ended, time_up};
ghost use Rattle.page_state.specs.JobActs.{turn_counted};

use crate::stopping::or_stop;
use crate::{Page, PageStop};
use page_base::{End, Micros, Source};
use page_hosts::HostPort;
use std::sync::ledger::Ledger;
use trace_text::{Event, Lines};

impl<P: HostPort, L: Lines, M: Ledger> Page<P, L, M> {
    /// The time now. Takes no memory, and costs one read.
    pub fn now(&self) -> Micros
        ensures { result.0 ≡ read_by (λ p. p.now) self.now.state }
    {
        self.state.now()
    }

    /// It is another time now, which is not before the time that it was. Takes no memory, and costs one write.
    pub fn set_now(&mut self, to: Micros)
        requires { read_by (λ p. p.now) self.old.state ≤ to.0 }
        ensures { self.new ≡ record self.old { state = changed_by (at_time to.0) self.old.state } }
    {
        self.state.at_time(to);
    }

    /// Whether a unit of fuel is left. Takes no memory, and costs one read.
    pub fn has_fuel(&self) -> bool
        ensures { IsTrue result ↔ (1 ≤ self.now.fuel) }
    {
        self.fuel > 0
    }

    /// How many turns have begun. Takes no memory, and costs one read.
    pub fn turns(&self) -> u64
        ensures { result ≡ read_by (λ p. p.turns) self.now.state }
    {
        self.state.turns()
    }

    /// One more turn begins with a task of this source, or with none: it takes a unit of fuel, is counted, and writes its line.
    ///
    /// It is also out of memory where 2^64 - 1 turns have begun, which no fuel allows. It costs its line.
    pub fn begin_turn(&mut self, source: Option<Source>) -> Result<(), PageStop>
        requires running { self.old.stopped ≡ None }
        requires fuel { 1 ≤ self.old.fuel }
        ensures does { PageDoes L.keeping L.seen self.old (on_page (turn_counted source)) result self.new }
        ensures stops { Stops L.seen self.old result self.new }
        ensures fuel { self.new.fuel + 1 ≡ self.old.fuel }
        ensures same { KeepsSetting self.old self.new }
    {
        self.fuel -= 1;
        let done = self.state.begin_turn(source, &mut self.lines);
        or_stop(done, &mut self.stopped, &mut self.stops)
    }

    /// A wait for a moment is over: its line, at the time now. It costs its line.
    pub fn mark_wait(&mut self, target: Micros) -> Result<(), PageStop>
        requires running { self.old.stopped ≡ None }
        ensures does { PageDoes L.keeping L.seen self.old (on_page (emit (Wait target.0))) result self.new }
        ensures stops { Stops L.seen self.old result self.new }
        ensures fuel { self.new.fuel ≡ self.old.fuel }
        ensures same { KeepsSetting self.old self.new }
    {
        let done = self.state.emit(Event::Wait { t: target }, &mut self.lines);
        or_stop(done, &mut self.stopped, &mut self.stops)
    }

    /// The run ends, with its line. Where it ends by the clock, the time becomes `until` first, unless it is later. It costs its line.
    pub fn finish(&mut self, end: End) -> Result<(), PageStop>
        requires running { self.old.stopped ≡ None }
        ensures does { PageDoes L.keeping L.seen self.old (on_page (run_ended self.old.until end)) result self.new }
        ensures stops { Stops L.seen self.old result self.new }
        ensures fuel { self.new.fuel ≡ self.old.fuel }
        ensures same { KeepsSetting self.old self.new }
    {
        self.pass_to_end(end);
        let done = self.state.finish(end, &mut self.lines);
        or_stop(done, &mut self.stopped, &mut self.stops)
    }

    // The time at the end of the run.
    fn pass_to_end(&mut self, end: End)
        ensures { self.new ≡ record self.old { state = changed_by (time_up self.old.until end) self.old.state } }
    {
        if end == End::Clock && self.state.now() < self.until {
            self.state.at_time(self.until);
        }
    }
}
