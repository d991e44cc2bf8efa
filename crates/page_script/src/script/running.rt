//! The time of a page, its turns, and what is current.

ghost use Rattle.std.specs.Prelude.{◌≡◌, ◌+◌, ◌^◌, ◌<◌, suc};
ghost use Rattle.page_types.specs.Events.{EndLine};
ghost use Rattle.page_notices.specs.Seen.{current};
ghost use Rattle.page_model.specs.State as model;
ghost use Rattle.page_model.specs.Turns.{at_time};
ghost use Rattle.page_model.specs.Invoke.{under};
ghost use Rattle.page_script.specs.ScriptActs.{changed_by};
ghost use Rattle.page_script.specs.Calls.{Writes, turn_begun, wait_over};

use super::PageScript;
use page_base::{End, Micros, Source};
use trace_text::{Event, Lines, NoLine};

impl PageScript {
    /// The time now. Takes no memory.
    pub fn now(&self) -> Micros
        ensures { result.0 ≡ self.now.now }
    {
        self.moment.at
    }

    /// It is another time now. Takes no memory.
    pub fn set_now(&mut self, time: Micros)
        ensures { self.new ≡ changed_by (at_time time.0) self.old }
    {
        self.moment.at = time;
    }

    /// How many turns have begun. Takes no memory.
    pub fn turns(&self) -> u64
        ensures { result ≡ self.now.turns }
    {
        self.run.turns
    }

    /// One more turn, whose number has to be below 2^64, begins with a task of this source, or with none: its line.
    pub fn begin_turn<L: Lines>(
        &mut self,
        source: Option<Source>,
        lines: &mut L,
    ) -> Result<(), NoLine>
        requires { self.old.turns + 1 < 2 ^ 64 }
        ensures { Writes L.keeping L.seen self.old lines.old (turn_begun source) result self.new lines.new }
    {
        let n = self.count_turn();
        self.emit(Event::Turn { n, source }, lines)
    }

    /// A wait for a moment is over, and this is the time: its line, at that time.
    pub fn mark_wait<L: Lines>(
        &mut self,
        target: Micros,
        time: Micros,
        lines: &mut L,
    ) -> Result<(), NoLine>
        ensures { Writes L.keeping L.seen self.old lines.old (wait_over target.0 time.0) result self.new lines.new }
    {
        self.set_now(time);
        self.emit(Event::Wait { t: target }, lines)
    }

    /// The run ends, with its line.
    pub fn finish<L: Lines>(&self, end: End, lines: &mut L) -> Result<(), NoLine>
        ensures { Writes L.keeping L.seen self.now lines.old (model.emit (EndLine end)) result self.now lines.new }
    {
        self.emit(Event::End(end), lines)
    }

    /// The nesting level that is current. Takes no memory.
    pub fn level(&self) -> u32
        ensures { result ≡ self.now.level }
    {
        self.moment.level
    }

    /// The number of the scheduling state that is current. Takes no memory.
    pub fn scheduling(&self) -> Option<u32>
        ensures { result ≡ self.now.scheduling }
    {
        self.moment.state
    }

    /// This nesting level is the current one. Takes no memory.
    pub fn set_level(&mut self, level: u32)
        ensures { self.new ≡ changed_by (λ p. record p { level = level }) self.old }
    {
        self.moment.level = level;
    }

    /// This scheduling state is the current one. Takes no memory.
    pub fn set_scheduling(&mut self, state: Option<u32>)
        ensures { self.new ≡ changed_by (λ p. record p { scheduling = state }) self.old }
    {
        self.moment.state = state;
    }

    /// This nesting level and this scheduling state are the current ones. Takes no memory.
    pub fn set_context(&mut self, level: u32, state: Option<u32>)
        ensures { self.new ≡ changed_by (under (current level state)) self.old }
    {
        self.moment.level = level;
        self.moment.state = state;
    }

    // One more turn, by its number. Takes no memory.
    fn count_turn(&mut self) -> u64
        requires { self.old.turns + 1 < 2 ^ 64 }
        ensures number { result ≡ suc self.old.turns }
        ensures counted { self.new ≡ record self.old { turns = suc self.old.turns } }
    {
        self.run.turns += 1;
        self.run.turns
    }
}
