//! The time of a page, its turns, what is current, and the messages that it posted.

ghost use Rattle.std.specs.Prelude.{◌≡◌, length, map, IfErr, OnOk};
ghost use Rattle.page_types.specs.Events.{EndLine};
ghost use Rattle.page_values.specs.Seen.{seen};
ghost use Rattle.page_notices.specs.Seen.{current};
ghost use Rattle.page_model.specs.State as model;
ghost use Rattle.page_model.specs.SchedulerTasks as scheduler;
ghost use Rattle.page_model.specs.Operations.{posted, posts_taken};
ghost use Rattle.page_model.specs.Turns.{at_time};
ghost use Rattle.page_model.specs.Invoke.{under};
ghost use Rattle.page_script.specs.Seen.{state_seen, post_seen};
ghost use Rattle.page_state.specs.PageActs.{changed_by, read_by, IsWanted};
ghost use Rattle.page_state.specs.Makes.{Makes, Writes};
ghost use Rattle.page_state.specs.JobActs.{turn_counted, wait_over};

use super::PageState;
use page_base::{End, Micros, Source};
use page_hosts::HostPort;
use page_script::{Post, SchedulingState};
use page_values::Value;
use std::sync::ledger::Ledger;
use trace_text::{Lines, NoLine};

impl<P: HostPort, M: Ledger> PageState<P, M> {
    /// The time now. Takes no memory.
    pub fn now(&self) -> Micros
        ensures { result.0 ≡ read_by (λ p. p.now) self.now }
    {
        self.script.now()
    }

    /// It is another time now. Takes no memory.
    pub fn at_time(&mut self, time: Micros)
        ensures { self.new ≡ changed_by (at_time time.0) self.old }
    {
        self.script.set_now(time);
    }

    /// How many turns have begun. Takes no memory.
    pub fn turns(&self) -> u64
        ensures { result ≡ read_by (λ p. p.turns) self.now }
    {
        self.script.turns()
    }

    /// One more turn begins with a task of this source, or with none: its line. Turns are counted from 1, and their numbers are
    /// below 2^64.
    pub fn begin_turn<L: Lines>(
        &mut self,
        source: Option<Source>,
        lines: &mut L,
    ) -> Result<(), NoLine>
        ensures { Makes L.Lines self.old lines.old (turn_counted source) result self.new lines.new }
    {
        if self.script.turns() == u64::MAX {
            return Err(NoLine::OutOfMemory);
        }
        self.script.begin_turn(source, lines)
    }

    /// A wait for a moment is over, and this is the time: its line, at that time.
    pub fn mark_wait<L: Lines>(
        &mut self,
        target: Micros,
        time: Micros,
        lines: &mut L,
    ) -> Result<(), NoLine>
        ensures { Makes L.Lines self.old lines.old (wait_over target.0 time.0) result self.new lines.new }
    {
        self.script.mark_wait(target, time, lines)
    }

    /// The run ends, with its line.
    pub fn finish<L: Lines>(&self, end: End, lines: &mut L) -> Result<(), NoLine>
        ensures { Writes L.Lines self.now lines.old (model.emit (EndLine end)) result lines.new }
    {
        self.script.finish(end, lines)
    }

    /// The nesting level that is current. Takes no memory.
    pub fn level(&self) -> u32
        ensures { result ≡ read_by (λ p. p.level) self.now }
    {
        self.script.level()
    }

    /// The number of the scheduling state that is current. Takes no memory.
    pub fn scheduling(&self) -> Option<u32>
        ensures { result ≡ read_by (λ p. p.scheduling) self.now }
    {
        self.script.scheduling()
    }

    /// The nesting level and the scheduling state that are current. Takes no memory.
    pub fn context(&self) -> (u32, Option<u32>)
        ensures { current result.0 result.1 ≡ read_by model.context self.now }
    {
        (self.script.level(), self.script.scheduling())
    }

    /// This nesting level is the current one. Takes no memory.
    pub fn set_level(&mut self, level: u32)
        ensures { self.new ≡ changed_by (λ p. record p { level = level }) self.old }
    {
        self.script.set_level(level);
    }

    /// This scheduling state is the current one. Takes no memory.
    pub fn set_scheduling(&mut self, state: Option<u32>)
        ensures { self.new ≡ changed_by (λ p. record p { scheduling = state }) self.old }
    {
        self.script.set_scheduling(state);
    }

    /// This nesting level and this scheduling state are the current ones. Takes no memory.
    pub fn under(&mut self, level: u32, state: Option<u32>)
        ensures { self.new ≡ changed_by (under (current level state)) self.old }
    {
        self.script.set_context(level, state);
    }

    /// Makes a scheduling state, which is the current one. Their numbers are below 2^32. The one error is want of memory.
    pub fn with_state(&mut self, state: SchedulingState) -> Result<(), NoLine>
        ensures made { OnOk result (self.new ≡ changed_by (scheduler.with_state (state_seen state)) self.old) }
        ensures memory { IfErr result (λ why. IsWanted why self.old self.new) }
    {
        if self.script.states_made() >= u32::MAX as usize {
            return Err(NoLine::OutOfMemory);
        }
        let Ok(_) = self.script.with_state(state) else {
            return Err(NoLine::OutOfMemory);
        };
        Ok(())
    }

    /// How many scheduling states were ever made. Takes no memory.
    pub fn states_made(&self) -> usize
        ensures { result ≡ read_by (λ p. length p.scheduling_states) self.now }
    {
        self.script.states_made()
    }

    /// The current scheduling state; with none, no abort source and fixed user-visible. Takes no memory.
    pub fn current_state(&self) -> SchedulingState
        ensures { state_seen result ≡ read_by scheduler.current_state self.now }
    {
        self.script.current_state()
    }

    /// Posts a message on a port, with its line (HTML, "Posting messages").
    pub fn posted<L: Lines>(&mut self, port: u32, value: Value, lines: &mut L) -> Result<(), NoLine>
        ensures { Makes L.Lines self.old lines.old (posted port (seen value)) result self.new lines.new }
    {
        if !self.script.is_numbered(&value) {
            return Err(NoLine::OutOfMemory);
        }
        self.script.post(port, value, lines)
    }

    /// Hands over the messages that were posted since the last call, the oldest first, and keeps none. Takes no memory.
    pub fn posts_taken(&mut self) -> Vec<Post>
        ensures list { map post_seen result.items ≡ read_by (λ p. p.posts) self.old }
        ensures taken { self.new ≡ changed_by posts_taken self.old }
    {
        self.script.take_posts()
    }
}
