//! The scheduling states of a page, and the messages that it posted.

ghost use Rattle.std.specs.Prelude.{◌≡◌, ◌+◌, ◌^◌, ◌<◌, length, map, IfOk, IfErr, OnOk, OnErr};
ghost use Rattle.page_parts.specs.Words.{numbered};
ghost use Rattle.page_values.specs.Seen.{seen};
ghost use Rattle.page_values.specs.Written.{IsNumbered};
ghost use Rattle.page_model.specs.SchedulerTasks as model;
ghost use Rattle.page_model.specs.Operations.{posted, posts_taken};
ghost use Rattle.trace_text.specs.declared.lines.NoLine.TheVariants.{OutOfMemory};
ghost use Rattle.page_script.specs.ScriptActs.{changed_by, read_by};
ghost use Rattle.page_script.specs.Seen.{state_seen, post_seen};
ghost use Rattle.page_script.specs.Calls.{Writes, with_post};

use super::PageScript;
use crate::parts::{Post, SchedulingState};
use page_values::{MemoryFault, Value};
use post_task::{PrioSource, Priority};
use std::mem;
use trace_text::{Event, Lines, NoLine};

// With no current scheduling state there is no abort source, and the priority is fixed user-visible.
const NO_STATE: SchedulingState = SchedulingState {
    abort_source: None,
    prio_source: PrioSource::Fixed(Priority::UserVisible),
};

impl PageScript {
    /// Makes a scheduling state, which is the current one, and answers its number, which has to be below 2^32. For want of
    /// memory nothing changes.
    pub fn with_state(&mut self, state: SchedulingState) -> Result<u32, MemoryFault>
        requires { length self.old.scheduling_states + 1 < 2 ^ 32 }
        ensures number { IfOk result (λ n. n ≡ length self.old.scheduling_states + 1) }
        ensures made { OnOk result (self.new ≡ changed_by (model.with_state (state_seen state)) self.old) }
        ensures err { OnErr result (self.new ≡ self.old) }
    {
        self.states.push(state)?;
        let n = self.states.len() as u32;
        self.moment.state = Some(n);
        Ok(n)
    }

    /// How many scheduling states were ever made. Takes no memory.
    pub fn states_made(&self) -> usize
        ensures { result ≡ length self.now.scheduling_states }
    {
        self.states.len()
    }

    /// The current scheduling state; with none, no abort source and fixed user-visible. Takes no memory.
    pub fn current_state(&self) -> SchedulingState
        ensures { state_seen result ≡ read_by model.current_state self.now }
    {
        match self.moment.state {
            Some(n) => state_at(&self.states, n),
            None => NO_STATE,
        }
    }

    /// Posts a message on a port, with its line (HTML, "Posting messages").
    pub fn post<L: Lines>(&mut self, port: u32, value: Value, lines: &mut L) -> Result<(), NoLine>
        requires { IsNumbered (length self.old.names) (seen value) }
        ensures { Writes L.keeping L.seen self.old lines.old (posted port (seen value)) result self.new lines.new }
    {
        let v = self.printed(&value)?;
        self.keep_post(port, value)?;
        self.emit(Event::Send { n: port as u64, v }, lines)
    }

    /// Hands over the messages that were posted since the last call, the oldest first, and keeps none. Takes no memory.
    pub fn take_posts(&mut self) -> Vec<Post>
        ensures list { map post_seen result.items ≡ self.old.posts }
        ensures taken { self.new ≡ changed_by posts_taken self.old }
    {
        mem::replace(&mut self.posts, Vec::new(self.alloc))
    }

    // Keeps a message, of the time now.
    fn keep_post(&mut self, port: u32, value: Value) -> Result<(), NoLine>
        ensures memory { IfErr result (λ why. why ≡ OutOfMemory) }
        ensures kept { OnOk result (self.new ≡ with_post port value self.old) }
    {
        let post = Post {
            port,
            value,
            at: self.moment.at,
        };
        if self.posts.push(post).is_err() {
            return Err(NoLine::OutOfMemory);
        }
        Ok(())
    }
}

// A scheduling state by its number, from 1; of one that was not made what stands for none.
fn state_at(states: &[SchedulingState], n: u32) -> SchedulingState
    ensures { state_seen result ≡ numbered (map state_seen states.now) n model.no_state }
{
    let Some(index) = n.checked_sub(1) else {
        return NO_STATE;
    };
    match states.get(index as usize) {
        Some(state) => *state,
        None => NO_STATE,
    }
}
