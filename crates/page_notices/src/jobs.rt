//! The jobs that wait, and when they were queued.

ghost use Rattle.std.specs.Prelude.{◌≡◌};
ghost use Rattle.page_parts.specs.Notices as parts;
ghost use Rattle.trace_text.specs.EventSeen.{queued_seen};
ghost use Rattle.page_notices.specs.Seen.{todo_seen};

use page_base::Micros;
use promise_core::Job;
use trace_text::Queued;

/// What a job does.
#[derive(Clone, Copy, PartialEq, Eq, Debug)]
pub enum Todo {
    /// It calls the callback of a `queueMicrotask` registration (HTML, "Microtask queuing").
    Micro(u32),
    /// It is a job of a promise (ECMA-262, "Promise Jobs").
    Promise(Job),
}

/// A job that was queued.
#[derive(Clone, Copy, PartialEq, Eq, Debug)]
pub struct NextJob {
    /// Its number. Jobs are counted from 1, in the order in which they are queued.
    pub job: u64,
    pub todo: Todo,
    /// The nesting level that was current when it was queued.
    pub level: u32,
    /// The scheduling state that was current when it was queued.
    pub state: Option<u32>,
}

// When something happens, and what is current then.
#[derive(Clone, Copy)]
pub(crate) struct Moment {
    pub(crate) level: u32,
    pub(crate) state: Option<u32>,
    pub(crate) at: Micros,
}

impl Todo {
    // The word of a job in its line.
    pub(crate) fn queued(self) -> Queued
        ensures { queued_seen result ≡ parts.queued_as (todo_seen self) }
    {
        match self {
            Todo::Micro(registration) => Queued::Micro(registration as u64),
            Todo::Promise(Job::React { of, .. }) => Queued::React(of as u64),
            Todo::Promise(Job::Adopt { into, .. }) => Queued::Adopt(into as u64),
        }
    }
}
