//! What a page keeps of a script's callbacks, scheduling states and messages.

ghost use Rattle.std.specs.Prelude.{◌≡◌};

use crate::callbacks::Callbacks;
use page_base::Micros;
use page_values::Value;
use post_task::PrioSource;
use trace_text::RegKind;

/// What a registration is for: the script itself, or a kind of the trace.
#[derive(Clone, Copy, PartialEq, Eq, Debug)]
pub enum Role {
    Script,
    Of(RegKind),
}

/// When a throw is reported (HTML, "Calling scripts"): of the script before the checkpoint; of a `then` handler or a posted
/// callback never; of any other after the checkpoint.
#[derive(Clone, Copy, PartialEq, Eq, Debug)]
pub enum WhenReported {
    BeforeCheckpoint,
    AfterCheckpoint,
    Never,
}

impl Role {
    ghost use Rattle.page_model.specs.Invoke as model;
    ghost use Rattle.page_script.specs.Seen.{role_seen};
    ghost use Rattle.page_script.specs.Reports.{when_seen};

    /// When a throw of a callback of this role is reported.
    pub fn when_reported(self) -> WhenReported
        ensures { when_seen result ≡ model.when_reported (role_seen self) }
    {
        match self {
            Role::Script => WhenReported::BeforeCheckpoint,
            Role::Of(RegKind::Post) | Role::Of(RegKind::Then) => WhenReported::Never,
            Role::Of(_) => WhenReported::AfterCheckpoint,
        }
    }
}

/// A callback that was handed in: what it is for, the functions to call, and where it has one its timer id, its promise and
/// the signal that can abort it. Numbers are counted from 1, and 0 names nothing. A handler that is no function is absent.
///
/// A page keeps each one to its end, so they are small: the fields lie in this order.
#[derive(Drop)]
pub struct Registration {
    pub role: Role,
    /// A handler of `finally` is called with no argument and passes the outcome on.
    pub finally: bool,
    pub timer_id: u32,
    pub promise: u32,
    pub signal: Option<u32>,
    pub callbacks: Callbacks,
}

/// A scheduling state (Prioritized Task Scheduling, "Scheduling Tasks and Continuations"): the signal that aborts what is
/// scheduled under it, and where its priority comes from.
#[derive(Clone, Copy, PartialEq, Eq, Debug)]
pub struct SchedulingState {
    pub abort_source: Option<u32>,
    pub prio_source: PrioSource,
}

/// A message that was posted (HTML, "Cross-document messaging"): on which port, its value, and when.
#[derive(Drop)]
pub struct Post {
    pub port: u32,
    pub value: Value,
    pub at: Micros,
}

/// A combinator that was made, by its number, and the number of the promise that its answer settles.
#[derive(Clone, Copy, PartialEq, Eq, Debug)]
pub struct Combined {
    pub combinator: u32,
    pub result: u32,
}

// What a promise is besides: one that the script made itself, or the element of a combinator, at a place from 0.
#[derive(Clone, Copy, PartialEq, Eq, Debug)]
pub(crate) enum Mark {
    Plain,
    OfScript,
    Element { combinator: u32, place: u32 },
}

// The forms of the run and of its trace, and how many turns have begun.
#[derive(Clone, Copy)]
pub(crate) struct Run {
    pub(crate) form: u32,
    pub(crate) trace: u32,
    pub(crate) turns: u64,
}

// The nesting level and the scheduling state that are current, and the time.
#[derive(Clone, Copy)]
pub(crate) struct Moment {
    pub(crate) level: u32,
    pub(crate) state: Option<u32>,
    pub(crate) at: Micros,
}
