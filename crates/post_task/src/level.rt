ghost use Rattle.std.specs.Prelude.{◌≡◌};
ghost use Rattle.page_parts.specs.TaskSignals.{rank as place};
ghost use Rattle.post_task.specs.Waiting.{same_source};
ghost use Rattle.post_task.specs.Levels.{queue_in};

use task_pool::ListId;
use task_signal::Priority;

/// Where a scheduler task has its priority from: a fixed priority, or a signal's priority at each moment.
#[derive(Clone, Copy, Debug, PartialEq, Eq)]
pub enum PrioSource {
    Fixed(Priority),
    Signal(u32),
}

impl PrioSource {
    /// Whether two sources are the same.
    pub fn is(self, other: PrioSource) -> bool
        ensures { result ≡ same_source self other }
    {
        match (self, other) {
            (PrioSource::Fixed(a), PrioSource::Fixed(b)) => rank(a) == rank(b),
            (PrioSource::Signal(a), PrioSource::Signal(b)) => a == b,
            _ => false,
        }
    }
}

/// The two lists of a priority source, and its priority now.
#[derive(Clone, Copy)]
pub struct Level {
    pub source: PrioSource,
    pub priority: Priority,
    pub plain: ListId,
    pub continuations: ListId,
}

impl Level {
    /// The list of continuations or that of other tasks.
    pub fn list(self, continuation: bool) -> ListId
        ensures { result.0 ≡ (queue_in self continuation).list }
    {
        if continuation {
            self.continuations
        } else {
            self.plain
        }
    }
}

/// The place of a priority in the order of priorities, from 0.
pub fn rank(priority: Priority) -> u8
    ensures { result ≡ place priority }
{
    match priority {
        Priority::Background => 0,
        Priority::UserVisible => 1,
        Priority::UserBlocking => 2,
    }
}
