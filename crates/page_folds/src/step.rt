use page_events::Target;
use task_signal::Priority;

/// What is to be done next under a ticket.
#[derive(Clone, Copy, Debug, PartialEq, Eq)]
pub enum FoldStep {
    /// This abort algorithm is to be run.
    Algorithm(u64),
    /// The listener with this registration is to be called for an event at this target.
    Listener { target: Target, registration: u32 },
    /// The priority of this signal was set, and was `before` until then: its tasks are to be moved.
    Changed { signal: u32, before: Priority },
    /// Nothing is left to visit, and the ticket is closed.
    Finished,
}

/// An abort that has begun.
#[derive(Drop)]
pub struct Aborting {
    /// The ticket of the fold that runs the abort steps.
    pub ticket: u64,
    /// The signals on which the reason was set, in the order in which their abort steps run.
    pub marked: Vec<u32>,
}
