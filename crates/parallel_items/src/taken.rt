//! What is asked of hosts, and what taking an item gives.

use crate::Completion;
use arrivals_text::Arrival;
use page_base::Micros;
use page_tasks::HostTask;

/// An answer of a host closure that is pending, and when it is due.
#[derive(Clone, Copy, Debug, PartialEq, Eq)]
pub struct HostAnswer {
    pub due: Micros,
    pub task: HostTask,
}

/// What was taken: the page queues a task for it, or does the completion steps.
#[derive(Drop)]
pub enum Taken {
    /// An event is to be fired at the window.
    Arrival(Arrival),
    /// A host closure is to answer.
    HostAnswer(HostTask),
    /// An active timer has completed.
    Completion(Completion),
    /// The timeout of an idle callback has passed.
    IdleTimeout { handle: u32, registration: u32 },
}
