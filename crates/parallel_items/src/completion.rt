//! What an active timer does when it completes.

use page_tasks::TimerTask;
use post_task::PrioSource;

/// Completion steps (HTML, "Timers": run steps after a timeout).
#[derive(Clone, Copy, Debug, PartialEq, Eq)]
pub enum Completion {
    /// Queue the task of a timer.
    QueueTimer(TimerTask),
    /// Enqueue the delayed `postTask` of a registration.
    EnqueuePost {
        registration: u32,
        source: PrioSource,
    },
    /// Queue the task that aborts a signal by its timeout.
    QueueSignal {
        registration: u32,
        signal: u32,
    },
}
