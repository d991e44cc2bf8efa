use page_values::Value;
use task_signal::Priority;

/// What is to be done next under the innermost fold.
#[derive(Drop)]
pub enum Visit {
    /// The abort steps of this registration are to be run, with this reason.
    Algorithm {
        registration: u32,
        reason: Value,
    },
    /// The listener with this registration is to be called, with these arguments.
    Listener {
        registration: u32,
        arguments: Vec<Value>,
    },
    /// The priority of this signal was set, and was `before` until then: it is to be told, and the signal's tasks moved.
    Changed {
        signal: u32,
        before: Priority,
        priority: Priority,
    },
    /// Nothing is left to visit, and the fold is closed.
    Finished,
}
