//! The promises of a page, the jobs that wait for the next microtask checkpoint, and the rejections that nothing handles,
//! with the lines that calls on them write.
//!
//! The steps are those of the definitions in `page_parts`, each with its lines. Times are in microseconds.
#![tactic(auto)]

mod jobs;
mod noted;
mod notices;

pub use jobs::{NextJob, Todo};
pub use notices::Notices;
pub use page_values::MemoryFault;
pub use promise_core::{Job, Reaction, Settled};
