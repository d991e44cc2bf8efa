//! The signals of a page, their priorities, its listeners, and its open folds: dispatches, aborts and priority changes that go on by
//! single steps (DOM, "Interface AbortSignal" and "Dispatching events"; Prioritized Task Scheduling, "The TaskSignal Interface").
//!
//! Nothing is called and no line is written here: the page does both.
#![tactic(auto)]

mod algorithms;
mod laws;
mod opened;
mod signals;
mod visit;

pub use algorithms::Algorithms;
pub use laws::{
    calls_are_steps_of_a_page, folds_are_those_of_a_page, less_is_left_after_each_step,
};
pub use opened::WhenReported;
pub use page_base::MemoryFault;
pub use page_events::{Dispatch, Target};
pub use signals::PageSignals;
pub use task_signal::Priority;
pub use visit::Visit;
