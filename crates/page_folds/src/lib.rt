//! Dispatch, abort and priority change by single steps (DOM, "Dispatching events" and "Interface AbortSignal"; Prioritized Task
//! Scheduling, "The TaskSignal Interface").
//!
//! Nothing is called here: each step of an open fold says what is to be done next, and the caller does it before the next step.
#![tactic(auto)]

mod changes;
mod fold;
mod folds;
mod model;
mod stage;
mod step;

pub use abort_graph::Signals;
pub use folds::Folds;
pub use model::steps_are_those_of_a_page;
pub use page_base::MemoryFault;
pub use page_events::{Listeners, Target};
pub use step::{Aborting, FoldStep};
pub use task_signal::{ChangeFault, Changing, Priority, Prios};
