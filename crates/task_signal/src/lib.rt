//! Signals with a priority: which signal follows which, and changes of a priority (Prioritized Task Scheduling,
//! "The TaskSignal Interface").
//!
//! Nothing is called here: a change tells which signals follow, and whoever dispatches its events tells when it is over.
#![tactic(auto)]

mod fault;
mod prios;

pub use fault::{ChangeFault, Changing};
pub use page_base::MemoryFault;
pub use page_types::Priority;
pub use prios::{Moved, Prios};
