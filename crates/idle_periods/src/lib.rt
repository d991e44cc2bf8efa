//! Idle callbacks, and the deadline of an idle period.
#![tactic(auto)]

mod idle;
mod period;

pub use idle::Idle;
pub use page_base::MemoryFault;
pub use period::deadline;
