//! The queues of scheduler tasks, all in one pool (Prioritized Task Scheduling, "Scheduling Tasks and Continuations").
#![tactic(auto)]

mod heads;
mod laws;
mod level;
mod sched;
mod signals;
mod tournament;

pub use laws::queues_are_one_list;
pub use level::PrioSource;
pub use sched::SchedQueues;
pub use task_pool::{MemoryFault, Pool, Steps, Ticket};
pub use task_signal::Priority;
