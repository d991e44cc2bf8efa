//! The queues of the task sources other than the scheduler's, all in one pool.
#![tactic(auto)]

mod one_list;
mod queues;

pub use one_list::lists_by_source_are_one_list;
pub use page_base::Source;
pub use queues::Queues;
pub use task_pool::{MemoryFault, Pool, Steps, Ticket};
