//! All queued tasks of a page, those of the task sources and the scheduler's, in one pool and under one counter.
#![tactic(auto)]

mod asked;
mod laws;
mod page_task;
mod page_tasks;
mod tasks;
mod tickets;

pub use laws::queued_tasks_are_those_of_a_page;
pub use page_base::{Micros, Source};
pub use page_task::{PageTask, PostedTask, SchedTask, TaskSteps, WindowEvent};
pub use page_tasks::PageTasks;
pub use post_task::{PrioSource, Priority};
pub use task_pool::{MemoryFault, Pool, Steps};
pub use tasks::{HostTask, TimerTask};
