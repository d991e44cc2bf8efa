//! The part of a page in which the script's callbacks and promises live, with the lines that it writes.
//!
//! The calls are those of the model's page in `page_model`, on the fields of this part. Times are in microseconds.
#![tactic(auto)]

mod callbacks;
mod combiner;
mod combining;
mod laws;
mod marked;
mod naming;
mod parts;
mod registrations;
mod script;

pub use callbacks::{BothCallbacks, Callbacks};
pub use laws::{
    acts_follow_one_another, calls_touch_the_script_alone,
    functions_that_touch_the_script_alone_compose, promises_are_counted,
    promises_touch_the_script_alone, what_is_done_to_the_script_is_done_to_the_page,
    what_queues_tasks_touches_the_script_alone,
};
pub use page_notices::{Job, NextJob, Reaction, Settled, Todo};
pub use page_values::MemoryFault;
pub use parts::{Combined, Post, Registration, Role, SchedulingState, WhenReported};
pub use post_task::{PrioSource, Priority};
pub use promise_combine::Kind;
pub use script::PageScript;
