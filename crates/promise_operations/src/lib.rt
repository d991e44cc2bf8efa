//! The operations of promises, and those on values alone: what a page answers to each, and what it does.
//!
//! Each takes its arguments as they come. What each does stands in `page_model`, under its section.
#![tactic(auto)]

mod combinators;
mod handlers;
mod jobs;
mod promises;
mod racing;
mod values;

pub use combinators::{all, all_settled, any};
pub use handlers::{finally, then};
pub use jobs::queue_microtask;
pub use promises::{make_promise, reject, rejected, resolve, resolved};
pub use racing::race;
pub use values::{log, pure_operation};
