//! All that a page keeps, by its parts, and what each step of a page does to it.
//!
//! The calls are those of the model's page in `page_model`, on the whole page. Times are in microseconds.
#![tactic(auto)]

mod copies;
mod latencies;
mod moments;
mod scheduling;
mod state;
mod stepping;
mod whens;

pub use state::{NextCallback, PageState};
