//! Whole runs of a page: turns one after another, up to the end.
#![tactic(auto)]

mod finding;
mod live_page;
mod page_run;
mod performing;
mod run_stop;
mod turn;

pub use page_run::{Ended, run_page};
pub use run_stop::RunStop;
