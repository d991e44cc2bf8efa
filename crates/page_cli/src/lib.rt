//! The top call.
#![tactic(auto)]

pub mod answer;
mod checking;
mod complaint;
mod counting;
mod expanding;
mod handing_on;
mod main_call;
mod migrating;
pub mod names;
mod picturing;
mod pieces;
mod reading;
mod running;
mod script_fault;
pub mod storm_size;
mod storming;
mod three_files;

pub use answer::{Answer, WhichFile};
pub use main_call::{MainEnd, page_main};
