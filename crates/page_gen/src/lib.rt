//! Large valid inputs that are made from a number.
#![tactic(auto)]

mod laws;
mod storming;

pub use laws::storms_run;
pub use storming::storm;
