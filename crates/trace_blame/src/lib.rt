//! Which turns of a trace are long, and which call made them so.
#![tactic(auto)]

mod report;
mod turns;

pub use report::blame;
pub use turns::{LongTurn, long_turns};
