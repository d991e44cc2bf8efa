//! The place of a syntax error: the first token with which the tokens so far begin no script.
#![tactic(auto)]

mod counting;
pub mod expected;
mod following;
mod laws;
mod placing;
mod recogniser;
pub mod standing;
pub mod terminal;

pub use counting::add_name;
pub use expected::{Closer, Expected, Next, Taken, Within};
pub use laws::fewer_tokens_begin;
pub use placing::place;
pub use standing::Standing;
pub use terminal::Terminal;
