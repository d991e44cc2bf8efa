//! Async functions for scripts: a script with `async fn` and `await` becomes a plain one that means the same.
//!
//! `async` and `await` are names of the script language, which stand where a script of its own has none. What an async
//! script is, and what it becomes, stands in `specs/Script.antt`, `specs/Marked.antt` and `specs/Expanded.antt`.
#![tactic(auto)]

mod awaits;
mod expanding;
mod expressions;
pub mod fault;
mod heads;
mod items;
mod laws;
mod layout;
mod locals;
mod marking;
mod meaning;
mod segments;
mod statements;
mod written;

pub use expanding::expand;
pub use fault::{ExpandFault, NotAsync};
pub use laws::{a_script_is_marked_once, signs_stand_for_names};
pub use meaning::{PromiseHost, a_page_keeps_promises, functions_mean_their_segments};
