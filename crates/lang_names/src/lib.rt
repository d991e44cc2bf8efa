//! The names of a script: a tree becomes a program where every name is known, or the first fault is told.
//!
//! The rules stand in `lang_ast`, in `specs/NameFaults.antt`.
#![tactic(auto)]

mod checking;
mod collecting;
pub mod fault;
mod laws;
mod name_set;
mod names;
mod occurrence;
mod resolving;

pub use fault::{NameFault, ResolveFault};
pub use laws::{first_fault_is_at_the_least_byte, resolved_names_are_known};
pub use resolving::resolve;
