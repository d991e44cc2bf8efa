//! The syntax tree of a script, the script whose names are resolved, and the host that answers its operations.
//!
//! A tree is seen as the one of `page_types`, by `specs/Seen.antt`. Which names a script gives and uses, and which of
//! them are faults, stands in `specs/Names.antt` and `specs/NameFaults.antt`.
#![tactic(auto)]

pub mod host;
mod named;
mod operations;
pub mod program;
pub mod role;
pub mod tree;

pub use host::{Host, HostStep, Outcome};
pub use operations::{argument_count, is_busy, operation_named};
pub use page_types::{CompareSign, Op, ProductSign, SumSign, UnarySign};
pub use program::Program;
pub use role::Role;
pub use tree::{Expr, Function, Item, Named, Stmt, Tree};
