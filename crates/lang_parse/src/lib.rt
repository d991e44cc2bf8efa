//! The parser: the tree of a script's tokens.
#![tactic(auto)]

mod begins;
mod building;
mod error;
mod expressions;
pub mod fault;
mod globals;
mod leaves;
mod limits;
mod operators;
mod parser;
mod parts;
mod reading;
mod statements;
mod toplevel;

pub use begins::a_script_begins;
pub use fault::{NoParse, ParseFault};
pub use parser::{MOST_FUNCTIONS, MOST_GLOBALS, names_rise, one_tree, parse};
