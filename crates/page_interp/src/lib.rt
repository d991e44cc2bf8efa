//! The machine that evaluates a script, over any host.
#![tactic(auto)]

mod answered;
mod asking;
mod at_once;
mod blocks;
mod calling;
mod code;
mod direct;
mod exit;
mod expressions;
mod found;
mod gathering;
mod guesses;
mod machine;
mod names;
mod opening;
mod operations;
mod operators;
mod receiving;
mod simple;
mod stack;
mod statements;
mod stepping;
mod turns;
mod values;
mod variables;

pub use machine::{Machine, Ran, Stopped};
