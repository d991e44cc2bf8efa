//! What an operation of a page answers that calls nothing back, and how it takes its arguments.
#![tactic(auto)]

mod arguments;
mod found;
mod known;
mod left;
mod rejections;
mod steps;

pub use arguments::{first, first_four, first_three, first_two};
pub use found::{function_of, list_of};
pub use known::{may_operate, may_operate_lent};
pub use left::{are_both_left, are_promises_left, is_promise_left, is_registration_left};
pub use rejections::{give_settled, reject_fault, reject_with};
pub use steps::{give, give_unit, throw};
