//! Combinators of promises: what settles the promise of `all`, `any`, `allSettled` and `finally`, by what its elements report
//! (ECMA-262, "Promise.all" and its like).
//!
//! The answer is that of the definitions in `page_parts`, and it is given once, by the report that brings it.
#![tactic(auto)]

mod combine;
mod kind;
mod listing;

pub use combine::Combine;
pub use kind::Kind;
pub use page_values::MemoryFault;
pub use promise_core::Settled;
