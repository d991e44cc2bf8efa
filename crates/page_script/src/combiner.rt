//! A combinator, and the promise that its answer settles.

use promise_combine::Combine;

// A combinator, and the promise that its answer settles.
#[derive(Drop)]
pub(crate) struct Combining {
    pub(crate) combine: Combine,
    pub(crate) result: u32,
}
