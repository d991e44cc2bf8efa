//! What the tables of the other files have in common. An assertion is dear to prove, so it stands here once.

use std::process::Abort;

/// The step of this number answers what is wanted.
pub(crate) fn expect_met(rt: &impl Abort, is_met: bool, number: usize) {
    assert!(rt; is_met, "step {number}");
}
