//! What one line sets.

use crate::Arrival;
use loop_policy::Policy;

/// A line of the file, by what it sets.
#[derive(Drop)]
pub(crate) enum Line {
    /// With the form of the run.
    Page(u32),
    /// A trace of form 2.
    Trace,
    Policy(Policy),
    Fuel(u64),
    Until(u64),
    Refresh(u32),
    Late(Vec<u64>),
    Room(usize),
    Host(u32, u64),
    At(Arrival),
}
