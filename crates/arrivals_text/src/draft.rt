//! Settings, line by line.

use crate::Arrival;
use loop_policy::Policy;

/// The settings of the lines so far.
#[derive(Drop)]
pub(crate) struct Draft {
    pub(crate) form: u32,
    pub(crate) trace: u32,
    pub(crate) policy: Policy,
    pub(crate) fuel: u64,
    pub(crate) until: u64,
    pub(crate) refresh: u32,
    pub(crate) late: Vec<u64>,
    pub(crate) room: usize,
    pub(crate) hosts: Vec<(u32, u64)>,
    pub(crate) arrivals: Vec<Arrival>,
}
