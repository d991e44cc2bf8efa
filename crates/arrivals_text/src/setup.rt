//! What an arrivals file sets.

ghost use Rattle.std.specs.Prelude.{◌≤◌, IsTrue, map};
ghost use Rattle.page_parts.specs.Setup.{are_in_order};
ghost use Rattle.page_base.specs.Readings.{AreShort};
ghost use Rattle.loop_policy.specs.Policies.{policy_of, is_policy};
ghost use Rattle.arrivals_text.specs.Limits.{are_latencies, are_arrivals};
ghost use Rattle.arrivals_text.specs.SeenParts.{latency_of, arrival_of};

use crate::Arrival;
use loop_policy::Policy;
use page_base::Micros;

/// What an arrivals file sets, within its limits.
#[derive(Drop)]
pub struct PageSetup {
    /// The form of the run, 1 or 2. In form 2 a microtask inherits the timer nesting level and the scheduling state that were
    /// current when it was queued.
    pub form: u32,
    /// The form of the trace, 1 or 2. In form 2 it tells which callback made each registration.
    pub trace: u32,
    /// Which task source is served.
    pub policy: Policy,
    /// Units of fuel, 1 to 10,000,000.
    pub fuel: u64,
    /// When the run ends at the latest, 1 to 1,000,000,000,000 microseconds.
    pub until: Micros,
    /// Rendering opportunities a second, 1 to 240.
    pub refresh: u32,
    /// How late each wait ends, each at most 1,000,000 microseconds.
    pub late: Vec<u64>,
    /// How many cells a page reserves, at most 1,000,000.
    pub room: usize,
    /// Numbers of host closures, rising and at most 4095, each with its latency of at most 1,000,000,000 microseconds.
    pub hosts: Vec<(u32, u64)>,
    /// What arrives, at times that do not fall and are at most 1,000,000,000,000 microseconds.
    pub arrivals: Vec<Arrival>,
    ghost has_form: { (1 ≤ form) × (form ≤ 2) },
    ghost has_trace: { (1 ≤ trace) × (trace ≤ 2) },
    ghost is_policy: { IsTrue (is_policy (policy_of policy)) },
    ghost has_fuel: { (1 ≤ fuel) × (fuel ≤ 10000000) },
    ghost has_end: { (1 ≤ until.0) × (until.0 ≤ 1000000000000) },
    ghost has_rate: { (1 ≤ refresh) × (refresh ≤ 240) },
    ghost is_short: { AreShort late.items },
    ghost has_room: { room ≤ 1000000 },
    ghost rises: { IsTrue (are_latencies (map latency_of hosts.items)) },
    ghost arrives: { IsTrue (are_arrivals (map arrival_of arrivals.items)) },
    ghost in_order: { IsTrue (are_in_order (map arrival_of arrivals.items)) },
}
