//! The law that what a stopped call leaves comes before what the whole call leaves.

ghost use Rattle.lang_meaning.specs.HostSteps.{HostRules, Ask};
ghost use Rattle.lang_meaning.specs.Asks.{IsKept, IsWithin, PassedGrow, RefusedGrow};

/// A host whose asks only add to what it tells, in an order of what it tells.
pub trait Growing {
    /// What the host tells of itself.
    ghost Told: { Type 0 };

    /// What it does when it is asked.
    ghost rules: { HostRules Told };

    /// What a refused ask may leave of what it told before.
    ghost leaves: { Ask → Told → Told → Type 0 };

    /// One comes before another, or is it.
    ghost order: { Told → Told → Type 0 };
}

/// Where the rules keep the order, what a call that was stopped leaves of the host comes before what the whole call leaves: after
/// any of its asks, and after one that was refused, where a refused ask leaves no more than its rule gives.
pub fn stopped_calls_come_before_their_end<G: Growing>()
    ensures passed { IsKept G.rules G.order → PassedGrow G.rules G.order }
    ensures refused { IsKept G.rules G.order → IsWithin G.rules G.leaves G.order → RefusedGrow G.rules G.leaves G.order }
{}
