//! The mark of closures that were asked, which a page lays over those of its port.
ghost use Rattle.std.specs.Prelude.{ℕ, Bool, List};
ghost use Rattle.page_parts.specs.HostClosures.{HostClosure};
ghost use Rattle.host_jobs.specs.Overlay.{ClosureIs, LiveIs, TakesIs, CountIs, NoneAskedIs, AskedIs, FiredIs, DroppedIs, WasDroppedIs};

/// The law that a page whose port tells which closures are live, fired or dropped, and which itself keeps which it has asked,
/// has the closures with all four marks: a live one that was asked is queued.
///
/// Asking changes nothing at the port; firing does the same at both. A page drops a closure whatever its mark, a port drops a
/// live one alone: that is the same for a closure that was never fired. It does nothing when it runs.
pub fn asked_closures_are_queued()
    ensures closure { (asked : ℕ → Bool) (cs : List HostClosure) → ClosureIs asked cs }
    ensures live { (asked : ℕ → Bool) (cs : List HostClosure) → LiveIs asked cs }
    ensures takes { (asked : ℕ → Bool) (cs : List HostClosure) → TakesIs asked cs }
    ensures count { (asked : ℕ → Bool) (cs : List HostClosure) → CountIs asked cs }
    ensures none { (asked : ℕ → Bool) (cs : List HostClosure) → NoneAskedIs asked cs }
    ensures asked { (asked : ℕ → Bool) (cs : List HostClosure) → AskedIs asked cs }
    ensures fired { (asked : ℕ → Bool) (cs : List HostClosure) → FiredIs asked cs }
    ensures dropped { (asked : ℕ → Bool) (cs : List HostClosure) → DroppedIs asked cs }
    ensures was_dropped { (asked : ℕ → Bool) (cs : List HostClosure) → WasDroppedIs asked cs }
{}
