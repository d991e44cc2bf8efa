//! Laws on whole sequences of calls.

ghost use Rattle.std.specs.Prelude.{◌<◌, ℕ, List};
ghost use Rattle.promise_core.specs.Held.{nothing_held};
ghost use Rattle.promise_core.specs.Calls.{Call, AreOfMade, SettlesOnce, JobsAreReactions, NoJobCame};

/// A law: no promise settles twice. Whatever the calls were, one that is settled after them was settled by exactly one of
/// them, and one that is pending by none.
pub fn a_promise_settles_once()
    ensures { (calls : List Call) (n : ℕ) → AreOfMade calls nothing_held → 0 < n → SettlesOnce calls n }
{}

/// A law: each reaction of a settled promise led to exactly one job. Whatever the calls were, the jobs that came of a promise
/// which is settled after them are one for each reaction that it was given, in the order of the giving. Of one that is
/// pending none came.
pub fn a_reaction_leads_to_one_job()
    ensures settled { (calls : List Call) (n : ℕ) → AreOfMade calls nothing_held → 0 < n → JobsAreReactions calls n }
    ensures pending { (calls : List Call) (n : ℕ) → AreOfMade calls nothing_held → 0 < n → NoJobCame calls n }
{}
