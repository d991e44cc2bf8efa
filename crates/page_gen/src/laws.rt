//! What the texts of a storm are.

ghost use Rattle.std.specs.Prelude.{◌≤◌, ℕ};
ghost use Rattle.arrivals_text.specs.Arrivals.{SetsUp};
ghost use Rattle.page_gen.specs.Resolved.{IsResolvedScript};
ghost use Rattle.page_gen.specs.Storm.{storm_script, storm_arrivals, storm_settings};

/// A law: for each number up to 100,000 the script of the storm has a tree by the grammar and its names are resolved, and
/// the arrivals set up a run. So no storm is refused, neither for its script nor for its arrivals.
pub fn storms_run()
    ensures script { (n : ℕ) → n ≤ 100000 → IsResolvedScript (storm_script n) }
    ensures arrivals { SetsUp storm_arrivals storm_settings }
{}
