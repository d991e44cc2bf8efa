//! Bounds of recursions suffice: what stands where a bound is 0 is never met.

ghost use Rattle.std.specs.Prelude.{◌≡◌, ℕ, ◌<◌, ◌≤◌, true, None};
ghost use Rattle.page_parts.specs.Words.{is_there, is_empty};
ghost use Rattle.page_types.specs.Tree.{Program};
ghost use Rattle.lang_meaning.specs.Machine.{Caller};
ghost use Rattle.page_model.specs.State.{Page};
ghost use Rattle.page_model.specs.Parallel.{first_item, due_item, take_due, item_count, parallel};
ghost use Rattle.page_model.specs.View.{view};
ghost use Rattle.page_model.specs.Turns.{is_pending, target};
ghost use Rattle.page_model.specs.FuelAndTime.{CallsForward};
ghost use Rattle.page_model.specs.Bounds.{take_due_or, OneDeep};
ghost use Rattle.page_model.specs.BoundLaws.{JobsNeverReachZero, JobsTakeGreaterBounds, LoopsNeverReachZero, LoopsTakeGreaterBounds, TurnsNeverReachZero, TurnsTakeGreaterBounds, RunsNeverReachZero, FirstPagesAre, CallsKeepOneDeep, OperationsKeepOneDeep, TurnsKeepOneDeep, RunsAreOneDeep, ChangesNeverReachZero, ChangesTakeGreaterBounds, WaitsNeverReachZero, WaitsTakeGreaterBounds, RunsTakeMoreWaits, RunsEndOrAreRefused};

use crate::choosing::Choosing;

/// The law that a checkpoint's jobs end before their bound, where calls go forward: each takes a unit of fuel.
pub fn jobs_end_before_their_bound()
    ensures whatever_at_0 { (call : Caller Page) → CallsForward call → JobsNeverReachZero call }
    ensures greater { (call : Caller Page) → CallsForward call → JobsTakeGreaterBounds call }
{}

/// The law that a `while` ends before its bound: each entry into its body takes a unit of fuel.
pub fn loops_end_before_their_bound()
    ensures whatever_at_0 { (program : Program) → LoopsNeverReachZero program }
    ensures greater { (program : Program) → LoopsTakeGreaterBounds program }
{}

/// The law that a run ends before the bound of its turns: each turn that goes on takes a unit of fuel.
pub fn runs_end_before_their_bound<R: Choosing>()
    ensures whatever_at_0 { (program : Program) → TurnsNeverReachZero R.rules program }
    ensures greater { (program : Program) → TurnsTakeGreaterBounds R.rules program }
    ensures whole_run { (program : Program) → RunsNeverReachZero R.rules program }
{}

/// The law that the parallel items which are due are all taken within their bound, since one that is taken is one less and none comes.
pub fn due_items_are_all_taken()
    ensures whatever_at_0 { (other : Page → Page) (n : ℕ) (p : Page) → item_count p < n → take_due_or other n p ≡ parallel p }
    ensures greater { (n : ℕ) (p : Page) → item_count p ≤ n → take_due n p ≡ parallel p }
    ensures none_left { (p : Page) → due_item (parallel p).now (first_item (parallel p)) ≡ None }
{}

/// The law that a signal which is followed follows none: at first, and whatever calls, operations and runs do.
pub fn following_stays_one_deep<R: Choosing>()
    ensures at_first { FirstPagesAre OneDeep }
    ensures after_calls { (program : Program) → CallsKeepOneDeep program }
    ensures after_operations { (program : Program) → OperationsKeepOneDeep program }
    ensures after_turns { (program : Program) → TurnsKeepOneDeep R.rules program }
    ensures after_a_run { (program : Program) → RunsAreOneDeep R.rules program }
{}

/// The law that a priority change ends before its bound, where following is one deep: its followers have no followers.
pub fn priority_changes_end_before_their_bound()
    ensures whatever_at_0 { (program : Program) → ChangesNeverReachZero program }
    ensures greater { (program : Program) → ChangesTakeGreaterBounds program }
{}

/// The law that the waits of a turn end before their bound: after each an item is taken, or the idle moment has come.
///
/// In the first turn no item is taken, so a task must be runnable then, as it is in a run.
pub fn waits_end_before_their_bound<R: Choosing>()
    ensures whatever_at_0 { (call : Caller Page) → WaitsNeverReachZero R.rules call }
    ensures greater { (call : Caller Page) → WaitsTakeGreaterBounds R.rules call }
    ensures whole_run { (program : Program) → RunsTakeMoreWaits R.rules program }
{}

/// The law that where no task is runnable there is a target exactly where something is pending, whatever the page.
pub fn a_target_is_there_where_something_is_pending()
    ensures { (p : Page) → is_empty (view p) ≡ true → is_there (target p) ≡ is_pending p }
{}

/// The law that every run ends, and tells its end truly, or is stuck at a choice that the rules refuse in the step that comes to it: no
/// bound of it is ever met. So no run is done while a task is runnable or something is pending.
pub fn runs_end_or_are_refused_a_choice<R: Choosing>()
    ensures { (program : Program) → RunsEndOrAreRefused R.rules program }
{}
