//! The law that operations whose callbacks nest are those of a host that answers by steps, with open folds.

ghost use Rattle.std.specs.Prelude.{ℕ, List};
ghost use Rattle.page_types.specs.Values.{Value};
ghost use Rattle.page_types.specs.declared.Priority.{Priority};
ghost use Rattle.page_types.specs.Tree.{Program};
ghost use Rattle.page_types.specs.declared.Op.{Op};
ghost use Rattle.lang_meaning.specs.Machine.{Caller};
ghost use Rattle.lang_meaning.specs.HostSteps.{CallbackEnd};
ghost use Rattle.page_model.specs.State.{Page};
ghost use Rattle.page_model.specs.Invoke.{WhenReported};
ghost use Rattle.page_model.specs.FoldBounds.{IsBounded};
ghost use Rattle.page_model.specs.BoundLaws.{FirstPagesAre};
ghost use Rattle.page_model.specs.StepLaws.{FoldsGoOnBySteps, DispatchIsAFold, AbortIsAFold, ChangeIsAFold, CallsByStepsEndSame, CallsFromOutsideEndSame, CallsKeepBounds, KeepsBounds, LeavesFewer, ChangesGoPieceByPiece, AccountsForTickets, ClosesItsTicket, TurnsByStepsAreTheSame, TurnsKeepBounds, RunsByStepsAreTheSame};

use crate::choosing::Choosing;

/// An open fold nests its callbacks in the order of its steps: it is its next callback, that callback's end, and the fold from there.
pub fn folds_go_on_by_steps()
    ensures { (call : Caller Page) → FoldsGoOnBySteps call }
{}

/// Firing an event in a script opens such a fold.
pub fn dispatch_is_a_fold()
    ensures { (call : Caller Page) → DispatchIsAFold call }
{}

/// So does an abort.
pub fn abort_is_a_fold()
    ensures { (call : Caller Page) → AbortIsAFold call }
{}

/// So does a priority change.
pub fn priority_change_is_a_fold()
    ensures { (call : Caller Page) → ChangeIsAFold call }
{}

/// A script's calls around a page within bounds end as those around the page as a host, whatever folds are open around them.
pub fn steps_do_what_nesting_does()
    ensures { (program : Program) → CallsByStepsEndSame program }
{}

/// So do those from outside.
pub fn steps_do_what_nesting_does_outside()
    ensures { (program : Program) → CallsFromOutsideEndSame program }
{}

/// A script's calls leave a page within bounds.
pub fn calls_keep_bounds()
    ensures { (program : Program) → CallsKeepBounds program }
{}

/// After an operation the host is within bounds, and where a callback comes next, how many may still come is a number of 64 bits.
pub fn operations_keep_bounds()
    ensures { (op : Op) (args : List Value) → KeepsBounds op args }
{}

/// So it is after a callback of the innermost fold, and where another one comes next, fewer are left than before.
pub fn callbacks_left_fall()
    ensures { (ticket : ℕ) (end : CallbackEnd) → LeavesFewer ticket end }
{}

/// The next piece of a priority change: it is passed over, or it opens the fold of its own listeners, its followers and its end.
pub fn priority_changes_go_piece_by_piece()
    ensures { (when : WhenReported) (priority : Priority) → ChangesGoPieceByPiece when priority }
{}

/// The page before the first turn is within bounds.
pub fn first_page_is_bounded()
    ensures { FirstPagesAre IsBounded }
{}

/// The open tickets are those of the folds: an operation that calls opens one more.
pub fn operations_account_for_tickets()
    ensures { (op : Op) (args : List Value) → AccountsForTickets op args }
{}

/// The ticket that is resumed is no longer open, unless another callback comes under it.
pub fn callbacks_account_for_tickets()
    ensures { (ticket : ℕ) (end : CallbackEnd) → ClosesItsTicket ticket end }
{}

/// Turns from a page within bounds are the same where scripts are called by steps, by whatever rules choices are made.
pub fn turns_by_steps_are_the_turns<R: Choosing>()
    ensures { (program : Program) → TurnsByStepsAreTheSame R.rules program }
{}

/// And they leave a page within bounds.
pub fn turns_keep_bounds<R: Choosing>()
    ensures { (program : Program) → TurnsKeepBounds R.rules program }
{}

/// So a whole run is the same where scripts are called by steps.
pub fn runs_by_steps_are_the_runs<R: Choosing>()
    ensures { (program : Program) → RunsByStepsAreTheSame R.rules program }
{}
