//! Fuel never rises, and time never falls.

ghost use Rattle.std.specs.Prelude.{◌≡◌, ℕ, ℤ, Result};
ghost use Rattle.page_types.specs.Values.{Value};
ghost use Rattle.page_types.specs.Tree.{Program};
ghost use Rattle.page_types.specs.declared.Priority.{Priority};
ghost use Rattle.lang_meaning.specs.Machine.{Caller};
ghost use Rattle.lang_meaning.specs.Evaluation.{calls, call_from_outside};
ghost use Rattle.page_model.specs.State.{Page, HostTask};
ghost use Rattle.page_model.specs.Invoke.{Ways, in_task, in_script, in_checkpoint, run_jobs, checkpoint};
ghost use Rattle.page_model.specs.PageSignals.{abort, change};
ghost use Rattle.page_model.specs.Operations.{page_operations};
ghost use Rattle.page_model.specs.Tasks.{perform_steps, perform_sched, answer_host, after_task};
ghost use Rattle.page_model.specs.Parallel.{parallel};
ghost use Rattle.page_model.specs.FuelAndTime.{Forward, CallsForward, WaysForward, BeginsAgainLater};
ghost use Rattle.page_model.specs.TimeLaws.{OperationsGoForward, CallbacksGoForward, DispatchGoesForward, EachGoesForward, EachTurnGoesForward, TurnsGoForward, RunsGoForward};

use crate::choosing::Choosing;

/// The law that each call of a script's function goes forward, at whatever depth and from outside.
pub fn calls_go_forward()
    ensures at_depth { (program : Program) (n : ℕ) → CallsForward (calls program page_operations n) }
    ensures from_outside { (program : Program) → CallsForward (call_from_outside program page_operations) }
{}

/// The law that each operation of the page goes forward, where calls do.
pub fn operations_go_forward()
    ensures { (call : Caller Page) → CallsForward call → OperationsGoForward call }
{}

/// The law that each callback goes forward, where calls do: in a task with the checkpoint after it, in an operation, and in a job.
pub fn callbacks_go_forward()
    ensures in_a_task { (call : Caller Page) → CallsForward call → CallbacksGoForward (in_task call) }
    ensures in_a_script { (call : Caller Page) → CallsForward call → CallbacksGoForward (in_script call) }
    ensures in_a_job { (call : Caller Page) → CallsForward call → CallbacksGoForward (in_checkpoint call) }
{}

/// The law that jobs and checkpoints go forward, where calls do.
pub fn jobs_go_forward()
    ensures all_jobs { (call : Caller Page) → CallsForward call → (n : ℕ) → Forward (run_jobs call n) }
    ensures one_checkpoint { (call : Caller Page) → CallsForward call → Forward (checkpoint call) }
{}

/// The law that dispatch, abort and priority change go forward, where calls and what follows callbacks do.
pub fn signals_go_forward()
    ensures fired { (w : Ways) → WaysForward w → DispatchGoesForward w }
    ensures aborted { (w : Ways) → WaysForward w → (s : ℕ) (reason : Value) → Forward (abort w s reason) }
    ensures changed { (w : Ways) → WaysForward w → (priority : Priority) (n s : ℕ) → Forward (change w priority n s) }
{}

/// The law that each task and the checkpoint after it go forward, where calls do; a task that answers for a host takes no time.
pub fn tasks_go_forward()
    ensures steps { (call : Caller Page) → CallsForward call → EachGoesForward (perform_steps (in_task call)) }
    ensures scheduled { (call : Caller Page) → CallsForward call → EachGoesForward (perform_sched (in_task call)) }
    ensures answered { (t : HostTask) (answer : Result ℤ ℤ) (p : Page) → (answer_host t answer p).now ≡ p.now }
    ensures afterwards { (call : Caller Page) → CallsForward call → Forward (after_task call) }
{}

/// The law that taking the parallel items takes no time.
pub fn parallel_items_take_no_time()
    ensures { (p : Page) → (parallel p).now ≡ p.now }
{}

/// The law that turns and runs go forward, by whatever rules, and that a turn that goes on has taken a unit of fuel at least.
pub fn turns_go_forward<R: Choosing>()
    ensures one_turn { (program : Program) → EachTurnGoesForward R.rules program }
    ensures many_turns { (program : Program) → TurnsGoForward R.rules program }
    ensures whole_run { (program : Program) → RunsGoForward R.rules program }
{}

/// The law that a turn which begins again after a wait begins at the target or later, and that the target is after now.
pub fn waits_end_later<R: Choosing>()
    ensures { BeginsAgainLater R.rules }
{}
