//! The law that the numbers which stand in a page were given out before.
//!
//! Promises, signals, registrations, scheduling states, timers, frame and idle callbacks, tasks, jobs and host closures are
//! named by numbers, and with a number that was not given out an operation throws TypeError. These laws say that none is met: each
//! number that stands in a value, variable, task, job, reaction or list of a page that a run reaches is from 1 to the last
//! one that was given (a host closure's is below how many there are).

ghost use Rattle.std.specs.Prelude.{ℕ};
ghost use Rattle.page_types.specs.Tree.{Program};
ghost use Rattle.lang_meaning.specs.Machine.{Caller};
ghost use Rattle.lang_meaning.specs.Evaluation.{calls};
ghost use Rattle.page_model.specs.State.{Page};
ghost use Rattle.page_model.specs.Operations.{page_operations};
ghost use Rattle.page_model.specs.Numbers.{CallsKeepGiven};
ghost use Rattle.page_model.specs.NumberLaws.{FirstStatesAreGiven, OperationsKeepGiven, EachTurnKeepsGiven, TurnsKeepGiven, StatesOfRunsAreGiven, EndsOfRunsAreGiven, OperationsMeetGiven};

use crate::choosing::Choosing;

/// In the first state of a run all numbers were given out.
///
/// The values that arrive must hold no promise, signal or controller. The arrivals file can write none; a `Setup` could.
pub fn first_numbers_are_given()
    ensures { (program : Program) → FirstStatesAreGiven program }
{}

/// Each operation keeps that, where its arguments are known; what it gives or throws is known.
///
/// What was given out before stays given, and registrations stay what they are. The operation may call back in any way that
/// keeps the same.
pub fn operations_keep_numbers_given()
    ensures { (call : Caller Page) → CallsKeepGiven call → OperationsKeepGiven call }
{}

/// Each call of a function of the script keeps it, however many calls may still be open.
pub fn calls_keep_numbers_given()
    ensures { (program : Program) (depth : ℕ) → CallsKeepGiven (calls program page_operations depth) }
{}

/// Turns keep it, by whatever rules choices are made.
pub fn turns_keep_numbers_given<R: Choosing>()
    ensures one { (program : Program) → EachTurnKeepsGiven R.rules program }
    ensures many { (program : Program) → TurnsKeepGiven R.rules program }
{}

/// So in each state that a run reaches, after any number of turns and at its end, all numbers were given out.
pub fn numbers_of_runs_are_given<R: Choosing>()
    ensures after { (program : Program) → StatesOfRunsAreGiven R.rules program }
    ensures at_end { (program : Program) → EndsOfRunsAreGiven R.rules program }
{}

/// So numbers that were not given out are never met: with known arguments an operation does what is told of it, and its test of them
/// passes.
pub fn operations_meet_given_numbers_alone()
    ensures { (call : Caller Page) → OperationsMeetGiven call }
{}
