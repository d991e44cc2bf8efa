//! What a page does: its state, its operations, callbacks and jobs, the microtask checkpoint, tasks, parallel items, turns,
//! runs, the trace of a run and legal traces. Definitions in `specs/`, and laws above them as functions with empty bodies.
#![tactic(auto)]

mod acts;
mod arrivals;
mod bounds;
mod choices;
mod choosing;
mod fuel_and_time;
mod likeness;
mod numbers;
mod steps;

ghost use Rattle.page_types.specs.Tree.{Program};
ghost use Rattle.page_model.specs.LineLaws.{TurnsOnlyGiveLines};

pub use acts::{
    acts_by_steps_are_the_acts, acts_go_forward, acts_keep_numbers_given, acts_only_give_lines,
    choices_determine_a_run_by_acts, choices_of_acts_are_data, following_stays_one_deep_by_acts,
    further_choices_of_acts_are_left, runs_by_acts_are_alike,
};
pub use arrivals::arrivals_stay_in_order;
pub use bounds::{
    a_target_is_there_where_something_is_pending, due_items_are_all_taken,
    following_stays_one_deep, jobs_end_before_their_bound, loops_end_before_their_bound,
    priority_changes_end_before_their_bound, runs_end_before_their_bound,
    runs_end_or_are_refused_a_choice, waits_end_before_their_bound,
};
pub use choices::{choices_are_data, choices_determine_the_run, further_choices_are_left};
pub use choosing::{ByLists, Choosing};
pub use fuel_and_time::{
    callbacks_go_forward, calls_go_forward, jobs_go_forward, operations_go_forward,
    parallel_items_take_no_time, signals_go_forward, tasks_go_forward, turns_go_forward,
    waits_end_later,
};
pub use likeness::{Likeness, runs_are_alike};
pub use numbers::{
    calls_keep_numbers_given, first_numbers_are_given, numbers_of_runs_are_given,
    operations_keep_numbers_given, operations_meet_given_numbers_alone, turns_keep_numbers_given,
};
pub use steps::{
    abort_is_a_fold, callbacks_account_for_tickets, callbacks_left_fall, calls_keep_bounds,
    dispatch_is_a_fold, first_page_is_bounded, folds_go_on_by_steps,
    operations_account_for_tickets, operations_keep_bounds, priority_change_is_a_fold,
    priority_changes_go_piece_by_piece, runs_by_steps_are_the_runs, steps_do_what_nesting_does,
    steps_do_what_nesting_does_outside, turns_by_steps_are_the_turns, turns_keep_bounds,
};

/// The law that lines are only given: by whatever rules, turns do the same with any events before their own, and leave those as they are.
///
/// This is what lets a page hand its lines on and keep none.
pub fn lines_are_only_given<R: Choosing>()
    ensures { (program : Program) → TurnsOnlyGiveLines R.rules program }
{}
