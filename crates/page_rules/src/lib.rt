//! The page as a host of the script machine that hands its lines on and keeps none. Laws alone, as functions with empty bodies.
#![tactic(auto)]

mod steady;

ghost use Rattle.std.specs.Prelude.{List, Option};
ghost use Rattle.page_types.specs.Events.{Stamped};
ghost use Rattle.page_model.specs.PageHost.{page_rules};
ghost use Rattle.trace_text.specs.declared.lines.NoLine.{NoLine};
ghost use Rattle.page_rules.specs.Lined.{hosting_after, RulesFollow};
ghost use Rattle.page_rules.specs.HandedOn.{HandsItsLinesOn, CallsEndLined, RefusedCallsLeaveAStart, PassedCallsLeaveAStart};

pub use steady::{
    asks_but_busy_take_no_time, asks_leave_what_stays, calls_leave_what_stays, folds_take_no_time,
    jobs_and_checkpoints_take_no_time, lined_pages_leave_what_stays,
    lines_of_callbacks_take_no_time, parallel_items_and_idle_steps_take_no_time,
    promises_take_no_time, taken_tasks_take_no_time,
};
use trace_text::Lines;

/// As a host the page only adds lines: whatever events stand before them, it answers the same, and leaves those as they are.
pub fn the_page_only_adds_lines_as_a_host()
    ensures { (before : List Stamped) → RulesFollow (hosting_after before) page_rules page_rules }
{}

/// So a page that hands its lines on to an object answers as one that keeps its events, and the object has been told these.
pub fn lines_are_handed_on<L: Lines>()
    ensures { (told : Option L.Told) (stopped : Option NoLine) → HandsItsLinesOn L.keeping told stopped }
{}

/// A call of a script's function around a page within bounds that hands its lines on ends as the model's call, in which callbacks
/// nest: with the same value, variables, fuel and page, and the lines of the page's events were handed on.
pub fn calls_hand_on_the_lines_of_the_model<L: Lines>()
    ensures { (told : Option L.Told) (stopped : Option NoLine) → CallsEndLined L.keeping told stopped }
{}

/// A call that was stopped has handed on a start of the whole call's lines: behind it a line was not taken, or memory was wanting.
pub fn stopped_calls_hand_on_a_start<L: Lines>()
    ensures refused { (told : Option L.Told) (stopped : Option NoLine) → RefusedCallsLeaveAStart L.keeping told stopped }
    ensures passed { (told : Option L.Told) (stopped : Option NoLine) → PassedCallsLeaveAStart L.keeping told stopped }
{}
