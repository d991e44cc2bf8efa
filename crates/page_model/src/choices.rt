//! The law that choices are data: a run is determined by the choices that stand in its lines.

ghost use Rattle.page_types.specs.Tree.{Program};
ghost use Rattle.page_model.specs.ChoiceLaws.{RunsAreMadeAgain, EventsOfRunsAreLegal, ChoicesDetermineRuns, FurtherChoicesAreLeft};

use crate::choosing::Choosing;

/// A run by whatever rules is the run by the lists of the choices in its own lines: it ends the same, or is stuck the same, in the same
/// state, and no choice is left. So the events of a run that ended are legal.
pub fn choices_are_data<R: Choosing>()
    ensures again { (program : Program) → RunsAreMadeAgain R.rules program }
    ensures legal { (program : Program) → EventsOfRunsAreLegal R.rules program }
{}

/// So the choices that stand in the lines of a run determine it, whatever the rules: two runs with the same choices end the same, or are
/// stuck the same, in the same state.
pub fn choices_determine_the_run<R: Choosing, S: Choosing>()
    ensures { (program : Program) → ChoicesDetermineRuns R.rules S.rules program }
{}

/// Further choices behind the lists are left over where a run has ended, and where it is stuck its lines come first.
pub fn further_choices_are_left()
    ensures { (program : Program) → FurtherChoicesAreLeft program }
{}
