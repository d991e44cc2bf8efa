//! The laws of turns, for runs in pieces.

ghost use Rattle.page_types.specs.Tree.{Program};
ghost use Rattle.page_model.specs.LineLaws.{ActsOnlyGiveLines};
ghost use Rattle.page_model.specs.ActLaws.{ServingGoesForward, ActsGoForward, RunsByActsGoForward, ActsKeepOneDeep, ActsKeepGiven, RunsByActsAreGiven, RunsByActsAreMadeAgain, ChoicesDetermineRunsByActs, FurtherChoicesOfActsAreLeft, RunsByActsAreAlike, ActsByStepsAreTheSame, ActsKeepBounds};

use crate::choosing::Choosing;
use crate::likeness::Likeness;

/// The acts of a run in pieces only give lines too: with any events before their own they do the same, and leave those as they are.
pub fn acts_only_give_lines<R: Choosing>()
    ensures { (program : Program) → ActsOnlyGiveLines R.rules program }
{}

/// Acts go forward, by whatever rules: fuel never rises and time never falls. A task that is served takes a unit of fuel at least.
pub fn acts_go_forward<R: Choosing>()
    ensures served { (program : Program) → ServingGoesForward R.rules program }
    ensures many { (program : Program) → ActsGoForward R.rules program }
    ensures whole_run { (program : Program) → RunsByActsGoForward R.rules program }
{}

/// A signal that is followed follows none, whatever acts do.
pub fn following_stays_one_deep_by_acts<R: Choosing>()
    ensures { (program : Program) → ActsKeepOneDeep R.rules program }
{}

/// Acts keep that each number was given out before, and so it is in each state that a run in pieces reaches.
pub fn acts_keep_numbers_given<R: Choosing>()
    ensures many { (program : Program) → ActsKeepGiven R.rules program }
    ensures whole_run { (program : Program) → RunsByActsAreGiven R.rules program }
{}

/// A run in pieces by whatever rules is the run by the lists of the choices in its own lines, by the same acts; no choice is left.
pub fn choices_of_acts_are_data<R: Choosing>()
    ensures { (program : Program) → RunsByActsAreMadeAgain R.rules program }
{}

/// So the choices that stand in the lines of a run in pieces determine it, whatever the rules.
pub fn choices_determine_a_run_by_acts<R: Choosing, S: Choosing>()
    ensures { (program : Program) → ChoicesDetermineRunsByActs R.rules S.rules program }
{}

/// Further choices behind the lists are left over where a run in pieces has ended or goes on, and where it is stuck its lines come first.
pub fn further_choices_of_acts_are_left()
    ensures { (program : Program) → FurtherChoicesOfActsAreLeft program }
{}

/// By rules that choose alike, runs in pieces go alike.
pub fn runs_by_acts_are_alike<L: Likeness>()
    ensures { (program : Program) → RunsByActsAreAlike L.rules L.others L.Together program }
{}

/// Acts from a page within bounds are the same where scripts are called by steps, and leave a page within bounds.
pub fn acts_by_steps_are_the_acts<R: Choosing>()
    ensures same { (program : Program) → ActsByStepsAreTheSame R.rules program }
    ensures bounded { (program : Program) → ActsKeepBounds R.rules program }
{}
