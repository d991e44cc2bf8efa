//! Folds by steps, and what a page does with a fold.
ghost use Rattle.std.specs.Prelude.{ℕ, List};
ghost use Rattle.page_types.specs.Values.{Value};
ghost use Rattle.page_types.specs.declared.Priority.{Priority};
ghost use Rattle.page_events.specs.declared.target.Target.{Target};
ghost use Rattle.page_model.specs.State.{Page};
ghost use Rattle.page_folds.specs.Steps.{Parts, OpenFold};
ghost use Rattle.page_folds.specs.OfModel.{Kind, StepIs, NumbersAre, DispatchesBegin, AbortIs, ChangeIs};

/// The steps of a fold are those that a page takes, in order: what a page does with an open fold is to do what the next step says,
/// and then what it does with the fold after that step. What it does where a fold begins is what it does with the fold that begins
/// here. A fold goes on in the same way where the reasons of signals are numbers and where they are the values with these numbers.
/// It does nothing when it runs.
pub fn steps_are_those_of_a_page()
    ensures step { (kind : Kind) (fold : OpenFold) (ps : Parts Value) (p : Page) → StepIs kind fold ps p }
    ensures numbers { (f : ℕ → Value) (fold : OpenFold) (ps : Parts ℕ) → NumbersAre f fold ps }
    ensures dispatch { (args : List Value) (target : Target) (name : List ℕ) → DispatchesBegin args target name }
    ensures abort { (s : ℕ) (reason : Value) (ps : Parts Value) (p : Page) → AbortIs s reason ps p }
    ensures change { (s : ℕ) (priority : Priority) (ps : Parts Value) (p : Page) → ChangeIs s priority ps p }
{}
