//! How a turn begins, waits and ends the run is what the model's turn does. Laws alone, as functions with empty bodies.

ghost use Rattle.std.specs.Prelude.{◌≡◌, ◌≤◌, ℕ, Option};
ghost use Rattle.page_types.specs.declared.Source.{Source};
ghost use Rattle.page_types.specs.declared.End.TheVariants.{Clock};
ghost use Rattle.page_types.specs.Events.{EndLine};
ghost use Rattle.page_model.specs.State.{Page, State, emit};
ghost use Rattle.page_state.specs.Standing.{Standing};
ghost use Rattle.page_host.specs.Turning.{run_ended, model_turn, model_wait, page_turn, page_wait};

/// A turn begins as the model's: a unit of fuel is taken and the turn is counted, and then comes its line.
pub fn turns_begin_as_in_the_model()
    ensures { (source : Option Source) (left : ℕ) (m : State) → model_turn source left m ≡ page_turn source left m }
{}

/// A wait ends as the model's: the reading becomes the time, and then comes the line.
pub fn waits_end_as_in_the_model()
    ensures { (target reading : ℕ) (s : Standing) → page_wait target reading s ≡ model_wait target reading s }
{}

/// Where the time is up already, a run that ends by the clock ends with its line alone.
pub fn runs_end_when_the_time_is_up()
    ensures { (until : ℕ) (p : Page) → until ≤ p.now → run_ended until Clock p ≡ emit (EndLine Clock) p }
{}
