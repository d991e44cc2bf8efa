//! The choosers beside the definition of a run.

ghost use Rattle.loop_policy.specs.Laws.{WrittenSources, RecordedSources};

/// A law: a `PolicyChooser` gives the sources that the written choices of a run give, one after another.
pub fn policy_chooser_is_written()
    ensures { WrittenSources }
{}

/// A law: a `RecordedChooser` gives the sources that the recorded choices of a run give, refuses where the run is stuck,
/// and leaves the sources that they leave.
pub fn recorded_chooser_is_recorded()
    ensures { RecordedSources }
{}
