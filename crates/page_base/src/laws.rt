//! The clocks beside the definition of a run.

ghost use Rattle.page_base.specs.Laws.{WrittenReadings, RecordedReadings};

/// A law: a `ScriptClock` reads as the written choices of a run do, and leaves the latenesses that they leave.
pub fn script_clock_is_written()
    ensures { WrittenReadings }
{}

/// A law: a `RecordedClock` reads as the recorded choices of a run do, refuses where the run is stuck, and leaves the
/// readings that they leave.
pub fn recorded_clock_is_recorded()
    ensures { RecordedReadings }
{}
