//! What the time is after a wait.

ghost use Rattle.std.specs.Prelude.{◌≡◌, ℕ, ◌+◌, ◌<◌, ◌≤◌, ◌^◌, List, Option, IfOk};
ghost use Rattle.page_types.specs.Counts.{refusals_after};
ghost use Rattle.page_types.specs.Told.{FollowsRule};
ghost use Rattle.page_base.specs.Readings.{AreShort, late_reading, kept_reading, reading_of};
ghost use Rattle.page_base.specs.Clocks.{numbers_of};

use crate::Micros;
use std::marker::Model;

/// The clock gave no reading.
#[derive(Clone, Copy, Debug, PartialEq, Eq)]
pub struct NoReading;

/// Answers what the time is after a wait.
pub trait Clock {
    /// What it holds, of which the next readings are a function.
    ghost Held: { Type 0 };

    ghost held: { Self → Held };

    /// The reading for a wait until a moment, and what is held then. None where it refuses.
    ghost rule: { Held → ℕ → Option (ℕ × Held) };

    /// How often it has refused. The count never falls, and stays at the end of a `u64`.
    ghost refusals: { Self → ℕ };

    /// The moment at which a wait until `at_least` ends: that moment or a later one, below 2^63 microseconds. Takes no
    /// memory.
    ///
    /// `NoReading` comes exactly where the count of refusals rose; then what is held stays.
    fn wait(&mut self, at_least: Micros) -> Result<Micros, NoReading>
        requires { at_least.0 < 2 ^ 62 }
        ensures reading { FollowsRule (rule (held self.old) at_least.0) (held self.old) (reading_of result) (held self.new) }
        ensures legal { IfOk result (λ reading. (at_least.0 ≤ reading.0) × (reading.0 < 2 ^ 63)) }
        ensures refused { refusals self.new ≡ refusals_after (refusals self.old) result };
}

/// Answers the moment waited for plus the next lateness of a list, and that moment alone where the list is spent. It
/// never refuses. It is seen as the latenesses that are left.
#[derive(Drop)]
pub struct ScriptClock {
    late: Vec<u64>,
    next: usize,
}

impl Model for ScriptClock {
    ghost use Rattle.std.specs.Prelude.{ℕ, List, drop};
    ghost use Rattle.page_base.specs.Readings.{AreShort};

    ghost Value = { List ℕ };

    ghost view = { λ clock. drop clock.next clock.late.items };

    ghost invariant = { λ clock. AreShort clock.late.items };
}

impl ScriptClock {
    /// A clock by this list of microseconds. Takes no memory.
    pub fn new(late: Vec<u64>) -> ScriptClock
        requires { AreShort late.items }
        ensures { result ≡ late.items }
    {
        ScriptClock { late, next: 0 }
    }
}

impl Clock for ScriptClock {
    ghost Held = { List ℕ };

    ghost held = { λ clock. clock };

    ghost rule = { late_reading };

    ghost refusals = { λ _. 0 };

    fn wait(&mut self, at_least: Micros) -> Result<Micros, NoReading> {
        match self.late.get(self.next) {
            Some(lateness) => {
                let reading = at_least.0 + *lateness;
                self.next += 1;
                Ok(Micros(reading))
            }
            None => Ok(at_least),
        }
    }
}

/// Answers the readings of a list, one after another. It is seen as those that are left, and how often it has refused.
#[derive(Drop)]
pub struct RecordedClock {
    readings: Vec<Micros>,
    next: usize,
    refused: u64,
}

impl Model for RecordedClock {
    ghost use Rattle.std.specs.Prelude.{drop};
    ghost use Rattle.page_base.specs.Clocks.{Readings, numbers_of};

    ghost Value = { Readings };

    ghost view = { λ clock. record { left = numbers_of (drop clock.next clock.readings.items); refusals = clock.refused } };
}

impl RecordedClock {
    /// A clock by this list. Takes no memory.
    pub fn new(readings: Vec<Micros>) -> RecordedClock
        ensures { result ≡ record { left = numbers_of readings.items; refusals = 0 } }
    {
        RecordedClock {
            readings,
            next: 0,
            refused: 0,
        }
    }
}

impl Clock for RecordedClock {
    ghost Held = { List ℕ };

    ghost held = { λ clock. clock.left };

    ghost rule = { kept_reading };

    ghost refusals = { λ clock. clock.refusals };

    /// `NoReading` comes exactly where no reading is left, or the next one is before `at_least` or not below 2^63; then
    /// the list stays.
    fn wait(&mut self, at_least: Micros) -> Result<Micros, NoReading> {
        if let Some(reading) = self.readings.get(self.next) {
            let reading = *reading;
            if at_least.0 <= reading.0 && reading.0 < 1 << 63 {
                self.next += 1;
                return Ok(reading);
            }
        }
        self.refused = self.refused.saturating_add(1);
        Err(NoReading)
    }
}
