//! What two clocks answer to waits, one after another.

use crate::rows::expect_met;
use page_base::{Clock, Micros, NoReading, RecordedClock, ScriptClock};
use std::alloc::{AllocError, Global};
use std::test::Fail;

// A wait until a moment, and what it answers.
type Wait = (Micros, Result<Micros, NoReading>);

const PAST: Micros = Micros(1 << 63);

const LAST: Micros = Micros((1 << 63) - 1);

fn waits_all<C: Clock>(clock: &mut C, waits: &[Wait]) -> bool {
    for (at_least, reading) in waits {
        if 1_000_000 <= at_least.0 || clock.wait(*at_least) != *reading {
            return false;
        }
    }
    true
}

// The clock of a script, whose first two waits are late, or one of readings that were recorded.
#[derive(Clone, Copy)]
enum Times {
    Late,
    Readings(&'static [Micros]),
}

use Times::{Late, Readings};

fn are_late(alloc: Global, waits: &[Wait]) -> Result<bool, AllocError> {
    let mut clock = ScriptClock::new([500, 1_000_000].to_vec(alloc)?);
    let are_late = waits_all(&mut clock, waits);
    drop(clock);
    Ok(are_late)
}

fn are_read(alloc: Global, readings: &[Micros], waits: &[Wait]) -> Result<bool, AllocError> {
    let mut clock = RecordedClock::new(readings.to_vec(alloc)?);
    let are_read = waits_all(&mut clock, waits);
    drop(clock);
    Ok(are_read)
}

fn are_answered(alloc: Global, times: Times, waits: &[Wait]) -> Result<bool, AllocError> {
    match times {
        Late => are_late(alloc, waits),
        Readings(readings) => are_read(alloc, readings, waits),
    }
}

const CLOCKS: [(Times, &'static [Wait]); 3] = [
    // Each lateness is used once.
    (
        Late,
        &[
            (Micros(1_000), Ok(Micros(1_500))),
            (Micros(200_000), Ok(Micros(1_200_000))),
            (Micros(301_500), Ok(Micros(301_500))),
            (Micros(0), Ok(Micros(0))),
        ],
    ),
    // A reading that does not fit is refused and stays.
    (
        Readings(&[Micros(5), Micros(3), PAST]),
        &[
            (Micros(5), Ok(Micros(5))),
            (Micros(4), Err(NoReading)),
            (Micros(3), Ok(Micros(3))),
            (Micros(0), Err(NoReading)),
        ],
    ),
    // The last reading of 63 bits is told once.
    (
        Readings(&[LAST]),
        &[(Micros(0), Ok(LAST)), (Micros(0), Err(NoReading))],
    ),
];

#[test]
fn latenesses_and_readings_are_used_once_in_order(rt: HostRuntime) -> Result<(), Fail> {
    for (number, (times, waits)) in CLOCKS.iter().enumerate() {
        expect_met(&rt, are_answered(rt.alloc(), *times, *waits)?, number);
    }
    Ok(())
}
