ghost use Rattle.std.specs.Prelude.{◌≤◌, IfOk};

use page_base::Micros;
use std::alloc::Global;
use timer_map::{MemoryFault, Timers};

const START: Micros = Micros(0);

// When all are due.
const LATER: Micros = Micros(8000);

// A map with timers that are due within 8 milliseconds.
fn started(alloc: Global, n: u32) -> Result<Timers, MemoryFault>
    ensures { IfOk result (λ timers. (timers.handles_made ≤ n) × (timers.starts_made ≤ n)) }
{
    let mut timers = Timers::new(alloc);
    for i in 0..n {
        timers.init(None, false, i64::from(i % 8), 0, START)?;
    }
    Ok(timers)
}

/// Sets timers, and completes and clears them in order.
pub(crate) fn completed(alloc: Global, n: u32) -> Result<u32, MemoryFault> {
    let mut timers = started(alloc, n)?;
    let mut completed = 0u32;
    for i in 0..n {
        if timers.complete(LATER).is_some() && timers.clear(i + 1) {
            completed = completed.saturating_add(1);
        }
    }
    Ok(completed)
}

/// Sets intervals, and initialises each again.
pub(crate) fn again(alloc: Global, n: u32) -> Result<u32, MemoryFault> {
    let mut timers = started(alloc, n)?;
    let mut again = 0u32;
    for i in 0..n {
        let armed = timers.init(Some(i + 1), true, 0, 1, START)?;
        if timers.live(i + 1, armed.handle) {
            again = again.saturating_add(1);
        }
    }
    Ok(again)
}
