use idle_periods::{Idle, MemoryFault};
use std::alloc::Global;

/// Requests idle callbacks, and takes them by their timeouts in order.
pub(crate) fn timed_out(alloc: Global, n: u32) -> Result<u32, MemoryFault> {
    let mut idle = Idle::new(alloc);
    for i in 0..n {
        idle.request(i)?;
    }
    idle.start()?;
    let mut taken = 0u32;
    for i in 0..n {
        if idle.find_timeout(i + 1).is_some() {
            taken = taken.saturating_add(1);
        }
    }
    Ok(taken)
}
