//! How long the answers of host closures take.
ghost use Rattle.std.specs.Prelude.{◌≡◌, map, IfOk};
ghost use Rattle.page_model.specs.Operations as model;
ghost use Rattle.arrivals_text.specs.SeenParts.{latency_of};
ghost use Rattle.page_state.specs.Seen.{latency_seen};

use indexmap::IndexMap;
use page_base::Micros;
use page_values::MemoryFault;
use std::alloc::Global;

/// The latency of closure `k`, and 0 where no line of the arrivals file gives it. It costs a look-up. Takes no memory.
pub(crate) fn latency_in(latencies: &IndexMap<u32, Micros>, k: u32) -> Micros
    ensures { result.0 ≡ model.latency_of (map latency_seen latencies.now.entries) k }
{
    match latencies.get(&k) {
        Some(latency) => *latency,
        None => Micros(0),
    }
}

/// The latencies that a setup gives, by the numbers of the closures.
///
/// Want of memory is told also where a closure has two of them, which no setup gives.
pub(crate) fn latencies_given(
    alloc: Global,
    hosts: &[(u32, u64)],
) -> Result<IndexMap<u32, Micros>, MemoryFault>
    ensures { IfOk result (λ latencies. map latency_seen latencies.entries ≡ map latency_of hosts.now) }
{
    let mut latencies = IndexMap::new(alloc);
    for host in hosts {
        if latencies.contains_key(&host.0) {
            return Err(MemoryFault::OutOfMemory);
        }
        match latencies.insert(host.0, Micros(host.1)) {
            Ok(_) => {}
            Err(_) => return Err(MemoryFault::OutOfMemory),
        }
    }
    Ok(latencies)
}
