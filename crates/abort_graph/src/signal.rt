ghost use Rattle.std.specs.Prelude.{◌≡◌};
ghost use Rattle.abort_graph.specs.Seen.{signal_seen};
ghost use Rattle.abort_graph.specs.Dependents.{new_signal};

use crate::algorithms::Algorithms;
use std::alloc::Global;

// An abort signal. Signals are their numbers.
#[derive(Drop)]
pub(crate) struct Signal<R> {
    pub reason: Option<R>,
    pub sources: Vec<u32>,
    pub dependents: Vec<u32>,
    pub algorithms: Algorithms,
}

impl<R> Signal<R> {
    // A new signal, with its reason where it is aborted, and its source signals. Takes no memory.
    pub(crate) fn new(alloc: Global, reason: Option<R>, sources: Vec<u32>) -> Signal<R>
        ensures { signal_seen result ≡ new_signal reason sources.items }
    {
        Signal {
            reason,
            sources,
            dependents: Vec::new(alloc),
            algorithms: Algorithms::new(alloc),
        }
    }
}
