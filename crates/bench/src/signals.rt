use abort_graph::Signals;
use page_events::{Listeners, Target};
use page_values::Str;
use std::alloc::Global;

// The name of the events.
fn abort(alloc: Global) -> Result<Str, page_events::MemoryFault> {
    Ok(Str::new(Vec::from_slice(alloc, b"abort")?))
}

// Listeners, one at each signal.
fn listening(alloc: Global, name: &Str, n: u32) -> Result<Listeners, page_events::MemoryFault> {
    let mut listeners = Listeners::new(alloc);
    for s in 0..n {
        listeners.add(Target::Signal(s), name, s)?;
    }
    Ok(listeners)
}

/// Fires an event at each of the signals, each of which has one listener.
pub(crate) fn dispatched(alloc: Global, n: u32) -> Result<u32, page_events::MemoryFault> {
    let name = abort(alloc)?;
    let listeners = listening(alloc, &name, n)?;
    let mut called = 0u32;
    for s in 0..n {
        let mut dispatch = listeners.begin(Target::Signal(s), &name)?;
        if listeners.next(&mut dispatch).is_some() {
            called = called.saturating_add(1);
        }
    }
    Ok(called)
}

/// Removes each listener, and adds it again.
pub(crate) fn again(alloc: Global, n: u32) -> Result<u32, page_events::MemoryFault> {
    let name = abort(alloc)?;
    let mut listeners = listening(alloc, &name, n)?;
    let mut again = 0u32;
    for s in 0..n {
        if listeners.off(s) {
            listeners.add(Target::Signal(s), &name, s)?;
            again = again.saturating_add(1);
        }
    }
    Ok(again)
}

/// Aborts each of the signals, and takes its one abort algorithm.
pub(crate) fn aborted(alloc: Global, n: u32) -> Result<u32, abort_graph::MemoryFault> {
    let mut signals = Signals::new(alloc);
    for _made in 0..n {
        signals.make()?;
    }
    for i in 0..n {
        signals.add_algorithm(i + 1, u64::from(i))?;
    }
    let mut taken = 0u32;
    for i in 0..n {
        let marked = signals.abort_mark(i + 1, i)?;
        for s in marked.signals() {
            if !signals.take_algorithms(*s).is_empty() {
                taken = taken.saturating_add(1);
            }
        }
    }
    Ok(taken)
}
