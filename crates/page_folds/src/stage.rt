ghost use Rattle.std.specs.Prelude.{◌≡◌, IfOk, IsTrue};
ghost use Rattle.page_values.specs.Texts.{is_text};
ghost use Rattle.std.specs.Vec.Iter.{into_iter_items};
ghost use Rattle.page_folds.specs.Steps.{algorithm_next, stage_next, listener_next, fired};
ghost use Rattle.page_folds.specs.Seen.{stage_seen, advance_seen};
ghost use Rattle.page_folds.specs.Calls.{calls};

use crate::{FoldStep, MemoryFault};
use page_events::{Dispatch, Listeners, Target};
use page_values::Str;
use std::alloc::Global;
use std::vec;
use task_signal::Priority;

// What a fold is at between two steps.
#[derive(Drop)]
pub(crate) enum Stage {
    // Nothing has begun of what is left.
    Between,
    // The abort algorithms of a signal that are left. After them `abort` is fired at it.
    Algorithms {
        signal: u32,
        left: vec::IntoIter<u64>,
    },
    // The priority of a signal was set, which is still to be told.
    ToTell {
        signal: u32,
        before: Priority,
    },
    // `prioritychange` is to be fired at a signal.
    ToFire {
        signal: u32,
    },
    // The listeners of a dispatch that are left.
    Calling {
        target: Target,
        left: Dispatch,
    },
}

// A step, and the stage after it.
#[derive(Drop)]
pub(crate) struct Advance {
    pub step: FoldStep,
    pub stage: Stage,
}

impl Stage {
    // The next step of a stage, none exactly where it is over.
    pub(crate) fn advance(
        self,
        alloc: Global,
        listeners: &Listeners,
    ) -> Result<Option<Advance>, MemoryFault>
        ensures { IfOk result (λ next. advance_seen next ≡ stage_next listeners.now (stage_seen self)) }
    {
        match self {
            Stage::Between => Ok(None),
            Stage::Algorithms { signal, left } => { next_algorithm(alloc, listeners, signal, left) }
            Stage::ToTell { signal, before } => Ok(Some(Advance {
                step: FoldStep::Changed { signal, before },
                stage: Stage::ToFire { signal },
            })),
            Stage::ToFire { signal } => fire(alloc, listeners, signal, b"prioritychange"),
            Stage::Calling { target, left } => Ok(next_listener(listeners, target, left)),
        }
    }

    // Whether listeners are called.
    pub(crate) fn is_calling(&self) -> bool
        ensures { result ≡ calls (stage_seen self.now) }
    {
        match self {
            Stage::Calling { .. } => true,
            _ => false,
        }
    }
}

// The next abort algorithm of a signal. After the last one `abort` is fired at it.
fn next_algorithm(
    alloc: Global,
    listeners: &Listeners,
    signal: u32,
    mut left: vec::IntoIter<u64>,
) -> Result<Option<Advance>, MemoryFault>
    ensures { IfOk result (λ next. advance_seen next ≡ algorithm_next listeners.now signal (into_iter_items left)) }
{
    match left.next() {
        Some(algorithm) => Ok(Some(Advance {
            step: FoldStep::Algorithm(algorithm),
            stage: Stage::Algorithms { signal, left },
        })),
        None => fire(alloc, listeners, signal, b"abort"),
    }
}

// An event of this name is fired at a signal: its first listener.
fn fire(
    alloc: Global,
    listeners: &Listeners,
    signal: u32,
    name: &[u8],
) -> Result<Option<Advance>, MemoryFault>
    requires { IsTrue (is_text name.now) }
    ensures { IfOk result (λ next. advance_seen next ≡ fired listeners.now name.now signal) }
{
    let name = Str::new(Vec::from_slice(alloc, name)?);
    let target = Target::Signal(signal);
    let left = listeners.begin(target, &name)?;
    Ok(next_listener(listeners, target, left))
}

// The next listener of a dispatch that was not removed.
fn next_listener(listeners: &Listeners, target: Target, mut left: Dispatch) -> Option<Advance>
    ensures { advance_seen result ≡ listener_next listeners.now target left }
{
    let registration = listeners.next(&mut left)?;
    Some(Advance {
        step: FoldStep::Listener {
            target,
            registration,
        },
        stage: Stage::Calling { target, left },
    })
}
