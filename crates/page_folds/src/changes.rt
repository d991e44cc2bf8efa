ghost use Rattle.std.specs.Prelude.{◌≡◌, ◌<◌, ◌∷◌, IfOk, OnErr, OnOk};
ghost use Rattle.std.specs.VecDeque.{deque_len, deque_capacity};
ghost use Rattle.page_folds.specs.Seen.{IsBegun, TellsOn};
ghost use Rattle.page_folds.specs.AtRest.{at_rest};

use crate::MemoryFault;
use std::collections::VecDeque;
use std::vec;
use task_signal::{ChangeFault, Priority, Prios};

// A change of a signal's priority that is in progress.
#[derive(Drop)]
pub(crate) struct Level {
    pub signal: u32,
    // Those of the signals that followed it at the start that are still to be changed.
    pub followers: vec::IntoIter<u32>,
    // How long a chain of followers may be from one of these on.
    pub chain: usize,
}

// The changes to a priority that are in progress, the innermost first.
#[derive(Drop)]
pub(crate) struct Changes {
    pub priority: Priority,
    pub levels: VecDeque<Level>,
}

// A change that has begun, and the priority before it.
#[derive(Drop)]
pub(crate) struct Begun {
    pub before: Priority,
    pub level: Level,
}

// The next change, which is to be told, and what is left then.
#[derive(Drop)]
pub(crate) struct Told {
    pub signal: u32,
    pub before: Priority,
    pub left: Changes,
}

impl Changes {
    // Begins the next change that is not passed over, and ends those that are over on the way. None exactly where all are over. For want
    // of memory changes may have ended, and no priority is another.
    pub(crate) fn advance(self, prios: &mut Prios) -> Result<Option<Told>, MemoryFault>
        ensures told { IfOk result (λ told. TellsOn self prios.old told prios.new) }
        ensures err { OnErr result (at_rest prios.new ≡ at_rest prios.old) }
    {
        let Changes {
            priority,
            mut levels,
        } = self;
        while let Some(mut level) = levels.pop_front() {
            let Some(signal) = level.followers.next() else {
                prios.finish(level.signal);
                continue;
            };
            let chain = level.chain;
            put_back(&mut levels, level)?;
            if let Some(begun) = begin(chain, signal, priority, prios)? {
                levels.push_front_reserved(begun.level);
                return Ok(Some(Told {
                    signal,
                    before: begun.before,
                    left: Changes { priority, levels },
                }));
            }
        }
        Ok(None)
    }
}

// A change is the innermost one again, with room for one more.
fn put_back(levels: &mut VecDeque<Level>, level: Level) -> Result<(), MemoryFault>
    ensures items { OnOk result (levels.new.items ≡ level ∷ levels.old.items) }
    ensures room { OnOk result (deque_len levels.new < deque_capacity levels.new) }
{
    levels.reserve(2)?;
    levels.push_front_reserved(level);
    Ok(())
}

// Begins a change of a signal, none exactly where it is passed over. For want of memory nothing changes.
fn begin(
    chain: usize,
    signal: u32,
    priority: Priority,
    prios: &mut Prios,
) -> Result<Option<Begun>, MemoryFault>
    ensures begun { IfOk result (λ begun. IsBegun chain signal priority prios.old begun prios.new) }
    ensures err { OnErr result (prios.new ≡ prios.old) }
{
    let Some(chain) = chain.checked_sub(1) else {
        return Ok(None);
    };
    if prios.priority(signal).is_none() {
        return Ok(None);
    }
    match prios.change(signal, priority) {
        Ok(Some(moved)) => Ok(Some(Begun {
            before: moved.before,
            level: Level {
                signal,
                followers: moved.dependents.into_iter(),
                chain,
            },
        })),
        Ok(None) | Err(ChangeFault::Is(_)) => Ok(None),
        Err(ChangeFault::OutOfMemory) => Err(MemoryFault::OutOfMemory),
    }
}
