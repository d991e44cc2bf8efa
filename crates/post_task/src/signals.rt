ghost use Rattle.std.specs.Prelude.{◌≡◌, ℕ, None, Some, OnOk, OnErr};
ghost use Rattle.std.specs.BTreeMap.{get};
ghost use Rattle.std.specs.Ordering.{nat_cmp};
ghost use Rattle.post_task.specs.Levels.{Notes};

use crate::PrioSource;
use std::collections::BTreeMap;
use task_pool::MemoryFault;

/// The place of a signal is known from now on. A fixed priority is not looked up by a number.
///
/// An error leaves all as it was.
pub fn note_place(
    signals: &mut BTreeMap<u32, usize>,
    source: PrioSource,
    place: usize,
) -> Result<(), MemoryFault>
    ensures noted { OnOk result (Notes source (Some place) signals.old signals.new) }
    ensures err { OnErr result ((s : ℕ) → get nat_cmp signals.new s ≡ get nat_cmp signals.old s) }
{
    if let PrioSource::Signal(s) = source {
        signals.insert(s, place)?;
    }
    Ok(())
}

/// The place of a signal is known no more. Takes no memory.
pub fn forget_place(signals: &mut BTreeMap<u32, usize>, source: PrioSource)
    ensures { Notes source None signals.old signals.new }
{
    if let PrioSource::Signal(s) = source {
        signals.remove(&s);
    }
}
