ghost use Rattle.std.specs.Prelude.{◌≡◌, IfOk};
ghost use Rattle.page_events.specs.Seen.{seen_target, target_at};

use crate::{MemoryFault, Target};
use page_values::Str;
use std::alloc::Global;

// Which events a listener is for: those of this name at a signal, or at the window where there is none.
#[derive(PartialEq, Eq, PartialOrd, Ord, Drop)]
pub(crate) struct Kind {
    pub signal: Option<u32>,
    pub name: Vec<u8>,
}

// The kind of the events of this name at a target.
pub(crate) fn kind_of(alloc: Global, target: Target, name: &Str) -> Result<Kind, MemoryFault>
    ensures target { IfOk result (λ kind. target_at kind.signal ≡ seen_target target) }
    ensures name { IfOk result (λ kind. kind.name.items ≡ name.now) }
{
    let signal = match target {
        Target::Window => None,
        Target::Signal(n) => Some(n),
    };
    let name = Vec::from_slice(alloc, name.bytes())?;
    Ok(Kind { signal, name })
}
