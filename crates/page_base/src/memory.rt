//! Want of memory.

ghost use Rattle.std.specs.Prelude.{◌≡◌};
ghost use Rattle.page_base.specs.declared.memory.MemoryFault.TheVariants.{OutOfMemory};

use std::alloc::{AllocError, AllocFailed};
use thiserror::Error;

/// Why a call was not done that fails for want of memory alone. Its contract says what it leaves then.
#[derive(Clone, Copy, Debug, PartialEq, Eq, Error)]
pub enum MemoryFault {
    #[error("out of memory")]
    OutOfMemory,
}

impl From<AllocError> for MemoryFault {
    ghost from_gives = { λ _ e. e ≡ OutOfMemory };

    fn from(_e: AllocError) -> MemoryFault {
        MemoryFault::OutOfMemory
    }
}

impl<T: Drop> From<AllocFailed<T>> for MemoryFault {
    ghost from_gives = { λ _ e. e ≡ OutOfMemory };

    fn from(_e: AllocFailed<T>) -> MemoryFault {
        MemoryFault::OutOfMemory
    }
}
