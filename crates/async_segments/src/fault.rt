//! Why a script was not expanded.

ghost use Rattle.std.specs.Prelude.{◌≡◌};
ghost use Rattle.async_segments.specs.declared.fault.ExpandFault.TheVariants.{OutOfMemory};

use std::alloc::{AllocError, AllocFailed};
use thiserror::Error;

/// The bytes are no async script.
#[derive(Clone, Copy, Debug, PartialEq, Eq, Error)]
#[error("not an async script")]
pub struct NotAsync;

/// Why [`expand`](crate::expand) gave no script.
#[derive(Clone, Copy, Debug, PartialEq, Eq, Error)]
pub enum ExpandFault {
    #[error(transparent)]
    Is(NotAsync),
    #[error("out of memory")]
    OutOfMemory,
}

impl From<AllocError> for ExpandFault {
    ghost from_gives = { λ _ e. e ≡ OutOfMemory };

    fn from(_e: AllocError) -> ExpandFault {
        ExpandFault::OutOfMemory
    }
}

impl<T: Drop> From<AllocFailed<T>> for ExpandFault {
    ghost from_gives = { λ _ e. e ≡ OutOfMemory };

    fn from(_e: AllocFailed<T>) -> ExpandFault {
        ExpandFault::OutOfMemory
    }
}
