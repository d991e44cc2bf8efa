//! Why a priority was not changed.
ghost use Rattle.std.specs.Prelude.{◌≡◌};
ghost use Rattle.task_signal.specs.declared.fault.ChangeFault.TheVariants as change;

use std::alloc::AllocError;
use thiserror::Error;

/// A change of this signal's priority is in progress.
#[derive(Clone, Copy, Debug, PartialEq, Eq, Error)]
#[error("a change of this priority is in progress")]
pub struct Changing;

/// Why a priority was not changed.
#[derive(Clone, Copy, Debug, PartialEq, Eq, Error)]
pub enum ChangeFault {
    #[error(transparent)]
    Is(Changing),
    #[error("out of memory")]
    OutOfMemory,
}

impl From<AllocError> for ChangeFault {
    ghost from_gives = { λ _ e. e ≡ change.OutOfMemory };

    fn from(_e: AllocError) -> ChangeFault {
        ChangeFault::OutOfMemory
    }
}
