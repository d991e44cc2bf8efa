//! Why a value was not made.

ghost use Rattle.std.specs.Prelude.{◌≡◌};
ghost use Rattle.page_values.specs.declared.faults.ValueFault.TheVariants as value;

use page_base::MemoryFault;
use std::alloc::{AllocError, AllocFailed};
use thiserror::Error;

/// The value would weigh more than 65,536, or its lists and bound lists would nest more than 64 deep.
#[derive(Clone, Copy, Debug, PartialEq, Eq, Error)]
#[error("the value is too heavy")]
pub struct TooHeavy;

/// Why a value was not made.
#[derive(Clone, Copy, Debug, PartialEq, Eq, Error)]
pub enum ValueFault {
    #[error(transparent)]
    Is(TooHeavy),
    #[error("out of memory")]
    OutOfMemory,
}

impl From<AllocError> for ValueFault {
    ghost from_gives = { λ _ e. e ≡ value.OutOfMemory };

    fn from(_e: AllocError) -> ValueFault {
        ValueFault::OutOfMemory
    }
}

impl<T: Drop> From<AllocFailed<T>> for ValueFault {
    ghost from_gives = { λ _ e. e ≡ value.OutOfMemory };

    fn from(_e: AllocFailed<T>) -> ValueFault {
        ValueFault::OutOfMemory
    }
}

impl From<MemoryFault> for ValueFault {
    ghost from_gives = { λ _ e. e ≡ value.OutOfMemory };

    fn from(_e: MemoryFault) -> ValueFault {
        ValueFault::OutOfMemory
    }
}
