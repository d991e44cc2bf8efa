//! Why a script has no program.

ghost use Rattle.std.specs.Prelude.{◌≡◌};
ghost use Rattle.lang_names.specs.declared.fault.ResolveFault.TheVariants.{OutOfMemory};

use page_values::MemoryFault;
use std::alloc::AllocError;
use thiserror::Error;

/// What is wrong with a name, and the byte of the script at which it stands.
#[derive(Clone, Copy, Debug, PartialEq, Eq, Error)]
pub enum NameFault {
    /// A name is used that stands for nothing, or for nothing of that kind.
    #[error("byte {at}: the name is unknown")]
    Unknown { at: usize },
    /// A name is given a second time, or is that of an operation or a function.
    #[error("byte {at}: the name is given twice")]
    Twice { at: usize },
    /// An operation is called with another number of arguments than it has.
    #[error("byte {at}: the operation has another number of arguments")]
    Arity { at: usize },
}

/// Why [`resolve`](crate::resolve) gave no program.
#[derive(Clone, Copy, Debug, PartialEq, Eq, Error)]
pub enum ResolveFault {
    #[error(transparent)]
    Is(NameFault),
    #[error("out of memory")]
    OutOfMemory,
}

impl From<MemoryFault> for ResolveFault {
    ghost from_gives = { λ _ e. e ≡ OutOfMemory };

    fn from(_e: MemoryFault) -> ResolveFault {
        ResolveFault::OutOfMemory
    }
}

impl From<AllocError> for ResolveFault {
    ghost from_gives = { λ _ e. e ≡ OutOfMemory };

    fn from(_e: AllocError) -> ResolveFault {
        ResolveFault::OutOfMemory
    }
}
