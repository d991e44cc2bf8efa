//! Why a file was not read.

ghost use Rattle.std.specs.Prelude.{◌≡◌};
ghost use Rattle.arrivals_text.specs.declared.fault.PageFault.TheVariants.{OutOfMemory};

use std::alloc::{AllocError, AllocFailed};
use thiserror::Error;

/// The first line that is refused, counted from 1.
#[derive(Clone, Copy, Debug, PartialEq, Eq, Error)]
#[error("line {line}")]
pub struct BadLine {
    pub line: usize,
}

/// Why an arrivals file was not read.
#[derive(Clone, Copy, Debug, PartialEq, Eq, Error)]
pub enum PageFault {
    #[error(transparent)]
    Is(BadLine),
    #[error("out of memory")]
    OutOfMemory,
}

impl From<AllocError> for PageFault {
    ghost from_gives = { λ _ e. e ≡ OutOfMemory };

    fn from(_e: AllocError) -> PageFault {
        PageFault::OutOfMemory
    }
}

impl<T: Drop> From<AllocFailed<T>> for PageFault {
    ghost from_gives = { λ _ e. e ≡ OutOfMemory };

    fn from(_e: AllocFailed<T>) -> PageFault {
        PageFault::OutOfMemory
    }
}
