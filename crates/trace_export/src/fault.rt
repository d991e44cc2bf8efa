//! Why an export was not read.

ghost use Rattle.std.specs.Prelude.{◌≡◌};
ghost use Rattle.trace_export.specs.declared.fault.ExportFault.TheVariants.{OutOfMemory};

use std::alloc::{AllocError, AllocFailed};
use thiserror::Error;

/// The bytes are not the export of any calls.
#[derive(Clone, Copy, Debug, PartialEq, Eq, Error)]
#[error("not an export")]
pub struct NotExport;

/// Why an export was not read.
#[derive(Clone, Copy, Debug, PartialEq, Eq, Error)]
pub enum ExportFault {
    #[error(transparent)]
    Is(NotExport),
    #[error("out of memory")]
    OutOfMemory,
}

impl From<AllocError> for ExportFault {
    ghost from_gives = { λ _ e. e ≡ OutOfMemory };

    fn from(_e: AllocError) -> ExportFault {
        ExportFault::OutOfMemory
    }
}

impl<T: Drop> From<AllocFailed<T>> for ExportFault {
    ghost from_gives = { λ _ e. e ≡ OutOfMemory };

    fn from(_e: AllocFailed<T>) -> ExportFault {
        ExportFault::OutOfMemory
    }
}
