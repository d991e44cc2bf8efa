//! Why a script has no tokens.

ghost use Rattle.std.specs.Prelude.{◌≡◌};
ghost use Rattle.lang_tokens.specs.declared.fault.TokensFault.TheVariants.{OutOfMemory};

use std::alloc::{AllocError, AllocFailed};
use thiserror::Error;

/// The first byte at which no token goes on, counted from 0. It is the number of the script's bytes where these end
/// inside a token.
#[derive(Clone, Copy, Debug, PartialEq, Eq, Error)]
#[error("byte {at} is in no token")]
pub struct BadByte {
    pub at: usize,
}

#[derive(Clone, Copy, Debug, PartialEq, Eq, Error)]
pub enum TokensFault {
    #[error(transparent)]
    Is(BadByte),
    #[error("out of memory")]
    OutOfMemory,
}

impl From<AllocError> for TokensFault {
    ghost from_gives = { λ _ e. e ≡ OutOfMemory };

    fn from(_e: AllocError) -> TokensFault {
        TokensFault::OutOfMemory
    }
}

impl<T: Drop> From<AllocFailed<T>> for TokensFault {
    ghost from_gives = { λ _ e. e ≡ OutOfMemory };

    fn from(_e: AllocFailed<T>) -> TokensFault {
        TokensFault::OutOfMemory
    }
}
