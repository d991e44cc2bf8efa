//! Why a script has no tree.

ghost use Rattle.std.specs.Prelude.{◌≡◌};
ghost use Rattle.lang_parse.specs.declared.fault.ParseFault.TheVariants.{OutOfMemory};

use std::alloc::AllocError;
use thiserror::Error;

/// No tree has these tokens.
#[derive(Clone, Copy, Debug, PartialEq, Eq, Error)]
#[error("no tree")]
pub struct NoTree;

/// Why there is no tree, without the place.
#[derive(Clone, Copy, Debug, PartialEq, Eq, Error)]
pub enum TreeFault {
    #[error(transparent)]
    Is(NoTree),
    #[error("out of memory")]
    OutOfMemory,
}

/// No tree has these tokens. Up to this byte they begin a script, and with the token at it they do not; where all of
/// them begin one, it is the script's end.
#[derive(Clone, Copy, Debug, PartialEq, Eq, Error)]
#[error("no parse at byte {at}")]
pub struct NoParse {
    pub at: usize,
}

/// Why [`parse`](crate::parse) gave no script.
#[derive(Clone, Copy, Debug, PartialEq, Eq, Error)]
pub enum ParseFault {
    #[error(transparent)]
    Is(NoParse),
    #[error("out of memory")]
    OutOfMemory,
}

impl From<AllocError> for ParseFault {
    ghost from_gives = { λ _ e. e ≡ OutOfMemory };

    fn from(_e: AllocError) -> ParseFault {
        ParseFault::OutOfMemory
    }
}
