//! Why a part of a script could not be read.

ghost use Rattle.std.specs.Prelude.{◌≡◌};
ghost use Rattle.lang_parse.specs.declared.error.ParseError.TheVariants.{OutOfMemory};
ghost use Rattle.lang_parse.specs.Faults.{IsFaultOf};

use crate::fault::{NoTree, TreeFault};
use std::alloc::{AllocError, AllocFailed};

/// The parser's own error.
#[derive(Clone, Copy, Debug, PartialEq, Eq)]
pub enum ParseError {
    /// No tree has the tokens. So many of them were left at the one that cannot go on.
    NoParse(usize),
    OutOfMemory,
}

impl From<AllocError> for ParseError {
    ghost from_gives = { λ _ e. e ≡ OutOfMemory };

    fn from(_e: AllocError) -> ParseError {
        ParseError::OutOfMemory
    }
}

impl<T: Drop> From<AllocFailed<T>> for ParseError {
    ghost from_gives = { λ _ e. e ≡ OutOfMemory };

    fn from(_e: AllocFailed<T>) -> ParseError {
        ParseError::OutOfMemory
    }
}

impl From<ParseError> for TreeFault {
    ghost from_gives = { λ e f. IsFaultOf e f };

    fn from(error: ParseError) -> TreeFault {
        match error {
            ParseError::NoParse(_) => TreeFault::Is(NoTree),
            ParseError::OutOfMemory => TreeFault::OutOfMemory,
        }
    }
}
