//! Why a script is not run.

ghost use Rattle.page_cli.specs.Refusals.{of_tokens, of_parse, of_resolve};
ghost use Rattle.std.specs.Prelude.{◌≡◌};

use lang_names::{NameFault, ResolveFault};
use lang_parse::ParseFault;
use lang_tokens::TokensFault;

/// Why a script is not run.
#[derive(Clone, Copy, Debug, PartialEq, Eq)]
pub(crate) enum ScriptFault {
    /// It has no tree: the error is at this byte.
    NoParse { at: usize },
    /// This name is at fault.
    Name(NameFault),
    OutOfMemory,
}

impl From<TokensFault> for ScriptFault {
    ghost from_gives = { λ e f. f ≡ of_tokens e };

    fn from(e: TokensFault) -> ScriptFault {
        match e {
            TokensFault::Is(bad) => ScriptFault::NoParse { at: bad.at },
            TokensFault::OutOfMemory => ScriptFault::OutOfMemory,
        }
    }
}

impl From<ParseFault> for ScriptFault {
    ghost from_gives = { λ e f. f ≡ of_parse e };

    fn from(e: ParseFault) -> ScriptFault {
        match e {
            ParseFault::Is(fault) => ScriptFault::NoParse { at: fault.at },
            ParseFault::OutOfMemory => ScriptFault::OutOfMemory,
        }
    }
}

impl From<ResolveFault> for ScriptFault {
    ghost from_gives = { λ e f. f ≡ of_resolve e };

    fn from(e: ResolveFault) -> ScriptFault {
        match e {
            ResolveFault::Is(fault) => ScriptFault::Name(fault),
            ResolveFault::OutOfMemory => ScriptFault::OutOfMemory,
        }
    }
}
