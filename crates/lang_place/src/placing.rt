//! The place of a syntax error.

ghost use Rattle.std.specs.Prelude.{IfOk};
ghost use Rattle.lang_place.specs.Place.{IsPlace};

use crate::counting::Count;
use crate::recogniser::Recogniser;
use crate::terminal::terminal_of;
use lang_tokens::Tokens;
use std::alloc::{AllocError, Global};

/// The byte of the first token with which the tokens so far begin no script, or are beyond its limits: 64 open brackets,
/// 4,096 functions, 8 parameters of a function, and 4,096 different global names. Where there is no such token, the
/// script's length.
///
/// One pass over the tokens.
pub fn place(alloc: Global, tokens: &Tokens) -> Result<usize, AllocError>
    ensures { IfOk result (λ at. IsPlace tokens.now.items tokens.now.length at) }
{
    let mut script = Recogniser::new(alloc);
    let mut count = Count::new(alloc);
    let listed = tokens.items();
    for token in listed {
        let at = token.at();
        let terminal = terminal_of(token);
        if !script.take(terminal)? {
            return Ok(at);
        }
        if !count.take(alloc, terminal, token.content())? {
            return Ok(at);
        }
    }
    Ok(tokens.length())
}
