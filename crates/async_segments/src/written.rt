//! The tokens that are to be written.

ghost use Rattle.std.specs.Prelude.{◌∷◌, [], IfOk};
ghost use Rattle.lang_ast.specs.Seen.{seen_name};
ghost use Rattle.lang_parse.specs.Symbols.{NameAt, WordOf, NumberOf, TextOf, SignOf};
ghost use Rattle.lang_parse.specs.Grammar.{name_symbol};
ghost use Rattle.async_segments.specs.Written.{Adds, between};

use lang_ast::Named;
use lang_tokens::TokenKind;
use std::alloc::{AllocError, Global};

/// A token with no place. Its content is its spelling, of a text its value, and of a number nothing.
#[derive(Drop)]
pub(crate) struct Written {
    pub kind: TokenKind,
    pub content: Vec<u8>,
}

pub(crate) fn name(
    alloc: Global,
    spelling: &[u8],
    into: &mut Vec<Written>,
) -> Result<(), AllocError>
    ensures { IfOk result (λ _. Adds into.old.items into.new.items (NameAt spelling.now 0 ∷ [])) }
{
    into.push(Written {
        kind: TokenKind::Name,
        content: spelling.to_vec(alloc)?,
    })?;
    Ok(())
}

/// A name of the script.
pub(crate) fn own_name(
    alloc: Global,
    name: &Named,
    into: &mut Vec<Written>,
) -> Result<(), AllocError>
    ensures { IfOk result (λ _. Adds into.old.items into.new.items (name_symbol (seen_name name.now) ∷ [])) }
{
    into.push(Written {
        kind: TokenKind::Name,
        content: name.name.bytes().to_vec(alloc)?,
    })?;
    Ok(())
}

pub(crate) fn word(
    alloc: Global,
    spelling: &[u8],
    into: &mut Vec<Written>,
) -> Result<(), AllocError>
    ensures { IfOk result (λ _. Adds into.old.items into.new.items (WordOf spelling.now ∷ [])) }
{
    into.push(Written {
        kind: TokenKind::Word,
        content: spelling.to_vec(alloc)?,
    })?;
    Ok(())
}

pub(crate) fn sign(
    alloc: Global,
    spelling: &[u8],
    into: &mut Vec<Written>,
) -> Result<(), AllocError>
    ensures { IfOk result (λ _. Adds into.old.items into.new.items (SignOf spelling.now ∷ [])) }
{
    into.push(Written {
        kind: TokenKind::Sign,
        content: spelling.to_vec(alloc)?,
    })?;
    Ok(())
}

pub(crate) fn number(alloc: Global, n: i64, into: &mut Vec<Written>) -> Result<(), AllocError>
    ensures { IfOk result (λ _. Adds into.old.items into.new.items (NumberOf n ∷ [])) }
{
    into.push(Written {
        kind: TokenKind::Number(n),
        content: Vec::new(alloc),
    })?;
    Ok(())
}

pub(crate) fn text(alloc: Global, value: &[u8], into: &mut Vec<Written>) -> Result<(), AllocError>
    ensures { IfOk result (λ _. Adds into.old.items into.new.items (TextOf value.now ∷ [])) }
{
    into.push(Written {
        kind: TokenKind::Text,
        content: value.to_vec(alloc)?,
    })?;
    Ok(())
}

/// A sign before what is not the first in a row.
pub(crate) fn between(
    alloc: Global,
    is_first: bool,
    spelling: &[u8],
    into: &mut Vec<Written>,
) -> Result<(), AllocError>
    ensures { IfOk result (λ _. Adds into.old.items into.new.items (between is_first (SignOf spelling.now))) }
{
    if is_first {
        return Ok(());
    }
    sign(alloc, spelling, into)
}
