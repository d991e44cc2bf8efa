//! Puts signs in place of the names `async` and `await`, so that the grammar reads the rest with them.
//!
//! The name `a__` stands in no script that is expanded. In place of `await` it stands with the sign `||` behind it, so that
//! an await and its operand are an expression exactly where the operand is one; in place of `async` with a `;`, so that
//! it is a statement before the function. Each has five bytes, as the names have, so the other tokens stay in their places.

ghost use Rattle.std.specs.Prelude.{◌≡◌, ◌↔◌, ◌≤◌, ◌<◌, ◌++◌, IfOk, IsTrue, length, slice_range};
ghost use Rattle.page_parts.specs.Words.{same_bytes};
ghost use Rattle.lang_tokens.specs.Tokens.{InOrder};
ghost use Rattle.lang_parse.specs.Symbols.{symbol_of, symbols_of};
ghost use Rattle.async_segments.specs.Marked.{is_mark};
ghost use Rattle.async_segments.specs.Names.{holds_lines};
ghost use Rattle.async_segments.specs.Script.{Each, IsOwnName};
ghost use Rattle.async_segments.specs.Encoded.{signs_for, marked_bytes, marked_piece, done_behind};

use lang_tokens::{Token, TokenKind};
use std::alloc::{AllocError, Global};

/// The name that stands in place of the two.
pub(crate) const MARK: &[u8] = b"a__";

const ASYNC_SIGNS: &[u8] = b"a__; ";

const AWAIT_SIGNS: &[u8] = b"a__||";

/// Whether two spellings have the same bytes.
pub(crate) fn is_same(spelling: &[u8], other: &[u8]) -> bool
    ensures { result ≡ same_bytes spelling.now other.now }
{
    spelling == other
}

/// Whether a token is one of the two names.
fn is_mark(token: &Token) -> bool
    ensures { result ≡ is_mark (symbol_of token.now) }
{
    match token.kind() {
        TokenKind::Name => is_same(token.content(), b"async") || is_same(token.content(), b"await"),
        _ => false,
    }
}

/// What stands in place of a name.
fn signs_for(spelling: &[u8]) -> &'static [u8]
    ensures { result.now ≡ signs_for spelling.now }
{
    if is_same(spelling, b"async") {
        ASYNC_SIGNS
    } else {
        AWAIT_SIGNS
    }
}

/// The bytes from an offset up to a token, and others.
fn extend_up_to(
    bytes: &[u8],
    done: usize,
    at: usize,
    signs: &[u8],
    into: &mut Vec<u8>,
) -> Result<(), AllocError>
    requires begins { done ≤ at }
    requires within { at ≤ length bytes.now }
    ensures { IfOk result (λ _. into.new.items ≡ into.old.items ++ (slice_range bytes.now done at ++ signs.now)) }
{
    into.extend_from_slice(&bytes[done..at])?;
    into.extend_from_slice(signs)?;
    Ok(())
}

/// The bytes from an offset up to the end of a name that is one of the two, with signs in its place. It answers up to where
/// the bytes are done.
fn extend_marked(
    bytes: &[u8],
    done: usize,
    token: &Token,
    into: &mut Vec<u8>,
) -> Result<usize, AllocError>
    requires begins { done ≤ token.now.at }
    requires ends { token.now.at < token.now.end }
    requires within { token.now.end ≤ length bytes.now }
    ensures written { IfOk result (λ _. into.new.items ≡ into.old.items ++ marked_piece done token.now bytes.now) }
    ensures end { IfOk result (λ n. n ≡ done_behind done token.now) }
{
    match is_mark(token) {
        true => {
            extend_up_to(bytes, done, token.at(), signs_for(token.content()), into)?;
            Ok(token.end())
        }
        false => Ok(done),
    }
}

/// The script with signs in place of the two names.
pub(crate) fn marked(alloc: Global, bytes: &[u8], tokens: &[Token]) -> Result<Vec<u8>, AllocError>
    requires { InOrder 0 (length bytes.now) tokens.now }
    ensures { IfOk result (λ v. v.items ≡ marked_bytes 0 tokens.now bytes.now) }
{
    let mut marked = Vec::with_capacity(alloc, bytes.len())?;
    let mut done = 0;
    for token in tokens {
        done = extend_marked(bytes, done, token, &mut marked)?;
    }
    marked.extend_from_slice(&bytes[done..])?;
    Ok(marked)
}

/// Whether a name holds `__`.
fn holds_lines(name: &[u8]) -> bool
    ensures { result ≡ holds_lines name.now }
{
    let mut is_behind_line = false;
    for byte in name {
        let is_line = *byte == b'_';
        if is_behind_line && is_line {
            return true;
        }
        is_behind_line = is_line;
    }
    false
}

/// Whether a token is no name with `__`.
fn is_own(token: &Token) -> bool
    ensures { IsTrue result ↔ IsOwnName (symbol_of token.now) }
{
    match token.kind() {
        TokenKind::Name => !holds_lines(token.content()),
        _ => true,
    }
}

/// Whether no name holds `__`, as the names of the expansion do.
pub(crate) fn are_own_names(tokens: &[Token]) -> bool
    ensures { IsTrue result ↔ Each IsOwnName (symbols_of tokens.now) }
{
    for token in tokens {
        if !is_own(token) {
            return false;
        }
    }
    true
}
