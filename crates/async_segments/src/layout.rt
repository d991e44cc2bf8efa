//! Lays tokens out as a text, and tests what a script's tokens must meet.

ghost use Rattle.std.specs.Prelude.{◌≡◌, ◌≤◌, ◌++◌, ◌↔◌, IfOk, IsTrue};
ghost use Rattle.lang_parse.specs.Grammar.{is_opening, is_closing, brackets_after, IsShallow};
ghost use Rattle.async_segments.specs.Encoded.{is_mark_name, has_mark};
ghost use Rattle.async_segments.specs.Layout.{bytes_of, space_before, laid_out};
ghost use Rattle.async_segments.specs.Written.{shown, shown_all};

use crate::marking::{MARK, is_same};
use crate::written::Written;
use lang_tokens::TokenKind;
use page_values::{print_int, print_quoted};
use std::alloc::{AllocError, Global};

/// How many brackets may be open at a token, its own counted.
const MOST_OPEN: usize = 64;

fn write_token(token: &Written, text: &mut Vec<u8>) -> Result<(), AllocError>
    ensures { IfOk result (λ _. text.new.items ≡ text.old.items ++ bytes_of (shown token.now)) }
{
    match token.kind {
        TokenKind::Number(n) => print_int(n, text),
        TokenKind::Text => print_quoted(&token.content, text),
        _ => text.extend_from_slice(&token.content),
    }
}

/// A space before what is not the first.
fn write_space(is_first: bool, text: &mut Vec<u8>) -> Result<(), AllocError>
    ensures { IfOk result (λ _. text.new.items ≡ text.old.items ++ space_before is_first) }
{
    if is_first {
        return Ok(());
    }
    text.push(b' ')?;
    Ok(())
}

/// The tokens with a space between each two, and LF at the end.
pub(crate) fn lay_out(alloc: Global, tokens: &[Written]) -> Result<Vec<u8>, AllocError>
    ensures { IfOk result (λ text. text.items ≡ laid_out (shown_all tokens.now)) }
{
    let mut text = Vec::new(alloc);
    let mut is_first = true;
    for token in tokens {
        write_space(is_first, &mut text)?;
        write_token(token, &mut text)?;
        is_first = false;
    }
    text.push(b'\n')?;
    Ok(text)
}

/// Whether a token is the name that stands in place of `async` and `await`.
fn is_mark_name(token: &Written) -> bool
    ensures { result ≡ is_mark_name (shown token.now) }
{
    match token.kind {
        TokenKind::Name => is_same(&token.content, MARK),
        _ => false,
    }
}

/// Whether this name is left at some place.
pub(crate) fn holds_mark(tokens: &[Written]) -> bool
    ensures { result ≡ has_mark (shown_all tokens.now) }
{
    for token in tokens {
        if is_mark_name(token) {
            return true;
        }
    }
    false
}

fn is_opening(sign: &[u8]) -> bool
    ensures { result ≡ is_opening sign.now }
{
    match sign {
        [byte] => matches!(byte, b'(' | b'[' | b'{'),
        _ => false,
    }
}

fn is_closing(sign: &[u8]) -> bool
    ensures { result ≡ is_closing sign.now }
{
    match sign {
        [byte] => matches!(byte, b')' | b']' | b'}'),
        _ => false,
    }
}

/// How many brackets are open behind a token, where so many were open before.
fn brackets_after(count: usize, token: &Written) -> usize
    requires { count ≤ 64 }
    ensures { result ≡ brackets_after count (shown token.now) }
{
    match token.kind {
        TokenKind::Sign => {
            if is_opening(&token.content) {
                count + 1
            } else if is_closing(&token.content) {
                count.saturating_sub(1)
            } else {
                count
            }
        }
        _ => count,
    }
}

/// Whether at no token too many brackets are open.
pub(crate) fn is_shallow(tokens: &[Written]) -> bool
    ensures { IsTrue result ↔ IsShallow 0 (shown_all tokens.now) }
{
    let mut count = 0;
    for token in tokens {
        count = brackets_after(count, token);
        if count > MOST_OPEN {
            return false;
        }
    }
    true
}
