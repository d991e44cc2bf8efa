//! All tokens of a script.

ghost use Rattle.std.specs.Prelude.{◌≡◌, ℕ, IfOk, Ok, Err, drop, length};
ghost use Rattle.lang_tokens.specs.Tokens.{tokens_of, content_of, value_of};

use crate::fault::{BadByte, TokensFault};
use crate::piece::{Piece, first_piece};
use crate::token::{Token, TokenKind, Tokens};
use std::alloc::{AllocError, Global};

/// The value of a text, from the bytes after the `"` that begins it.
fn text_value(alloc: Global, bytes: &[u8]) -> Result<Vec<u8>, AllocError>
    ensures { IfOk result (λ v. v.items ≡ value_of bytes.now) }
{
    let mut value = Vec::with_capacity(alloc, bytes.len())?;
    let mut after_backslash = false;
    for byte in bytes {
        if after_backslash {
            value.push(if *byte == b'n' { b'\n' } else { *byte })?;
            after_backslash = false;
        } else if *byte == b'"' {
            return Ok(value);
        } else if *byte == b'\\' {
            after_backslash = true;
        } else {
            value.push(*byte)?;
        }
    }
    Ok(value)
}

fn content_of(alloc: Global, kind: TokenKind, spelling: &[u8]) -> Result<Vec<u8>, AllocError>
    ensures { IfOk result (λ content. content.items ≡ content_of kind spelling.now) }
{
    match kind {
        TokenKind::Text => Ok(text_value(alloc, spelling.get(1..).unwrap_or(&[]))?),
        _ => Ok(spelling.to_vec(alloc)?),
    }
}

/// The tokens of a script, each the longest, or the first byte at which no token goes on.
pub fn tokens(alloc: Global, bytes: &[u8]) -> Result<Tokens, TokensFault>
    ensures ok { IfOk result (λ t. tokens_of bytes.now ≡ Ok t.items) }
    ensures byte_count { IfOk result (λ t. t.length ≡ length bytes.now) }

    // The fault is want of memory or this one.
    ensures bad { (at : ℕ) → result ≡ Err (TokensFault.Is (record { at = at })) → tokens_of bytes.now ≡ Err at }
{
    let mut tokens = Vec::new(alloc);
    let mut at = 0;
    while at < bytes.len() {
        match first_piece(&bytes[at..]) {
            Piece::Gap(size) => at += size,
            Piece::Token(kind, size) => {
                let end = at + size;
                let spelling = &bytes[at..end];
                let content = content_of(alloc, kind, spelling)?;
                tokens.push(Token::new(at, end, kind, content))?;
                at = end;
            }
            Piece::Bad(size) => return Err(TokensFault::Is(BadByte { at: at + size })),
        }
    }
    Ok(Tokens::new(tokens, bytes.len()))
}
