//! How many brackets are open at once.

ghost use Rattle.std.specs.Prelude.{◌≡◌, ◌≤◌, ◌↔◌, IsTrue};
ghost use Rattle.lang_parse.specs.Symbols.{symbol_of, symbols_of};
ghost use Rattle.lang_parse.specs.Grammar.{brackets_after, is_opening, is_closing, IsShallow};

use lang_tokens::{Token, TokenKind};

/// How many brackets may be open at a token, its own counted.
pub const MOST_OPEN: usize = 64;

fn is_opening(sign: &[u8]) -> bool
    ensures { result ≡ is_opening sign.now }
{
    match sign {
        [byte] => matches!(byte, b'(' | b'[' | b'{'),
        _ => false,
    }
}

fn is_closing(sign: &[u8]) -> bool
    ensures { result ≡ is_closing sign.now }
{
    match sign {
        [byte] => matches!(byte, b')' | b']' | b'}'),
        _ => false,
    }
}

/// How many brackets are open behind a token, where so many were open before.
fn brackets_after(count: usize, token: &Token) -> usize
    requires { count ≤ 64 }
    ensures { result ≡ brackets_after count (symbol_of token.now) }
{
    match token.kind() {
        TokenKind::Sign => {
            let sign = token.content();
            if is_opening(sign) {
                count + 1
            } else if is_closing(sign) {
                count.saturating_sub(1)
            } else {
                count
            }
        }
        _ => count,
    }
}

/// Whether at no token too many brackets are open.
pub(crate) fn is_shallow(tokens: &[Token]) -> bool
    ensures { IsTrue result ↔ IsShallow 0 (symbols_of tokens.now) }
{
    let mut count = 0;
    for token in tokens {
        count = brackets_after(count, token);
        if count > MOST_OPEN {
            return false;
        }
    }
    true
}
