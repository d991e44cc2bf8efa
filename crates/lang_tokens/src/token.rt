//! Tokens, and the list of a script's tokens.

ghost use Rattle.std.specs.Prelude.{◌≡◌};
ghost use Rattle.lang_tokens.specs.Seen.{IsHeld, AreHeld};
ghost use Rattle.lang_tokens.specs.Tokens.{InOrder};

use std::marker::Model;

#[derive(Clone, Copy, Debug, PartialEq, Eq)]
pub enum TokenKind {
    Name,
    /// A name that the grammar keeps for itself, as `while`.
    Word,
    Number(i64),
    Text,
    Sign,
}

/// A token, its place and what it holds. A name is spelled as one, and a text is one, of at most 65,535 bytes.
#[derive(Debug, Drop)]
pub struct Token {
    at: usize,
    end: usize,
    kind: TokenKind,
    content: Vec<u8>,
}

impl Model for Token {
    ghost use Rattle.lang_tokens.specs.Seen.{TokenSeen, IsHeld};

    ghost Value = { TokenSeen };

    ghost view = { λ t. record { at = t.at; end = t.end; kind = t.kind; content = t.content.items } };

    ghost invariant = { λ t. IsHeld t.kind t.content.items };
}

impl Token {
    pub(crate) fn new(at: usize, end: usize, kind: TokenKind, content: Vec<u8>) -> Token
        requires { IsHeld kind content.items }
        ensures { result ≡ record { at = at; end = end; kind = kind; content = content.items } }
    {
        Token {
            at,
            end,
            kind,
            content,
        }
    }

    /// The byte at which it begins.
    pub fn at(&self) -> usize
        ensures { result ≡ self.now.at }
    {
        self.at
    }

    /// The byte behind its last one.
    pub fn end(&self) -> usize
        ensures { result ≡ self.now.end }
    {
        self.end
    }

    pub fn kind(&self) -> TokenKind
        ensures { result ≡ self.now.kind }
    {
        self.kind
    }

    /// Its spelling, and for a text its value.
    pub fn content(&self) -> &[u8]
        ensures content { result.now ≡ self.now.content }
        ensures held { IsHeld self.now.kind self.now.content }
    {
        &self.content
    }
}

/// The tokens of a script, in order, and the number of the script's bytes.
#[derive(Debug, Drop)]
pub struct Tokens {
    tokens: Vec<Token>,
    byte_count: usize,
}

impl Model for Tokens {
    ghost use Rattle.lang_tokens.specs.Seen.{AreHeld};
    ghost use Rattle.lang_tokens.specs.Tokens.{TokenList, InOrder};

    ghost Value = { TokenList };

    ghost view = { λ t. record { items = t.tokens.items; length = t.byte_count } };

    ghost invariant = { λ t. InOrder 0 t.byte_count t.tokens.items × AreHeld t.tokens.items };
}

impl Tokens {
    pub(crate) fn new(tokens: Vec<Token>, byte_count: usize) -> Tokens
        requires in_order { InOrder 0 byte_count tokens.items }
        requires held { AreHeld tokens.items }
        ensures { result ≡ record { items = tokens.items; length = byte_count } }
    {
        Tokens { tokens, byte_count }
    }

    pub fn items(&self) -> &[Token]
        ensures value { result.now ≡ self.now.items }
        ensures in_order { InOrder 0 self.now.length self.now.items }
        ensures held { AreHeld self.now.items }
    {
        &self.tokens
    }

    /// The number of the script's bytes.
    pub fn length(&self) -> usize
        ensures { result ≡ self.now.length }
    {
        self.byte_count
    }
}
