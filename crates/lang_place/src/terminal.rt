//! The terminals of the grammar.

ghost use Rattle.std.specs.Prelude.{◌≡◌};
ghost use Rattle.page_parts.specs.Words.{same_bytes};
ghost use Rattle.lang_place.specs.Terminals.{word_terminal, other_word, sign_terminal, lone_sign, other_sign, long_sign, terminal_of};

use lang_tokens::{Token, TokenKind};

/// A token as the grammar sees it. Signs and words that it treats alike are one.
#[derive(Clone, Copy, Debug, PartialEq, Eq)]
pub enum Terminal {
    Name,
    /// A number, a text, `true`, `false` or `unit`.
    Value,
    Fn,
    Var,
    If,
    Else,
    While,
    Return,
    Throw,
    Try,
    Catch,
    OpenRound,
    CloseRound,
    OpenSquare,
    CloseSquare,
    OpenBrace,
    CloseBrace,
    Comma,
    Semicolon,
    Assign,
    /// `==`, `!=`, `<`, `<=`, `>` or `>=`.
    Compare,
    Plus,
    Minus,
    /// `*`, `/` or `%`.
    Times,
    Not,
    And,
    Or,
    /// No word and no sign of the grammar.
    Other,
}

/// Whether the bytes are these.
fn is(bytes: &[u8], wanted: &[u8]) -> bool
    ensures { result ≡ same_bytes bytes.now wanted.now }
{
    bytes == wanted
}

/// The terminal of a word.
fn word_terminal(word: &[u8]) -> Terminal
    ensures { result ≡ word_terminal word.now }
{
    if is(word, b"fn") {
        return Terminal::Fn;
    }
    if is(word, b"var") {
        return Terminal::Var;
    }
    if is(word, b"if") {
        return Terminal::If;
    }
    if is(word, b"else") {
        return Terminal::Else;
    }
    if is(word, b"while") {
        return Terminal::While;
    }
    if is(word, b"return") {
        return Terminal::Return;
    }
    other_word(word)
}

/// The same of further words.
fn other_word(word: &[u8]) -> Terminal
    ensures { result ≡ other_word word.now }
{
    if is(word, b"throw") {
        return Terminal::Throw;
    }
    if is(word, b"try") {
        return Terminal::Try;
    }
    if is(word, b"catch") {
        return Terminal::Catch;
    }
    if is(word, b"true") {
        return Terminal::Value;
    }
    if is(word, b"false") {
        return Terminal::Value;
    }
    if is(word, b"unit") {
        return Terminal::Value;
    }
    Terminal::Other
}

/// The terminal of a sign.
fn sign_terminal(sign: &[u8]) -> Terminal
    ensures { result ≡ sign_terminal sign.now }
{
    if is(sign, b"(") {
        return Terminal::OpenRound;
    }
    if is(sign, b")") {
        return Terminal::CloseRound;
    }
    if is(sign, b"[") {
        return Terminal::OpenSquare;
    }
    if is(sign, b"]") {
        return Terminal::CloseSquare;
    }
    if is(sign, b"{") {
        return Terminal::OpenBrace;
    }
    if is(sign, b"}") {
        return Terminal::CloseBrace;
    }
    lone_sign(sign)
}

/// The same of a sign of one byte that is no bracket.
fn lone_sign(sign: &[u8]) -> Terminal
    ensures { result ≡ lone_sign sign.now }
{
    if is(sign, b",") {
        return Terminal::Comma;
    }
    if is(sign, b";") {
        return Terminal::Semicolon;
    }
    if is(sign, b"=") {
        return Terminal::Assign;
    }
    if is(sign, b"+") {
        return Terminal::Plus;
    }
    if is(sign, b"-") {
        return Terminal::Minus;
    }
    if is(sign, b"*") {
        return Terminal::Times;
    }
    other_sign(sign)
}

/// The same of further signs.
fn other_sign(sign: &[u8]) -> Terminal
    ensures { result ≡ other_sign sign.now }
{
    if is(sign, b"/") {
        return Terminal::Times;
    }
    if is(sign, b"%") {
        return Terminal::Times;
    }
    if is(sign, b"!") {
        return Terminal::Not;
    }
    if is(sign, b"<") {
        return Terminal::Compare;
    }
    if is(sign, b">") {
        return Terminal::Compare;
    }
    long_sign(sign)
}

/// The same of a sign of two bytes.
fn long_sign(sign: &[u8]) -> Terminal
    ensures { result ≡ long_sign sign.now }
{
    if is(sign, b"==") {
        return Terminal::Compare;
    }
    if is(sign, b"!=") {
        return Terminal::Compare;
    }
    if is(sign, b"<=") {
        return Terminal::Compare;
    }
    if is(sign, b">=") {
        return Terminal::Compare;
    }
    if is(sign, b"&&") {
        return Terminal::And;
    }
    if is(sign, b"||") {
        return Terminal::Or;
    }
    Terminal::Other
}

/// The terminal of a token.
pub(crate) fn terminal_of(token: &Token) -> Terminal
    ensures { result ≡ terminal_of token.now }
{
    match token.kind() {
        TokenKind::Name => Terminal::Name,
        TokenKind::Number(_) => Terminal::Value,
        TokenKind::Text => Terminal::Value,
        TokenKind::Word => word_terminal(token.content()),
        TokenKind::Sign => sign_terminal(token.content()),
    }
}
