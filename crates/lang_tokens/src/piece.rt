//! The piece that stands at the front of the bytes: a gap, a token, or a bad byte.

ghost use Rattle.std.specs.Prelude.{◌≡◌, ◌<◌, ◌≤◌, ◌-◌, length};
ghost use Rattle.lang_tokens.specs.Pieces.{is_blank, is_word, kind_of_name, is_plain, is_escaped, is_lone_sign, is_comparing_sign, comment_at, name_at, number_at, text_at, sign_at, piece_at};
ghost use Rattle.page_values.specs.Names.{is_letter, is_name_byte};

use crate::token::TokenKind;

const NAME_BYTES: usize = 64;

const GREATEST_NUMBER: u128 = 9223372036854775807;

const TEXT_BYTES: usize = 65535;

const WORDS: [&[u8]; 12] = [
    b"fn", b"var", b"if", b"else", b"while", b"return", b"throw", b"try", b"catch", b"true",
    b"false", b"unit",
];

/// A piece and how many bytes it has; of a bad one, how many bytes stand before the bad byte.
#[derive(Clone, Copy, Debug)]
pub enum Piece {
    Gap(usize),
    Token(TokenKind, usize),
    Bad(usize),
}

fn is_blank(byte: u8) -> bool
    ensures { result ≡ is_blank byte }
{
    matches!(byte, b' ' | b'\t' | b'\r' | b'\n')
}

fn is_letter(byte: u8) -> bool
    ensures { result ≡ is_letter byte }
{
    byte.is_ascii_alphabetic() || byte == b'_'
}

fn is_name_byte(byte: u8) -> bool
    ensures { result ≡ is_name_byte byte }
{
    is_letter(byte) || byte.is_ascii_digit()
}

fn is_plain(byte: u8) -> bool
    ensures { result ≡ is_plain byte }
{
    matches!(byte, b' '..=b'~') && byte != b'"' && byte != b'\\'
}

fn is_escaped(byte: u8) -> bool
    ensures { result ≡ is_escaped byte }
{
    matches!(byte, b'"' | b'\\' | b'n')
}

fn is_lone_sign(byte: u8) -> bool
    ensures { result ≡ is_lone_sign byte }
{
    b"(){}[],;+-*/%".contains(&byte)
}

fn is_comparing_sign(byte: u8) -> bool
    ensures { result ≡ is_comparing_sign byte }
{
    b"=!<>".contains(&byte)
}

fn is_word(spelling: &[u8]) -> bool
    ensures { result ≡ is_word spelling.now }
{
    WORDS.contains(&spelling)
}

fn kind_of_name(spelling: &[u8]) -> TokenKind
    ensures { result ≡ kind_of_name spelling.now }
{
    if is_word(spelling) {
        TokenKind::Word
    } else {
        TokenKind::Name
    }
}

/// The rest of a comment after its first byte.
fn comment(bytes: &[u8]) -> Piece
    ensures { result ≡ comment_at 1 bytes.now }
{
    let mut count = 1;
    for byte in bytes {
        if *byte == b'\n' {
            return Piece::Gap(count);
        }
        count += 1;
    }
    Piece::Gap(count)
}

/// The name or the word that begins with the first byte.
fn name(bytes: &[u8]) -> Piece
    ensures { result ≡ name_at bytes.now 0 bytes.now }
{
    for (count, byte) in bytes.iter().enumerate() {
        if !is_name_byte(*byte) {
            return Piece::Token(kind_of_name(&bytes[..count]), count);
        }
        if count >= NAME_BYTES {
            return Piece::Bad(count);
        }
    }
    Piece::Token(kind_of_name(bytes), bytes.len())
}

/// The rest of a number after its first digit.
fn number(first: u8, bytes: &[u8]) -> Piece
    requires { (48 ≤ first) × (first ≤ 57) }
    ensures { result ≡ number_at (first - 48) 1 bytes.now }
{
    let mut count = 1;
    let mut value = u64::from(first - b'0');
    for byte in bytes {
        if !byte.is_ascii_digit() {
            return Piece::Token(TokenKind::Number(value as i64), count);
        }
        let more = u128::from(value) * 10 + u128::from(*byte - b'0');
        if more > GREATEST_NUMBER {
            return Piece::Bad(count);
        }
        value = more as u64;
        count += 1;
    }
    Piece::Token(TokenKind::Number(value as i64), count)
}

/// The rest of a text after the `"` that begins it.
fn text(bytes: &[u8]) -> Piece
    ensures { result ≡ text_at 0 1 bytes.now }
{
    let mut count = 1;
    let mut value_size = 0;
    let mut after_backslash = false;
    for byte in bytes {
        if after_backslash {
            if !is_escaped(*byte) {
                return Piece::Bad(count);
            }
            after_backslash = false;
            value_size += 1;
        } else if *byte == b'"' {
            return Piece::Token(TokenKind::Text, count + 1);
        } else if value_size >= TEXT_BYTES {
            return Piece::Bad(count);
        } else if *byte == b'\\' {
            after_backslash = true;
        } else if is_plain(*byte) {
            value_size += 1;
        } else {
            return Piece::Bad(count);
        }
        count += 1;
    }
    Piece::Bad(count)
}

fn sign(first: u8, second: Option<u8>) -> Piece
    ensures { result ≡ sign_at first second }
{
    if is_lone_sign(first) {
        Piece::Token(TokenKind::Sign, 1)
    } else if is_comparing_sign(first) {
        Piece::Token(TokenKind::Sign, if second == Some(b'=') { 2 } else { 1 })
    } else if first == b'&' || first == b'|' {
        if second == Some(first) {
            Piece::Token(TokenKind::Sign, 2)
        } else {
            Piece::Bad(1)
        }
    } else {
        Piece::Bad(0)
    }
}

/// The piece at the front, which the first byte decides, or the first two.
pub fn first_piece(bytes: &[u8]) -> Piece
    requires { 0 < length bytes.now }
    ensures { result ≡ piece_at bytes.now }
{
    let Some((first, rest)) = bytes.split_first() else {
        unreachable!()
    };
    let first = *first;
    let second = rest.first().copied();
    if is_blank(first) {
        Piece::Gap(1)
    } else if first == b'/' && second == Some(b'/') {
        comment(rest)
    } else if is_letter(first) {
        name(bytes)
    } else if first.is_ascii_digit() {
        number(first, rest)
    } else if first == b'"' {
        text(rest)
    } else {
        sign(first, second)
    }
}
