//! The value of an arrival.

ghost use Rattle.std.specs.Prelude.{◌≡◌, ◌≢◌, ◌≤◌, ◌∷◌, ◌^◌, length, Some, IfOk, IfSome, IsTrue};
ghost use Rattle.std.specs.Option.{option_map};
ghost use Rattle.page_values.specs.Seen.{seen};
ghost use Rattle.page_values.specs.Texts.{is_text, is_text_byte};
ghost use Rattle.arrivals_text.specs.Fields.{negative as negated, is_plain as plain, int_at, text_at, parts_at, value_at};
ghost use Rattle.arrivals_text.specs.Parts.{IsPart, IsEscape};

use crate::fields::number_in;
use page_base::{behind, is_word};
use page_values::{Str, Value};
use std::alloc::{AllocError, Global};

/// The most bytes that a text may have.
const TEXT_LIMIT: usize = 65_535;

/// The value that these bytes spell.
#[tactic(auto, unfolding(crate::specs::Fields::value_at))]
pub(crate) fn read_value(alloc: Global, text: &[u8]) -> Result<Option<Value>, AllocError>
    ensures { IfOk result (λ value. option_map seen value ≡ value_at text.now) }
{
    if is_word(text, b"unit") {
        return Ok(Some(Value::Unit));
    }
    if is_word(text, b"true") {
        return Ok(Some(Value::Bool(true)));
    }
    if is_word(text, b"false") {
        return Ok(Some(Value::Bool(false)));
    }
    if let Some(parts) = behind(text, b"\"") {
        return match read_text(alloc, parts)? {
            Some(text) => Ok(Some(Value::Text(text))),
            None => Ok(None),
        };
    }
    match read_int(text) {
        Some(number) => Ok(Some(Value::Int(number))),
        None => Ok(None),
    }
}

#[tactic(auto, unfolding(crate::specs::Fields::int_at))]
fn read_int(text: &[u8]) -> Option<i64>
    ensures { result ≡ int_at text.now }
{
    if let Some(digits) = behind(text, b"-") {
        let size = number_in(digits, 1, 1 << 63)?;
        return Some(negative(size));
    }
    let size = number_in(text, 0, i64::MAX as u64)?;
    Some(size as i64)
}

// The least number has no positive one beside it.
fn negative(size: u64) -> i64
    requires low { 1 ≤ size }
    requires high { size ≤ 2 ^ 63 }
    ensures { result ≡ negated size }
{
    -1 - ((size - 1) as i64)
}

#[tactic(auto, unfolding(crate::specs::Fields::text_at))]
fn read_text(alloc: Global, parts: &[u8]) -> Result<Option<Str>, AllocError>
    ensures { IfOk result (λ text. text ≡ text_at parts.now) }
{
    let Some(bytes) = read_parts(alloc, parts)? else {
        return Ok(None);
    };
    if bytes.len() <= TEXT_LIMIT {
        Ok(Some(Str::new(bytes)))
    } else {
        drop(bytes);
        Ok(None)
    }
}

// What the parts of a text stand for.
fn read_parts(alloc: Global, parts: &[u8]) -> Result<Option<Vec<u8>>, AllocError>
    ensures parts { IfOk result (λ bytes. option_map (λ list. list.items) bytes ≡ parts_at parts.now) }
    ensures text { IfOk result (λ bytes. IfSome bytes (λ list. IsTrue (is_text list.items))) }
{
    let mut bytes = Vec::new(alloc);
    let mut rest = parts;
    while let Some((byte, after)) = rest.split_first() {
        if *byte == b'"' {
            return Ok(if after.is_empty() { Some(bytes) } else { None });
        }
        let Some((held, behind)) = read_part(*byte, after) else {
            return Ok(None);
        };
        bytes.push(held)?;
        rest = behind;
    }
    Ok(None)
}

// The byte that a part stands for, and what follows the part.
fn read_part(byte: u8, after: &[u8]) -> Option<(u8, &[u8])>
    requires { byte ≢ 34 }
    ensures part { IsPart result (byte ∷ after.now) }
    ensures text { IfSome result (λ part. IsTrue (is_text_byte part.0)) }
    ensures shorter { IfSome result (λ part. length part.1.now ≤ length after.now) }
{
    if byte == b'\\' {
        return read_escape(after);
    }
    if is_plain(byte) {
        Some((byte, after))
    } else {
        None
    }
}

// Whether a byte stands for itself.
fn is_plain(byte: u8) -> bool
    ensures { result ≡ plain byte }
{
    0x20 <= byte && byte <= 0x7E && byte != b'"' && byte != b'\\'
}

// The byte that stands behind a backslash, as what it stands for, and what follows it.
fn read_escape(text: &[u8]) -> Option<(u8, &[u8])>
    ensures part { IsEscape result text.now }
    ensures text { IfSome result (λ part. IsTrue (is_text_byte part.0)) }
    ensures shorter { IfSome result (λ part. length part.1.now ≤ length text.now) }
{
    let (byte, after) = text.split_first()?;
    match *byte {
        b'"' | b'\\' => Some((*byte, after)),
        b'n' => Some((b'\n', after)),
        _ => None,
    }
}
