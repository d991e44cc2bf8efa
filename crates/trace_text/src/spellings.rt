//! Whether some bytes are the spelling of a value.

ghost use Rattle.std.specs.Prelude.{◌≡◌, ◌≢◌, ◌≤◌, ◌∷◌, length, Some, None, IsTrue, MatchOption, IfSome, take_while};
ghost use Rattle.std.specs.List.{list_all};
ghost use Rattle.std.specs.Option.{option_map};
ghost use Rattle.page_values.specs.Names.{is_name as named, is_letter as letter, is_name_byte as name_byte};
ghost use Rattle.page_values.specs.Spellings.{IsSpelling};
ghost use Rattle.trace_text.specs.Trace.{IsPrinted};
ghost use Rattle.trace_text.specs.ValueEnds.{begins_number as number_begins, after_number, after_negative, after_int, after_parts, after_cause, after_fault, after_deadline, after_numbered, after_word, after_simple, inside_name, inside, Leaves, LeavesValue, RowAt, ItemsAt, closes, IsRest, IsBehindByte, IsBehindPart};

use page_base::{Cursor, behind};

/// How deep lists and bound lists may nest.
const DEEPEST: u8 = 64;

/// Whether the bytes are the spelling of a value in which lists and bound lists nest at most 64 deep. Takes no memory.
pub(crate) fn is_spelling(bytes: &[u8]) -> bool
    ensures sound { IsTrue result → IsPrinted bytes.now }
    ensures complete { IsPrinted bytes.now → IsTrue result }
{
    match value_end(bytes, DEEPEST) {
        Some(rest) => rest.is_empty(),
        None => false,
    }
}

// Each function from here on answers what stands behind what it reads at the front, or None where it cannot read it.

// A value in which lists nest at most so deep.
#[cycle(value)]
fn value_end(bytes: &[u8], deep: u8) -> Option<&[u8]>
    ensures { LeavesValue (IsSpelling deep) bytes.now (option_map (λ rest. rest.now) result) }
{
    match opened(bytes) {
        None => simple_end(bytes),
        Some((close, inside)) => {
            if deep == 0 {
                return None;
            }
            row_end(inside, close, deep - 1)
        }
    }
}

// A row of values, and the byte that closes it.
#[cycle(value)]
fn row_end(bytes: &[u8], close: u8, deep: u8) -> Option<&[u8]>
    requires { closes close }
    ensures { Leaves (RowAt (IsSpelling deep) close bytes.now) (option_map (λ rest. rest.now) result) }
{
    match byte_end(bytes, close) {
        Some(rest) => Some(rest),
        None => items_end(bytes, close, deep),
    }
}

// A row of one value at least, and the byte that closes it.
#[cycle(value)]
fn items_end(bytes: &[u8], close: u8, deep: u8) -> Option<&[u8]>
    requires { closes close }
    ensures { Leaves (ItemsAt (IsSpelling deep) close bytes.now) (option_map (λ rest. rest.now) result) }
{
    let mut rest = bytes;
    while let Some(end) = value_end(rest, deep) {
        let (byte, more) = end.split_first()?;
        if *byte == close {
            return Some(more);
        }
        if *byte != b',' {
            return None;
        }
        rest = more;
    }
    None
}

// This byte.
fn byte_end(bytes: &[u8], wanted: u8) -> Option<&[u8]>
    ensures { IsBehindByte result wanted bytes.now }
{
    match bytes.split_first() {
        Some((byte, rest)) => { if *byte == wanted { Some(rest) } else { None } }
        None => None,
    }
}

// What begins a list or a function: the byte that will close it, and what stands inside.
#[tactic(auto, unfolding(crate::specs::ValueEnds::inside))]
fn opened(bytes: &[u8]) -> Option<(u8, &[u8])>
    ensures { MatchOption result (inside bytes.now ≡ None) (λ row. inside bytes.now ≡ Some (row.0, row.1.now)) }
{
    if let Some(rest) = behind(bytes, b"[") {
        return Some((b']', rest));
    }
    let named = behind(bytes, b"fn:")?;
    let rest = name_end(named)?;
    Some((b')', rest))
}

// A name, and the bracket that opens its row.
#[tactic(auto, unfolding(crate::specs::ValueEnds::inside_name))]
fn name_end(bytes: &[u8]) -> Option<&[u8]>
    ensures { MatchOption result (inside_name bytes.now ≡ None) (λ rest. inside_name bytes.now ≡ Some rest.now) }
{
    let (name, rest) = bytes.split_at(name_len(bytes));
    if !is_name(name) {
        return None;
    }
    behind(rest, b"(")
}

// How long the run of letters and digits at the front is.
fn name_len(bytes: &[u8]) -> usize
    ensures { result ≡ length (take_while name_byte bytes.now) }
{
    bytes.iter().take_while(|byte| is_name_byte(**byte)).count()
}

fn is_letter(byte: u8) -> bool
    ensures { result ≡ letter byte }
{
    byte.is_ascii_alphabetic() || byte == b'_'
}

fn is_name_byte(byte: u8) -> bool
    ensures { result ≡ name_byte byte }
{
    is_letter(byte) || byte.is_ascii_digit()
}

fn are_name_bytes(bytes: &[u8]) -> bool
    ensures { result ≡ list_all name_byte bytes.now }
{
    bytes.iter().all(|byte| is_name_byte(*byte))
}

fn is_name(bytes: &[u8]) -> bool
    ensures { result ≡ named bytes.now }
{
    match bytes.split_first() {
        Some((first, more)) => is_letter(*first) && are_name_bytes(more) && more.len() <= 63,
        None => false,
    }
}

// A value with no values inside.
#[tactic(auto, unfolding(crate::specs::ValueEnds::after_simple))]
fn simple_end(bytes: &[u8]) -> Option<&[u8]>
    ensures { MatchOption result (after_simple bytes.now ≡ None) (λ rest. after_simple bytes.now ≡ Some rest.now) }
{
    if begins_number(bytes) {
        int_end(bytes)
    } else {
        word_end(bytes)
    }
}

fn begins_number(bytes: &[u8]) -> bool
    ensures { result ≡ number_begins bytes.now }
{
    match bytes.split_first() {
        Some((byte, _)) => *byte == b'-' || byte.is_ascii_digit(),
        None => false,
    }
}

#[tactic(auto, unfolding(crate::specs::ValueEnds::after_int))]
fn int_end(bytes: &[u8]) -> Option<&[u8]>
    ensures { MatchOption result (after_int bytes.now ≡ None) (λ rest. after_int bytes.now ≡ Some rest.now) }
{
    match behind(bytes, b"-") {
        Some(digits) => negative_end(digits),
        None => number_end(bytes, i64::MAX as u64),
    }
}

// The size of a negative number.
#[tactic(auto, unfolding(crate::specs::ValueEnds::after_negative))]
fn negative_end(bytes: &[u8]) -> Option<&[u8]>
    ensures { IsRest result (after_negative bytes.now) }
{
    let mut cursor = Cursor::new(bytes);
    let size = cursor.read_u64(1 << 63)?;
    if size == 0 {
        return None;
    }
    Some(cursor.rest())
}

#[tactic(auto, unfolding(crate::specs::ValueEnds::after_number))]
fn number_end(bytes: &[u8], most: u64) -> Option<&[u8]>
    ensures { IsRest result (after_number most bytes.now) }
{
    let mut cursor = Cursor::new(bytes);
    match cursor.read_u64(most) {
        Some(_) => Some(cursor.rest()),
        None => None,
    }
}

#[tactic(auto, unfolding(crate::specs::ValueEnds::after_word))]
fn word_end(bytes: &[u8]) -> Option<&[u8]>
    ensures { MatchOption result (after_word bytes.now ≡ None) (λ rest. after_word bytes.now ≡ Some rest.now) }
{
    if let Some(rest) = behind(bytes, b"unit") {
        return Some(rest);
    }
    if let Some(rest) = behind(bytes, b"true") {
        return Some(rest);
    }
    if let Some(rest) = behind(bytes, b"false") {
        return Some(rest);
    }
    if let Some(parts) = behind(bytes, b"\"") {
        return parts_end(parts);
    }
    numbered_end(bytes)
}

#[tactic(auto, unfolding(crate::specs::ValueEnds::after_numbered))]
fn numbered_end(bytes: &[u8]) -> Option<&[u8]>
    ensures { IsRest result (after_numbered bytes.now) }
{
    if let Some(number) = behind(bytes, b"promise#") {
        return number_end(number, u32::MAX as u64);
    }
    if let Some(number) = behind(bytes, b"signal#") {
        return number_end(number, u32::MAX as u64);
    }
    if let Some(number) = behind(bytes, b"controller#") {
        return number_end(number, u32::MAX as u64);
    }
    if let Some(rest) = behind(bytes, b"deadline") {
        return deadline_end(rest);
    }
    fault_end(bytes)
}

// The time of a deadline, if it has one.
#[tactic(auto, unfolding(crate::specs::ValueEnds::after_deadline))]
fn deadline_end(bytes: &[u8]) -> Option<&[u8]>
    ensures { IsRest result (after_deadline bytes.now) }
{
    match behind(bytes, b"@") {
        Some(number) => number_end(number, u64::MAX),
        None => Some(bytes),
    }
}

#[tactic(auto, unfolding(crate::specs::ValueEnds::after_fault))]
fn fault_end(bytes: &[u8]) -> Option<&[u8]>
    ensures { MatchOption result (after_fault bytes.now ≡ None) (λ rest. after_fault bytes.now ≡ Some rest.now) }
{
    if let Some(rest) = behind(bytes, b"Error") {
        return cause_end(rest);
    }
    if let Some(rest) = behind(bytes, b"TypeError") {
        return cause_end(rest);
    }
    if let Some(rest) = behind(bytes, b"RangeError") {
        return cause_end(rest);
    }
    if let Some(rest) = behind(bytes, b"AbortError") {
        return cause_end(rest);
    }
    if let Some(rest) = behind(bytes, b"TimeoutError") {
        return cause_end(rest);
    }
    if let Some(rest) = behind(bytes, b"NotAllowedError") {
        return cause_end(rest);
    }
    None
}

// The text of a fault, in brackets.
#[tactic(auto, unfolding(crate::specs::ValueEnds::after_cause))]
fn cause_end(bytes: &[u8]) -> Option<&[u8]>
    ensures { MatchOption result (after_cause bytes.now ≡ None) (λ rest. after_cause bytes.now ≡ Some rest.now) }
{
    let parts = behind(bytes, b"(\"")?;
    let rest = parts_end(parts)?;
    behind(rest, b")")
}

// The parts of a text, and the quotation mark that ends it.
fn parts_end(bytes: &[u8]) -> Option<&[u8]>
    ensures { MatchOption result (after_parts bytes.now ≡ None) (λ rest. after_parts bytes.now ≡ Some rest.now) }
{
    let mut rest = bytes;
    while let Some((byte, after)) = rest.split_first() {
        if *byte == b'"' {
            return Some(after);
        }
        rest = part_end(*byte, after)?;
    }
    None
}

// What follows the part of a text that begins with this byte.
fn part_end(byte: u8, after: &[u8]) -> Option<&[u8]>
    requires { byte ≢ 34 }
    ensures part { IsBehindPart result (byte ∷ after.now) }
    ensures shorter { IfSome result (λ rest. length rest.now ≤ length after.now) }
{
    match byte {
        b'\\' => match after.split_first() {
            Some((b'"' | b'\\' | b'n', rest)) => Some(rest),
            _ => None,
        },
        0x20..=0x7E => Some(after),
        _ => None,
    }
}
