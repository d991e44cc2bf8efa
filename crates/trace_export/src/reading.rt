//! Exported calls, read again.

ghost use Rattle.std.specs.Prelude.{◌≡◌, ◌≢◌, ◌<◌, ◌≤◌, ◌∷◌, map, option_map, length, IfOk, IfSome, None, Err, IsTrue};
ghost use Rattle.page_values.specs.Texts.{is_text_byte};
ghost use Rattle.trace_export.specs.Export.{IsExport, IsNoExport};
ghost use Rattle.trace_export.specs.Reading.{text_at, unescaped, count_at, span_at, IsFirstByte};
ghost use Rattle.trace_export.specs.Seen.{span_seen};
ghost use Rattle.trace_export.specs.declared.fault.NotExport.{NotExport as NotExportSeen};
ghost use Rattle.trace_export.specs.declared.fault.ExportFault.TheVariants as fault;

use crate::{CallSpan, ExportFault, NotExport};
use page_base::{Cursor, Micros, behind, is_word};
use page_values::Str;
use std::alloc::{AllocError, Global};

/// The calls of which the bytes are the export: those that [`crate::export`] wrote.
///
/// `Is` comes exactly where the bytes are the export of no list of calls in which no end is before its begin. `OutOfMemory` comes
/// where memory ran out. It takes time in proportion to the bytes.
pub fn read_export(alloc: Global, bytes: &[u8]) -> Result<Vec<CallSpan>, ExportFault>
    ensures calls { IfOk result (λ calls. IsExport bytes.now (map span_seen calls.items)) }
    ensures none { (not : NotExportSeen) → result ≡ Err (fault.Is not) → IsNoExport bytes.now }
{
    let mut calls = Vec::new(alloc);
    let Some(list) = behind(bytes, b"{\"traceEvents\":[") else {
        return Err(ExportFault::Is(NotExport));
    };
    if is_word(list, b"]}\n") {
        return Ok(calls);
    }
    let mut rest = list;
    loop {
        let Some((call, after)) = read_call(alloc, rest)? else {
            return Err(ExportFault::Is(NotExport));
        };
        calls.push(call)?;
        if is_word(after, b"]}\n") {
            return Ok(calls);
        }
        let Some(next) = behind(after, b",") else {
            return Err(ExportFault::Is(NotExport));
        };
        rest = next;
    }
}

// A call, and what stands behind it.
#[tactic(auto, unfolding(crate::specs::Reading::span_at))]
fn read_call(alloc: Global, bytes: &[u8]) -> Result<Option<(CallSpan, &[u8])>, AllocError>
    ensures { IfOk result (λ read. option_map (λ r. (span_seen r.0, r.1.now)) read ≡ span_at bytes.now) }
{
    let Some(first) = behind(bytes, b"{\"dur\":") else {
        return Ok(None);
    };
    let Some((length, rest)) = read_count(first) else {
        return Ok(None);
    };
    let Some(second) = behind(rest, b",\"name\":\"") else {
        return Ok(None);
    };
    let Some((name, rest)) = read_text(alloc, second)? else {
        return Ok(None);
    };
    let Some(third) = behind(rest, b",\"ph\":\"X\",\"pid\":1,\"tid\":1,\"ts\":") else {
        return Ok(None);
    };
    let Some((begin, rest)) = read_count(third) else {
        return Ok(None);
    };
    let Some(rest) = behind(rest, b"}") else {
        return Ok(None);
    };
    let Some(end) = begin.checked_add(length) else {
        return Ok(None);
    };
    let call = CallSpan {
        name,
        begin: Micros(begin),
        end: Micros(end),
    };
    Ok(Some((call, rest)))
}

// A number, and what stands behind it.
#[tactic(auto, unfolding(crate::specs::Reading::count_at))]
fn read_count(bytes: &[u8]) -> Option<(u64, &[u8])>
    ensures { option_map (λ r. (r.0, r.1.now)) result ≡ count_at bytes.now }
{
    let mut cursor = Cursor::new(bytes);
    let n = cursor.read_u64(u64::MAX)?;
    Some((n, cursor.rest()))
}

// The text up to the next quotation mark, and what stands behind that.
fn read_text(alloc: Global, bytes: &[u8]) -> Result<Option<(Str, &[u8])>, AllocError>
    ensures { IfOk result (λ read. option_map (λ r. (r.0, r.1.now)) read ≡ text_at bytes.now) }
{
    let mut text = Vec::new(alloc);
    let mut rest = bytes;
    while let Some((byte, after)) = rest.split_first() {
        if *byte == b'"' {
            return Ok(Some((Str::new(text), after)));
        }
        let Some((read, next)) = read_byte(*byte, after) else {
            return Ok(None);
        };
        text.push(read)?;
        rest = next;
    }
    Ok(None)
}

// The byte of a text whose spelling begins with this one, and what stands behind it.
fn read_byte(byte: u8, after: &[u8]) -> Option<(u8, &[u8])>
    requires { byte ≢ 34 }
    ensures part { IsFirstByte result (byte ∷ after.now) }
    ensures text { IfSome result (λ r. IsTrue (is_text_byte r.0)) }
    ensures shorter { IfSome result (λ r. length r.1.now ≤ length after.now) }
{
    match byte {
        b'\\' => {
            let (escape, rest) = after.split_first()?;
            Some((unescape(*escape)?, rest))
        }
        0x20..=0x7E => Some((byte, after)),
        _ => None,
    }
}

// The byte that is spelled with a backslash and this one.
fn unescape(escape: u8) -> Option<u8>
    ensures byte { result ≡ unescaped escape }
    ensures text { IfSome result (λ b. IsTrue (is_text_byte b)) }
{
    match escape {
        b'"' => Some(b'"'),
        b'\\' => Some(b'\\'),
        b'n' => Some(b'\n'),
        _ => None,
    }
}
