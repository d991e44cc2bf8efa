//! The text of calls.

ghost use Rattle.std.specs.Prelude.{◌≡◌, ◌≤◌, ◌++◌, map, IfOk, All};
ghost use Rattle.trace_text.specs.EventSeen.{stamped_seen};
ghost use Rattle.trace_export.specs.Export.{IsSpan, IsExport, ExportsOnly, spans_of, export_text, span_text, spans_text, more_spans_text};
ghost use Rattle.trace_export.specs.Seen.{span_seen};

use crate::{CallSpan, calls};
use page_values::{print_number, print_quoted};
use std::alloc::{AllocError, Global};
use trace_text::Events;

/// The calls of a trace, as [`calls`] gives them, in the trace event format: one line of JSON, in which the list `traceEvents` has one
/// complete event (`ph` is `X`) for each call, with its name, the time `ts` at which it begins and its length `dur`, in
/// microseconds. No other bytes are the export of other calls, and [`crate::read_export`] reads these calls again. It takes time
/// in proportion to the trace, up to the logarithm of [`calls`].
pub fn export(alloc: Global, trace: &Events) -> Result<Vec<u8>, AllocError>
    ensures export { IfOk result (λ text. IsExport text.items (spans_of (map stamped_seen trace.now.events))) }
    ensures one_reading { IfOk result (λ text. ExportsOnly text.items (spans_of (map stamped_seen trace.now.events))) }
{
    let calls = calls(alloc, trace)?;
    let mut text = Vec::new(alloc);
    write_export(&calls, &mut text)?;
    Ok(text)
}

// On an error of what follows, some of the text may have been appended.

fn write_export(calls: &[CallSpan], into: &mut Vec<u8>) -> Result<(), AllocError>
    requires { All IsSpan (map span_seen calls.now) }
    ensures { IfOk result (λ _. into.new.items ≡ into.old.items ++ export_text (map span_seen calls.now)) }
{
    into.extend_from_slice(b"{\"traceEvents\":[")?;
    write_calls(calls, into)?;
    into.extend_from_slice(b"]}\n")?;
    Ok(())
}

fn write_calls(calls: &[CallSpan], into: &mut Vec<u8>) -> Result<(), AllocError>
    requires { All IsSpan (map span_seen calls.now) }
    ensures { IfOk result (λ _. into.new.items ≡ into.old.items ++ spans_text (map span_seen calls.now)) }
{
    match calls.split_first() {
        None => Ok(()),
        Some((first, more)) => {
            write_call(first, into)?;
            write_more(more, into)
        }
    }
}

// Further calls, each behind a comma.
fn write_more(calls: &[CallSpan], into: &mut Vec<u8>) -> Result<(), AllocError>
    requires { All IsSpan (map span_seen calls.now) }
    ensures { IfOk result (λ _. into.new.items ≡ into.old.items ++ more_spans_text (map span_seen calls.now)) }
{
    let mut rest = calls;
    while let Some((call, after)) = rest.split_first() {
        into.push(b',')?;
        write_call(call, into)?;
        rest = after;
    }
    Ok(())
}

fn write_call(call: &CallSpan, into: &mut Vec<u8>) -> Result<(), AllocError>
    requires { call.now.begin.0 ≤ call.now.end.0 }
    ensures { IfOk result (λ _. into.new.items ≡ into.old.items ++ span_text (span_seen call.now)) }
{
    into.extend_from_slice(b"{\"dur\":")?;
    print_number(call.end.0 - call.begin.0, into)?;
    into.extend_from_slice(b",\"name\":")?;
    print_quoted(call.name.bytes(), into)?;
    into.extend_from_slice(b",\"ph\":\"X\",\"pid\":1,\"tid\":1,\"ts\":")?;
    print_number(call.begin.0, into)?;
    into.push(b'}')?;
    Ok(())
}
