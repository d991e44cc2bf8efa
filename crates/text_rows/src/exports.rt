//! The calls of traces as exports, and exports that are read again.

use crate::rows::expect_met;
use std::alloc::Global;
use std::test::Fail;
use trace_export::{CallSpan, ExportFault, NotExport, export, read_export};
use trace_text::read_trace;

// Two timers, of which one was set while the script was busy.
const TWO_TIMERS: &[u8] =
    b"trace 1\n0 turn 1 dom\n0 call 1\n0 reg 2 timeout\n0 arm 2 10000 1\n5000 reg 3 timeout\n\
5000 arm 3 10000 1\n5000 ret\n10000 wait 10000\n10000 due 2\n10000 due 3\n10000 turn 2 timer\n\
10000 call 2\n10000 log \"a\"\n10000 ret\n10000 turn 3 timer\n10000 call 3\n10000 log \"b\"\n\
10000 ret\n10000 end done\n";

const TWO_TIMERS_EXPORT: &[u8] =
    b"{\"traceEvents\":[{\"dur\":5000,\"name\":\"script 1\",\"ph\":\"X\",\"pid\":1,\"tid\":1,\
\"ts\":0},{\"dur\":0,\"name\":\"timeout 2\",\"ph\":\"X\",\"pid\":1,\"tid\":1,\"ts\":10000},\
{\"dur\":0,\"name\":\"timeout 3\",\"ph\":\"X\",\"pid\":1,\"tid\":1,\"ts\":10000}]}\n";

// A listener is called within the script and throws; the script goes on.
const NESTED: &[u8] =
    b"trace 1\n0 turn 1 dom\n0 call 1\n0 reg 2 listener\n5 call 2\n7 throw 1\n7 report 1\n\
9 ret\n9 end done\n";

const NESTED_EXPORT: &[u8] =
    b"{\"traceEvents\":[{\"dur\":9,\"name\":\"script 1\",\"ph\":\"X\",\"pid\":1,\"tid\":1,\
\"ts\":0},{\"dur\":2,\"name\":\"listener 2\",\"ph\":\"X\",\"pid\":1,\"tid\":1,\"ts\":5}]}\n";

// A `ret` where nothing is open, a registration that was never told, and two calls that are open at
// the end. The name of registration 3 is that of its `reg` line before the call.
const OPEN: &[u8] =
    b"trace 1\n0 ret\n1 reg 3 timeout\n1 reg 3 frame\n2 call 3\n3 reg 3 idle\n4 call 8\n\
9 end fuel\n";

const OPEN_EXPORT: &[u8] =
    b"{\"traceEvents\":[{\"dur\":7,\"name\":\"frame 3\",\"ph\":\"X\",\"pid\":1,\"tid\":1,\"ts\":2},\
{\"dur\":5,\"name\":\"unknown 8\",\"ph\":\"X\",\"pid\":1,\"tid\":1,\"ts\":4}]}\n";

fn is_exported(alloc: Global, trace: &[u8], wanted: &[u8]) -> Result<bool, Fail> {
    let events = read_trace(alloc, trace)?;
    let text = export(alloc, &events);
    drop(events);
    Ok(text?.as_slice() == wanted)
}

#[test]
fn calls_are_exported_with_their_names_and_lengths(rt: HostRuntime) -> Result<(), Fail> {
    const TABLE: [(&[u8], &[u8]); 4] = [
        (TWO_TIMERS, TWO_TIMERS_EXPORT),
        (NESTED, NESTED_EXPORT),
        (OPEN, OPEN_EXPORT),
        (b"trace 1\n0 end done\n", b"{\"traceEvents\":[]}\n"),
    ];
    for (number, (trace, wanted)) in TABLE.iter().enumerate() {
        expect_met(&rt, is_exported(rt.alloc(), *trace, *wanted)?, number);
    }
    Ok(())
}

// How many calls an export has, and the name, the begin and the end of the last one.
type Last = (usize, &'static [u8], u64, u64);

fn ends_with(calls: &[CallSpan], last: Last) -> bool {
    let (length, name, begin, end) = last;
    match calls.last() {
        Some(call) => {
            calls.len() == length
                && call.name.bytes() == name
                && call.begin.0 == begin
                && call.end.0 == end
        }
        None => false,
    }
}

// Whether bytes are an export that ends with this call, or no export.
fn is_met(found: &Result<Vec<CallSpan>, ExportFault>, last: Option<Last>) -> bool {
    match (found, last) {
        (Ok(calls), Some(last)) => ends_with(calls, last),
        (Err(fault), None) => *fault == ExportFault::Is(NotExport),
        _ => false,
    }
}

fn is_read(alloc: Global, bytes: &[u8], last: Option<Last>) -> bool {
    let found = read_export(alloc, bytes);
    let is_met = is_met(&found, last);
    drop(found);
    is_met
}

const EXPORTS: [(&'static [u8], Option<Last>); 8] = [
    (NESTED_EXPORT, Some((2, b"listener 2", 5, 7))),
    // A name is read with its escapes.
    (
        b"{\"traceEvents\":[{\"dur\":0,\"name\":\"a\\\"\\\\\\n\",\"ph\":\"X\",\"pid\":1,\
          \"tid\":1,\"ts\":18446744073709551615}]}\n",
        Some((1, b"a\"\\\n", u64::MAX, u64::MAX)),
    ),
    (b"", None),
    // No line feed at the end.
    (b"{\"traceEvents\":[]}", None),
    // A space.
    (b"{\"traceEvents\": []}\n", None),
    // A comma behind the last call.
    (
        b"{\"traceEvents\":[{\"dur\":0,\"name\":\"\",\"ph\":\"X\",\"pid\":1,\"tid\":1,\
          \"ts\":0},]}\n",
        None,
    ),
    // An end past the numbers of 64 bits.
    (
        b"{\"traceEvents\":[{\"dur\":1,\"name\":\"\",\"ph\":\"X\",\"pid\":1,\"tid\":1,\
          \"ts\":18446744073709551615}]}\n",
        None,
    ),
    // A byte that no text has, and one that JSON may escape and we do not.
    (
        b"{\"traceEvents\":[{\"dur\":1,\"name\":\"\\t\",\"ph\":\"X\",\"pid\":1,\"tid\":1,\
          \"ts\":0}]}\n",
        None,
    ),
];

#[test]
fn exports_are_read_again_and_other_bytes_are_none(rt: HostRuntime) {
    for (number, (bytes, last)) in EXPORTS.iter().enumerate() {
        expect_met(&rt, is_read(rt.alloc(), *bytes, *last), number);
    }
}
