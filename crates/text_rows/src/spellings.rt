//! Which bytes are the spelling of a value.

use crate::rows::expect_met;
use crate::texts::{Pieces, written};
use crate::traces_read::has_fault;
use std::alloc::{AllocError, Global};
use std::test::Fail;
use trace_text::{BadLine, TraceFault};

// A value is read, or its line is refused, which is the second one.
const TAKEN: Option<TraceFault> = None;

const REFUSED: Option<TraceFault> = Some(TraceFault::Is(BadLine { line: 2 }));

// A trace that logs these bytes as a value.
fn logging(alloc: Global, bytes: &[u8]) -> Result<Vec<u8>, AllocError> {
    let mut trace = b"trace 1\n0 log ".to_vec(alloc)?;
    trace.extend_from_slice(bytes)?;
    trace.extend_from_slice(b"\n0 end done\n")?;
    Ok(trace)
}

// Whether a trace that logs these bytes as a value has this fault.
fn is_met(alloc: Global, bytes: &[u8], fault: Option<TraceFault>) -> Result<bool, Fail> {
    let trace = logging(alloc, bytes)?;
    let is_met = has_fault(alloc, &trace, fault);
    drop(trace);
    Ok(is_met)
}

const SPELLINGS: [(&'static str, Option<TraceFault>); 44] = [
    ("unit", TAKEN),
    ("true", TAKEN),
    ("false", TAKEN),
    ("0", TAKEN),
    ("-1", TAKEN),
    ("9223372036854775807", TAKEN),
    ("-9223372036854775808", TAKEN),
    ("\"\"", TAKEN),
    ("\"a ~ \\\" \\\\ \\n\"", TAKEN),
    ("promise#0", TAKEN),
    ("signal#12", TAKEN),
    ("controller#4294967295", TAKEN),
    ("deadline", TAKEN),
    ("deadline@0", TAKEN),
    ("deadline@18446744073709551615", TAKEN),
    ("NotAllowedError(\"no\")", TAKEN),
    ("[]", TAKEN),
    ("fn:f()", TAKEN),
    ("fn:_9(1,[unit,fn:g(deadline)],deadline@5)", TAKEN),
    ("", REFUSED),
    ("units", REFUSED),
    ("-0", REFUSED),
    ("007", REFUSED),
    ("+1", REFUSED),
    ("9223372036854775808", REFUSED),
    ("-9223372036854775809", REFUSED),
    ("\"", REFUSED),
    ("\"a\tb\"", REFUSED),
    ("\"\\t\"", REFUSED),
    ("\"\u{7f}\"", REFUSED),
    ("\"é\"", REFUSED),
    ("promise#4294967296", REFUSED),
    ("promise#", REFUSED),
    ("deadline@", REFUSED),
    ("deadline@18446744073709551616", REFUSED),
    ("Error(no)", REFUSED),
    ("[1,]", REFUSED),
    ("[,1]", REFUSED),
    ("[1 2]", REFUSED),
    ("[1)", REFUSED),
    ("[]]", REFUSED),
    ("fn:()", REFUSED),
    ("fn:9()", REFUSED),
    ("fn:f[]", REFUSED),
];

#[test]
fn spellings_are_taken_and_other_bytes_are_refused(rt: HostRuntime) -> Result<(), Fail> {
    for (number, (text, fault)) in SPELLINGS.iter().enumerate() {
        expect_met(&rt, is_met(rt.alloc(), text.as_bytes(), *fault)?, number);
    }
    Ok(())
}

const LONG: [(Pieces, Option<TraceFault>); 4] = [
    (&[(b"[", 64), (b"]", 64)], TAKEN),
    (&[(b"[", 65), (b"]", 65)], REFUSED),
    (&[(b"fn:", 1), (b"f", 64), (b"()", 1)], TAKEN),
    (&[(b"fn:", 1), (b"f", 65), (b"()", 1)], REFUSED),
];

fn is_long_met(
    alloc: Global,
    pieces: &[(&[u8], usize)],
    fault: Option<TraceFault>,
) -> Result<bool, Fail> {
    let text = written(alloc, pieces)?;
    let is_met = is_met(alloc, &text, fault);
    drop(text);
    is_met
}

#[test]
fn lists_nest_64_deep_and_names_have_64_bytes(rt: HostRuntime) -> Result<(), Fail> {
    for (number, (pieces, fault)) in LONG.iter().enumerate() {
        expect_met(&rt, is_long_met(rt.alloc(), *pieces, *fault)?, number);
    }
    Ok(())
}
