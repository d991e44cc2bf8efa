//! The texts of some storms, letter by letter.

use crate::rows::expect_met;
use crate::texts::{Pieces, written};
use page_gen::storm;
use std::alloc::Global;
use std::test::Fail;

const ARRIVALS: &[u8] = b"page 1\nfuel 10000000\nuntil 1000000000000\n";

// What stands before the number of the turns, and behind it.
const BEFORE: &[u8] = b"\
var i = 0;\n\
var s = 1;\n\
var k = 0;\n\
var c = unit;\n\
fn f() { return 1; }\n\
fn g(v) { }\n\
while (i < ";

const BEHIND: &[u8] = b") {\n\
s = (s * 1103515245 + 12345) % 2147483648;\n\
k = (s / 65536) % 4;\n\
if (k == 0) { setTimeout(f, (s / 262144) % 1000); }\n\
if (k == 1) { queueMicrotask(f); }\n\
if (k == 2) { postTask(f, \"background\", unit, 0); }\n\
if (k == 3) { c = controller(); then(postTask(f, unit, signal(c), 0), unit, g); abort(c, unit); }\n\
i = i + 1;\n\
}\n";

const STORMS: [(u32, Pieces); 4] = [
    (1, &[(BEFORE, 1), (b"1", 1), (BEHIND, 1)]),
    (4, &[(BEFORE, 1), (b"4", 1), (BEHIND, 1)]),
    (10, &[(BEFORE, 1), (b"10", 1), (BEHIND, 1)]),
    // the greatest one
    (100_000, &[(BEFORE, 1), (b"100000", 1), (BEHIND, 1)]),
];

fn has_texts(alloc: Global, turns: u32, text: &[u8]) -> Result<bool, Fail> {
    if turns < 1 || 100_000 < turns {
        return Ok(false);
    }
    let (script, arrivals) = storm(alloc, turns)?;
    Ok(script.as_slice() == text && arrivals.as_slice() == ARRIVALS)
}

fn is_storm(alloc: Global, turns: u32, pieces: &[(&[u8], usize)]) -> Result<bool, Fail> {
    let text = written(alloc, pieces)?;
    let has_texts = has_texts(alloc, turns, &text);
    drop(text);
    has_texts
}

#[test]
fn storms_of_some_turns(rt: HostRuntime) -> Result<(), Fail> {
    for (number, (turns, pieces)) in STORMS.iter().enumerate() {
        expect_met(&rt, is_storm(rt.alloc(), *turns, *pieces)?, number);
    }
    Ok(())
}
