//! The places of syntax errors.

use crate::rows::expect_met;
use crate::texts::{Long, long_script};
use Long::{Globals, Pieces};
use lang_place::place;
use lang_tokens::tokens;
use std::alloc::Global;
use std::test::Fail;

fn is_at(alloc: Global, script: &[u8], at: usize) -> Result<bool, Fail> {
    let tokens = tokens(alloc, script)?;
    let found = place(alloc, &tokens);
    drop(tokens);
    Ok(found? == at)
}

// Scripts, and their first tokens that cannot come.
const SCRIPTS: [(&'static [u8], usize); 27] = [
    (b"log(1;", 5),
    (b"log(1) log(2);", 7),
    (b"log(1,);", 6),
    (b"a == b == c;", 7),
    (b"a == b && c == d == e;", 17),
    (b"- - 1;", 2),
    (b"1(2);", 1),
    (b"f(1)(2);", 4),
    (b"a = ;", 4),
    (b"a[0] = 1;", 5),
    (b"var if = 1;", 4),
    (b"if (1) a;", 7),
    (b"else { }", 0),
    (b"if (1) { } else { } else { }", 20),
    (b"if (1) { } else if { }", 19),
    (b"try { } catch { }", 14),
    (b"fn f(a,) { }", 7),
    (b"fn f() { fn g() { } }", 9),
    (b"fn f(a, b, c, d, e, f, g, h, i) { }", 29),
    (b"}", 0),
    (b"throw;", 5),
    // A script that ends early has its length.
    (b"", 0),
    (b"log(", 4),
    (b"log(1)  ", 8),
    (b"fn f(a, b", 9),
    (b"try { } // catch", 16),
    (b"if (a) { } else", 15),
];

#[test]
fn the_first_token_that_cannot_come_or_the_end_is_told(rt: HostRuntime) -> Result<(), Fail> {
    for (number, (script, at)) in SCRIPTS.iter().enumerate() {
        expect_met(&rt, is_at(rt.alloc(), *script, *at)?, number);
    }
    Ok(())
}

// Scripts past a limit.
const LONG: [(Long, usize); 4] = [
    // the 65th open bracket, and that of a call
    (Pieces(&[(b"(", 65)]), 64),
    (Pieces(&[(b"log", 1), (b"(", 65)]), 67),
    // the 4,097th function
    (Pieces(&[(b"fn f() { }\n", 4097)]), 11 * 4096),
    // the 4,097th different global name
    (Globals(4096, 4097), 13 * 8192 + 4),
];

fn is_long_at(alloc: Global, long: &Long, at: usize) -> Result<bool, Fail> {
    let script = long_script(alloc, long)?;
    let is_at = is_at(alloc, &script, at);
    drop(script);
    is_at
}

#[test]
fn the_first_token_past_a_limit_is_told(rt: HostRuntime) -> Result<(), Fail> {
    for (number, (long, at)) in LONG.iter().enumerate() {
        expect_met(&rt, is_long_at(rt.alloc(), long, *at)?, number);
    }
    Ok(())
}
