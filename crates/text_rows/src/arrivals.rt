//! Whole files, and the line at which each of some others is refused.

use crate::rows::expect_met;
use crate::texts::{Pieces, written};
use arrivals_text::{Arrival, BadLine, PageFault, PageSetup, read_page};
use loop_policy::Policy;
use page_base::{Micros, Source};
use page_values::{Value, as_text};
use std::alloc::Global;
use std::test::Fail;

const EACH_KIND: &[u8] =
    b"page 1\npolicy fair 3\nfuel 10000000\nuntil 1000000000000\nrefresh 240\nlate 0 1000000\nroom 1000000\n\
host 0 3000\nhost 4095 1000000000\nat 0 net a unit\nat 0 user while -9223372036854775808\n\
# last\nat 1000000000000 dom _b2 \"a\\\"\\\\\\n c\"\n";

// What a file sets that is a number.
#[derive(Clone, Copy)]
enum Setting {
    Form,
    Trace,
    Fuel,
    Until,
    Refresh,
    Room,
    Arrivals,
}

fn number_of(setup: &PageSetup, of: Setting) -> u64 {
    match of {
        Setting::Form => setup.form as u64,
        Setting::Trace => setup.trace as u64,
        Setting::Fuel => setup.fuel,
        Setting::Until => setup.until.0,
        Setting::Refresh => setup.refresh as u64,
        Setting::Room => setup.room as u64,
        Setting::Arrivals => setup.arrivals.len() as u64,
    }
}

fn has_numbers(setup: &PageSetup, numbers: &[(Setting, u64)]) -> bool {
    for (of, n) in numbers {
        if number_of(setup, *of) != *n {
            return false;
        }
    }
    true
}

// What a file sets: numbers, or the policy, how late timers are, and when hosts answer.
enum Set {
    Numbers(&'static [(Setting, u64)]),
    Lists(Policy, &'static [u64], &'static [(u32, u64)]),
    // the arrivals of the file with each kind of line
    EachKind,
}

use Set::{EachKind, Lists, Numbers};

// Whether it sets this policy, how late timers are, and when hosts answer.
fn has(setup: &PageSetup, policy: Policy, late: &[u64], hosts: &[(u32, u64)]) -> bool {
    setup.policy == policy && setup.late.as_slice() == late && setup.hosts.as_slice() == hosts
}

fn is_text_of(value: &Value, bytes: &[u8]) -> bool {
    match as_text(value) {
        Some(text) => text.bytes() == bytes,
        None => false,
    }
}

fn have_values(arrivals: &[Arrival]) -> bool {
    match arrivals {
        [first, second, third] => {
            matches!(&first.value, Value::Unit)
                && matches!(&second.value, Value::Int(i64::MIN))
                && is_text_of(&third.value, b"a\"\\\n c")
        }
        _ => false,
    }
}

fn have_sources_names_and_times(arrivals: &[Arrival]) -> bool {
    match arrivals {
        [first, second, third] => {
            first.source == Source::Net
                && second.name.bytes() == b"while".as_slice()
                && third.at == Micros(1_000_000_000_000)
        }
        _ => false,
    }
}

fn is_set(setup: &PageSetup, set: &Set) -> bool {
    match set {
        Numbers(numbers) => has_numbers(setup, *numbers),
        Lists(policy, late, hosts) => has(setup, *policy, *late, *hosts),
        EachKind => {
            have_values(&setup.arrivals) && have_sources_names_and_times(&setup.arrivals)
        }
    }
}

fn sets(alloc: Global, file: &[u8], set: &Set) -> Result<bool, Fail> {
    let setup = read_page(alloc, file)?;
    let is_set = is_set(&setup, set);
    drop(setup);
    Ok(is_set)
}

const NOTHING: &[u8] = b"# nothing\n\npage 1";

const FILES: [(&'static [u8], Set); 10] = [
    // A file that sets nothing has the defaults.
    (
        NOTHING,
        Numbers(&[
            (Setting::Form, 1),
            (Setting::Trace, 1),
            (Setting::Fuel, 1_000_000),
            (Setting::Until, 10_000_000),
            (Setting::Refresh, 60),
            (Setting::Room, 0),
            (Setting::Arrivals, 0),
        ]),
    ),
    (
        NOTHING,
        Lists(
            Policy::Rank([
                Source::User,
                Source::Render,
                Source::Sched,
                Source::Timer,
                Source::Net,
                Source::Dom,
                Source::Idle,
            ]),
            &[],
            &[],
        ),
    ),
    // Each line sets its own.
    (
        EACH_KIND,
        Numbers(&[
            (Setting::Fuel, 10_000_000),
            (Setting::Until, 1_000_000_000_000),
            (Setting::Refresh, 240),
            (Setting::Room, 1_000_000),
        ]),
    ),
    (
        EACH_KIND,
        Lists(
            Policy::Fair(3),
            &[0, 1_000_000],
            &[(0, 3_000), (4_095, 1_000_000_000)],
        ),
    ),
    // Arrivals come as they are told.
    (EACH_KIND, EachKind),
    // Policies.
    (b"page 1\npolicy fifo\n", Lists(Policy::Fifo, &[], &[])),
    (
        b"page 1\npolicy rank timer sched user render net dom idle",
        Lists(
            Policy::Rank([
                Source::Timer,
                Source::Sched,
                Source::User,
                Source::Render,
                Source::Net,
                Source::Dom,
                Source::Idle,
            ]),
            &[],
            &[],
        ),
    ),
    // The second forms.
    (
        b"page 2\n# form 2\ntrace 2\nfuel 5\n",
        Numbers(&[(Setting::Form, 2), (Setting::Trace, 2), (Setting::Fuel, 5)]),
    ),
    (
        b"page 1\ntrace 2",
        Numbers(&[(Setting::Form, 1), (Setting::Trace, 2)]),
    ),
    (
        b"page 2",
        Numbers(&[(Setting::Form, 2), (Setting::Trace, 1)]),
    ),
];

#[test]
fn lines_set_their_own_over_the_defaults(rt: HostRuntime) -> Result<(), Fail> {
    for (number, (file, set)) in FILES.iter().enumerate() {
        expect_met(&rt, sets(rt.alloc(), *file, set)?, number);
    }
    Ok(())
}

// Whether a file is refused at this line.
fn is_refused(alloc: Global, file: &[u8], line: usize) -> bool {
    read_page(alloc, file).err() == Some(PageFault::Is(BadLine { line }))
}

// Files, and the lines at which they are refused.
const REFUSED: [(&'static [u8], usize); 64] = [
    // The first line out of its place is told.
    (b"", 1),
    (b"\n", 2),
    (b"# only\n\n", 3),
    (b"page 0", 1),
    (b"page 3", 1),
    (b"trace 2\npage 2", 1),
    (b"page 1\npage 2\n", 2),
    (b"page 2\ntrace 1\n", 2),
    (b"page 2\ntrace 2\ntrace 2\n", 3),
    (b"page 2\nfuel 5\ntrace 2\n", 3),
    (b"\nfuel 5\npage 1\n", 2),
    (b"page 1\npage 1\n", 2),
    (b"page 1\nroom 1\nlate 1\n", 3),
    (b"page 1\n# no line\n\nfuel 1\nfuel 1\n", 5),
    (b"page 1\nhost 1 1\nhost 1 2\n", 3),
    (b"page 1\nhost 2 1\nhost 1 1\n", 3),
    (b"page 1\nat 5 user a 1\nat 4 user a 1", 3),
    (b"page 1\nat 5 user a 1\nhost 1 1", 3),
    (b"page 1\n \n", 2),
    (b"page 1\nuntil 5\nnothing\nuntil 6\n", 3),
    // Numbers are canonical and within their limits.
    (b"page 1\npolicy fair 0", 2),
    (b"page 1\npolicy fair 1001", 2),
    (b"page 1\nfuel 0", 2),
    (b"page 1\nfuel 10000001", 2),
    (b"page 1\nfuel 05", 2),
    (b"page 1\nfuel +5", 2),
    (b"page 1\nuntil 0", 2),
    (b"page 1\nuntil 1000000000001", 2),
    (b"page 1\nrefresh 0", 2),
    (b"page 1\nrefresh 241", 2),
    (b"page 1\nlate", 2),
    (b"page 1\nlate 1000001", 2),
    (b"page 1\nroom 1000001", 2),
    (b"page 1\nhost 4096 0", 2),
    (b"page 1\nhost 0 1000000001", 2),
    (b"page 1\nat 1000000000001 user a 1", 2),
    (b"page 1\nfuel 99999999999999999999", 2),
    // Words stand one space apart.
    (b" page 1", 1),
    (b"page 1 ", 1),
    (b"page  1", 1),
    (b"page 1\r\n", 1),
    (b"page 1\nlate 1  2", 2),
    (b"page 1\nlate 1 ", 2),
    (b"page 1\nhost 1  2", 2),
    (b"page 1\nat 0  user a 1", 2),
    (
        b"page 1\npolicy rank user render sched timer net dom dom",
        2,
    ),
    (b"page 1\npolicy rank user render sched timer net dom", 2),
    (
        b"page 1\npolicy rank user render sched timer net dom idle user",
        2,
    ),
    // Values have one spelling.
    (b"page 1\nat 0 timer a 1", 2),
    (b"page 1\nat 0 user 1a 1", 2),
    (b"page 1\nat 0 user a", 2),
    (b"page 1\nat 0 user a ", 2),
    (b"page 1\nat 0 user a -0", 2),
    (b"page 1\nat 0 user a 01", 2),
    (b"page 1\nat 0 user a 9223372036854775808", 2),
    (b"page 1\nat 0 user a -9223372036854775809", 2),
    (b"page 1\nat 0 user a True", 2),
    (b"page 1\nat 0 user a unit ", 2),
    (b"page 1\nat 0 user a \"", 2),
    (b"page 1\nat 0 user a \"a", 2),
    (b"page 1\nat 0 user a \"a\"b\"", 2),
    (b"page 1\nat 0 user a \"\\t\"", 2),
    (b"page 1\nat 0 user a \"\t\"", 2),
    (b"page 1\nat 0 user a \"\xC3\xA4\"", 2),
];

#[test]
fn the_first_line_that_cannot_come_is_told(rt: HostRuntime) {
    for (number, (file, line)) in REFUSED.iter().enumerate() {
        expect_met(&rt, is_refused(rt.alloc(), *file, *line), number);
    }
}

// A name has at most 64 bytes, and a text, as this one of line feeds, at most 65,535. With one byte more, the second
// line is refused.
const LONG: [(Pieces, bool); 4] = [
    (
        &[(b"page 1\nat 0 user ", 1), (b"a", 64), (b" unit", 1)],
        true,
    ),
    (
        &[(b"page 1\nat 0 user ", 1), (b"a", 65), (b" unit", 1)],
        false,
    ),
    (
        &[(b"page 1\nat 0 user a \"", 1), (b"\\n", 65_535), (b"\"", 1)],
        true,
    ),
    (
        &[
            (b"page 1\nat 0 user a \"", 1),
            (b"\\n", 65_535),
            (b"b\"", 1),
        ],
        false,
    ),
];

// A file has one arrival, or its second line is refused.
fn is_met(alloc: Global, file: &[u8], is_taken: bool) -> Result<bool, Fail> {
    if is_taken {
        sets(alloc, file, &Numbers(&[(Setting::Arrivals, 1)]))
    } else {
        Ok(is_refused(alloc, file, 2))
    }
}

fn is_long_met(alloc: Global, pieces: &[(&[u8], usize)], is_taken: bool) -> Result<bool, Fail> {
    let file = written(alloc, pieces)?;
    let is_met = is_met(alloc, &file, is_taken);
    drop(file);
    is_met
}

#[test]
fn names_have_64_bytes_and_texts_65_535_at_most(rt: HostRuntime) -> Result<(), Fail> {
    for (number, (pieces, is_taken)) in LONG.iter().enumerate() {
        expect_met(&rt, is_long_met(rt.alloc(), *pieces, *is_taken)?, number);
    }
    Ok(())
}
