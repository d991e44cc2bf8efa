//! Files that are too long, missing or not read: which one is named, and in which order they are fetched. Nothing is written to `out` then.

use crate::example::Example;
use std::alloc::{AllocError, Global};
use std::process::Abort;
use std::test::Fail;

/// What a file holds.
#[derive(Clone, Copy)]
enum Content {
    /// There is no such file.
    Missing,
    Text(&'static str),
    /// So many blanks.
    Blanks(usize),
}

use Content::{Blanks, Missing, Text};

/// The words, the files `s`, `a` and `t`, the fetches that fail, by their numbers from 1, and the status and the line that are wanted.
type Row = (
    &'static [&'static str],
    [Content; 3],
    &'static [u64],
    u8,
    &'static str,
);

const RUN: &[&str] = &["run", "s", "a"];

const CHECK: &[&str] = &["check", "s", "a", "t"];

const MIGRATE: &[&str] = &["migrate", "s", "a", "t"];

const PAGE: Content = Text("page 1\n");

/// A script that has no tree.
const NO_SCRIPT: Content = Text("log(");

const NO_PAGE: Content = Text("page 3\n");

/// One byte more than a script or arrivals may have.
const LONG: Content = Blanks(1_048_577);

/// One byte more than a trace may have to be exported or blamed.
const LONG_PICTURE: Content = Blanks(4_194_305);

/// One byte more than a trace may have.
const LONG_TRACE: Content = Blanks(67_108_865);

const SCRIPT_FAULT: &str = "pageloop: read fault: s\n";

const ARRIVALS_FAULT: &str = "pageloop: read fault: a\n";

const TRACE_FAULT: &str = "pageloop: read fault: t\n";

const TOO_LONG: [Row; 12] = [
    (
        RUN,
        [LONG, PAGE, Missing],
        &[],
        6,
        "pageloop: too long: s\n",
    ),
    (
        RUN,
        [NO_SCRIPT, LONG, Missing],
        &[],
        6,
        "pageloop: too long: a\n",
    ),
    (
        RUN,
        [LONG, LONG, Missing],
        &[],
        6,
        "pageloop: too long: s\n",
    ),
    (
        CHECK,
        [NO_SCRIPT, LONG, Text("")],
        &[],
        6,
        "pageloop: too long: a\n",
    ),
    (
        CHECK,
        [NO_SCRIPT, NO_PAGE, LONG_TRACE],
        &[],
        6,
        "pageloop: too long: t\n",
    ),
    (
        MIGRATE,
        [LONG, NO_PAGE, Text("")],
        &[],
        6,
        "pageloop: too long: s\n",
    ),
    (
        MIGRATE,
        [NO_SCRIPT, LONG, Text("")],
        &[],
        6,
        "pageloop: too long: a\n",
    ),
    (
        &["expand", "s"],
        [LONG, Missing, Missing],
        &[],
        6,
        "pageloop: too long: s\n",
    ),
    (
        &["export", "t"],
        [Missing, Missing, LONG_PICTURE],
        &[],
        6,
        "pageloop: too long: t\n",
    ),
    (
        &["blame", "t"],
        [Missing, Missing, LONG_PICTURE],
        &[],
        6,
        "pageloop: too long: t\n",
    ),
    (
        &["stat", "t"],
        [Missing, Missing, LONG_TRACE],
        &[],
        6,
        "pageloop: too long: t\n",
    ),
    // What is too long for a picture may still be counted, but blanks are no trace.
    (
        &["stat", "t"],
        [Missing, Missing, LONG_PICTURE],
        &[],
        8,
        "pageloop: trace: line 1\n",
    ),
];

const UNREAD: [Row; 18] = [
    (RUN, [Missing, PAGE, Missing], &[], 74, SCRIPT_FAULT),
    (RUN, [Text(""), Missing, Missing], &[], 74, ARRIVALS_FAULT),
    (RUN, [Missing, Missing, Missing], &[], 74, SCRIPT_FAULT),
    (RUN, [NO_SCRIPT, Missing, Missing], &[], 74, ARRIVALS_FAULT),
    (RUN, [NO_SCRIPT, PAGE, Missing], &[1], 74, SCRIPT_FAULT),
    (
        RUN,
        [Text("log(1 + 2);"), Text(""), Missing],
        &[2],
        74,
        ARRIVALS_FAULT,
    ),
    (RUN, [Text(""), PAGE, Missing], &[1, 2], 74, SCRIPT_FAULT),
    (CHECK, [NO_SCRIPT, NO_PAGE, Missing], &[], 74, TRACE_FAULT),
    (
        CHECK,
        [NO_SCRIPT, NO_PAGE, Text("")],
        &[2],
        74,
        ARRIVALS_FAULT,
    ),
    (CHECK, [NO_SCRIPT, NO_PAGE, Text("")], &[3], 74, TRACE_FAULT),
    (
        MIGRATE,
        [NO_SCRIPT, NO_PAGE, Text("")],
        &[1],
        74,
        SCRIPT_FAULT,
    ),
    (
        MIGRATE,
        [NO_SCRIPT, NO_PAGE, Text("")],
        &[2],
        74,
        ARRIVALS_FAULT,
    ),
    (MIGRATE, [NO_SCRIPT, NO_PAGE, Missing], &[], 74, TRACE_FAULT),
    (
        &["expand", "s"],
        [Missing, Missing, Missing],
        &[],
        74,
        SCRIPT_FAULT,
    ),
    (
        &["export", "t"],
        [Text(""), Text(""), Missing],
        &[],
        74,
        TRACE_FAULT,
    ),
    (
        &["blame", "t"],
        [Text(""), Text(""), Missing],
        &[],
        74,
        TRACE_FAULT,
    ),
    (
        &["stat", "t"],
        [Text(""), Text(""), Missing],
        &[],
        74,
        TRACE_FAULT,
    ),
    (
        &["stat", "t"],
        [Text(""), Text(""), Text("")],
        &[1],
        74,
        TRACE_FAULT,
    ),
];

fn bytes(alloc: Global, content: Content) -> Result<Option<Vec<u8>>, AllocError> {
    match content {
        Missing => Ok(None),
        Text(text) => Ok(Some(text.as_bytes().to_vec(alloc)?)),
        Blanks(count) => Ok(Some(vec![in alloc; b' '; count]?)),
    }
}

// Whether the program answers what a row wants.
fn is_met<'a>(
    alloc: Global,
    row: &Row,
    script: Option<&'a [u8]>,
    arrivals: Option<&'a [u8]>,
    trace: Option<&'a [u8]>,
) -> Result<bool, Fail> {
    let (words, _, failing_fetches, status, line) = *row;
    let example = Example {
        words,
        script,
        arrivals,
        trace,
        failing_fetches,
        ..Example::of_sum()
    };
    let ended = example.run(alloc)?;
    Ok(ended.status == status && ended.err.as_str() == line && ended.out.is_empty())
}

fn is_met_by(alloc: Global, row: &Row) -> Result<bool, Fail> {
    let [script, arrivals, trace] = row.1;
    let (script, arrivals, trace) = (
        bytes(alloc, script)?,
        bytes(alloc, arrivals)?,
        bytes(alloc, trace)?,
    );
    is_met(
        alloc,
        row,
        script.as_deref(),
        arrivals.as_deref(),
        trace.as_deref(),
    )
}

fn expect_rows(rt: &impl Abort, alloc: Global, rows: &[Row]) -> Result<(), Fail> {
    for (number, row) in rows.iter().enumerate() {
        assert!(rt; is_met_by(alloc, row)?, "row {number}: {}", row.4);
    }
    Ok(())
}

#[test]
fn a_file_that_is_too_long_is_named(rt: HostRuntime) -> Result<(), Fail> {
    expect_rows(&rt, rt.alloc(), &TOO_LONG)
}

#[test]
fn a_file_that_is_missing_or_not_read_is_named(rt: HostRuntime) -> Result<(), Fail> {
    expect_rows(&rt, rt.alloc(), &UNREAD)
}

#[test]
fn a_script_of_1_048_576_bytes_is_run(rt: HostRuntime) -> Result<(), Fail> {
    let script = vec![in rt.alloc(); b' '; 1_048_576]?;
    let ended = Example::of_files(&script, b"page 1\n").run(rt.alloc())?;
    let wanted = "trace 1\n0 turn 1 dom\n0 call 1\n0 ret\n0 end done\n";
    assert!(rt; ended.status == 0 && ended.out.as_str() == wanted && ended.err.is_empty());
    Ok(())
}
