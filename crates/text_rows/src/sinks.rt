//! A sink in memory, and what it keeps of calls that fail.

use crate::rows::expect_met;
use page_io::{Failed, MemSink, Sink};
use std::alloc::Global;
use std::test::Fail;

// A call on a sink, and what it answers.
pub(crate) enum Call {
    Put(&'static [u8], Result<(), Failed>),
    Finish(Result<(), Failed>),
}

use Call::{Finish, Put};

fn make<S: Sink>(sink: &mut S, call: &Call) -> bool {
    match call {
        Put(piece, put) => !piece.is_empty() && sink.put(piece) == *put,
        Finish(finished) => sink.finish() == *finished,
    }
}

/// The calls are made, and answer as they say.
pub(crate) fn makes_all<S: Sink>(sink: &mut S, calls: &[Call]) -> bool {
    for call in calls {
        if !make(sink, call) {
            return false;
        }
    }
    true
}

const KEPT: &[u8] = b"pageloop 1\nturenden\n";

// It has room for 20 bytes. Its second call keeps three bytes, and its fourth one nine.
fn failing_sink(alloc: Global) -> Result<MemSink, Fail> {
    let fails = vec![in alloc; (2, 3), (2, 1), (4, 9)]?;
    Ok(MemSink::new(alloc, 20, fails)?)
}

const PUTS: [Call; 6] = [
    Put(b"pageloop 1\n", Ok(())),
    Put(b"turn", Err(Failed)),
    // There is no room for all of it.
    Put(b"call 1\n", Err(Failed)),
    Put(b"end", Err(Failed)),
    Put(b"en\n", Ok(())),
    // The room is used up.
    Put(b"d", Err(Failed)),
];

// What it keeps is told, before it fails at its end and after that.
fn keeps(sink: MemSink) -> bool {
    let mut sink = sink;
    let is_kept = makes_all(&mut sink, &PUTS) && sink.bytes() == KEPT;
    let is_finished = makes_all(&mut sink, &[Finish(Ok(()))]);
    let mut failing = sink.failing_at_end();
    let is_failed = makes_all(&mut failing, &[Finish(Err(Failed))]) && failing.bytes() == KEPT;
    drop(failing);
    is_kept && is_finished && is_failed
}

#[test]
fn keeps_what_a_failing_put_is_told_to(rt: HostRuntime) -> Result<(), Fail> {
    let sink = failing_sink(rt.alloc())?;
    expect_met(&rt, keeps(sink), 0);
    Ok(())
}
