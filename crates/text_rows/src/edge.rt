//! A folder of the system, and a stream that is full at some time.

use crate::folders::{Step, takes_all};
use crate::rows::expect_met;
use crate::sinks::{Call, makes_all};
use Call::{Finish, Put};
use Step::{Bytes, Fetch, Len};
use page_io::{Failed, FetchFault, Fetched, RealFolder, Sink, StdSink};
use std::alloc::Global;
use std::rt::Files;
use std::test::Fail;
use std::{env, fs, process};

const THERE: [Step<'static>; 4] = [
    Fetch(7, Ok(Fetched::Whole)),
    Bytes(b"log(1);"),
    Fetch(2, Ok(Fetched::TooLong)),
    Bytes(b"log(1);log"),
];

const GONE: [Step<'static>; 2] = [Fetch(7, Err(FetchFault::Failed)), Len(10)];

// A file is there, and then no more.
fn is_fetched(rt: &impl Files, name: &str, into: &mut Vec<u8>) -> Result<bool, Fail> {
    let mut folder = RealFolder::new(rt);
    fs::write(rt, name, "log(1);")?;
    let is_there = takes_all(&mut folder, name, into, &THERE);
    fs::remove_file(rt, name)?;
    Ok(is_there && takes_all(&mut folder, name, into, &GONE))
}

fn is_fetched_by(rt: &impl Files, alloc: Global, name: &str) -> Result<bool, Fail> {
    let mut into = Vec::new(alloc);
    let is_fetched = is_fetched(rt, name, &mut into);
    drop(into);
    is_fetched
}

#[test]
fn real_folder_fetches_a_file_of_the_system(rt: HostRuntime) -> Result<(), Fail> {
    let mut path = env::temp_dir(&rt)?;
    path.push(format!(in rt.alloc(); "page_io_{}", process::id(rt.process()))?)?;
    let name = path.to_str().ok_or("not text")?;
    expect_met(&rt, is_fetched_by(&rt, rt.alloc(), name)?, 0);
    Ok(())
}

const CALLS: [Call; 4] = [
    Put(b"ret\n", Ok(())),
    Finish(Ok(())),
    Put(b"run 1\n", Ok(())),
    Finish(Err(Failed)),
];

// It hands on at its end.
fn hands_on(alloc: Global, page: &mut [u8]) -> Result<bool, Fail> {
    let mut sink = StdSink::new(alloc, page)?;
    let is_made = makes_all(&mut sink, &CALLS);
    drop(sink);
    Ok(is_made)
}

// A piece of 64 KiB, as much as may wait, comes behind a short one. The stream has no room for it.
fn puts_long(alloc: Global, page: &mut [u8], long: &[u8]) -> Result<bool, Fail> {
    let mut sink = StdSink::new(alloc, page)?;
    let are_put = sink.put(b"ret\n") == Ok(()) && !long.is_empty() && sink.put(long) == Err(Failed);
    drop(sink);
    Ok(are_put)
}

#[test]
fn std_sink_hands_on_at_its_end(rt: HostRuntime) -> Result<(), Fail> {
    let mut page = [0u8; 8];
    let is_made = hands_on(rt.alloc(), &mut page[..])?;
    expect_met(&rt, is_made && page[..] == b"ret\nrun "[..], 0);
    Ok(())
}

#[test]
fn std_sink_writes_long_pieces_at_once(rt: HostRuntime) -> Result<(), Fail> {
    let mut page = [0u8; 8];
    let long = vec![in rt.alloc(); 32u8; 65_536]?;
    let are_put = puts_long(rt.alloc(), &mut page[..], &long);
    drop(long);
    expect_met(&rt, are_put? && page[..] == b"ret\n    "[..], 0);
    Ok(())
}
