//! Files that are fetched from a folder in memory.

use crate::rows::expect_met;
use page_io::{FetchFault, Fetched, Folder, MemFolder};
use std::alloc::{AllocError, Global};
use std::test::Fail;

pub(crate) enum Step<'a> {
    // A fetch up to a limit, and what it answers.
    Fetch(usize, Result<Fetched, FetchFault>),
    // All that was appended.
    Bytes(&'a [u8]),
    Len(usize),
}

use Step::{Bytes, Fetch, Len};

fn take<F: Folder>(folder: &mut F, name: &str, into: &mut Vec<u8>, step: &Step) -> bool {
    match step {
        Fetch(limit, fetched) => folder.fetch(name, *limit, into) == *fetched,
        Bytes(bytes) => into.as_slice() == *bytes,
        Len(len) => into.len() == *len,
    }
}

/// The file of a name is fetched, and answers as each step says.
pub(crate) fn takes_all<F: Folder>(
    folder: &mut F,
    name: &str,
    into: &mut Vec<u8>,
    steps: &[Step],
) -> bool {
    for step in steps {
        if !take(folder, name, into, step) {
            return false;
        }
    }
    true
}

fn file(alloc: Global, name: &str, content: &[u8]) -> Result<(String, Vec<u8>), AllocError> {
    Ok((String::from_str(alloc, name)?, content.to_vec(alloc)?))
}

// Two files of one name. The fourth call fails.
fn folder(alloc: Global) -> Result<MemFolder, Fail> {
    let mut files = Vec::new(alloc);
    files.push(file(alloc, "s", b"log(1);")?)?;
    files.push(file(alloc, "s", b"log(2);")?)?;
    Ok(MemFolder::new(files, vec![in alloc; 4]?))
}

const FIRST: [Step<'static>; 4] = [
    Fetch(7, Ok(Fetched::Whole)),
    Bytes(b"log(1);"),
    Fetch(2, Ok(Fetched::TooLong)),
    Bytes(b"log(1);log"),
];

const MISSING: [Step<'static>; 1] = [Fetch(7, Err(FetchFault::Failed))];

const FOURTH: [Step<'static>; 3] = [
    Fetch(7, Err(FetchFault::Failed)),
    Fetch(7, Ok(Fetched::Whole)),
    Len(17),
];

fn are_met(folder: &mut MemFolder, into: &mut Vec<u8>) -> bool {
    takes_all(folder, "s", into, &FIRST)
        && takes_all(folder, "a", into, &MISSING)
        && takes_all(folder, "s", into, &FOURTH)
}

#[test]
fn gives_the_first_file_of_a_name_up_to_the_limit(rt: HostRuntime) -> Result<(), Fail> {
    let mut folder = folder(rt.alloc())?;
    let mut into = Vec::new(rt.alloc());
    let are_met = are_met(&mut folder, &mut into);
    drop(into);
    drop(folder);
    expect_met(&rt, are_met, 0);
    Ok(())
}
