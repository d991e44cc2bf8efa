//! One run of the program over files in memory.

use host_jobs::HostTable;
use page_cli::page_main;
use page_io::{MemFolder, MemSink};
use std::alloc::{AllocError, Global};
use std::test::Fail;

/// Room for more bytes than an example writes.
const ROOM: usize = 65_536;

/// The status of want of memory, of which there is none here.
const OUT_OF_MEMORY: u8 = 70;

/// The words that run the script `s` under the arrivals `a`.
const RUN: [&str; 3] = ["run", "s", "a"];

/// The words that check the trace `t` of the script `s` under the arrivals `a`.
const CHECK: [&str; 4] = ["check", "s", "a", "t"];

/// What the program is given.
#[derive(Clone, Copy)]
pub(crate) struct Example<'a> {
    pub(crate) words: &'a [&'a str],
    pub(crate) script: Option<&'a [u8]>,
    pub(crate) arrivals: Option<&'a [u8]>,
    pub(crate) trace: Option<&'a [u8]>,
    /// The numbers, from 1, of the fetches that fail.
    pub(crate) failing_fetches: &'a [u64],
    /// The numbers, from 1, of the pieces of `out` that are not taken, and how many bytes of each are kept.
    pub(crate) failing_out: &'a [(u64, usize)],
    /// The same of `err`.
    pub(crate) failing_err: &'a [(u64, usize)],
    /// Whether `out` does not hand on at its end what was put.
    pub(crate) is_out_lost: bool,
    /// The same of `err`.
    pub(crate) is_err_lost: bool,
}

/// What the program gave.
#[derive(Drop)]
pub(crate) struct Ended {
    pub(crate) status: u8,
    pub(crate) hosts: HostTable,
    pub(crate) out: String,
    pub(crate) err: String,
}

impl<'a> Example<'a> {
    /// Words, a script and arrivals, with nothing that fails.
    pub(crate) fn new(words: &'a [&'a str], script: &'a [u8], arrivals: &'a [u8]) -> Example<'a> {
        Example {
            words,
            script: Some(script),
            arrivals: Some(arrivals),
            trace: None,
            failing_fetches: &[],
            failing_out: &[],
            failing_err: &[],
            is_out_lost: false,
            is_err_lost: false,
        }
    }

    /// A script and arrivals that are run.
    pub(crate) fn of_files(script: &'a [u8], arrivals: &'a [u8]) -> Example<'a> {
        Example::new(&RUN, script, arrivals)
    }

    /// A trace that is checked with a script and arrivals.
    pub(crate) fn of_trace(script: &'a [u8], arrivals: &'a [u8], trace: &'a [u8]) -> Example<'a> {
        Example {
            trace: Some(trace),
            ..Example::new(&CHECK, script, arrivals)
        }
    }

    /// The sum of 1 and 2 under arrivals that set nothing.
    pub(crate) fn of_sum() -> Example<'a> {
        Example::of_files(b"log(1 + 2);", b"page 1\n")
    }

    /// Runs the program with no host closure. It is an error if that answers want of memory.
    pub(crate) fn run(&self, alloc: Global) -> Result<Ended, Fail> {
        self.run_with(alloc, HostTable::new(alloc))
    }

    /// The same with the closures of a table.
    pub(crate) fn run_with(&self, alloc: Global, hosts: HostTable) -> Result<Ended, Fail> {
        let words = owned_words(alloc, self.words)?;
        let mut folder = self.folder(alloc)?;
        let out = sink(alloc, self.failing_out, self.is_out_lost)?;
        let mut err = sink(alloc, self.failing_err, self.is_err_lost)?;
        let end = page_main(alloc, &words, &mut folder, hosts, out, &mut err);
        if end.status == OUT_OF_MEMORY {
            return Err(Fail::new("out of memory"));
        }
        Ok(Ended {
            status: end.status,
            hosts: end.hosts,
            out: text(alloc, &end.out)?,
            err: text(alloc, &err)?,
        })
    }

    fn folder(&self, alloc: Global) -> Result<MemFolder, AllocError> {
        let mut files = Vec::new(alloc);
        for (name, content) in [("s", self.script), ("a", self.arrivals), ("t", self.trace)] {
            if let Some(bytes) = content {
                files.push((String::from_str(alloc, name)?, bytes.to_vec(alloc)?))?;
            }
        }
        Ok(MemFolder::new(files, self.failing_fetches.to_vec(alloc)?))
    }
}

/// The pieces in a row.
pub(crate) fn joined(alloc: Global, pieces: &[&[u8]]) -> Result<Vec<u8>, AllocError> {
    let mut bytes = Vec::new(alloc);
    for piece in pieces {
        bytes.extend_from_slice(*piece)?;
    }
    Ok(bytes)
}

fn owned_words(alloc: Global, words: &[&str]) -> Result<Vec<String>, AllocError> {
    let mut owned = Vec::new(alloc);
    for word in words {
        owned.push(String::from_str(alloc, word)?)?;
    }
    Ok(owned)
}

fn sink(alloc: Global, fails: &[(u64, usize)], is_lost: bool) -> Result<MemSink, AllocError> {
    let sink = MemSink::new(alloc, ROOM, fails.to_vec(alloc)?)?;
    Ok(if is_lost { sink.failing_at_end() } else { sink })
}

fn text(alloc: Global, sink: &MemSink) -> Result<String, Fail> {
    let text = std::str::from_utf8(sink.bytes())?;
    Ok(String::from_str(alloc, text)?)
}
