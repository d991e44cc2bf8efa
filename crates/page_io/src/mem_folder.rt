ghost use Rattle.std.specs.Prelude.{◌≡◌, ◌≢◌, ◌≤◌, ◌↔◌, ℕ, List, Option, map, Some, None, IsNone, IfSome, IsTrue, IsErr, IsErrOf};
ghost use Rattle.std.specs.Option.{option_copied};
ghost use Rattle.page_types.specs.Counts.{Rose};
ghost use Rattle.page_io.specs.Files.{Fetches, FetchedOf};
ghost use Rattle.page_io.specs.MemFiles.{MemFiles, named, first_file, call_fails, fetch_fails, after_fetch};

use crate::{FetchFault, Fetched, Folder};
use std::marker::Model;

/// Files in memory, and the numbers of the calls that fail.
#[derive(Drop)]
pub struct MemFolder {
    files: Vec<(String, Vec<u8>)>,
    fails: Vec<u64>,
    calls: u64,
    faults: u64,
}

impl Model for MemFolder {
    ghost Value = { MemFiles };

    ghost view = { λ folder. record {
      files = map named folder.files.items;
      fails = folder.fails.items;
      calls = folder.calls;
      faults = folder.faults;
    } };
}

impl MemFolder {
    /// A folder of files by their names; the first of a name counts. The calls of `fetch` whose numbers, counted from 1, are
    /// in `fails` fail. Takes no memory.
    pub fn new(files: Vec<(String, Vec<u8>)>, fails: Vec<u64>) -> MemFolder
        ensures { result ≡ record { files = map named files.items; fails = fails.items; calls = 0; faults = 0 } }
    {
        MemFolder {
            files,
            fails,
            calls: 0,
            faults: 0,
        }
    }

    // What this call gives, where it does not fail.
    fn content(&self, name: &str) -> Option<&[u8]>
        ensures none { IsNone result ↔ IsTrue (call_fails self.now name.now) }
        ensures bytes { IfSome result (λ content. first_file self.now.files name.now ≡ Some content.now) }
    {
        if self.fails.contains(&self.calls) {
            return None;
        }
        find_file(&self.files, name)
    }
}

impl Folder for MemFolder {
    ghost file = { λ folder name. first_file folder.files name };

    ghost IsMissing = { λ folder name. first_file folder.files name ≡ None };

    ghost faults = { λ folder _. folder.faults };

    /// It fails exactly where this call's number is among those that fail or no file has the name. Then nothing was
    /// appended.
    fn fetch(&mut self, name: &str, limit: usize, into: &mut Vec<u8>) -> Result<Fetched, FetchFault>
        ensures content { Fetches (first_file self.old.files name.now) limit into.old.items result into.new.items }
        ensures missing { first_file self.old.files name.now ≡ None → IsErr result }
        ensures same { (other : List ℕ) → first_file self.new.files other ≡ first_file self.old.files other }
        ensures stays { (other : List ℕ) →
            first_file self.old.files other ≡ None → first_file self.new.files other ≡ None }
        ensures later { (other : List ℕ) → self.old.faults ≤ self.new.faults }
        ensures cause { IsErrOf result FetchFault.Failed → Rose self.old.faults self.new.faults }

        ensures fails { IsErrOf result FetchFault.Failed ↔ IsTrue (fetch_fails self.old name.now) }
        ensures nothing { IsErrOf result FetchFault.Failed → into.new.items ≡ into.old.items }
        ensures after { self.new ≡ after_fetch self.old name.now }
    {
        self.calls = self.calls.saturating_add(1);
        let Some(content) = self.content(name) else {
            self.faults = self.faults.saturating_add(1);
            return Err(FetchFault::Failed);
        };
        append_file(content, limit, into)
    }
}

// The bytes of the first file of a name.
fn find_file<'a>(files: &'a [(String, Vec<u8>)], name: &str) -> Option<&'a [u8]>
    ensures { option_copied result ≡ first_file (map named files.now) name.now }
{
    let mut rest = files;
    while let Some((file, after)) = rest.split_first() {
        if file.0.as_str() == name {
            return Some(file.1.as_slice());
        }
        rest = after;
    }
    None
}

// Appends a file's bytes, or of a longer file one byte more than the limit.
fn append_file(content: &[u8], limit: usize, into: &mut Vec<u8>) -> Result<Fetched, FetchFault>
    ensures content { FetchedOf content.now limit into.old.items result into.new.items }
    ensures memory { result ≢ Err FetchFault.Failed }
{
    let (part, fetched) = if content.len() <= limit {
        (content, Fetched::Whole)
    } else {
        (&content[..limit + 1], Fetched::TooLong)
    };
    match into.extend_from_slice(part) {
        Ok(()) => Ok(fetched),
        Err(_) => Err(FetchFault::OutOfMemory),
    }
}
