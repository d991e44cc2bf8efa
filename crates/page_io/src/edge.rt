ghost use Rattle.std.specs.Prelude.{◌≡◌, ◌≤◌, ◌<◌, ℕ, [], None, length, IfOk, IsErr, IsErrOf, OnOk};
ghost use Rattle.page_types.specs.Counts.{raised, HasCause, Rose, refusals_after};
ghost use Rattle.std.specs.Io.Buffered.{writer_buffer, writer_inner};
ghost use Rattle.std.specs.Io.KnownBytes.{Appends, Keeps};
ghost use Rattle.page_io.specs.Files.{faults_after};
ghost use Rattle.page_io.specs.Stream.{Stream, taken};

use crate::{Failed, FetchFault, Fetched, Folder, Sink};
use std::alloc::{AllocError, Global};
use std::io::{BufWriter, ErrorKind, Read, Write};
use std::marker::Model;
use std::rt::Files;
use std::{fs, io};

/// The files of the system. It tells no content, and each fault raises the count of every name. It is seen as that count.
#[derive(Drop)]
pub struct RealFolder<'a, R: Files> {
    rt: &'a R,
    faults: u64,
}

impl<'a, R: Files> Model for RealFolder<'a, R> {
    ghost Value = { ℕ };

    ghost view = { λ folder. folder.faults };
}

impl<'a, R: Files> RealFolder<'a, R> {
    /// Takes no memory.
    pub fn new(rt: &'a R) -> RealFolder<'a, R>
        ensures { result ≡ 0 }
    {
        RealFolder { rt, faults: 0 }
    }

    // Appends the first `most` bytes of a file, and answers how many there were.
    fn read_start(&self, name: &str, most: u64, into: &mut Vec<u8>) -> io::Result<usize> {
        fs::open(self.rt, name)?.take(most).read_to_end(into)
    }
}

impl<'a, R: Files> Folder for RealFolder<'a, R> {
    ghost file = { λ _ _. None };

    ghost IsMissing = { λ _ _. ⊥ };

    ghost faults = { λ folder _. folder };

    fn fetch(&mut self, name: &str, limit: usize, into: &mut Vec<u8>) -> Result<Fetched, FetchFault>
        ensures missing { ⊥ → IsErr result }
        ensures later { self.old ≤ self.new }
        ensures cause { IsErrOf result FetchFault.Failed → Rose self.old self.new }
        ensures count { self.new ≡ faults_after self.old result }
    {
        match self.read_start(name, (limit as u64).saturating_add(1), into) {
            Ok(count) if count <= limit => Ok(Fetched::Whole),
            Ok(_) => Ok(Fetched::TooLong),
            Err(error) if error.kind() == ErrorKind::OutOfMemory => Err(FetchFault::OutOfMemory),
            Err(_) => {
                self.faults = self.faults.saturating_add(1);
                Err(FetchFault::Failed)
            }
        }
    }
}

/// How many bytes a stream gathers before it writes them, where no longer piece comes.
const MOST_WAITING: usize = 65_536;

/// A stream of the system, which is written to in large pieces. As a sink it tells no content. It is seen as what its writer
/// holds, where that is known, the bytes that wait, and the counts of its faults and of the pieces that were put.
///
/// What waits when it is dropped is written then, and a fault is not told.
#[derive(Drop)]
pub struct StdSink<W: Write + Drop> {
    out: BufWriter<W>,
    faults: u64,
    puts: u64,
}

impl<W: Write + Drop> Model for StdSink<W> {
    ghost Value = { Stream };

    ghost view = { λ sink. record {
      written = W.contents (writer_inner sink.out);
      waiting = writer_buffer sink.out;
      faults = sink.faults;
      puts = sink.puts;
    } };
}

impl<W: Write + Drop> StdSink<W> {
    /// All its memory is taken here, and want of it is the only error.
    pub fn new(alloc: Global, out: W) -> Result<StdSink<W>, AllocError>
        ensures { IfOk result (λ sink. sink ≡ record { written = W.contents out; waiting = []; faults = 0; puts = 0 }) }
    {
        match BufWriter::with_capacity(alloc, MOST_WAITING, out) {
            Ok(out) => Ok(StdSink {
                out,
                faults: 0,
                puts: 0,
            }),
            Err(_) => Err(AllocError),
        }
    }
}

impl<W: Write + Drop> Sink for StdSink<W> {
    ghost bytes = { λ _. None };

    ghost faults = { λ sink. sink.faults };

    ghost puts = { λ sink. sink.puts };

    ghost IsHandedOn = { λ sink. sink.waiting ≡ [] };

    fn put(&mut self, piece: &[u8]) -> Result<(), Failed>
        requires { 0 < length piece.now }
        ensures cause { HasCause self.old.faults self.new.faults result }
        ensures counted { self.new.puts ≡ raised self.old.puts }
        ensures count { self.new.faults ≡ refusals_after self.old.faults result }
        ensures taken { OnOk result (Appends (taken self.old) (taken self.new) piece.now) }
    {
        self.puts = self.puts.saturating_add(1);
        if self.out.write_all(piece).is_err() {
            self.faults = self.faults.saturating_add(1);
            return Err(Failed);
        }
        Ok(())
    }

    /// A device that has become full is met here at the latest.
    fn finish(&mut self) -> Result<(), Failed>
        ensures whole { OnOk result (self.new.waiting ≡ []) }
        ensures cause { HasCause self.old.faults self.new.faults result }
        ensures counted { self.new.puts ≡ self.old.puts }
        ensures count { self.new.faults ≡ refusals_after self.old.faults result }
        ensures taken { Keeps (taken self.old) (taken self.new) }
    {
        if self.out.flush().is_err() {
            self.faults = self.faults.saturating_add(1);
            return Err(Failed);
        }
        Ok(())
    }
}
