ghost use Rattle.std.specs.Prelude.{◌≡◌, ◌+◌, ◌≤◌, ◌<◌, ◌↔◌, ℕ, List, [], length, take, Option, Some, IsSome, IfSome, IsErr, IfOk, OnOk, OnErr, vec_len, vec_capacity, true, false, IsTrue};
ghost use Rattle.std.specs.Option.{option_copied};
ghost use Rattle.page_types.specs.Counts.{raised, HasCause};
ghost use Rattle.page_types.specs.Told.{appended, IsStartOf, AppendsStartOf};
ghost use Rattle.page_io.specs.MemBytes.{MemBytes, kept_by, part_kept, failing_put, after_put, after_finish, first_bytes, with_more};

use crate::{Failed, Sink};
use std::alloc::{AllocError, Global};
use std::marker::Model;

/// Bytes in memory, with a list of the calls that fail and the bytes that each of these keeps.
#[derive(Drop)]
pub struct MemSink {
    bytes: Vec<u8>,
    left: usize,
    fails: Vec<(u64, usize)>,
    calls: u64,
    faults: u64,
    fails_at_end: bool,
}

impl Model for MemSink {
    ghost Value = { MemBytes };

    ghost view = { λ sink. record {
      bytes = sink.bytes.items;
      left = sink.left;
      fails = sink.fails.items;
      calls = sink.calls;
      faults = sink.faults;
      fails_at_end = sink.fails_at_end;
    } };

    ghost invariant = { λ sink. vec_len sink.bytes + sink.left ≤ vec_capacity sink.bytes };
}

impl MemSink {
    /// An empty sink with room for `reserve` bytes. All its memory is taken here, and want of it is the only error.
    ///
    /// `fails` says of calls of `put`, by their numbers counted from 1, that they fail, and how many bytes they keep. The
    /// first pair of a number counts.
    pub fn new(
        alloc: Global,
        reserve: usize,
        fails: Vec<(u64, usize)>,
    ) -> Result<MemSink, AllocError>
        ensures { IfOk result (λ sink. sink ≡ first_bytes reserve fails.items) }
    {
        Ok(MemSink {
            bytes: Vec::with_capacity(alloc, reserve)?,
            left: reserve,
            fails,
            calls: 0,
            faults: 0,
            fails_at_end: false,
        })
    }

    /// The same sink, whose `finish` fails. Takes no memory.
    pub fn failing_at_end(self) -> MemSink
        ensures { result ≡ record self { fails_at_end = true } }
    {
        MemSink {
            fails_at_end: true,
            ..self
        }
    }

    /// The bytes that were put. Takes no memory.
    pub fn bytes(&self) -> &[u8]
        ensures { result.now ≡ self.now.bytes }
    {
        &self.bytes
    }

    // What this call keeps of a piece, where it fails.
    fn failing_part<'a>(&self, piece: &'a [u8]) -> Option<&'a [u8]>
        ensures kept { option_copied result ≡ part_kept self.now piece.now }
        ensures start { IfSome result (λ part. IsStartOf part.now piece.now) }
    {
        if piece.len() > self.left {
            return Some(&[]);
        }
        let kept = kept_of(&self.fails, self.calls)?;
        Some(&piece[..kept.min(piece.len())])
    }

    // Appends what there is room for.
    fn append(&mut self, piece: &[u8])
        requires { length piece.now ≤ self.old.left }
        ensures { self.new ≡ with_more self.old piece.now }
    {
        self.bytes.extend_from_slice(piece).unwrap();
        self.left -= piece.len();
    }
}

// How many bytes the failing call of this number keeps.
fn kept_of(fails: &[(u64, usize)], call: u64) -> Option<usize>
    ensures { result ≡ kept_by fails.now call }
{
    fails.iter().find(|pair| pair.0 == call).map(|pair| pair.1)
}

impl Sink for MemSink {
    ghost bytes = { λ sink. Some sink.bytes };

    ghost faults = { λ sink. sink.faults };

    ghost puts = { λ sink. sink.calls };

    ghost IsHandedOn = { λ sink. sink.fails_at_end ≡ false };

    /// It fails exactly where the piece is longer than the room that is left, and then keeps nothing of it, or else where
    /// this call's number is among those that fail, and then keeps as many bytes as stand there, or the whole of a shorter
    /// piece. Takes no memory.
    fn put(&mut self, piece: &[u8]) -> Result<(), Failed>
        requires { 0 < length piece.now }
        ensures ok { OnOk result (Some self.new.bytes ≡ appended (Some self.old.bytes) piece.now) }
        ensures failed { OnErr result (AppendsStartOf (Some self.old.bytes) (Some self.new.bytes) piece.now) }
        ensures cause { HasCause self.old.faults self.new.faults result }
        ensures counted { self.new.calls ≡ raised self.old.calls }

        ensures fails { IsErr result ↔ IsSome (failing_put self.old piece.now) }
        ensures after { self.new ≡ after_put self.old piece.now }
    {
        self.calls = self.calls.saturating_add(1);
        let Some(part) = self.failing_part(piece) else {
            self.append(piece);
            return Ok(());
        };
        self.append(part);
        self.faults = self.faults.saturating_add(1);
        Err(Failed)
    }

    /// It fails exactly where the sink was made so. Takes no memory.
    fn finish(&mut self) -> Result<(), Failed>
        ensures whole { OnOk result (self.new.fails_at_end ≡ false) }
        ensures bytes { Some self.new.bytes ≡ Some self.old.bytes }
        ensures cause { HasCause self.old.faults self.new.faults result }
        ensures counted { self.new.calls ≡ self.old.calls }

        ensures fails { IsErr result ↔ IsTrue self.old.fails_at_end }
        ensures after { self.new ≡ after_finish self.old }
    {
        if self.fails_at_end {
            self.faults = self.faults.saturating_add(1);
            return Err(Failed);
        }
        Ok(())
    }
}
