//! Putting pieces of text.

ghost use Rattle.std.specs.Prelude.{◌≡◌, ◌≤◌};
ghost use Rattle.page_types.specs.Counts.{Rose};
ghost use Rattle.page_cli.specs.Complaints.{Puts};
ghost use Rattle.page_cli.specs.Texts.{WritesText};

use crate::answer::Answer;
use page_io::{Failed, Sink};

/// Puts a piece, which may be empty. Takes no memory.
pub(crate) fn put<S: Sink>(sink: &mut S, piece: &[u8]) -> Result<(), Failed>
    ensures { Puts (S.bytes sink.old) (S.faults sink.old) piece.now result (S.bytes sink.new) (S.faults sink.new) }
{
    if piece.is_empty() {
        return Ok(());
    }
    sink.put(piece)
}

/// Writes a text that was asked for. Takes no memory.
pub(crate) fn write_text<O: Sink>(out: &mut O, text: &[u8]) -> Answer
    ensures wrote { WritesText result text.now (O.bytes out.old) (O.bytes out.new) }
    ensures fault { result ≡ Answer.WriteFault → Rose (O.faults out.old) (O.faults out.new) }
    ensures later { O.faults out.old ≤ O.faults out.new }
{
    match put(out, text) {
        Ok(()) => Answer::Written,
        Err(_) => Answer::WriteFault,
    }
}
