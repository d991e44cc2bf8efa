//! Telling a sink that no more comes.

ghost use Rattle.std.specs.Prelude.{◌≡◌, ◌≤◌};
ghost use Rattle.page_cli.specs.HandedOn.{HandsOn, IsWhole};

use crate::answer::Answer;
use page_io::{Failed, Sink};

/// Has the sink hand on what it gathered, and gives the answer then: where it did not hand on all, no run has ended with its whole trace,
/// and no text was written whole. Takes no memory.
pub(crate) fn hand_on<O: Sink>(out: &mut O, answer: Answer) -> Answer
    ensures answer { HandsOn answer result (O.faults out.old) (O.faults out.new) }
    ensures whole { IsWhole result → O.IsHandedOn out.new }
    ensures bytes { O.bytes out.new ≡ O.bytes out.old }
    ensures puts { O.puts out.new ≡ O.puts out.old }
    ensures later { O.faults out.old ≤ O.faults out.new }
{
    match (out.finish(), answer) {
        (Err(Failed), Answer::Ended { .. } | Answer::Written) => Answer::WriteFault,
        (_, answer) => answer,
    }
}
