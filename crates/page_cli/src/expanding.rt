//! Writing the plain script for one with async functions.

ghost use Rattle.std.specs.Prelude.{◌≡◌, ◌≤◌, length};
ghost use Rattle.page_types.specs.declared.End.{End};
ghost use Rattle.page_types.specs.Counts.{Rose};
ghost use Rattle.page_cli.specs.declared.answer.WhichFile.{WhichFile};
ghost use Rattle.page_cli.specs.declared.answer.WhichFile.TheVariants.{Script};
ghost use Rattle.page_cli.specs.Answering.{IsRefusal};
ghost use Rattle.page_cli.specs.Forms.{ExpandForm};
ghost use Rattle.page_cli.specs.Missing.{StopsAtMissing};
ghost use Rattle.page_cli.specs.Faults.{OnlyFaultRose};
ghost use Rattle.page_cli.specs.Expanding.{AnswersExpand, AnswersExpansion};

use crate::answer::{Answer, WhichFile};
use crate::pieces::write_text;
use crate::reading::{MOST_BYTES, fetched};
use crate::running::{Answered, unread};
use async_segments::{ExpandFault, expand};
use page_io::{Folder, Sink};
use std::alloc::Global;

/// Fetches a script, and writes the plain one for it.
pub(crate) fn expand_named<F: Folder, O: Sink>(
    alloc: Global,
    folder: &mut F,
    script: &str,
    out: O,
) -> Answered<O>
    ensures answers { AnswersExpansion result.answer (F.file folder.old script.now) (O.bytes out) (O.bytes result.out) }
    ensures refused { IsRefusal result.answer → result.out ≡ out }
    ensures later { O.faults out ≤ O.faults result.out }
    ensures missing { StopsAtMissing result.answer (ExpandForm script.now) (F.IsMissing folder.old) }
    ensures read { OnlyFaultRose result.answer Script script.now F.faults folder.old folder.new }
    ensures write { result.answer ≡ Answer.WriteFault → Rose (O.faults out) (O.faults result.out) }
    ensures usage { result.answer ≡ Answer.Usage → ⊥ }
    ensures ended { (end : End) → result.answer ≡ Answer.Ended end → ⊥ }
{
    match fetched(alloc, folder, script, MOST_BYTES) {
        Ok(bytes) => write_expansion(alloc, &bytes, out),
        Err(fault) => unread(fault, WhichFile::Script, out),
    }
}

/// Writes the plain script for one with async functions.
fn write_expansion<O: Sink>(alloc: Global, script: &[u8], mut out: O) -> Answered<O>
    requires { length script.now ≤ 1048576 }
    ensures answers { AnswersExpand result.answer script.now (O.bytes out) (O.bytes result.out) }
    ensures refused { IsRefusal result.answer → result.out ≡ out }
    ensures later { O.faults out ≤ O.faults result.out }
    ensures other { (file : WhichFile) → result.answer ≡ Answer.ReadFault file → ⊥ }
    ensures write { result.answer ≡ Answer.WriteFault → Rose (O.faults out) (O.faults result.out) }
    ensures ended { (end : End) → result.answer ≡ Answer.Ended end → ⊥ }
{
    let answer = match expand(alloc, script) {
        Ok(text) => write_text(&mut out, &text),
        Err(ExpandFault::Is(_)) => Answer::NotAsync,
        Err(ExpandFault::OutOfMemory) => Answer::OutOfMemory,
    };
    Answered { answer, out }
}
