//! What is told of a trace.

ghost use Rattle.std.specs.Prelude.{◌≡◌, ◌≤◌, length, map, IfOk};
ghost use Rattle.page_types.specs.declared.End.{End};
ghost use Rattle.page_types.specs.Counts.{Rose};
ghost use Rattle.trace_text.specs.EventSeen.{stamped_seen};
ghost use Rattle.page_cli.specs.declared.answer.WhichFile.{WhichFile};
ghost use Rattle.page_cli.specs.declared.answer.WhichFile.TheVariants.{Trace};
ghost use Rattle.page_cli.specs.Answering.{IsRefusal};
ghost use Rattle.page_cli.specs.Forms.{PictureForm};
ghost use Rattle.page_cli.specs.Missing.{StopsAtMissing};
ghost use Rattle.page_cli.specs.Faults.{OnlyFaultRose};
ghost use Rattle.page_cli.specs.Pictures.{AnswersPicture, AnswersTrace, AnswersEvents, IsPicture, most_of};

use crate::answer::{Answer, WhichFile};
use crate::counting::counts_text;
use crate::names::Picture;
use crate::pieces::write_text;
use crate::reading::{MOST_CHECKED_BYTES, MOST_TRACE_BYTES, fetched};
use crate::running::{Answered, unread};
use page_io::{Folder, Sink};
use std::alloc::{AllocError, Global};
use trace_blame::blame;
use trace_export::export;
use trace_text::{Events, TraceFault, read_trace, summary_of};

/// Fetches a trace, and writes what is asked of it.
pub(crate) fn picture_named<F: Folder, O: Sink>(
    alloc: Global,
    folder: &mut F,
    what: Picture,
    trace: &str,
    out: O,
) -> Answered<O>
    ensures answers { AnswersPicture result.answer what (F.file folder.old trace.now) (O.bytes out) (O.bytes result.out) }
    ensures refused { IsRefusal result.answer → result.out ≡ out }
    ensures later { O.faults out ≤ O.faults result.out }
    ensures missing { StopsAtMissing result.answer (PictureForm what trace.now) (F.IsMissing folder.old) }
    ensures read { OnlyFaultRose result.answer Trace trace.now F.faults folder.old folder.new }
    ensures write { result.answer ≡ Answer.WriteFault → Rose (O.faults out) (O.faults result.out) }
    ensures usage { result.answer ≡ Answer.Usage → ⊥ }
    ensures ended { (end : End) → result.answer ≡ Answer.Ended end → ⊥ }
{
    match fetched(alloc, folder, trace, most_of(what)) {
        Ok(bytes) => picture_of(alloc, what, &bytes, out),
        Err(fault) => unread(fault, WhichFile::Trace, out),
    }
}

/// The greatest number of bytes of a trace of which this is told.
fn most_of(what: Picture) -> usize
    ensures { result ≡ most_of what }
{
    match what {
        Picture::Export | Picture::Blame => MOST_TRACE_BYTES,
        Picture::Counts => MOST_CHECKED_BYTES,
    }
}

/// Reads a trace, and writes what is asked of it.
fn picture_of<O: Sink>(alloc: Global, what: Picture, bytes: &[u8], mut out: O) -> Answered<O>
    requires { length bytes.now ≤ most_of what }
    ensures answers { AnswersTrace result.answer what bytes.now (O.bytes out) (O.bytes result.out) }
    ensures refused { IsRefusal result.answer → result.out ≡ out }
    ensures later { O.faults out ≤ O.faults result.out }
    ensures other { (file : WhichFile) → result.answer ≡ Answer.ReadFault file → ⊥ }
    ensures write { result.answer ≡ Answer.WriteFault → Rose (O.faults out) (O.faults result.out) }
    ensures ended { (end : End) → result.answer ≡ Answer.Ended end → ⊥ }
{
    let answer = match read_trace(alloc, bytes) {
        Ok(trace) => write_picture(alloc, what, &trace, &mut out),
        Err(TraceFault::Is(bad)) => Answer::BadTrace { line: bad.line },
        Err(TraceFault::OutOfMemory) => Answer::OutOfMemory,
    };
    Answered { answer, out }
}

/// Writes what is asked of a trace.
fn write_picture<O: Sink>(alloc: Global, what: Picture, trace: &Events, out: &mut O) -> Answer
    ensures answers { AnswersEvents result what (map stamped_seen trace.now.events) (O.bytes out.old) (O.bytes out.new) }
    ensures write { result ≡ Answer.WriteFault → Rose (O.faults out.old) (O.faults out.new) }
    ensures later { O.faults out.old ≤ O.faults out.new }
{
    let Ok(text) = picture_text(alloc, what, trace) else {
        return Answer::OutOfMemory;
    };
    write_text(out, &text)
}

/// What is told of a trace.
fn picture_text(alloc: Global, what: Picture, trace: &Events) -> Result<Vec<u8>, AllocError>
    ensures { IfOk result (λ text. IsPicture what (map stamped_seen trace.now.events) text.items) }
{
    match what {
        Picture::Export => export(alloc, trace),
        Picture::Blame => blame(alloc, trace),
        Picture::Counts => counts_text(alloc, summary_of(trace)),
    }
}
