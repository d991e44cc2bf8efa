//! Judging a trace by the run under its own choices.

ghost use Rattle.std.specs.Prelude.{◌≡◌, ◌≤◌, ◌<◌, ◌^◌, length, IfOk, IfErr, Err};
ghost use Rattle.page_types.specs.declared.End.{End};
ghost use Rattle.page_types.specs.Counts.{Rose};
ghost use Rattle.host_jobs.specs.ToldTable.{closures_of};
ghost use Rattle.trace_text.specs.Trace.{IsBadLine};
ghost use Rattle.trace_text.specs.declared.fault.BadLine.{BadLine as BadLineSeen};
ghost use Rattle.trace_text.specs.declared.fault.TraceFault.TheVariants as fault;
ghost use Rattle.page_cli.specs.declared.answer.WhichFile.{WhichFile};
ghost use Rattle.page_cli.specs.declared.names.Asked.{Asked};
ghost use Rattle.page_cli.specs.Names.{form_seen};
ghost use Rattle.page_cli.specs.Answering.{IsRefusal};
ghost use Rattle.page_cli.specs.Missing.{StopsAtMissing};
ghost use Rattle.page_cli.specs.Faults.{FaultRose};
ghost use Rattle.page_cli.specs.Checked.{AllFit, RefusesText, TellsVerdict};
ghost use Rattle.page_cli.specs.NamedFiles.{ChecksNamed, ChecksRead, HasReadVerdict, RefusesRead};
ghost use Rattle.page_cli.specs.Pages.{HasVerdictOf};

use crate::answer::{Answer, WhichFile};
use crate::names::CheckNames;
use crate::pieces::write_text;
use crate::reading::{Page, read_files};
use crate::running::{Answered, unread};
use crate::three_files::{ThreeFiles, fetch_three};
use cell_room::Steps;
use host_jobs::{HostPort, HostTable};
use page_io::{Folder, Sink};
use std::alloc::Global;
use std::marker::Brand;
use std::sync::ledger::{Blank, Ledger};
use trace_check::{Verdict, check_text};
use trace_text::TraceFault;

/// Fetches the three files in the order of the words, and writes whether the trace is legal. The closures of the table are asked for
/// their kinds, ranges and marks, and none is called.
pub(crate) fn check_named<F: Folder, O: Sink>(
    alloc: Global,
    folder: &mut F,
    hosts: &HostTable,
    names: CheckNames,
    out: O,
) -> Answered<O>
    ensures answers { ChecksNamed result (F.file folder.old) names.entry (closures_of hosts.now) O.bytes out }
    ensures refused { IsRefusal result.answer → result.out ≡ out }
    ensures later { O.faults out ≤ O.faults result.out }
    ensures missing { StopsAtMissing result.answer (form_seen (Asked.Check names.entry)) (F.IsMissing folder.old) }
    ensures read { FaultRose result.answer (form_seen (Asked.Check names.entry)) F.faults folder.old folder.new }
    ensures write { result.answer ≡ Answer.WriteFault → Rose (O.faults out) (O.faults result.out) }
    ensures usage { result.answer ≡ Answer.Usage → ⊥ }
    ensures ended { (end : End) → result.answer ≡ Answer.Ended end → ⊥ }
{
    match fetch_three(alloc, folder, names) {
        Ok(files) => check_files(alloc, hosts, &files, out),
        Err(e) => unread(e.fault, e.file, out),
    }
}

/// Reads the bytes of the three files, and writes whether the trace is legal.
fn check_files<O: Sink>(
    alloc: Global,
    hosts: &HostTable,
    files: &ThreeFiles,
    mut out: O,
) -> Answered<O>
    requires { AllFit files.now.script.items files.now.arrivals.items files.now.trace.items }
    ensures answers { ChecksRead result.answer files.now (closures_of hosts.now) (O.bytes out) (O.bytes result.out) }
    ensures refused { IsRefusal result.answer → result.out ≡ out }
    ensures later { O.faults out ≤ O.faults result.out }
    ensures other { (file : WhichFile) → result.answer ≡ Answer.ReadFault file → ⊥ }
    ensures write { result.answer ≡ Answer.WriteFault → Rose (O.faults out) (O.faults result.out) }
    ensures usage { result.answer ≡ Answer.Usage → ⊥ }
    ensures ended { (end : End) → result.answer ≡ Answer.Ended end → ⊥ }
{
    let answer = match verdict_on(alloc, hosts, files) {
        Ok(verdict) => tell_verdict(verdict, &mut out),
        Err(refusal) => refusal,
    };
    Answered { answer, out }
}

/// The verdict on a trace, by the bytes of the three files.
///
/// The order of refusals is: script, arrivals, and trace.
fn verdict_on(alloc: Global, hosts: &HostTable, files: &ThreeFiles) -> Result<Verdict, Answer>
    requires { AllFit files.now.script.items files.now.arrivals.items files.now.trace.items }
    ensures found { IfOk result (HasReadVerdict files.now (closures_of hosts.now)) }
    ensures refused { IfErr result (RefusesRead files.now) }
{
    match read_files(alloc, &files.script, &files.arrivals) {
        Ok(page) => judge(alloc, hosts, &page, &files.trace),
        Err(answer) => Err(answer),
    }
}

/// The verdict on the trace that some bytes spell, by a program, a setup and the closures of a table. No event of it is kept.
pub(crate) fn judge(
    alloc: Global,
    hosts: &HostTable,
    page: &Page,
    trace: &[u8],
) -> Result<Verdict, Answer>
    ensures found { IfOk result (HasVerdictOf page.now (closures_of hosts.now) trace.now) }
    ensures count { IfOk result (λ _. length (closures_of hosts.now) ≤ 2 ^ 32) }
    ensures refused { IfErr result (λ answer. RefusesText answer trace.now) }
{
    // A page numbers its closures by 32 bits.
    if hosts.known(u32::MAX) {
        return Err(Answer::OutOfMemory);
    }
    match judge_in::<Brand>(alloc, hosts, page, trace, Blank::new(1)) {
        Ok(verdict) => Ok(verdict),
        Err(TraceFault::Is(bad)) => Err(Answer::BadTrace { line: bad.line }),
        Err(TraceFault::OutOfMemory) => Err(Answer::OutOfMemory),
    }
}

/// The same. The accesses to the room of the tasks are counted in a new ledger.
fn judge_in<M: Ledger>(
    alloc: Global,
    hosts: &HostTable,
    page: &Page,
    trace: &[u8],
    blank: Blank,
) -> Result<Verdict, TraceFault>
    requires count { length (closures_of hosts.now) ≤ 2 ^ 32 }
    requires name { blank.name ≡ M.name }
    requires parts { blank.parts ≡ M.parts }
    requires some { 0 < blank.parts }
    ensures found { IfOk result (HasVerdictOf page.now (closures_of hosts.now) trace.now) }
    ensures bad { (line : BadLineSeen) → result ≡ Err (fault.Is line) → IsBadLine trace.now line.line }
{
    let (book, share) = blank.open::<M>();
    let accesses = Steps::new(book, share);
    check_text(alloc, &page.program, &page.setup, hosts, trace, accesses)
}

/// Writes `legal` where the trace is legal; else the answer tells why it is not.
fn tell_verdict<O: Sink>(verdict: Verdict, out: &mut O) -> Answer
    ensures tells { TellsVerdict verdict result (O.bytes out.old) (O.bytes out.new) }
    ensures refused { IsRefusal result → out.new ≡ out.old }
    ensures fault { result ≡ Answer.WriteFault → Rose (O.faults out.old) (O.faults out.new) }
    ensures later { O.faults out.old ≤ O.faults out.new }
{
    match verdict {
        Verdict::Yes => write_text(out, b"legal\n"),
        Verdict::Differs { line } => Answer::Differs { line },
        Verdict::Illegal { line } => Answer::Illegal { line },
    }
}
