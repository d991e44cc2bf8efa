//! Telling a legal trace in its second form.

ghost use Rattle.std.specs.Prelude.{◌≡◌, ◌≤◌, ◌<◌, ◌^◌, length};
ghost use Rattle.page_types.specs.declared.End.{End};
ghost use Rattle.page_types.specs.Counts.{Rose};
ghost use Rattle.host_jobs.specs.ToldTable.{closures_of};
ghost use Rattle.trace_check.specs.declared.verdict.Verdict.TheVariants.{Yes};
ghost use Rattle.page_cli.specs.declared.answer.WhichFile.{WhichFile};
ghost use Rattle.page_cli.specs.declared.names.Asked.{Asked};
ghost use Rattle.page_cli.specs.Names.{form_seen};
ghost use Rattle.page_cli.specs.Running.{CanStop};
ghost use Rattle.page_cli.specs.Answering.{IsRefusal};
ghost use Rattle.page_cli.specs.Missing.{StopsAtMissing};
ghost use Rattle.page_cli.specs.Faults.{FaultRose};
ghost use Rattle.page_cli.specs.Checked.{AllFit};
ghost use Rattle.page_cli.specs.Migrated.{HasLegalChoices, retold_to};
ghost use Rattle.page_cli.specs.NamedFiles.{MigratesNamed, MigratesRead};
ghost use Rattle.page_cli.specs.Pages.{program_in, setup_in, HasVerdictOf, RetellsPage, RetellsBy, RunsAgain};

use crate::answer::{Answer, WhichFile};
use crate::checking::judge;
use crate::names::CheckNames;
use crate::reading::{Page, read_files};
use crate::running::{Answered, unread};
use crate::three_files::{ThreeFiles, fetch_three};
use cell_room::Steps;
use host_jobs::HostTable;
use loop_turn::RunStop;
use page_base::End;
use page_io::{Folder, Sink};
use std::alloc::Global;
use std::marker::Brand;
use std::sync::ledger::{Blank, Ledger};
use trace_check::{Replayed, TraceChoices, Verdict, replay_choices, text_choices};
use trace_text::{LineSink, TraceFault};

/// Fetches the three files in the order of the words, and writes the trace in its second form where it is legal. The closures of the
/// table are asked for their kinds, ranges and marks, and none is called.
pub(crate) fn migrate_named<F: Folder, O: Sink>(
    alloc: Global,
    folder: &mut F,
    hosts: &HostTable,
    names: CheckNames,
    out: O,
) -> Answered<O>
    ensures answers { MigratesNamed result (F.file folder.old) names.entry (closures_of hosts.now) O.bytes out }
    ensures refused { IsRefusal result.answer → result.out ≡ out }
    ensures later { O.faults out ≤ O.faults result.out }
    ensures missing { StopsAtMissing result.answer (form_seen (Asked.Migrate names.entry)) (F.IsMissing folder.old) }
    ensures read { FaultRose result.answer (form_seen (Asked.Migrate names.entry)) F.faults folder.old folder.new }
    ensures write { result.answer ≡ Answer.WriteFault → Rose (O.faults out) (O.faults result.out) }
    ensures usage { result.answer ≡ Answer.Usage → ⊥ }
    ensures ended { (end : End) → result.answer ≡ Answer.Ended end → ⊥ }
{
    match fetch_three(alloc, folder, names) {
        Ok(files) => migrate_files(alloc, hosts, &files, out),
        Err(e) => unread(e.fault, e.file, out),
    }
}

/// Reads the bytes of the three files, and writes the trace in its second form where it is legal.
///
/// The order of refusals is: script, arrivals, trace, and its verdict.
fn migrate_files<O: Sink>(
    alloc: Global,
    hosts: &HostTable,
    files: &ThreeFiles,
    out: O,
) -> Answered<O>
    requires { AllFit files.now.script.items files.now.arrivals.items files.now.trace.items }
    ensures answers { MigratesRead result.answer files.now (closures_of hosts.now) (O.bytes out) (O.bytes result.out) }
    ensures refused { IsRefusal result.answer → result.out ≡ out }
    ensures later { O.faults out ≤ O.faults result.out }
    ensures other { (file : WhichFile) → result.answer ≡ Answer.ReadFault file → ⊥ }
    ensures write { result.answer ≡ Answer.WriteFault → Rose (O.faults out) (O.faults result.out) }
    ensures usage { result.answer ≡ Answer.Usage → ⊥ }
    ensures ended { (end : End) → result.answer ≡ Answer.Ended end → ⊥ }
{
    let page = match read_files(alloc, &files.script, &files.arrivals) {
        Ok(page) => page,
        Err(answer) => return Answered { answer, out },
    };
    match judge(alloc, hosts, &page, &files.trace) {
        Ok(Verdict::Yes) => retell_text(alloc, hosts, page, &files.trace, out),
        Ok(Verdict::Differs { line }) => Answered {
            answer: Answer::Differs { line },
            out,
        },
        Ok(Verdict::Illegal { line }) => Answered {
            answer: Answer::Illegal { line },
            out,
        },
        Err(answer) => Answered { answer, out },
    }
}

/// Writes the legal trace that some bytes spell in its second form. No event of it is kept.
fn retell_text<O: Sink>(
    alloc: Global,
    hosts: &HostTable,
    page: Page,
    trace: &[u8],
    out: O,
) -> Answered<O>
    requires count { length (closures_of hosts.now) ≤ 2 ^ 32 }
    requires legal { HasVerdictOf page (closures_of hosts.now) trace.now Yes }
    ensures answers { RetellsPage page (closures_of hosts.now) trace.now result.answer (O.bytes out) (O.bytes result.out) }
    ensures write { result.answer ≡ Answer.WriteFault → Rose (O.faults out) (O.faults result.out) }
    ensures later { O.faults out ≤ O.faults result.out }
{
    match text_choices(alloc, trace) {
        Ok(choices) => retell(alloc, hosts, page, choices, out),
        // A trace has no such line.
        Err(TraceFault::Is(_)) => unreachable!(),
        Err(TraceFault::OutOfMemory) => Answered {
            answer: Answer::OutOfMemory,
            out,
        },
    }
}

/// Writes the lines of the run under the choices of a legal trace in its second form, where a trace tells of each registration which
/// callback made it.
fn retell<O: Sink>(
    alloc: Global,
    hosts: &HostTable,
    mut page: Page,
    choices: TraceChoices,
    out: O,
) -> Answered<O>
    requires count { length (closures_of hosts.now) ≤ 2 ^ 32 }
    requires legal { HasLegalChoices (program_in page) (setup_in page) (closures_of hosts.now) choices }
    ensures answers { RetellsBy page (closures_of hosts.now) choices result.answer (O.bytes out) (O.bytes result.out) }
    ensures write { result.answer ≡ Answer.WriteFault → Rose (O.faults out) (O.faults result.out) }
    ensures later { O.faults out ≤ O.faults result.out }
{
    page.setup.trace = 2;
    let replayed = replay_in::<O, Brand>(alloc, hosts, &page, choices, out, Blank::new(1));
    Answered {
        answer: retold(replayed.outcome),
        out: replayed.lines.into_sink(),
    }
}

/// The run under given choices, whose lines go to a sink. The accesses to the room of its tasks are counted in a new ledger.
fn replay_in<O: Sink, M: Ledger>(
    alloc: Global,
    hosts: &HostTable,
    page: &Page,
    choices: TraceChoices,
    out: O,
    blank: Blank,
) -> Replayed<LineSink<O>>
    requires count { length (closures_of hosts.now) ≤ 2 ^ 32 }
    requires name { blank.name ≡ M.name }
    requires parts { blank.parts ≡ M.parts }
    requires some { 0 < blank.parts }
    ensures { RunsAgain page.now (closures_of hosts.now) choices O.bytes O.faults out result.outcome result.lines }
{
    let lines = LineSink::new(alloc, out);
    let (book, share) = blank.open::<M>();
    let accesses = Steps::new(book, share);
    replay_choices(
        alloc,
        &page.program,
        &page.setup,
        hosts,
        choices,
        lines,
        accesses,
    )
}

/// The answer to the run under the choices of a legal trace, whose lines go to a sink. It refuses none of these, and no line differs.
fn retold(outcome: Result<End, RunStop>) -> Answer
    requires { CanStop outcome }
    ensures { result ≡ retold_to outcome }
{
    match outcome {
        Ok(_) => Answer::Written,
        Err(RunStop::WriteFault) => Answer::WriteFault,
        Err(RunStop::OutOfMemory) => Answer::OutOfMemory,
        Err(RunStop::Differs | RunStop::NoReading | RunStop::NoChoice | RunStop::NoHost) => {
            unreachable!()
        }
    }
}
