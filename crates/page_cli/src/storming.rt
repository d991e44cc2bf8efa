//! Running a storm, and counting the lines of its trace.

ghost use Rattle.std.specs.Prelude.{◌≡◌, ◌≤◌, ◌<◌, ◌^◌, length, IfOk, IfErr, IfSome};
ghost use Rattle.page_types.specs.Counts.{Rose};
ghost use Rattle.host_jobs.specs.ToldTable.{closures_of};
ghost use Rattle.trace_text.specs.Summaries.{summarised};
ghost use Rattle.page_cli.specs.declared.answer.WhichFile.{WhichFile};
ghost use Rattle.page_cli.specs.Answering.{IsRefusal};
ghost use Rattle.page_cli.specs.Stormed.{AnswersStorm, AnswersCounts};
ghost use Rattle.page_cli.specs.Pages.{IsStormSummary, IsSummaryOf};

use crate::answer::{Answer, WhichFile};
use crate::counting::counts_text;
use crate::pieces::put;
use crate::reading::{Page, read_files};
use crate::running::Answered;
use crate::storm_size::StormSize;
use cell_room::Steps;
use host_jobs::{HostPort, HostTable, RecordedHosts};
use loop_policy::PolicyChooser;
use loop_turn::run_page;
use page_base::ScriptClock;
use page_gen::storm;
use page_io::Sink;
use std::alloc::Global;
use std::marker::Brand;
use std::sync::ledger::{Blank, Ledger};
use trace_text::{LineCount, Summary};

/// Runs the storm with this number of turns, and writes the summary of its trace. The closures of the table are asked for their kinds,
/// ranges and marks, and none is called. What is counted is a run in which none is asked: it is the same whatever they would answer.
pub(crate) fn write_storm<O: Sink>(
    alloc: Global,
    hosts: &HostTable,
    size: StormSize,
    mut out: O,
) -> Answered<O>
    ensures answers { AnswersStorm result.answer size.turns (closures_of hosts.now) (O.bytes out) (O.bytes result.out) }
    ensures refused { IsRefusal result.answer → result.out ≡ out }
    ensures later { O.faults out ≤ O.faults result.out }
    ensures other { (file : WhichFile) → result.answer ≡ Answer.ReadFault file → ⊥ }
    ensures write { result.answer ≡ Answer.WriteFault → Rose (O.faults out) (O.faults result.out) }
    ensures usage { result.answer ≡ Answer.Usage → ⊥ }
    ensures written { result.answer ≡ Answer.Written → ⊥ }
{
    let answer = match storm_summary(alloc, hosts, size) {
        Ok(summary) => write_summary(alloc, summary, &mut out),
        Err(refusal) => refusal,
    };
    Answered { answer, out }
}

/// The summary of a storm's trace. Its texts are never refused.
fn storm_summary(alloc: Global, hosts: &HostTable, size: StormSize) -> Result<Summary, Answer>
    ensures found { IfOk result (IsStormSummary size.turns (closures_of hosts.now)) }
    ensures refused { IfErr result (λ answer. answer ≡ Answer.OutOfMemory) }
{
    let Ok((script, arrivals)) = storm(alloc, size.turns) else {
        return Err(Answer::OutOfMemory);
    };
    match read_files(alloc, &script, &arrivals) {
        Ok(page) => run_summary(alloc, hosts, &page),
        Err(answer) => Err(answer),
    }
}

/// The summary of the trace of a run whose closures give no answer.
fn run_summary(alloc: Global, hosts: &HostTable, page: &Page) -> Result<Summary, Answer>
    ensures found { IfOk result (IsSummaryOf page.now (closures_of hosts.now)) }
    ensures refused { IfErr result (λ answer. answer ≡ Answer.OutOfMemory) }
{
    // A page numbers its closures by 32 bits.
    if hosts.known(u32::MAX) {
        return Err(Answer::OutOfMemory);
    }
    match run_counted::<Brand>(alloc, hosts, page, Blank::new(1)) {
        Some(summary) => Ok(summary),
        None => Err(Answer::OutOfMemory),
    }
}

/// The same. The accesses to the room of the tasks are counted in a new ledger. None for want of memory, or where a closure was asked,
/// which has no answer.
fn run_counted<M: Ledger>(
    alloc: Global,
    hosts: &HostTable,
    page: &Page,
    blank: Blank,
) -> Option<Summary>
    requires count { length (closures_of hosts.now) ≤ 2 ^ 32 }
    requires name { blank.name ≡ M.name }
    requires parts { blank.parts ≡ M.parts }
    requires some { 0 < blank.parts }
    ensures { IfSome result (IsSummaryOf page.now (closures_of hosts.now)) }
{
    let Ok(late) = page.setup.late.to_vec(alloc) else {
        return None;
    };
    let Ok(port) = RecordedHosts::new(alloc, hosts, Vec::new(alloc)) else {
        return None;
    };
    let mut clock = ScriptClock::new(late);
    let mut chooser = PolicyChooser::new(page.setup.policy);
    let (book, share) = blank.open::<M>();
    let accesses = Steps::new(book, share);
    let ended = run_page(
        alloc,
        &page.program,
        &page.setup,
        &mut clock,
        &mut chooser,
        port,
        LineCount::new(),
        accesses,
    );
    match ended.outcome {
        Ok(_) => ended.lines.summary(),
        Err(_) => None,
    }
}

/// Writes a summary. The answer is the end that it tells.
fn write_summary<O: Sink>(alloc: Global, summary: Summary, out: &mut O) -> Answer
    ensures answers { AnswersCounts result summary.end (summarised summary) (O.bytes out.old) (O.bytes out.new) }
    ensures write { result ≡ Answer.WriteFault → Rose (O.faults out.old) (O.faults out.new) }
    ensures later { O.faults out.old ≤ O.faults out.new }
{
    let Ok(text) = counts_text(alloc, summary) else {
        return Answer::OutOfMemory;
    };
    match put(out, &text) {
        Ok(()) => Answer::Ended { end: summary.end },
        Err(_) => Answer::WriteFault,
    }
}
