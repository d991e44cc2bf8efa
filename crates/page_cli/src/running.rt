//! Running what the two files say.

ghost use Rattle.std.specs.Prelude.{◌≡◌, ◌≤◌, ◌<◌, ◌^◌, length};
ghost use Rattle.page_types.specs.Counts.{Rose};
ghost use Rattle.host_jobs.specs.ToldTable.{closures_of};
ghost use Rattle.page_cli.specs.declared.answer.WhichFile.{WhichFile};
ghost use Rattle.page_cli.specs.Refusals.{answer_to_file};
ghost use Rattle.page_cli.specs.Answering.{IsRefusal};
ghost use Rattle.page_cli.specs.Running.{CanStop, answer_to};
ghost use Rattle.page_cli.specs.Calls.{WroteBy, RunsProgram, RunsFiles};

use crate::answer::{Answer, WhichFile};
use crate::reading::{FileFault, answer_to as answer_to_file, read_files};
use arrivals_text::PageSetup;
use cell_room::Steps;
use host_jobs::{HostPort, HostTable};
use lang_ast::Program;
use loop_policy::PolicyChooser;
use loop_turn::{Ended, RunStop, run_page};
use page_base::{End, ScriptClock};
use page_io::Sink;
use std::alloc::Global;
use std::marker::Brand;
use std::sync::ledger::{Blank, Ledger};
use trace_text::LineSink;

/// An answer, and the sink as it stands.
#[derive(Drop)]
pub(crate) struct Answered<O> {
    pub answer: Answer,
    pub out: O,
}

/// The answer to a run, and the closures and the sink as they stand.
#[derive(Drop)]
pub(crate) struct Ran<O> {
    pub answer: Answer,
    pub hosts: HostTable,
    pub out: O,
}

impl<O: Sink> Answered<O> {
    /// The same, with closures that no run has changed.
    pub(crate) fn with(self, hosts: HostTable) -> Ran<O>
        ensures { result ≡ record { answer = self.answer; hosts = hosts; out = self.out } }
    {
        Ran {
            answer: self.answer,
            hosts,
            out: self.out,
        }
    }
}

/// A file was not read.
pub(crate) fn unread<O: Sink>(fault: FileFault, file: WhichFile, out: O) -> Answered<O>
    ensures { result ≡ record { answer = answer_to_file fault file; out = out } }
{
    Answered {
        answer: answer_to_file(fault, file),
        out,
    }
}

/// The answer to a run by the written policy and clock, whose lines go to a sink and whose closures answer themselves. None of these
/// refuses anything.
fn answer_to(outcome: Result<End, RunStop>) -> Answer
    requires { CanStop outcome }
    ensures answer { result ≡ answer_to outcome }
    ensures other { (file : WhichFile) → result ≡ Answer.ReadFault file → ⊥ }
    ensures written { result ≡ Answer.Written → ⊥ }
{
    match outcome {
        Ok(end) => Answer::Ended { end },
        Err(RunStop::WriteFault) => Answer::WriteFault,
        Err(RunStop::OutOfMemory) => Answer::OutOfMemory,
        Err(RunStop::Differs | RunStop::NoReading | RunStop::NoChoice | RunStop::NoHost) => {
            unreachable!()
        }
    }
}

/// Runs a program by the written policy and by a clock that is late by these spans, with the closures of a table. The accesses to the
/// room of its tasks are counted in a new ledger.
fn run_in<O: Sink, M: Ledger>(
    alloc: Global,
    program: &Program,
    setup: &PageSetup,
    late: Vec<u64>,
    table: HostTable,
    out: O,
    blank: Blank,
) -> Ended<HostTable, LineSink<O>>
    requires late { late.items ≡ setup.now.late.items }
    requires count { length (closures_of table) ≤ 2 ^ 32 }
    requires name { blank.name ≡ M.name }
    requires parts { blank.parts ≡ M.parts }
    requires some { 0 < blank.parts }
    ensures wrote { WroteBy program.now setup.now table result.port O.bytes out result.outcome result.lines }
    ensures stops { CanStop result.outcome }
    ensures fault { result.outcome ≡ Err RunStop.WriteFault → Rose (O.faults out) (O.faults result.lines) }
    ensures later { O.faults out ≤ O.faults result.lines }
{
    let mut clock = ScriptClock::new(late);
    let mut chooser = PolicyChooser::new(setup.policy);
    let lines = LineSink::new(alloc, out);
    let (book, share) = blank.open::<M>();
    let accesses = Steps::new(book, share);
    run_page(
        alloc,
        program,
        setup,
        &mut clock,
        &mut chooser,
        table,
        lines,
        accesses,
    )
}

/// Runs a program with the closures of a table.
fn run_program<O: Sink>(
    alloc: Global,
    hosts: HostTable,
    program: &Program,
    setup: &PageSetup,
    out: O,
) -> Ran<O>
    ensures answers { RunsProgram result program.now setup.now hosts O.bytes out }
    ensures fault { result.answer ≡ Answer.WriteFault → Rose (O.faults out) (O.faults result.out) }
    ensures later { O.faults out ≤ O.faults result.out }
    ensures other { (file : WhichFile) → result.answer ≡ Answer.ReadFault file → ⊥ }
    ensures written { result.answer ≡ Answer.Written → ⊥ }
{
    // A page numbers its closures by 32 bits.
    let has_too_many = hosts.known(u32::MAX);
    let Ok(late) = setup.late.to_vec(alloc) else {
        return without_memory(hosts, out);
    };
    if has_too_many {
        return without_memory(hosts, out);
    }
    let ended = run_in::<O, Brand>(alloc, program, setup, late, hosts, out, Blank::new(1));
    Ran {
        answer: answer_to(ended.outcome),
        hosts: ended.port,
        out: ended.lines.into_sink(),
    }
}

/// Nothing is run for want of memory.
fn without_memory<O: Sink>(hosts: HostTable, out: O) -> Ran<O>
    ensures { result ≡ record { answer = Answer.OutOfMemory; hosts = hosts; out = out } }
{
    Ran {
        answer: Answer::OutOfMemory,
        hosts,
        out,
    }
}

/// Reads the bytes of the two files, and runs them with the closures of a table.
pub(crate) fn run_files<O: Sink>(
    alloc: Global,
    hosts: HostTable,
    script: &[u8],
    arrivals: &[u8],
    out: O,
) -> Ran<O>
    requires script { length script.now ≤ 1048576 }
    requires arrivals { length arrivals.now ≤ 1048576 }
    ensures answers { RunsFiles result script.now arrivals.now hosts O.bytes out }
    ensures refused { IsRefusal result.answer → result.out ≡ out }
    ensures later { O.faults out ≤ O.faults result.out }
    ensures hosts { IsRefusal result.answer → closures_of result.hosts ≡ closures_of hosts }
    ensures fault { result.answer ≡ Answer.WriteFault → Rose (O.faults out) (O.faults result.out) }
    ensures other { (file : WhichFile) → result.answer ≡ Answer.ReadFault file → ⊥ }
    ensures written { result.answer ≡ Answer.Written → ⊥ }
{
    match read_files(alloc, script, arrivals) {
        Ok(page) => run_program(alloc, hosts, &page.program, &page.setup, out),
        Err(answer) => Ran { answer, hosts, out },
    }
}
