//! The top call.

ghost use Rattle.std.specs.Prelude.{◌≡◌, ◌≤◌, ◌↔◌, None};
ghost use Rattle.page_types.specs.declared.End.{End};
ghost use Rattle.page_types.specs.Counts.{Rose};
ghost use Rattle.host_jobs.specs.ToldTable.{closures_of};
ghost use Rattle.page_cli.specs.Statuses.{status_of};
ghost use Rattle.page_cli.specs.Forms.{form_in, IsRunForm, IsTextForm};
ghost use Rattle.page_cli.specs.Names.{form_seen, names_seen};
ghost use Rattle.page_cli.specs.Answering.{IsRefusal, RunsNothing};
ghost use Rattle.page_cli.specs.Missing.{AnswersMissing, StopsAtMissing};
ghost use Rattle.page_cli.specs.Faults.{FaultRose, FaultRoseOf};
ghost use Rattle.page_cli.specs.Calls.{RunsNamed, AnswersWords, AnswersMain, WroteMain, CompletesMain};
ghost use Rattle.page_cli.specs.HandedOn.{IsWhole};
ghost use Rattle.page_cli.specs.Complaints.{complaint, PutsOrFailsTo};

use crate::answer::{Answer, WhichFile};
use crate::checking::check_named;
use crate::complaint::complain;
use crate::expanding::expand_named;
use crate::handing_on::hand_on;
use crate::migrating::migrate_named;
use crate::names::{Asked, Names, asked_in};
use crate::picturing::picture_named;
use crate::reading::{MOST_BYTES, fetched};
use crate::running::{Ran, run_files, unread};
use crate::storming::write_storm;
use host_jobs::HostTable;
use page_io::{Folder, Sink};
use std::alloc::Global;
use trace_text::a_trace_is_read;

/// How the program ended, and the host closures and the sink as they stand.
#[derive(Drop)]
pub struct MainEnd<O> {
    /// The exit status.
    pub status: u8,
    /// The answer that the status stands for.
    pub answer: Answer,
    pub hosts: HostTable,
    pub out: O,
}

/// Fetches the two files in the order of the words, and runs them with the closures of a table.
fn run_named<F: Folder, O: Sink>(
    alloc: Global,
    folder: &mut F,
    hosts: HostTable,
    names: Names,
    out: O,
) -> Ran<O>
    ensures answers { RunsNamed result (F.file folder.old) names.entry hosts O.bytes out }
    ensures hosts { IsRefusal result.answer → closures_of result.hosts ≡ closures_of hosts }
    ensures refused { IsRefusal result.answer → result.out ≡ out }
    ensures later { O.faults out ≤ O.faults result.out }
    ensures missing { StopsAtMissing result.answer (form_seen (Asked.Run names.entry)) (F.IsMissing folder.old) }
    ensures read { FaultRose result.answer (form_seen (Asked.Run names.entry)) F.faults folder.old folder.new }
    ensures write { result.answer ≡ Answer.WriteFault → Rose (O.faults out) (O.faults result.out) }
    ensures usage { result.answer ≡ Answer.Usage → ⊥ }
    ensures written { result.answer ≡ Answer.Written → ⊥ }
{
    let script = match fetched(alloc, folder, names.script, MOST_BYTES) {
        Ok(bytes) => bytes,
        Err(fault) => return unread(fault, WhichFile::Script, out).with(hosts),
    };
    let arrivals = match fetched(alloc, folder, names.arrivals, MOST_BYTES) {
        Ok(bytes) => bytes,
        Err(fault) => return unread(fault, WhichFile::Arrivals, out).with(hosts),
    };
    run_files(alloc, hosts, &script, &arrivals, out)
}

/// The answer to the words, by what they ask for.
fn answer_to_words<F: Folder, O: Sink>(
    alloc: Global,
    folder: &mut F,
    hosts: HostTable,
    asked: Option<Asked>,
    out: O,
) -> Ran<O>
    ensures answers { AnswersWords result (names_seen asked.entry) (F.file folder.old) hosts O.bytes out }
    ensures hosts { RunsNothing result.answer (names_seen asked.entry) → closures_of result.hosts ≡ closures_of hosts }
    ensures usage { (result.answer ≡ Answer.Usage) ↔ (names_seen asked.entry ≡ None) }
    ensures refused { IsRefusal result.answer → result.out ≡ out }
    ensures later { O.faults out ≤ O.faults result.out }
    ensures missing { AnswersMissing result.answer (names_seen asked.entry) (F.IsMissing folder.old) }
    ensures read { FaultRoseOf result.answer (names_seen asked.entry) F.faults folder.old folder.new }
    ensures write { result.answer ≡ Answer.WriteFault → Rose (O.faults out) (O.faults result.out) }
    ensures ended { (end : End) → result.answer ≡ Answer.Ended end → IsRunForm (names_seen asked.entry) }
    ensures written { result.answer ≡ Answer.Written → IsTextForm (names_seen asked.entry) }
{
    match asked {
        None => Ran {
            answer: Answer::Usage,
            hosts,
            out,
        },
        Some(Asked::Run(names)) => run_named(alloc, folder, hosts, names, out),
        Some(Asked::Check(names)) => check_named(alloc, folder, &hosts, names, out).with(hosts),
        Some(Asked::Migrate(names)) => {
            migrate_named(alloc, folder, &hosts, names, out).with(hosts)
        }
        Some(Asked::Storm(size)) => write_storm(alloc, &hosts, size, out).with(hosts),
        Some(Asked::Picture { what, trace }) => {
            picture_named(alloc, folder, what, trace, out).with(hosts)
        }
        Some(Asked::Expand { script }) => expand_named(alloc, folder, script, out).with(hosts),
    }
}

/// Answers the words, and has the sink hand on what was put.
fn carry_out<F: Folder, O: Sink>(
    alloc: Global,
    folder: &mut F,
    hosts: HostTable,
    asked: Option<Asked>,
    out: O,
) -> Ran<O>
    ensures answers { AnswersWords result (names_seen asked.entry) (F.file folder.old) hosts O.bytes out }
    ensures hosts { RunsNothing result.answer (names_seen asked.entry) → closures_of result.hosts ≡ closures_of hosts }
    ensures usage { (result.answer ≡ Answer.Usage) ↔ (names_seen asked.entry ≡ None) }
    ensures refused { IsRefusal result.answer → O.bytes result.out ≡ O.bytes out }
    ensures no_put { IsRefusal result.answer → O.puts result.out ≡ O.puts out }
    ensures whole { IsWhole result.answer → O.IsHandedOn result.out }
    ensures missing { AnswersMissing result.answer (names_seen asked.entry) (F.IsMissing folder.old) }
    ensures read { FaultRoseOf result.answer (names_seen asked.entry) F.faults folder.old folder.new }
    ensures write { result.answer ≡ Answer.WriteFault → Rose (O.faults out) (O.faults result.out) }
    ensures ended { (end : End) → result.answer ≡ Answer.Ended end → IsRunForm (names_seen asked.entry) }
    ensures written { result.answer ≡ Answer.Written → IsTextForm (names_seen asked.entry) }
{
    let mut ran = answer_to_words(alloc, folder, hosts, asked, out);
    ran.answer = hand_on(&mut ran.out, ran.answer);
    ran
}

/// All that the program does. The words are those behind the program's name.
///
/// - `run S A` fetches the script S and the arrivals A, runs the script, and writes the trace to `out`.
/// - `check S A T` fetches these and the trace T, and writes `legal` and LF where the trace is legal: where it is that of the run under
///   the choices that stand in it.
/// - `storm N` runs a script of its own, whose loop has N turns, 1 to 100,000, and writes what `stat` tells of the trace.
/// - `stat T` fetches the trace T, and writes how many turns, calls, drops and settlings it has, and how it ends.
/// - `migrate S A T` fetches and judges as `check` does, and writes the trace in form 2 where it is legal.
/// - `expand S` fetches the script S, and writes the plain script for it and its async functions.
/// - `export T` and `blame T` fetch the trace T, and write its calls for a timeline viewer or its long turns.
///
/// A script and arrivals have at most 1,048,576 bytes each, a trace at most 67,108,864 to be checked, counted or migrated, and at most
/// 4,194,304 else. The order of refusals is: words; the fetch of each file in the order of the words, first its fault, then its length;
/// script, names, arrivals, trace, and whether it is legal; the run, and the writes. A refusal puts nothing into `out`. Whatever the
/// answer is, `out` hands on at the end what it gathered; where it does not hand on all, an end of a run, or a text that was written, is
/// a write fault. The line of the answer goes to `err` then, which hands it on; its faults change no answer. Want of memory may come at
/// any point; a table with more closures than a script has numbers for is one.
///
/// The closures of `hosts` answer what a script that `run` runs asks them, each at most once; no other command calls one. One that the run
/// drops is dropped when it has ended, and not where it stopped before. A run owns the table and the sink, so both are taken by value, and
/// handed back with every answer.
pub fn page_main<F: Folder, O: Sink, E: Sink>(
    alloc: Global,
    words: &Vec<String>,
    folder: &mut F,
    hosts: HostTable,
    out: O,
    err: &mut E,
) -> MainEnd<O>
    ensures status { result.status ≡ status_of result.answer }

    // With the status of an end, 0, 10 or 11, the bytes written are exactly the page's trace of the script's program, the setup of the
    // arrivals, the closures and the answers that these gave; the run by the written policy and clock has ended so, and left the closures
    // as they are now. Of a storm they are the counts of that trace. With status 0 they may instead be `legal` and LF, and the trace is
    // so; or its second form, and it is legal; or what was asked of it; or the expansion of the script.
    ensures written { WroteMain result (form_in words.now.items) (F.file folder.old) hosts O.bytes out }

    // And all that was put was handed on.
    ensures whole { IsWhole result.answer → O.IsHandedOn result.out }

    // Each other answer comes only where its cause stands, with what it leaves: where a run stopped for a write fault or for want of
    // memory, a closure is fired, or dropped, only where it was so before or where that run leaves it so. All this holds of each file
    // that the folder tells, whatever it tells of the others: of a file that it does not tell, it holds of some content.
    ensures answers { AnswersMain result (form_in words.now.items) (F.file folder.old) hosts O.bytes out }
    ensures usage { (result.answer ≡ Answer.Usage) ↔ (form_in words.now.items ≡ None) }
    ensures refused { IsRefusal result.answer → O.bytes result.out ≡ O.bytes out }
    ensures no_put { IsRefusal result.answer → O.puts result.out ≡ O.puts out }
    ensures missing { AnswersMissing result.answer (form_in words.now.items) (F.IsMissing folder.old) }
    ensures read { FaultRoseOf result.answer (form_in words.now.items) F.faults folder.old folder.new }
    ensures write { result.answer ≡ Answer.WriteFault → Rose (O.faults out) (O.faults result.out) }

    // Where nothing failed and the files are what the words ask for, that is done, or memory is wanting.
    ensures completes { CompletesMain result (form_in words.now.items) F.file F.faults folder.old folder.new O.faults out }

    // A run ends only where the words ask for one, and another text is written only where they ask for that.
    ensures run { (end : End) → result.answer ≡ Answer.Ended end → IsRunForm (form_in words.now.items) }
    ensures text { result.answer ≡ Answer.Written → IsTextForm (form_in words.now.items) }

    // Where nothing is run, no closure is fired or dropped.
    ensures hosts { RunsNothing result.answer (form_in words.now.items) → closures_of result.hosts ≡ closures_of hosts }

    // The line of the answer whole, or a start of it where the count of faults of `err` rose.
    ensures err { PutsOrFailsTo E.bytes E.faults err.old (complaint (form_in words.now.items) result.answer) err.new }
{
    let asked = asked_in(words);
    let ran = carry_out(alloc, folder, hosts, asked, out);
    complain(err, ran.answer, asked);
    // So no trace is refused as none.
    a_trace_is_read();
    MainEnd {
        status: ran.answer.status(),
        answer: ran.answer,
        hosts: ran.hosts,
        out: ran.out,
    }
}
