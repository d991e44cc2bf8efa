//! The run under the choices of a trace.

ghost use Rattle.std.specs.Prelude.{◌≡◌, ◌≤◌, ◌^◌, length, IfOk, Err};
ghost use Rattle.page_base.specs.Clocks.{numbers_of};
ghost use Rattle.host_jobs.specs.RecordedPort.{answers_of};
ghost use Rattle.host_jobs.specs.ToldTable.{closures_of};
ghost use Rattle.loop_turn.specs.declared.run_stop.RunStop.TheVariants.{OutOfMemory};
ghost use Rattle.trace_check.specs.Judged.{GivesRun, GivesRunBy};

use crate::collecting::{TraceChoices, choices_of};
use arrivals_text::PageSetup;
use cell_room::Steps;
use host_jobs::{HostTable, RecordedHosts};
use lang_ast::Program;
use loop_policy::RecordedChooser;
use loop_turn::{RunStop, run_page};
use page_base::{End, RecordedClock};
use std::alloc::{AllocError, Global};
use std::sync::ledger::Ledger;
use trace_text::{Events, Lines, Stamped};

/// How the run under the choices of a trace ended, or why it stopped before; and the lines as they stand.
#[derive(Drop)]
pub struct Replayed<L: Lines> {
    pub outcome: Result<End, RunStop>,
    pub lines: L,
}

/// What answers a run by given choices, each in its order.
#[derive(Drop)]
struct Recording {
    clock: RecordedClock,
    chooser: RecordedChooser,
    port: RecordedHosts,
}

impl Recording {
    /// The clock, the chooser and the host port of given choices. The port has the kinds, ranges and marks of the table's closures. Want of
    /// memory is the one error.
    fn new(alloc: Global, hosts: &HostTable, choices: TraceChoices) -> Result<Recording, AllocError>
        ensures clock { IfOk result (λ recording. recording.clock.left ≡ numbers_of choices.readings.items) }
        ensures chooser { IfOk result (λ recording. recording.chooser.left ≡ choices.sources.items) }
        ensures closures { IfOk result (λ recording. recording.port.closures ≡ closures_of hosts.now) }
        ensures answers { IfOk result (λ recording. recording.port.answers ≡ answers_of choices.answers.items) }
    {
        Ok(Recording {
            clock: RecordedClock::new(choices.readings),
            chooser: RecordedChooser::new(choices.sources),
            port: RecordedHosts::new(alloc, hosts, choices.answers)?,
        })
    }
}

/// Runs a program under a setup and the choices that stand in a trace: the sources of its turns, the times of its waits, and the answers
/// of its host closures. The policy and the lateness of the setup are not used. The closures of the table are asked for their kinds,
/// ranges and marks, and none is called.
///
/// The lines are the head and the events of that run, in the form of the setup, whatever the form of the trace. The outcome is that of the
/// run: `NoReading`, `NoChoice` and `NoHost` come exactly where it is stuck at such a choice. It takes the time and the memory of the
/// run, and the choices. `accesses` counts the accesses to the room in which tasks are queued.
pub fn replay<L: Lines, M: Ledger>(
    alloc: Global,
    program: &Program,
    setup: &PageSetup,
    hosts: &HostTable,
    trace: &Events,
    lines: L,
    accesses: Steps<M>,
) -> Replayed<L>
    requires { length (closures_of hosts.now) ≤ 2 ^ 32 }
    ensures { GivesRun L.Lines program.now setup.now hosts.now trace.now.events lines result.outcome result.lines }
{
    run_again(alloc, program, setup, hosts, trace.items(), lines, accesses)
}

/// The run under the choices that stand in some events.
pub(crate) fn run_again<L: Lines, M: Ledger>(
    alloc: Global,
    program: &Program,
    setup: &PageSetup,
    hosts: &HostTable,
    events: &[Stamped],
    lines: L,
    accesses: Steps<M>,
) -> Replayed<L>
    requires { length (closures_of hosts.now) ≤ 2 ^ 32 }
    ensures { GivesRun L.Lines program.now setup.now hosts.now events.now lines result.outcome result.lines }
{
    match choices_of(alloc, events) {
        Ok(choices) => replay_choices(alloc, program, setup, hosts, choices, lines, accesses),
        Err(_) => wanting(lines),
    }
}

/// Runs a program under a setup and given choices, as `replay` does it under those of a trace. The lines are those of the run under the
/// choices of whatever events have these.
pub fn replay_choices<L: Lines, M: Ledger>(
    alloc: Global,
    program: &Program,
    setup: &PageSetup,
    hosts: &HostTable,
    choices: TraceChoices,
    lines: L,
    accesses: Steps<M>,
) -> Replayed<L>
    requires { length (closures_of hosts.now) ≤ 2 ^ 32 }
    ensures { GivesRunBy L.Lines program.now setup.now hosts.now choices lines result.outcome result.lines }
{
    let Ok(recording) = Recording::new(alloc, hosts, choices) else {
        return wanting(lines);
    };
    let Recording {
        mut clock,
        mut chooser,
        port,
    } = recording;
    let ended = run_page(
        alloc,
        program,
        setup,
        &mut clock,
        &mut chooser,
        port,
        lines,
        accesses,
    );
    Replayed {
        outcome: ended.outcome,
        lines: ended.lines,
    }
}

/// Memory was wanting before the first line.
fn wanting<L: Lines>(lines: L) -> Replayed<L>
    ensures outcome { result.outcome ≡ Err OutOfMemory }
    ensures lines { result.lines ≡ lines }
{
    Replayed {
        outcome: Err(RunStop::OutOfMemory),
        lines,
    }
}
