//! Whole runs of a page.

ghost use Rattle.std.specs.Prelude.{◌≡◌, ◌≤◌, ◌^◌, None, Result, true, is_some, length, map, IsTrue};
ghost use Rattle.std.specs.List.{list_all};
ghost use Rattle.page_hosts.specs.Hosts.{is_unqueued, unasked};
ghost use Rattle.loop_turn.specs.RunStops.{line_fault, readings_refused, choices_refused};
ghost use Rattle.loop_turn.specs.TurnActs.{CanTurn, PortRefuses};
ghost use Rattle.loop_turn.specs.ByRules.{AreLawfulRuns, Runs, RunsPage};

use crate::live_page::{LivePage, load};
use crate::run_stop::RunStop;
use crate::turn::turn;
use arrivals_text::PageSetup;
use cell_room::Steps;
use lang_ast::Program;
use loop_policy::Chooser;
use page_base::{Clock, End, Micros};
use page_host::{NoPage, Page};
use page_hosts::HostPort;
use std::alloc::Global;
use std::sync::ledger::Ledger;
use trace_text::Lines;

/// How a run ended, or why it stopped before; and the host port and the lines as they stand.
#[derive(Drop)]
pub struct Ended<P: HostPort, L: Lines> {
    pub outcome: Result<End, RunStop>,
    pub port: P,
    pub lines: L,
}

/// Runs a program under a setup (HTML, "Event loops: processing model"): a turn after another until the run ends, with each line as it
/// comes. The clock answers what the time is after each wait, the chooser which task source is served, and the port what the script asks
/// its closures. `accesses` counts the accesses to the room in which the tasks are queued.
///
/// The lines are the head and the events of the model's run by the rules of clock and chooser and by the port's answers: all of them with
/// an end, and where the clock, the chooser or the port refused, which leaves the run stuck there. With any other stop they are a start of
/// them, up to the line that was not taken, or to where memory was wanting; the port has fired a closure then only where a line of the run
/// tells its answer, and has dropped none. Whatever the answers are, the run keeps the ten laws of every
/// run, as far as the values that arrive carry no numbers of promises, signals or the like.
pub fn run_page<C: Clock, K: Chooser, P: HostPort, L: Lines, M: Ledger>(
    alloc: Global,
    program: &Program,
    setup: &PageSetup,
    clock: &mut C,
    chooser: &mut K,
    port: P,
    lines: L,
    accesses: Steps<M>,
) -> Ended<P, L>
    requires count { length (P.closures port) ≤ 2 ^ 32 }
    requires unqueued { IsTrue (list_all is_unqueued (P.closures port)) }
    ensures run { RunsPage C.Clock K.Chooser P.HostPort L.Lines program.now setup.now
        clock.old chooser.old port lines result clock.new chooser.new }
    ensures laws { AreLawfulRuns C.Clock K.Chooser program.now setup.now (P.closures port) clock.old chooser.old }
    ensures readings { C.refusals clock.new ≡ readings_refused (C.refusals clock.old) result.outcome }
    ensures choices { K.refusals chooser.new ≡ choices_refused (K.refusals chooser.old) result.outcome }
    ensures answers { PortRefuses result.outcome (P.refusals port) (P.refusals result.port) }
{
    let mut lines = lines;
    if let Err(why) = lines.head(setup.trace) {
        return Ended {
            outcome: Err(RunStop::from(why)),
            port,
            lines,
        };
    }
    match load(alloc, program, setup, port, lines, accesses) {
        Ok(live) => {
            let mut live = live;
            let outcome = run_turns(&mut live, setup.until, clock, chooser);
            let (port, lines) = parts_of(live.page, &outcome);
            Ended {
                outcome,
                port,
                lines,
            }
        }
        Err(NoPage { port, lines }) => Ended {
            outcome: Err(RunStop::OutOfMemory),
            port,
            lines,
        },
    }
}

/// The turns of a page until its run ends.
fn run_turns<C: Clock, K: Chooser, P: HostPort, L: Lines, M: Ledger>(
    live: &mut LivePage<'_, P, L, M>,
    until: Micros,
    clock: &mut C,
    chooser: &mut K,
) -> Result<End, RunStop>
    requires { CanTurn live.old.machine live.old.page until.0 }
    ensures does { Runs C.Clock K.Chooser L.Lines result
        clock.old chooser.old live.old clock.new chooser.new live.new }
    ensures readings { C.refusals clock.new ≡ readings_refused (C.refusals clock.old) result }
    ensures choices { K.refusals chooser.new ≡ choices_refused (K.refusals chooser.old) result }
    ensures answers { PortRefuses result live.old.page.state.refusals live.new.page.state.refusals }
{
    'turns: loop {
        if let Some(end) = turn(live, until, clock, chooser)? {
            return Ok(end);
        }
    }
}

/// The port and the lines of a page. After a stop for a line or for want of memory the port has dropped no closure: the run's further
/// steps are not known then.
fn parts_of<P: HostPort, L: Lines, M: Ledger>(
    page: Page<P, L, M>,
    outcome: &Result<End, RunStop>,
) -> (P, L)
    ensures closures { line_fault outcome.now ≡ None → P.closures result.0 ≡ map unasked page.state.hosts }
    ensures so_far { is_some (line_fault outcome.now) ≡ true → P.closures result.0 ≡ page.state.at_port }
    ensures kept { P.kept result.0 ≡ page.state.kept }
    ensures refusals { P.refusals result.0 ≡ page.state.refusals }
    ensures lines { result.1 ≡ page.lines }
{
    match outcome {
        Ok(_) | Err(RunStop::NoReading | RunStop::NoChoice | RunStop::NoHost) => page.into_parts(),
        Err(RunStop::WriteFault | RunStop::Differs | RunStop::OutOfMemory) => {
            page.into_parts_so_far()
        }
    }
}
