//! Judging a trace.

ghost use Rattle.std.specs.Prelude.{◌≡◌, ◌≢◌, ◌≤◌, ◌^◌, ◌↔◌, length, Some, Err, IfOk};
ghost use Rattle.host_jobs.specs.ToldTable.{closures_of};
ghost use Rattle.loop_turn.specs.declared.run_stop.RunStop.TheVariants.{WriteFault};
ghost use Rattle.trace_text.specs.Trace.{IsBadLine};
ghost use Rattle.trace_text.specs.declared.fault.BadLine.{BadLine as BadLineSeen};
ghost use Rattle.trace_text.specs.declared.fault.TraceFault.TheVariants as fault;
ghost use Rattle.trace_check.specs.Judged.{IsLegalFor, IsVerdictFor, HasVerdictFor, HasLawfulEvents};
ghost use Rattle.trace_check.specs.Outcomes.{found_by};
ghost use Rattle.trace_check.specs.declared.verdict.Verdict.TheVariants.{Yes};

use crate::Verdict;
use crate::replaying::{replay_choices, run_again};
use crate::scanning::choices_behind;
use crate::text_check::TextCheck;
use arrivals_text::PageSetup;
use cell_room::Steps;
use host_jobs::HostTable;
use lang_ast::Program;
use loop_turn::RunStop;
use page_base::End;
use std::alloc::{AllocError, Global};
use std::sync::ledger::Ledger;
use trace_text::{BadLine, Events, LineCheck, TraceFault, read_head};

/// Judges a trace by the run of a program under a setup and the choices that stand in the trace: the sources of its turns, the times of
/// its waits, and the answers of its host closures. The policy and the lateness of the setup are not used. The closures of the table are
/// asked for their kinds, ranges and marks, and none is called.
///
/// `Yes` comes exactly where the trace is legal: it has the setup's form, and that run ends with exactly its events. Otherwise the lines
/// of the trace are compared with those of the run: `Illegal` comes exactly where the run is stuck and the trace begins with all its
/// lines, and `Differs` exactly where neither of the two comes. With `Yes` the events of the trace keep the ten laws of every run, whoever
/// wrote them. Want of memory is the one error. It takes the time and the memory of the run, the choices, and the text of two lines at a
/// time. `accesses` counts the accesses to the room in which tasks are queued.
pub fn check_trace<M: Ledger>(
    alloc: Global,
    program: &Program,
    setup: &PageSetup,
    hosts: &HostTable,
    trace: &Events,
    accesses: Steps<M>,
) -> Result<Verdict, AllocError>
    requires { length (closures_of hosts.now) ≤ 2 ^ 32 }
    ensures legal { IfOk result (λ verdict. verdict ≡ Yes ↔ IsLegalFor program.now setup.now hosts.now trace.now) }
    ensures verdict { IfOk result (IsVerdictFor program.now setup.now hosts.now trace.now) }
    ensures laws { IfOk result (λ verdict. verdict ≡ Yes → HasLawfulEvents setup.now trace.now) }
{
    let lines = LineCheck::new(alloc, trace);
    let replayed = run_again(alloc, program, setup, hosts, trace.items(), lines, accesses);
    verdict_by(replayed.outcome, replayed.lines.matched() + 1)
}

/// Judges the trace that some bytes spell, as `check_trace` judges its events, and keeps no event: it takes the memory of the run and the
/// choices, and the text of a line at a time. `Is` comes exactly where the bytes are no trace, with the first line that is refused in its
/// place. Want of memory is the one other error.
pub fn check_text<M: Ledger>(
    alloc: Global,
    program: &Program,
    setup: &PageSetup,
    hosts: &HostTable,
    bytes: &[u8],
    accesses: Steps<M>,
) -> Result<Verdict, TraceFault>
    requires { length (closures_of hosts.now) ≤ 2 ^ 32 }
    ensures verdict { IfOk result (HasVerdictFor program.now setup.now hosts.now bytes.now) }
    ensures bad { (line : BadLineSeen) → result ≡ Err (fault.Is line) → IsBadLine bytes.now line.line }
{
    let Some((form, text)) = read_head(bytes) else {
        return Err(TraceFault::Is(BadLine { line: 1 }));
    };
    let choices = match choices_behind(alloc, form, text) {
        Ok(choices) => choices,
        Err(fault) => return Err(fault),
    };
    let lines = TextCheck::new(alloc, form, text);
    let replayed = replay_choices(alloc, program, setup, hosts, choices, lines, accesses);
    match verdict_by(replayed.outcome, replayed.lines.next_line()) {
        Ok(verdict) => Ok(verdict),
        Err(AllocError) => Err(TraceFault::OutOfMemory),
    }
}

/// What is found of a trace by the outcome of a run over the comparison of its lines. All lines before this one were met.
fn verdict_by(outcome: Result<End, RunStop>, line: usize) -> Result<Verdict, AllocError>
    requires { outcome ≢ Err WriteFault }
    ensures { IfOk result (λ verdict. found_by outcome line ≡ Some verdict) }
{
    match outcome {
        Ok(_) => Ok(Verdict::Yes),
        Err(RunStop::Differs) => Ok(Verdict::Differs { line }),
        Err(RunStop::NoReading | RunStop::NoChoice | RunStop::NoHost) => {
            Ok(Verdict::Illegal { line })
        }
        // No line of a comparison fails.
        Err(RunStop::WriteFault) => unreachable!(),
        Err(RunStop::OutOfMemory) => Err(AllocError),
    }
}
