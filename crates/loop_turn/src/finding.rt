//! How a turn comes to its task (HTML, "Event loops: processing model").

ghost use Rattle.std.specs.Prelude.{◌≡◌, ◌≤◌, true, false, nat_le, None, IfOk, IfErr};
ghost use Rattle.page_state.specs.Standing.{page_of};
ghost use Rattle.page_state.specs.PageActs.{read_by};
ghost use Rattle.page_host.specs.declared.stop.PageStop.TheVariants.{OutOfMemory};
ghost use Rattle.loop_turn.specs.TurnActs.{Acts, next_seen};
ghost use Rattle.loop_turn.specs.Waiting.{items_taken, idled, next_in};

use page_base::{End, Micros};
use page_host::{Page, PageStop};
use page_hosts::HostPort;
use std::sync::ledger::Ledger;
use trace_text::Lines;

/// What comes next in a turn, once what goes on in parallel has been taken.
#[derive(Clone, Copy)]
pub(crate) enum NextStep {
    /// A task, or the idle moment.
    Serve,
    /// The end of the run.
    End(End),
    /// A wait for a moment.
    Wait(Micros),
}

/// Takes the parallel items that are due, but in the first turn.
pub(crate) fn take_items<P: HostPort, L: Lines, M: Ledger>(
    page: &mut Page<P, L, M>,
) -> Result<(), PageStop>
    requires { page.old.stopped ≡ None }
    ensures { Acts L.keeping L.seen page.old items_taken result page.new }
{
    if page.turns() == 0 {
        return Ok(());
    }
    page.parallel()
}

/// What comes next. Want of memory is the one error.
pub(crate) fn find_next<P: HostPort, L: Lines, M: Ledger>(
    page: &Page<P, L, M>,
    until: Micros,
) -> Result<NextStep, PageStop>
    ensures next { IfOk result (λ next. next_seen next ≡ next_in until.0 (page_of page.now.state)) }
    ensures memory { IfErr result (λ why. why ≡ OutOfMemory) }
{
    if !page.has_no_task() {
        return Ok(NextStep::Serve);
    }
    let Some(target) = page.target()? else {
        return Ok(NextStep::End(End::Done));
    };
    let now = page.now();
    if until <= now || until <= target {
        return Ok(NextStep::End(End::Clock));
    }
    if now < target {
        Ok(NextStep::Wait(target))
    } else {
        Ok(NextStep::Serve)
    }
}

/// Does the idle step, where no task is runnable.
pub(crate) fn idle<P: HostPort, L: Lines, M: Ledger>(
    page: &mut Page<P, L, M>,
) -> Result<(), PageStop>
    requires { page.old.stopped ≡ None }
    ensures { Acts L.keeping L.seen page.old idled result page.new }
{
    if page.has_no_task() {
        page.idle_step()
    } else {
        Ok(())
    }
}

/// Whether the time is up.
pub(crate) fn is_over<P: HostPort, L: Lines, M: Ledger>(page: &Page<P, L, M>, until: Micros) -> bool
    ensures { result ≡ nat_le until.0 (read_by (λ p. p.now) page.now.state) }
{
    until <= page.now()
}

/// Whether no unit of fuel is left.
pub(crate) fn is_dry<P: HostPort, L: Lines, M: Ledger>(page: &Page<P, L, M>) -> bool
    ensures none { result ≡ true → page.now.fuel ≡ 0 }
    ensures some { result ≡ false → 1 ≤ page.now.fuel }
{
    !page.has_fuel()
}
