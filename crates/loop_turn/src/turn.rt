//! One turn of a page (HTML, "Event loops: processing model").

ghost use Rattle.std.specs.Prelude.{◌≡◌, ◌≢◌, ◌≤◌, ◌<◌, IfErr};
ghost use Rattle.page_state.specs.PageActs.{read_by};
ghost use Rattle.loop_turn.specs.RunStops.{readings_refused, choices_refused};
ghost use Rattle.loop_turn.specs.declared.run_stop.RunStop.TheVariants.{NoReading};
ghost use Rattle.loop_turn.specs.TurnActs.{CanTurn, IfGoesOn, PortRefuses, TurnTaken};
ghost use Rattle.loop_turn.specs.ByRules.{DoesNext, Serves, Turn};

use crate::finding::{NextStep, find_next, idle, is_dry, is_over, take_items};
use crate::live_page::LivePage;
use crate::performing::perform;
use crate::run_stop::RunStop;
use loop_policy::Chooser;
use page_base::{Clock, End, Micros};
use page_hosts::HostPort;
use std::sync::ledger::Ledger;
use trace_text::Lines;

/// One turn, with each wait that comes before its task: how the run ends, where it does.
pub(crate) fn turn<C: Clock, K: Chooser, P: HostPort, L: Lines, M: Ledger>(
    live: &mut LivePage<'_, P, L, M>,
    until: Micros,
    clock: &mut C,
    chooser: &mut K,
) -> Result<Option<End>, RunStop>
    requires { CanTurn live.old.machine live.old.page until.0 }
    ensures does { Turn C.Clock K.Chooser L.Lines result
        clock.old chooser.old live.old clock.new chooser.new live.new }
    ensures readings { C.refusals clock.new ≡ readings_refused (C.refusals clock.old) result }
    ensures choices { K.refusals chooser.new ≡ choices_refused (K.refusals chooser.old) result }
    ensures answers { PortRefuses result live.old.page.state.refusals live.new.page.state.refusals }
    ensures goes_on { IfGoesOn result (TurnTaken live.old.page live.new.machine live.new.page until.0) }
    ensures program { live.new.machine.script ≡ live.old.machine.script }
{
    'waits: loop {
        take_items(&mut live.page)?;
        match find_next(&live.page, until)? {
            NextStep::Serve => return serve(live, until, chooser),
            NextStep::End(end) => {
                live.page.finish(end)?;
                return Ok(Some(end));
            }
            NextStep::Wait(target) => {
                let reading = clock.wait(target)?;
                live.page.set_now(reading);
                live.page.mark_wait(target)?;
            }
        }
    }
}

/// The rest of a turn: the run ends where the time is up or no fuel is left; else a task is performed, and the idle step is done.
fn serve<K: Chooser, P: HostPort, L: Lines, M: Ledger>(
    live: &mut LivePage<'_, P, L, M>,
    until: Micros,
    chooser: &mut K,
) -> Result<Option<End>, RunStop>
    requires { CanTurn live.old.machine live.old.page until.0 }
    ensures does { Serves K.Chooser L.Lines result chooser.old live.old chooser.new live.new }
    ensures choices { K.refusals chooser.new ≡ choices_refused (K.refusals chooser.old) result }
    ensures answers { PortRefuses result live.old.page.state.refusals live.new.page.state.refusals }
    ensures reads_nothing { IfErr result (λ why. why ≢ NoReading) }
    ensures goes_on { IfGoesOn result (TurnTaken live.old.page live.new.machine live.new.page until.0) }
    ensures program { live.new.machine.script ≡ live.old.machine.script }
{
    if is_over(&live.page, until) {
        live.page.finish(End::Clock)?;
        return Ok(Some(End::Clock));
    }
    if is_dry(&live.page) {
        live.page.finish(End::Fuel)?;
        return Ok(Some(End::Fuel));
    }
    match perform_next(live, chooser)? {
        Some(end) => Ok(Some(end)),
        None => {
            idle(&mut live.page)?;
            Ok(None)
        }
    }
}

/// Takes a unit of fuel, and performs the first task of the source that is chosen, where one is runnable.
fn perform_next<K: Chooser, P: HostPort, L: Lines, M: Ledger>(
    live: &mut LivePage<'_, P, L, M>,
    chooser: &mut K,
) -> Result<Option<End>, RunStop>
    requires ready { CanTurn live.old.machine live.old.page live.old.page.until }
    requires in_time { read_by (λ p. p.now) live.old.page.state < live.old.page.until }
    requires fuel { 1 ≤ live.old.page.fuel }
    ensures does { DoesNext K.Chooser L.Lines result chooser.old live.old chooser.new live.new }
    ensures choices { K.refusals chooser.new ≡ choices_refused (K.refusals chooser.old) result }
    ensures answers { PortRefuses result live.old.page.state.refusals live.new.page.state.refusals }
    ensures reads_nothing { IfErr result (λ why. why ≢ NoReading) }
    ensures goes_on { IfGoesOn result (TurnTaken live.old.page live.new.machine live.new.page live.old.page.until) }
    ensures program { live.new.machine.script ≡ live.old.machine.script }
{
    if live.page.has_no_task() {
        live.page.begin_turn(None)?;
        return Ok(None);
    }
    let source = chooser.choose(&live.page.view())?;
    live.page.begin_turn(Some(source))?;
    perform(live, source)
}
