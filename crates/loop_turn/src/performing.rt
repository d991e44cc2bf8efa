//! How a turn performs its task (HTML, "Event loops: processing model").

ghost use Rattle.std.specs.Prelude.{◌≡◌, ◌≢◌, ◌≤◌, IfErr, IsTrue};
ghost use Rattle.page_parts.specs.WrittenChoices.{is_runnable};
ghost use Rattle.page_model.specs.View as seeing;
ghost use Rattle.page_state.specs.PageActs.{read_by};
ghost use Rattle.loop_turn.specs.declared.run_stop.RunStop.TheVariants.{NoReading, NoChoice};
ghost use Rattle.loop_turn.specs.TurnActs.{CanTurn, IfGoesOn, PortRefuses, StillCan};
ghost use Rattle.loop_turn.specs.ByRules.{PerformsTask};

use crate::live_page::LivePage;
use crate::run_stop::RunStop;
use page_base::{End, Source};
use page_host::Did;
use page_hosts::HostPort;
use std::sync::ledger::Ledger;
use trace_text::Lines;

/// Performs the first task of a source, with the checkpoint behind it. Where a unit of fuel is needed and none is left, the run ends, with
/// its line.
///
/// A task asks neither clock nor chooser, so a stop is none of theirs. With `NoHost` the host port has refused; where the call does
/// not stop, it has not.
pub(crate) fn perform<P: HostPort, L: Lines, M: Ledger>(
    live: &mut LivePage<'_, P, L, M>,
    source: Source,
) -> Result<Option<End>, RunStop>
    requires ready { CanTurn live.old.machine live.old.page live.old.page.until }
    requires in_time { read_by (λ p. p.now) live.old.page.state ≤ live.old.page.until }
    requires runnable { IsTrue (is_runnable (read_by seeing.view live.old.page.state) source) }
    ensures does { PerformsTask L.Lines source result live.old live.new }
    ensures reads_nothing { IfErr result (λ why. why ≢ NoReading) }
    ensures chooses_nothing { IfErr result (λ why. why ≢ NoChoice) }
    ensures answers { PortRefuses result live.old.page.state.refusals live.new.page.state.refusals }
    ensures goes_on { IfGoesOn result (StillCan live.old.page live.new.machine live.new.page) }
    ensures program { live.new.machine.script ≡ live.old.machine.script }
{
    match live.page.perform(&mut live.machine, source)? {
        Did::Finished => Ok(None),
        Did::Fuel => {
            live.page.finish(End::Fuel)?;
            Ok(Some(End::Fuel))
        }
    }
}
