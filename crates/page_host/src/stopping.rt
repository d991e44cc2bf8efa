//! How a page stops, and what it hands back then.

ghost use Rattle.std.specs.Prelude.{◌≡◌, map};
ghost use Rattle.page_types.specs.Counts.{refusals_after};
ghost use Rattle.page_hosts.specs.Hosts.{unasked};
ghost use Rattle.page_host.specs.Stops.{stop_result, stopped_after};

use crate::stop::stopped_by;
use crate::{Page, PageStop};
use page_hosts::HostPort;
use std::sync::ledger::Ledger;
use trace_text::{Lines, NoLine};

impl<P: HostPort, L: Lines, M: Ledger> Page<P, L, M> {
    /// The host port and the lines as they stand. The port drops the closures that the page dropped; one that was asked and neither fired
    /// nor dropped is live at the port.
    ///
    /// Takes no memory. It costs what dropping all that the page kept costs, and a look at each closure.
    pub fn into_parts(self) -> (P, L)
        ensures closures { P.closures result.0 ≡ map unasked self.state.hosts }
        ensures kept { P.kept result.0 ≡ self.state.kept }
        ensures refusals { P.refusals result.0 ≡ self.state.refusals }
        ensures lines { result.1 ≡ self.lines }
    {
        let Page { state, lines, .. } = self;
        (state.into_port(), lines)
    }

    /// The same after a stop for a line or for want of memory: the port has fired the closures that the page fired, and has dropped none.
    ///
    /// Takes no memory. It costs what dropping all that the page kept costs.
    pub fn into_parts_so_far(self) -> (P, L)
        ensures closures { P.closures result.0 ≡ self.state.at_port }
        ensures kept { P.kept result.0 ≡ self.state.kept }
        ensures refusals { P.refusals result.0 ≡ self.state.refusals }
        ensures lines { result.1 ≡ self.lines }
    {
        let Page { state, lines, .. } = self;
        (state.into_port_so_far(), lines)
    }
}

// What a call of a page answers, by how what it did to the page's parts ended; where that was an error, the page stops.
pub(crate) fn or_stop(
    done: Result<(), NoLine>,
    stopped: &mut Option<NoLine>,
    stops: &mut u64,
) -> Result<(), PageStop>
    ensures answer { result ≡ stop_result done }
    ensures told { stopped.new ≡ stopped_after stopped.old done }
    ensures counted { stops.new ≡ refusals_after stops.old done }
{
    match done {
        Ok(()) => Ok(()),
        Err(why) => Err(stopped_by(stopped, stops, why)),
    }
}
