//! What turns work on.

ghost use Rattle.std.specs.Prelude.{◌≡◌, ◌≤◌, ◌^◌, length, IfErr, IfOk, IsTrue};
ghost use Rattle.std.specs.List.{list_all};
ghost use Rattle.page_hosts.specs.Hosts.{is_unqueued};
ghost use Rattle.page_state.specs.Standing.{port_of};
ghost use Rattle.page_host.specs.Starts.{port_told};
ghost use Rattle.loop_turn.specs.LivePages.{IsLoaded};

use arrivals_text::PageSetup;
use cell_room::Steps;
use lang_ast::Program;
use page_host::{NoPage, Page};
use page_hosts::HostPort;
use page_interp::Machine;
use std::alloc::Global;
use std::sync::ledger::Ledger;
use trace_text::Lines;

/// A page with the script machine of its program.
#[derive(Drop)]
pub(crate) struct LivePage<'p, P: HostPort, L: Lines, M: Ledger> {
    pub(crate) page: Page<P, L, M>,
    pub(crate) machine: Machine<'p>,
}

/// A page before the first turn of a run of a program under a setup. Want of memory is the one error, and hands back the port and the
/// lines.
pub(crate) fn load<'p, P: HostPort, L: Lines, M: Ledger>(
    alloc: Global,
    program: &'p Program,
    setup: &PageSetup,
    port: P,
    lines: L,
    accesses: Steps<M>,
) -> Result<LivePage<'p, P, L, M>, NoPage<P, L>>
    requires count { length (P.closures port) ≤ 2 ^ 32 }
    requires unqueued { IsTrue (list_all is_unqueued (P.closures port)) }
    ensures first { IfOk result (IsLoaded program.now setup.now (P.closures port)) }
    ensures lines { IfOk result (λ live. live.page.lines ≡ lines) }
    ensures at_port { IfOk result (λ live. port_of live.page.state ≡ port_told P.closures P.kept P.refusals port) }
    ensures port { IfErr result (λ back. back.port ≡ port) }
    ensures back { IfErr result (λ back. back.lines ≡ lines) }
{
    let Ok(machine) = Machine::new(alloc, program) else {
        return Err(NoPage { port, lines });
    };
    let page = Page::new(alloc, program, setup, port, lines, accesses)?;
    Ok(LivePage { page, machine })
}
