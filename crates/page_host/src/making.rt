//! A page before its first turn.

ghost use Rattle.std.specs.Prelude.{◌≡◌, ◌≤◌, ◌^◌, length, IfErr, IfOk, IsTrue};
ghost use Rattle.std.specs.List.{list_all};
ghost use Rattle.lang_ast.specs.SeenProgram.{seen_program};
ghost use Rattle.arrivals_text.specs.Seen.{settings_of};
ghost use Rattle.page_hosts.specs.Hosts.{is_unqueued};
ghost use Rattle.page_state.specs.Pooled.{spare_of};
ghost use Rattle.page_state.specs.Standing.{port_of};
ghost use Rattle.page_host.specs.Starts.{Starts, port_told};

use crate::Page;
use arrivals_text::PageSetup;
use cell_room::Steps;
use lang_ast::Program;
use page_hosts::HostPort;
use page_state::PageState;
use page_values::{FunNames, MemoryFault, Str, copy_text};
use std::alloc::Global;
use std::snapshot::Snapshot;
use std::sync::ledger::Ledger;
use trace_text::Lines;

/// What was handed in for a page that was not made, since memory was wanting: as it was.
#[derive(Drop)]
pub struct NoPage<P: HostPort, L: Lines> {
    pub port: P,
    pub lines: L,
}

impl<P: HostPort, L: Lines, M: Ledger> Page<P, L, M> {
    /// The page before the first turn of a run of a program under a setup: the script is its one task, on the DOM source, the time is
    /// 0, and no line is written. It has the setup's fuel, and so many more tasks as the setup tells are sure to find memory in its pool.
    ///
    /// Want of memory is the one error, and hands back the port and the lines. It costs what the program's names, the setup's arrivals,
    /// its hosts and the port's closures cost.
    pub fn new(
        alloc: Global,
        program: &Program,
        setup: &PageSetup,
        port: P,
        lines: L,
        accesses: Steps<M>,
    ) -> Result<Page<P, L, M>, NoPage<P, L>>
        requires count { length (P.closures port) ≤ 2 ^ 32 }
        requires unqueued { IsTrue (list_all is_unqueued (P.closures port)) }
        ensures first { IfOk result (Starts (seen_program program.now) (settings_of setup.now).setup (P.closures port)) }
        ensures lines { IfOk result (λ page. page.lines ≡ lines) }
        ensures at_port { IfOk result (λ page. port_of page.state ≡ port_told P.closures P.kept P.refusals port) }
        ensures room { IfOk result (λ page. setup.now.room ≤ spare_of page.state) }
        ensures port { IfErr result (λ back. back.port ≡ port) }
        ensures back { IfErr result (λ back. back.lines ≡ lines) }
    {
        let Ok(names) = copied_names(alloc, program) else {
            return Err(NoPage { port, lines });
        };
        let functions = names.names().len();
        if functions > u32::MAX as usize {
            return Err(NoPage { port, lines });
        }
        match PageState::new(alloc, names, setup, port, accesses) {
            Ok(state) => Ok(Page {
                state,
                since: Snapshot::of(&lines),
                lines,
                functions,
                fuel: setup.fuel,
                until: setup.until,
                stopped: None,
                stops: 0,
            }),
            Err(port) => Err(NoPage { port, lines }),
        }
    }
}

// The names of a program's functions.
fn copied_names(alloc: Global, program: &Program) -> Result<FunNames, MemoryFault>
    ensures { IfOk result (λ names. names ≡ (seen_program program.now).names) }
{
    let names = program.names().names();
    let mut copies: Vec<Str> = Vec::new(alloc);
    for name in names {
        copies.push(copy_text(alloc, name)?)?;
    }
    Ok(FunNames::new(copies))
}
