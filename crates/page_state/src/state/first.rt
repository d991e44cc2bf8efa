//! A page before its first turn.

ghost use Rattle.std.specs.Prelude.{◌≡◌, ◌+◌, ◌^◌, ◌/◌, ◌<◌, ◌≤◌, length, map, IfErr, IfOk, IsTrue};
ghost use Rattle.std.specs.List.{list_all};
ghost use Rattle.arrivals_text.specs.Seen.{settings_of};
ghost use Rattle.arrivals_text.specs.SeenParts.{arrival_of};
ghost use Rattle.page_hosts.specs.Hosts.{is_unqueued};
ghost use Rattle.page_state.specs.First.{IsFirst, AreFirst, HasScriptTask};
ghost use Rattle.page_state.specs.Pooled.{spare_of};
ghost use Rattle.page_state.specs.Standing.{port_of};
ghost use Rattle.page_state.specs.HostChanges.{telling};

use super::PageState;
use crate::latencies::latencies_given;
use arrivals_text::PageSetup;
use cell_room::Steps;
use indexmap::IndexMap;
use page_base::{Micros, Source};
use page_frames::PageFrames;
use page_hosts::{HostPort, PageHosts};
use page_script::PageScript;
use page_signals::PageSignals;
use page_tasks::{PageTasks, TaskSteps};
use page_values::{FunNames, MemoryFault, copy, copy_text};
use parallel_items::{Arrival, ParallelItems};
use std::alloc::Global;
use std::sync::ledger::Ledger;

// What a page keeps that takes memory before the first turn.
#[derive(Drop)]
struct FirstParts<M: Ledger> {
    script: PageScript,
    tasks: PageTasks<M>,
    items: ParallelItems,
    latencies: IndexMap<u32, Micros>,
}

impl<P: HostPort, M: Ledger> PageState<P, M> {
    /// The page before the first turn: the script, whose functions have these names, is its one task, on the DOM source, and the
    /// time is 0. So many more tasks as the setup tells are sure to find memory in the pool.
    ///
    /// Want of memory is the one error, and hands the port back as it was. It costs what the setup's arrivals and hosts and the
    /// port's closures cost.
    pub fn new(
        alloc: Global,
        names: FunNames,
        setup: &PageSetup,
        port: P,
        accesses: Steps<M>,
    ) -> Result<PageState<P, M>, P>
        requires names { length names < 2 ^ 32 }
        requires count { length (P.closures port) ≤ 2 ^ 32 }
        requires unqueued { IsTrue (list_all is_unqueued (P.closures port)) }
        ensures first { IfOk result (IsFirst names (settings_of setup.now).setup (P.closures port)) }
        ensures port { IfOk result (λ page. port_of page ≡ telling (P.closures port) (P.kept port) (P.refusals port)) }
        ensures room { IfOk result (λ page. setup.now.room ≤ spare_of page) }
        ensures err { IfErr result (λ back. back ≡ port) }
    {
        let Ok(parts) = first_parts(alloc, names, setup, accesses) else {
            return Err(port);
        };
        let hosts = PageHosts::new(alloc, port)?;
        Ok(PageState {
            alloc,
            script: parts.script,
            tasks: parts.tasks,
            items: parts.items,
            frames: PageFrames::new(alloc, period(setup)),
            signals: PageSignals::new(alloc),
            hosts,
            latencies: parts.latencies,
            room: setup.room + 1,
        })
    }
}

// The parts of a page before the first turn for which memory is needed.
fn first_parts<M: Ledger>(
    alloc: Global,
    names: FunNames,
    setup: &PageSetup,
    accesses: Steps<M>,
) -> Result<FirstParts<M>, MemoryFault>
    requires names { length names < 2 ^ 32 }
    ensures first { IfOk result (AreFirst names (settings_of setup.now).setup) }
    ensures room { IfOk result (λ parts. setup.now.room ≤ parts.tasks.spare) }
{
    let script = PageScript::new(alloc, setup.form, setup.trace, names)?;
    let tasks = script_task(alloc, setup.room + 1, accesses)?;
    let arrivals = copied_arrivals(alloc, &setup.arrivals)?;
    let Ok(items) = ParallelItems::new(alloc, arrivals) else {
        return Err(MemoryFault::OutOfMemory);
    };
    let latencies = latencies_given(alloc, &setup.hosts)?;
    Ok(FirstParts {
        script,
        tasks,
        items,
        latencies,
    })
}

// The time from one rendering opportunity to the next.
fn period(setup: &PageSetup) -> Micros
    ensures positive { 0 < result.0 }
    ensures short { result.0 < 2 ^ 20 }
    ensures period { result.0 ≡ 1000000 / setup.now.refresh }
{
    Micros(1_000_000 / u64::from(setup.refresh))
}

// The tasks of a page before the first turn: that of the script, which has one of the cells that are made.
fn script_task<M: Ledger>(
    alloc: Global,
    cells: usize,
    accesses: Steps<M>,
) -> Result<PageTasks<M>, MemoryFault>
    ensures task { IfOk result HasScriptTask }
    ensures room { IfOk result (λ tasks. cells ≤ tasks.spare + 1) }
{
    let Ok(mut tasks) = PageTasks::new(alloc, cells, accesses) else {
        return Err(MemoryFault::OutOfMemory);
    };
    let steps = Box::new(alloc, TaskSteps::RunScript)?;
    match tasks.queue(Source::Dom, steps) {
        Ok(()) => Ok(tasks),
        Err(_) => Err(MemoryFault::OutOfMemory),
    }
}

// The same arrivals.
fn copied_arrivals(alloc: Global, arrivals: &[Arrival]) -> Result<Vec<Arrival>, MemoryFault>
    ensures { IfOk result (λ copies. map arrival_of copies.items ≡ map arrival_of arrivals.now) }
{
    let mut copies = Vec::new(alloc);
    for arrival in arrivals {
        copies.push(Arrival {
            at: arrival.at,
            source: arrival.source,
            name: copy_text(alloc, &arrival.name)?,
            value: copy(alloc, &arrival.value)?,
        })?;
    }
    Ok(copies)
}
