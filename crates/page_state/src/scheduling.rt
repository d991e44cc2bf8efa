//! Room for the scheduler tasks of a priority source.
ghost use Rattle.std.specs.Prelude.{◌≡◌, Some, IfErr, OnErr, OnOk};
ghost use Rattle.page_parts.specs.TaskSignals.{Prios};
ghost use Rattle.page_tasks.specs.Queued.{HasPriority};
ghost use Rattle.trace_text.specs.declared.lines.NoLine.TheVariants.{OutOfMemory};
ghost use Rattle.page_state.specs.StillSelected.{Give, Select};

use page_tasks::{PageTasks, PrioSource, Priority};
use std::sync::ledger::Ledger;
use trace_text::NoLine;

// Makes room for the scheduler tasks of a signal, which has this priority now; a fixed priority needs none. Without a priority of the
// signal it is refused, as for want of memory.
pub(crate) fn make_room<M: Ledger>(
    tasks: &mut PageTasks<M>,
    source: PrioSource,
    priority: Option<Priority>,
) -> Result<(), NoLine>
    ensures room { OnOk result (HasPriority tasks.new source) }
    ensures same { OnOk result (tasks.new ≡ record tasks.old { priorities = tasks.new.priorities }) }
    ensures selected { (prios : Prios) → Give prios source priority → Select prios tasks.old → Select prios tasks.new }
    ensures err { OnErr result (tasks.new ≡ tasks.old) }
    ensures memory { IfErr result (λ why. why ≡ OutOfMemory) }
{
    let PrioSource::Signal(s) = source else {
        return Ok(());
    };
    let Some(priority) = priority else {
        return Err(NoLine::OutOfMemory);
    };
    match tasks.make_room_for(s, priority) {
        Ok(()) => Ok(()),
        Err(_) => Err(NoLine::OutOfMemory),
    }
}
