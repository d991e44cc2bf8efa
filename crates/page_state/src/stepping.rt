//! Steps of open folds, and by which priorities scheduler tasks are selected then (Prioritized Task Scheduling, "The TaskSignal
//! Interface").
ghost use Rattle.std.specs.Prelude.{◌≡◌, not, IfErr, IfOk, OnOk};
ghost use Rattle.page_parts.specs.TaskSignals.{is_changing};
ghost use Rattle.page_model.specs.PageSignals.{has_priority};
ghost use Rattle.task_signal.specs.Changes.{HasPriority, IsStill};
ghost use Rattle.page_signals.specs.Steps.{change_opened, stepped, Falls};
ghost use Rattle.page_signals.specs.Seen.{visit_seen};
ghost use Rattle.page_signals.specs.Kept.{AreFitting};
ghost use Rattle.trace_text.specs.declared.lines.NoLine.TheVariants.{OutOfMemory};
ghost use Rattle.page_state.specs.FoldActs.{changed_in};
ghost use Rattle.page_state.specs.StillSelected.{Select, SelectsChanged};

use page_signals::{PageSignals, Visit};
use page_tasks::{PageTasks, Priority};
use std::sync::ledger::Ledger;
use trace_text::NoLine;

/// The next step of the innermost fold. Where it sets a priority, the scheduler tasks of the signal are selected by it.
pub(crate) fn next_step<M: Ledger>(
    signals: &mut PageSignals,
    tasks: &mut PageTasks<M>,
) -> Result<Visit, NoLine>
    ensures step { IfOk result (λ visit. (visit_seen visit, signals.new) ≡ stepped signals.old) }
    ensures falls { IfOk result (λ visit. Falls (visit_seen visit) signals.old signals.new) }
    ensures before { AreFitting signals.old }
    ensures after { AreFitting signals.new }
    ensures same { tasks.new ≡ record tasks.old { priorities = tasks.new.priorities } }
    ensures selected { Select signals.old.prios tasks.old → Select signals.new.prios tasks.new }
    ensures memory { IfErr result (λ why. why ≡ OutOfMemory) }
{
    match signals.step() {
        Ok(visit) => {
            let changed = changed_signal(&visit);
            select_changed(tasks, signals, changed);
            Ok(visit)
        }
        Err(_) => Err(NoLine::OutOfMemory),
    }
}

/// Opens a change of a signal's priority, and tells whether it has another one.
///
/// Want of memory is told also where the signal has no priority, or while a change of it is in progress.
pub(crate) fn open_change<M: Ledger>(
    signals: &mut PageSignals,
    tasks: &mut PageTasks<M>,
    s: u32,
    priority: Priority,
) -> Result<bool, NoLine>
    ensures answer { IfOk result (λ is_opened. is_opened ≡ not (has_priority signals.old.prios s priority)) }
    ensures given { OnOk result (HasPriority s signals.old.prios) }
    ensures still { OnOk result (IsStill s signals.old.prios) }
    ensures opened { OnOk result (signals.new ≡ change_opened s priority signals.old) }
    ensures same { tasks.new ≡ record tasks.old { priorities = tasks.new.priorities } }
    ensures selected { Select signals.old.prios tasks.old → Select signals.new.prios tasks.new }
    ensures memory { IfErr result (λ why. why ≡ OutOfMemory) }
{
    if !signals.has_priority(s) || signals.is_changing(s) {
        return Err(NoLine::OutOfMemory);
    }
    match signals.open_change(s, priority) {
        Ok(is_opened) => {
            select_changed(tasks, signals, Some(s));
            Ok(is_opened)
        }
        Err(_) => Err(NoLine::OutOfMemory),
    }
}

// The signal that a step changes. Takes no memory.
fn changed_signal(visit: &Visit) -> Option<u32>
    ensures { result ≡ changed_in (visit_seen visit.now) }
{
    match visit {
        Visit::Changed { signal, .. } => Some(*signal),
        _ => None,
    }
}

// The scheduler tasks of a signal that may have another priority, where there is one, are selected by the one that it has now. Takes no
// memory.
fn select_changed<M: Ledger>(tasks: &mut PageTasks<M>, signals: &PageSignals, changed: Option<u32>)
    ensures same { tasks.new ≡ record tasks.old { priorities = tasks.new.priorities } }
    ensures selected { SelectsChanged changed signals.now.prios tasks.old tasks.new }
{
    let Some(s) = changed else {
        return;
    };
    let Some(priority) = signals.priority(s) else {
        return;
    };
    tasks.set_priority(s, priority);
}
