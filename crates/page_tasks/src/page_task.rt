//! What a queued task is: the steps of a task of a task source, or a scheduler task.

ghost use Rattle.std.specs.Prelude.{◌≡◌, IsTrue};
ghost use Rattle.page_tasks.specs.Seen.{has_steps, steps_in, steps_of};

use crate::tasks::{HostTask, TimerTask};
use page_base::Micros;
use page_values::{Str, Value};
use post_task::PrioSource;

/// An event that an arrival brings to the window: its name, and the value that its listeners are given.
#[derive(Drop)]
pub struct WindowEvent {
    pub name: Str,
    pub value: Value,
}

/// The steps of a task of a task source (HTML, "Event loops: definitions").
///
/// A page can have many of them queued at once, mostly of timers. So the event of an arrival, which is the largest by far, stands
/// in a box: then none is larger than those of a timer.
#[derive(Drop)]
pub enum TaskSteps {
    RunScript,
    RunTimer(TimerTask),
    /// The signal is aborted by its timeout.
    TimeOutSignal(u32),
    /// An event of an arrival is fired at the window.
    FireAtWindow(Box<WindowEvent>),
    AnswerHost(HostTask),
    /// A frame, with its timestamp.
    RunFrame(Micros),
    InvokeIdle,
    /// The idle timeout of the callback with this handle.
    IdleTimeout(u32),
    /// Scripts are notified about these rejected promises.
    NotifyRejected(Vec<u32>),
    /// Scripts are notified that this promise was handled after all.
    NotifyHandled(u32),
}

/// A scheduler task as it stands in its queue (Prioritized Task Scheduling, "Scheduling Tasks and Continuations").
#[derive(Clone, Copy, Debug, PartialEq, Eq)]
pub struct PostedTask {
    pub registration: u32,
    pub source: PrioSource,
    pub continuation: bool,
}

/// A scheduler task that was taken, with its enqueue order, which is its task number.
#[derive(Clone, Copy, Debug, PartialEq, Eq)]
pub struct SchedTask {
    pub registration: u32,
    pub source: PrioSource,
    pub continuation: bool,
    pub order: u64,
}

/// What stands in the pool of all queued tasks.
///
/// Each cell of the pool is as large as the largest task, so the steps, which are more than twice the size of a scheduler task,
/// stand in a box.
#[derive(Drop)]
pub enum PageTask {
    /// A task of a task source other than the scheduler's.
    OfSource(Box<TaskSteps>),
    /// A scheduler task.
    OfScheduler(PostedTask),
}

/// The steps of a task of a task source.
pub fn into_steps(task: PageTask) -> TaskSteps
    requires { IsTrue (has_steps task) }
    ensures { steps_of result ≡ steps_in task }
{
    match task {
        PageTask::OfSource(steps) => Box::into_inner(steps),
        PageTask::OfScheduler(_) => unreachable!(),
    }
}
