ghost use Rattle.std.specs.Prelude.{◌≡◌, Some, IfOk};

#[cfg(test)]
mod tests;

use page_base::Source;
use post_task::{PrioSource, Priority, SchedQueues};
use std::alloc::Global;
use std::sync::ledger::Ledger;
use task_pool::{MemoryFault, Pool, Steps};
use task_queues::Queues;

/// What a task source and the scheduler give back: the number and the item of a task, where one waited.
#[derive(Drop)]
pub struct Taken<T> {
    pub user: Option<(u64, T)>,
    pub scheduled: Option<(u64, T)>,
}

/// Makes the queues of all task sources in one pool, puts a task of the user source and a scheduler task in, and takes both out.
///
/// An error comes only for want of memory.
pub fn one_of_each<T: Drop, L: Ledger>(
    alloc: Global,
    user: T,
    scheduled: T,
    steps: &mut Steps<L>,
) -> Result<Taken<T>, MemoryFault>
    ensures user { IfOk result (λ taken. taken.user ≡ Some (1, user)) }
    ensures scheduled { IfOk result (λ taken. taken.scheduled ≡ Some (2, scheduled)) }
{
    let mut pool = Pool::new(alloc);
    let mut queues = Queues::new(&mut pool)?;
    let mut sched = SchedQueues::new(alloc, &mut pool)?;
    let Ok(_) = queues.queue(&mut pool, Source::User, 1, user, steps) else {
        return Err(MemoryFault::OutOfMemory);
    };
    let source = PrioSource::Fixed(Priority::UserVisible);
    let Ok(_) = sched.enqueue(&mut pool, source, false, 2, scheduled, steps) else {
        return Err(MemoryFault::OutOfMemory);
    };
    let user = queues.take(&mut pool, Source::User, steps);
    let scheduled = sched.take(&mut pool, steps);
    Ok(Taken { user, scheduled })
}
