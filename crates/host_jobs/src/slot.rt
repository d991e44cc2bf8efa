ghost use Rattle.std.specs.Prelude.{◌≡◌, true, IsSome, IsTrue, IfOk, map};
ghost use Rattle.std.specs.Option.{ForSome};
ghost use Rattle.page_types.specs.declared.HostMark.TheVariants.{Live};
ghost use Rattle.page_parts.specs.HostClosures.{meets, fired};
ghost use Rattle.host_jobs.specs.Closures.{is_live, takes, after_drop};
ghost use Rattle.host_jobs.specs.ToldClosure.{told, told_once};

use crate::closure::Closure;
use crate::{HostMark, HostOnce};
use std::alloc::{AllocError, Global};

/// What is known of a closure, and the closure itself while it is live.
#[derive(Drop)]
pub(crate) struct Slot {
    pub(crate) closure: Closure,
    job: Option<HostOnce>,
    ghost live: { closure.mark ≡ Live → IsSome job },
    ghost kind: { ForSome job (λ once. once.kind ≡ closure.kind) },
    ghost low: { ForSome job (λ once. once.low ≡ closure.low) },
    ghost high: { ForSome job (λ once. once.high ≡ closure.high) },
}

impl Slot {
    pub(crate) fn new(job: HostOnce) -> Slot
        ensures { told result.closure ≡ told_once job }
    {
        Slot {
            closure: Closure {
                kind: job.kind,
                low: job.low,
                high: job.high,
                mark: HostMark::Live,
            },
            job: Some(job),
        }
    }

    // Calls the closure of a live slot.
    pub(crate) fn fire(&mut self, x: i64) -> Result<i64, i64>
        requires live { IsTrue (is_live self.old.closure.mark) }
        requires takes { IsTrue (takes (told self.old.closure) x) }
        ensures met { meets self.old.closure.kind x result ≡ true }
        ensures after { told self.new.closure ≡ fired (told self.old.closure) }
    {
        self.closure.mark_fired();
        match self.job.take() {
            Some(once) => once.fire(x),
            None => unreachable!(),
        }
    }

    // Drops the closure of a live slot uncalled, and says whether the slot was live.
    pub(crate) fn drop_job(&mut self) -> bool
        ensures live { result ≡ is_live self.old.closure.mark }
        ensures after { told self.new.closure ≡ after_drop (told self.old.closure) }
    {
        let live = self.closure.give_up();
        if live {
            self.job = None;
        }
        live
    }
}

// What is known of each slot's closure.
pub(crate) fn closures(alloc: Global, slots: &[Slot]) -> Result<Vec<Closure>, AllocError>
    ensures { IfOk result (λ closures. closures.items ≡ map (λ slot. slot.closure) slots.now) }
{
    let mut closures = Vec::new(alloc);
    for slot in slots {
        closures.push(slot.closure)?;
    }
    Ok(closures)
}
