ghost use Rattle.std.specs.Prelude.{◌≡◌, ◌<◌, ◌^◌, [], ◌∷◌, ◌++◌, length, IsTrue, IfOk, OnOk, OnErr, IsOk};
ghost use Rattle.page_types.specs.Counts.{refusals_after};
ghost use Rattle.host_jobs.specs.Closures.{is_live_at, takes_at, meets_at, fired_at, dropped_at};
ghost use Rattle.host_jobs.specs.Firing.{Fires, closures_after};
ghost use Rattle.host_jobs.specs.KeptAnswers.{FollowsKept};

use crate::slot::Slot;
use crate::{Fired, HostOnce, HostPort, NoHost};
use std::alloc::{AllocError, Global};

/// The closures of a run by their numbers, which begin at 0.
#[derive(Drop)]
pub struct HostTable {
    pub(crate) slots: Vec<Slot>,
}

impl HostTable {
    ghost use Rattle.host_jobs.specs.ToldClosure.{told_once};
    ghost use Rattle.host_jobs.specs.ToldTable.{closures_of};

    /// A table with no closure. Takes no memory.
    pub fn new(alloc: Global) -> HostTable
        ensures { closures_of result ≡ [] }
    {
        HostTable {
            slots: Vec::new(alloc),
        }
    }

    /// Puts a live closure at the end, and gives its number. Want of memory is the only error; then the closure is dropped
    /// uncalled.
    pub fn push(&mut self, job: HostOnce) -> Result<u32, AllocError>
        requires { length (closures_of self.old) < 2 ^ 32 }
        ensures number { IfOk result (λ k. k ≡ length (closures_of self.old)) }
        ensures pushed { OnOk result (closures_of self.new ≡ closures_of self.old ++ told_once job ∷ []) }
        ensures same { OnErr result (closures_of self.new ≡ closures_of self.old) }
    {
        let number = self.slots.len() as u32;
        self.slots.push(Slot::new(job))?;
        Ok(number)
    }

    /// Calls closure `k` on `x` where it is live and takes `x`, and then it is fired.
    ///
    /// Otherwise nothing changes, and the answer is Unknown exactly where there is no closure `k`, Used exactly where it was
    /// fired or dropped, and OutOfRange exactly where it is live and does not take `x`. Takes no memory but the closure's own.
    pub fn fire(&mut self, k: u32, x: i64) -> Fired
        ensures answer { Fires (closures_of self.old) k x result }
        ensures marks { closures_of self.new ≡ closures_after (closures_of self.old) k result }
    {
        let index = k as usize;
        if index >= self.slots.len() {
            return Fired::Unknown;
        }
        let closure = self.slots[index].closure;
        if !closure.is_live() {
            return Fired::Used;
        }
        if !closure.takes(x) {
            return Fired::OutOfRange;
        }
        Fired::Answer(self.slots[index].fire(x))
    }

    /// Drops closure `k` uncalled where it is live, and says whether it was. No other closure changes. Takes no memory.
    pub fn drop_job(&mut self, k: u32) -> bool
        ensures live { result ≡ is_live_at (closures_of self.old) k }
        ensures marks { closures_of self.new ≡ dropped_at (closures_of self.old) k }
    {
        let index = k as usize;
        index < self.slots.len() && self.slots[index].drop_job()
    }
}

impl HostPort for HostTable {
    ghost use Rattle.std.specs.Prelude.{None};
    ghost use Rattle.host_jobs.specs.ToldTable.{closures_of};

    ghost closures = { closures_of };

    ghost kept = { λ _. None };

    ghost refusals = { λ _. 0 };

    fn live(&self, k: u32) -> bool {
        let index = k as usize;
        index < self.slots.len() && self.slots[index].closure.is_live()
    }

    fn known(&self, k: u32) -> bool {
        (k as usize) < self.slots.len()
    }

    fn fits(&self, k: u32, x: i64) -> bool {
        let index = k as usize;
        index < self.slots.len() && self.slots[index].closure.takes(x)
    }

    /// The answer of the closure itself. It never refuses.
    fn fire_live(&mut self, k: u32, x: i64) -> Result<Result<i64, i64>, NoHost>
        requires live { IsTrue (is_live_at (closures_of self.old) k) }
        requires fits { IsTrue (takes_at (closures_of self.old) k x) }
        ensures met { IfOk result (λ answer. IsTrue (meets_at (closures_of self.old) k x answer)) }
        ensures marks { OnOk result (closures_of self.new ≡ fired_at (closures_of self.old) k) }
        ensures same { OnErr result (closures_of self.new ≡ closures_of self.old) }
        ensures kept { FollowsKept (meets_at (closures_of self.old) k x) None result None }
        ensures refused { 0 ≡ refusals_after 0 result }

        ensures never { IsOk result }
    {
        Ok(self.slots[k as usize].fire(x))
    }

    fn give_up(&mut self, k: u32) {
        self.drop_job(k);
    }
}
