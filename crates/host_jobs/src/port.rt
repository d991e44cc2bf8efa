ghost use Rattle.std.specs.Prelude.{◌≡◌, ℕ, ℤ, List, Option, Result, length, nat_lt, IsTrue, IfOk, OnOk, OnErr};
ghost use Rattle.page_types.specs.Counts.{refusals_after};
ghost use Rattle.page_parts.specs.HostClosures.{HostClosure};
ghost use Rattle.host_jobs.specs.Closures.{is_live_at, takes_at, meets_at, fired_at, dropped_at};
ghost use Rattle.host_jobs.specs.KeptAnswers.{FollowsKept};

use crate::NoHost;

/// What gives a page the answers of its host closures.
pub trait HostPort {
    /// The closures in the order of their numbers.
    ghost closures: { Self → List HostClosure };

    /// The answers that it still keeps, where it tells them.
    ghost kept: { Self → Option (List (Result ℤ ℤ)) };

    /// How often it has refused. It never falls, and stays at the end of a `u64`.
    ghost refusals: { Self → ℕ };

    /// Whether there is a closure `k` that was neither fired nor dropped. Takes no memory.
    fn live(&self, k: u32) -> bool
        ensures { result ≡ is_live_at (closures self.now) k };

    /// Whether there is a closure `k`. Takes no memory.
    fn known(&self, k: u32) -> bool
        ensures { result ≡ nat_lt k (length (closures self.now)) };

    /// Whether there is a closure `k` with `x` in its range. Takes no memory.
    fn fits(&self, k: u32, x: i64) -> bool
        ensures { result ≡ takes_at (closures self.now) k x };

    /// The answer of a live closure on a number of its range, by the relation of its kind; then it is fired.
    ///
    /// Where the kept answers are told, it is the next of them. It refuses exactly where its count of refusals rises, and
    /// where the kept answers are told, exactly where the next is absent or does not meet the relation of closure `k` on `x`.
    /// Then nothing else changes.
    fn fire_live(&mut self, k: u32, x: i64) -> Result<Result<i64, i64>, NoHost>
        requires live { IsTrue (is_live_at (closures self.old) k) }
        requires fits { IsTrue (takes_at (closures self.old) k x) }
        ensures met { IfOk result (λ answer. IsTrue (meets_at (closures self.old) k x answer)) }
        ensures marks { OnOk result (closures self.new ≡ fired_at (closures self.old) k) }
        ensures same { OnErr result (closures self.new ≡ closures self.old) }
        ensures kept { FollowsKept (meets_at (closures self.old) k x) (kept self.old) result (kept self.new) }
        ensures refused { refusals self.new ≡ refusals_after (refusals self.old) result };

    /// Drops closure `k` uncalled where it is live. No other closure changes. Takes no memory.
    fn give_up(&mut self, k: u32)
        ensures marks { closures self.new ≡ dropped_at (closures self.old) k }
        ensures kept { kept self.new ≡ kept self.old }
        ensures refused { refusals self.new ≡ refusals self.old };
}
