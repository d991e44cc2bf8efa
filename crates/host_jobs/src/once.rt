ghost use Rattle.std.specs.Prelude.{◌≡◌, ℤ, ◌≤ℤ◌, Result};
ghost use Rattle.host_jobs.specs.Closures.{Meets};

use crate::HostKind;

/// A closure that is called at most once, on a number from `low` to `high`, and answers by the relation of its kind.
#[derive(Drop)]
pub struct HostOnce {
    pub kind: HostKind,
    pub low: i64,
    pub high: i64,
    job: Box<dyn FnOnce(i64) -> Result<i64, i64>>,
    ghost callable: { (x : ℤ) → low ≤ℤ x → x ≤ℤ high → pre job x },
    ghost met: { (x : ℤ) (answer : Result ℤ ℤ) → low ≤ℤ x → x ≤ℤ high → post job x answer → Meets kind x answer },
}

impl HostOnce {
    /// Keeps a closure that may be called on each number from `low` to `high` and answers by the relation of the kind:
    /// Square `Ok(x * x)`, Double `Ok(x + x)`, Negate `Ok(-x)`, Fail `Err(x)`, Any any answer. Takes no memory.
    pub fn new(
        kind: HostKind,
        low: i64,
        high: i64,
        job: Box<dyn FnOnce(i64) -> Result<i64, i64>>,
    ) -> HostOnce
        requires callable { (x : ℤ) → low ≤ℤ x → x ≤ℤ high → pre job x }
        requires met { (x : ℤ) (answer : Result ℤ ℤ) → low ≤ℤ x → x ≤ℤ high → post job x answer → Meets kind x answer }
        ensures kind { result.kind ≡ kind }
        ensures low { result.low ≡ low }
        ensures high { result.high ≡ high }
    {
        HostOnce {
            kind,
            low,
            high,
            job,
        }
    }

    // Calls the closure.
    pub(crate) fn fire(self, x: i64) -> Result<i64, i64>
        requires low { self.low ≤ℤ x }
        requires high { x ≤ℤ self.high }
        ensures { Meets self.kind x result }
    {
        (self.job)(x)
    }
}
