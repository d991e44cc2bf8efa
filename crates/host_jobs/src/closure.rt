ghost use Rattle.std.specs.Prelude.{◌≡◌, ◌≢◌, false};
ghost use Rattle.std.specs.Option.{option_map_or};
ghost use Rattle.page_types.specs.declared.HostMark.TheVariants.{Queued};
ghost use Rattle.page_parts.specs.HostClosures.{meets, fired, is_ok_of as ok_of};
ghost use Rattle.host_jobs.specs.Closures.{is_live, takes, after_drop};

use crate::{HostKind, HostMark};

/// What is known of a closure, also when it is gone. It is never marked Queued: a page itself knows which it has asked.
#[derive(Clone, Copy)]
pub(crate) struct Closure {
    pub(crate) kind: HostKind,
    pub(crate) low: i64,
    pub(crate) high: i64,
    pub(crate) mark: HostMark,
    ghost unqueued: { mark ≢ Queued },
}

impl Closure {
    ghost use Rattle.host_jobs.specs.ToldClosure.{told};

    pub(crate) fn is_live(&self) -> bool
        ensures { result ≡ is_live self.now.mark }
    {
        self.mark == HostMark::Live
    }

    pub(crate) fn takes(&self, x: i64) -> bool
        ensures { result ≡ takes (told self.now) x }
    {
        self.low <= x && x <= self.high
    }

    pub(crate) fn mark_fired(&mut self)
        ensures { told self.new ≡ fired (told self.old) }
    {
        self.mark = HostMark::Fired;
    }

    // Drops the closure where it is live, and says whether it was.
    pub(crate) fn give_up(&mut self) -> bool
        ensures live { result ≡ is_live self.old.mark }
        ensures after { told self.new ≡ after_drop (told self.old) }
    {
        let live = self.is_live();
        if live {
            self.mark = HostMark::Dropped;
        }
        live
    }

    // Whether an answer meets the relation of the closure's kind.
    pub(crate) fn allows(&self, x: i64, answer: Result<i64, i64>) -> bool
        ensures { result ≡ meets self.now.kind x answer }
    {
        match self.kind {
            HostKind::Square => is_ok_of(x.checked_mul(x), answer),
            HostKind::Double => is_ok_of(x.checked_add(x), answer),
            HostKind::Negate => is_ok_of(x.checked_neg(), answer),
            HostKind::Fail => answer == Err(x),
            HostKind::Any => true,
        }
    }
}

// Whether an answer is Ok of this number; where there is none, it does not fit an i64.
fn is_ok_of(wanted: Option<i64>, answer: Result<i64, i64>) -> bool
    ensures { result ≡ option_map_or (λ number. ok_of number answer) wanted false }
{
    match (wanted, answer) {
        (Some(wanted), Ok(number)) => wanted == number,
        _ => false,
    }
}
