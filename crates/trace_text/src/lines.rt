//! What takes the lines of a trace.

ghost use Rattle.std.specs.Prelude.{◌≡◌, [], ◌∷◌};
ghost use Rattle.std.specs.Result.{result_err};
ghost use Rattle.trace_text.specs.Line.{Head, Of};
ghost use Rattle.trace_text.specs.declared.lines.NoLine.TheVariants.{OutOfMemory};
ghost use Rattle.trace_text.specs.EventSeen.{stamped_seen};
ghost use Rattle.trace_text.specs.Given.{Keeping, Seen, Gives};
ghost use Rattle.trace_text.specs.Trace.{IsForm};

use crate::Stamped;
use std::alloc::{AllocError, AllocFailed};

/// Why a line was not taken: it could not be put, it differs from the line that is kept, or memory is wanting.
#[derive(Clone, Copy, PartialEq, Eq, Debug)]
pub enum NoLine {
    Failed,
    Differs,
    OutOfMemory,
}

/// Takes the lines of a trace, one by one.
pub trait Lines {
    /// What it goes on from.
    ghost Told: { Type 0 };

    /// What it tells, where it tells, and how often a line has failed, and differed.
    ghost seen: { Self → Seen Told };

    /// How it goes on from what it tells.
    ghost keeping: { Keeping Told };

    /// Takes the head of a trace of this form, 1 or 2. `Failed` comes only where the count of faults rose in this call,
    /// and `Differs` exactly where the count of refusals did.
    fn head(&mut self, form: u32) -> Result<(), NoLine>
        requires { IsForm form }
        ensures { Gives keeping (seen self.old) (Head form ∷ []) (result_err result) (seen self.new) };

    /// Takes the line of an event. The errors come as those of `head` do.
    fn emit(&mut self, e: &Stamped) -> Result<(), NoLine>
        ensures { Gives keeping (seen self.old) (Of (stamped_seen e.now) ∷ []) (result_err result) (seen self.new) };
}

impl From<AllocError> for NoLine {
    ghost from_gives = { λ _ e. e ≡ OutOfMemory };

    fn from(_: AllocError) -> NoLine {
        NoLine::OutOfMemory
    }
}

impl<T: Drop> From<AllocFailed<T>> for NoLine {
    ghost from_gives = { λ _ e. e ≡ OutOfMemory };

    fn from(_: AllocFailed<T>) -> NoLine {
        NoLine::OutOfMemory
    }
}
