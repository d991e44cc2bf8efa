//! What answers which source is served.

ghost use Rattle.std.specs.Prelude.{◌≡◌, ℕ, List, Option, IfOk, IsTrue};
ghost use Rattle.page_types.specs.declared.Source.{Source};
ghost use Rattle.page_types.specs.Counts.{refusals_after};
ghost use Rattle.page_types.specs.Told.{FollowsRule};
ghost use Rattle.page_parts.specs.WrittenChoices.{Runnable, is_runnable};
ghost use Rattle.loop_policy.specs.Views.{runnables, HasRunnable};

use crate::View;
use page_base::Source;

/// The chooser chose no source.
#[derive(Clone, Copy, Debug, PartialEq, Eq)]
pub struct NoChoice;

/// Answers which source is served.
pub trait Chooser {
    /// What it holds, of which the next choices are a function.
    ghost Held: { Type 0 };

    ghost held: { Self → Held };

    /// The source among those that have a runnable task, and what is held then. None where it refuses.
    ghost rule: { Held → List Runnable → Option (Source × Held) };

    /// How often it has refused. The count never falls, and stays at the end of a `u64`.
    ghost refusals: { Self → ℕ };

    /// A source with a runnable task. Takes no memory.
    ///
    /// `NoChoice` comes exactly where the count of refusals rose; then what is held stays.
    fn choose(&mut self, view: &View) -> Result<Source, NoChoice>
        requires { HasRunnable view.now }
        ensures choice { FollowsRule (rule (held self.old) (runnables view.now)) (held self.old) result (held self.new) }
        ensures legal { IfOk result (λ source. IsTrue (is_runnable (runnables view.now) source)) }
        ensures refused { refusals self.new ≡ refusals_after (refusals self.old) result };
}
