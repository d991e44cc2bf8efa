//! What a view says of one source.

ghost use Rattle.std.specs.Prelude.{◌≡◌, ◌<◌};
ghost use Rattle.page_parts.specs.Sources.{source_number};
ghost use Rattle.page_parts.specs.WrittenChoices.{is_runnable};
ghost use Rattle.loop_policy.specs.Views.{first_of, runnables};

use crate::View;
use page_base::Source;

/// The place of a source in the default list.
pub(crate) fn place_of(source: Source) -> usize
    ensures place { result ≡ source_number source }
    ensures within { result < 7 }
{
    match source {
        Source::User => 0,
        Source::Render => 1,
        Source::Sched => 2,
        Source::Timer => 3,
        Source::Net => 4,
        Source::Dom => 5,
        Source::Idle => 6,
    }
}

/// The number of a source's first runnable task.
pub(crate) fn first_task(view: &View, source: Source) -> Option<u64>
    ensures { result ≡ first_of view.now.first source }
{
    view.first[place_of(source)]
}

/// Whether a source has a runnable task.
pub(crate) fn is_ready(view: &View, source: Source) -> bool
    ensures { result ≡ is_runnable (runnables view.now) source }
{
    first_task(view, source).is_some()
}
