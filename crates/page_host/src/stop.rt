//! Why a page stops.

ghost use Rattle.std.specs.Prelude.{◌≡◌, Some};
ghost use Rattle.page_types.specs.Counts.{raised};
ghost use Rattle.page_host.specs.PageNow.{stop_of};

use trace_text::NoLine;

/// Why a page stopped. After a stop only [`crate::Page::into_parts`] and [`crate::Page::into_parts_so_far`] are called.
#[derive(Clone, Copy, Debug, PartialEq, Eq)]
pub enum PageStop {
    /// A line could not be written.
    WriteFault,
    /// A line is not the one that is kept.
    Differs,
    /// The host port refused to answer.
    NoHost,
    OutOfMemory,
}

/// A page stops for this reason: it is kept, and the stop is counted.
pub(crate) fn stopped_by(stopped: &mut Option<NoLine>, stops: &mut u64, why: NoLine) -> PageStop
    ensures stop { result ≡ stop_of why }
    ensures kept { stopped.new ≡ Some why }
    ensures counted { stops.new ≡ raised stops.old }
{
    *stopped = Some(why);
    *stops = stops.saturating_add(1);
    stop_for(why)
}

// The stop of a line that was not taken.
pub(crate) fn stop_for(why: NoLine) -> PageStop
    ensures { result ≡ stop_of why }
{
    match why {
        NoLine::Failed => PageStop::WriteFault,
        NoLine::Differs => PageStop::Differs,
        NoLine::OutOfMemory => PageStop::OutOfMemory,
    }
}
