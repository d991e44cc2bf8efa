//! The words that stand in the lines of events.

ghost use Rattle.std.specs.Prelude.{◌≡◌};
ghost use Rattle.page_parts.specs.Spelling.{priority_text};
ghost use Rattle.page_parts.specs.TraceText.{head_text, source_text, end_text, kind_text};
ghost use Rattle.trace_text.specs.Trace.{IsForm};

use crate::{PrioName, RegKind};
use page_base::{End, Source};

/// The first line of a trace of this form.
pub(crate) fn head_line(form: u32) -> &'static [u8]
    requires { IsForm form }
    ensures { result.now ≡ head_text form }
{
    if form == 1 {
        b"trace 1\n"
    } else {
        b"trace 2\n"
    }
}

/// The word of a turn's source. Takes no memory.
pub fn source_word(source: Option<Source>) -> &'static [u8]
    ensures { result.now ≡ source_text source }
{
    match source {
        None => b"none",
        Some(Source::User) => b"user",
        Some(Source::Net) => b"net",
        Some(Source::Dom) => b"dom",
        Some(Source::Timer) => b"timer",
        Some(Source::Render) => b"render",
        Some(Source::Sched) => b"sched",
        Some(Source::Idle) => b"idle",
    }
}

pub(crate) fn end_word(end: End) -> &'static [u8]
    ensures { result.now ≡ end_text end }
{
    match end {
        End::Done => b"done",
        End::Fuel => b"fuel",
        End::Clock => b"clock",
    }
}

/// The word for what a registration is for. Takes no memory.
pub fn kind_word(kind: RegKind) -> &'static [u8]
    ensures { result.now ≡ kind_text kind }
{
    match kind {
        RegKind::Timeout => b"timeout",
        RegKind::Interval => b"interval",
        RegKind::Frame => b"frame",
        RegKind::Idle => b"idle",
        RegKind::Post => b"post",
        RegKind::Yield => b"yield",
        RegKind::Host => b"host",
        RegKind::Listener => b"listener",
        RegKind::Then => b"then",
        RegKind::Micro => b"micro",
        RegKind::Signal => b"signal",
    }
}

pub(crate) fn priority_word(priority: PrioName) -> &'static [u8]
    ensures { result.now ≡ priority_text priority }
{
    match priority {
        PrioName::Background => b"background",
        PrioName::UserVisible => b"user-visible",
        PrioName::UserBlocking => b"user-blocking",
    }
}
