//! The times of rendering opportunities.
ghost use Rattle.std.specs.Prelude.{◌≡◌, ◌+◌, ◌^◌, ◌<◌, ◌≤◌};
ghost use Rattle.page_parts.specs.Frames.{next_multiple as next_multiple_of};

use page_base::Micros;

// The least multiple of the period that is greater than a moment.
pub(crate) fn next_multiple(period: Micros, after: Micros) -> Micros
    requires positive { 0 < period.0 }
    requires fits { after.0 + period.0 < 2 ^ 64 }
    ensures value { result.0 ≡ next_multiple_of period.0 after.0 }
    ensures near { result.0 ≤ after.0 + period.0 }
{
    Micros((after.0 / period.0 + 1) * period.0)
}
