ghost use Rattle.std.specs.Prelude.{◌≡◌, ◌+◌, ◌^◌, ◌<◌};
ghost use Rattle.std.specs.Option.{option_map};
ghost use Rattle.page_parts.specs.IdleCallbacks.{deadline as deadline_of, at_most as not_after};
ghost use Rattle.idle_periods.specs.Moments.{micros_of};

use page_base::Micros;

const LONGEST_PERIOD: u64 = 50_000;

/// The deadline of an idle period that began at `start`, in microseconds: 50 milliseconds later, or before that the next due
/// time of a timer, or the next rendering where one is awaited (requestIdleCallback, "Start an idle period algorithm").
///
/// Takes no memory.
pub fn deadline(start: Micros, timer: Option<Micros>, render: Option<Micros>) -> Micros
    requires { start.0 + 50000 < 2 ^ 64 }
    ensures { result.0 ≡ deadline_of start.0 (micros_of timer) (micros_of render) }
{
    let longest = Micros(start.0 + LONGEST_PERIOD);
    at_most(at_most(longest, timer), render)
}

fn at_most(moment: Micros, other: Option<Micros>) -> Micros
    ensures { result.0 ≡ not_after moment.0 (option_map (λ moment. moment.0) other) }
{
    match other {
        Some(other) => moment.min(other),
        None => moment,
    }
}
