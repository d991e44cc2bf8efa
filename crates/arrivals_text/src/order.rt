//! The order of lines.

ghost use Rattle.std.specs.Prelude.{◌≡◌};
ghost use Rattle.arrivals_text.specs.Arrivals.{rank_of as ranked, may_follow as follows};

use crate::place::Place;

fn rank_of(place: Place) -> u32
    ensures { result ≡ ranked place }
{
    match place {
        Place::Start => 0,
        Place::Page => 1,
        Place::Trace => 2,
        Place::Policy => 3,
        Place::Fuel => 4,
        Place::Until => 5,
        Place::Refresh => 6,
        Place::Late => 7,
        Place::Room => 8,
        Place::Host(_) => 9,
        Place::At(_) => 10,
    }
}

/// Whether a line may stand behind the line before it.
pub(crate) fn may_follow(last: Place, next: Place) -> bool
    ensures { result ≡ follows last next }
{
    match (last, next) {
        (Place::Start, _) => rank_of(next) == 1,
        (Place::Host(last), Place::Host(next)) => last < next,
        (Place::At(last), Place::At(next)) => last <= next,
        _ => rank_of(last) < rank_of(next),
    }
}
