//! The law that arrivals stay in the order of time.

ghost use Rattle.page_parts.specs.Setup.{Arrival};
ghost use Rattle.page_model.specs.State.{Page};
ghost use Rattle.page_model.specs.Parallel.{ItemKind, arrive, take_item, parallel};
ghost use Rattle.page_model.specs.TimeLaws.{HasArrivalsInOrder};

/// The law that the arrivals of a page which stand in the order of time still do where a further one is to come, where an item is taken,
/// and once all that goes on in parallel is taken. So the arrival that is due first is the first of them.
pub fn arrivals_stay_in_order()
    ensures one_more { (a : Arrival) (p : Page) → HasArrivalsInOrder p → HasArrivalsInOrder (arrive a p) }
    ensures taken { (what : ItemKind) (p : Page) → HasArrivalsInOrder p → HasArrivalsInOrder (take_item what p) }
    ensures all_taken { (p : Page) → HasArrivalsInOrder p → HasArrivalsInOrder (parallel p) }
{}
