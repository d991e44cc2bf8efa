//! What is still to arrive.
ghost use Rattle.std.specs.Prelude.{◌≡◌, ◌+◌, ◌^◌, ◌<◌, List, is_some, length, map, true, OnOk, OnErr, IfOk};
ghost use Rattle.std.specs.Option.{option_map};
ghost use Rattle.page_parts.specs.Setup.{are_in_order};
ghost use Rattle.page_parts.specs.Words.{is_there};
ghost use Rattle.page_model.specs.State.{Completing};
ghost use Rattle.page_model.specs.Parallel.{first_item_of, arrival_items, with_arrival};
ghost use Rattle.arrivals_text.specs.SeenParts.{arrival_of};
ghost use Rattle.parallel_items.specs.InParallel.{Waiting};
ghost use Rattle.parallel_items.specs.Items.{due_of, first_arrival, taken_of, LeavesArrivals};
ghost use Rattle.parallel_items.specs.Seen.{arrival_taken};

use crate::MemoryFault;
use arrivals_text::Arrival;
use page_base::Micros;
use std::alloc::Global;
use std::collections::BTreeMap;
use std::marker::Model;

// The arrivals by their times, and of those at one time by a number that counts all that there ever were.
#[derive(Drop)]
pub(crate) struct Arrivals {
    waiting: BTreeMap<(Micros, u64), Arrival>,
    made: u64,
}

impl Model for Arrivals {
    ghost use Rattle.parallel_items.specs.Views.{ArrivalList};
    ghost use Rattle.parallel_items.specs.Codes.{coded_arrivals};

    ghost Value = { ArrivalList };

    ghost coded = { coded_arrivals };

    ghost use Rattle.parallel_items.specs.Seen.{arrivals_of};
    ghost use Rattle.parallel_items.specs.Kept.{AreArrivalsKept};

    ghost view = { λ a. record { arrivals = arrivals_of a.waiting.entries; made = a.made } };

    ghost invariant = { λ a. AreArrivalsKept a.made a.waiting.entries };
}

impl Arrivals {
    // These arrivals, which stand in the order of time.
    pub(crate) fn new(alloc: Global, arrivals: Vec<Arrival>) -> Result<Arrivals, MemoryFault>
        requires { are_in_order (map arrival_of arrivals.items) ≡ true }
        ensures arrivals { IfOk result (λ all. all.arrivals ≡ map arrival_of arrivals.items) }
        ensures made { IfOk result (λ all. all.made ≡ length arrivals.items) }
    {
        let mut all = Arrivals {
            waiting: BTreeMap::new(alloc),
            made: 0,
        };
        for arrival in arrivals {
            all.add(arrival)?;
        }
        Ok(all)
    }

    // One more, which goes behind those of its time.
    pub(crate) fn add(&mut self, arrival: Arrival) -> Result<(), MemoryFault>
        requires { self.old.made + 1 < 2 ^ 64 }
        ensures added { OnOk result (self.new.arrivals ≡ with_arrival (arrival_of arrival) self.old.arrivals) }
        ensures made { OnOk result (self.new.made ≡ self.old.made + 1) }
        ensures err { OnErr result (self.new ≡ self.old) }
    {
        let number = self.made + 1;
        // Each number is new, so nothing stood there.
        let before = self.waiting.insert((arrival.at, number), arrival)?;
        drop(before);
        self.made = number;
        Ok(())
    }

    // How many there ever were. Takes no memory.
    pub(crate) fn made(&self) -> u64
        ensures { result ≡ self.now.made }
    {
        self.made
    }

    pub(crate) fn next_due(&self) -> Option<Micros>
        ensures { option_map (λ moment. moment.0) result ≡ due_of (first_item_of (arrival_items 1 self.now.arrivals)) }
    {
        let (place, _) = self.waiting.first_key_value()?;
        Some(place.0)
    }

    // Takes the first one.
    pub(crate) fn take_first(&mut self) -> Option<Arrival>
        ensures taken { (cs : List Completing) → arrival_taken result ≡ taken_of (first_arrival self.old.arrivals) cs }
        ensures some { is_some result ≡ is_there (first_item_of (arrival_items 1 self.old.arrivals)) }
        ensures left { (w : Waiting) → LeavesArrivals self.old.arrivals self.new.arrivals w }
        ensures made { self.new.made ≡ self.old.made }
    {
        let (_, arrival) = self.waiting.pop_first()?;
        Some(arrival)
    }
}
