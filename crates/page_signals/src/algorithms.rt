ghost use Rattle.std.specs.Prelude.{◌≡◌, ◌++◌, [], IfNone};
ghost use Rattle.std.specs.Option.{option_to_list};
ghost use Rattle.page_signals.specs.Registrations.{AreRegistrations};

use std::marker::Model;
use std::vec;

/// The abort algorithms of a signal that were taken, seen as the list of their registrations, in the order in which they run.
#[derive(Drop)]
pub struct Algorithms {
    left: vec::IntoIter<u64>,
}

impl Model for Algorithms {
    ghost use Rattle.std.specs.Prelude.{List, ℕ};
    ghost use Rattle.std.specs.Vec.Iter.{into_iter_items};
    ghost use Rattle.page_signals.specs.Registrations.{AreRegistrations};

    ghost Value = { List ℕ };

    ghost view = { λ algorithms. into_iter_items algorithms.left };

    ghost invariant = { λ algorithms. AreRegistrations (into_iter_items algorithms.left) };
}

impl Algorithms {
    // These algorithms.
    pub(crate) fn new(left: Vec<u64>) -> Algorithms
        requires { AreRegistrations left.items }
        ensures { result ≡ left.items }
    {
        Algorithms {
            left: left.into_iter(),
        }
    }

    /// The next registration, none exactly where none is left. Takes no memory.
    pub fn next(&mut self) -> Option<u32>
        ensures first { self.old ≡ option_to_list result ++ self.new }
        ensures none { IfNone result (self.old ≡ []) }
    {
        let registration = self.left.next()?;
        Some(registration as u32)
    }
}
