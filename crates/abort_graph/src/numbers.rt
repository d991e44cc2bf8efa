ghost use Rattle.std.specs.Prelude.{◌≡◌, ◌∷◌, [], OnOk};
ghost use Rattle.page_parts.specs.AbortGraph.{and_new};

use crate::MemoryFault;
use std::alloc::Global;
use std::collections::BTreeSet;
use std::marker::Model;

// Numbers, each once, in the order in which they were added.
#[derive(Drop)]
pub(crate) struct Numbers {
    list: Vec<u32>,
    known: BTreeSet<u32>,
}

impl Model for Numbers {
    ghost use Rattle.std.specs.Prelude.{◌≡◌, List, ℕ};
    ghost use Rattle.std.specs.BTreeSet.{contains};
    ghost use Rattle.std.specs.Ordering.{nat_cmp};
    ghost use Rattle.page_parts.specs.Words.{has_number};

    ghost Value = { List ℕ };

    ghost view = { λ numbers. numbers.list.items };

    ghost invariant = { λ numbers. (n : ℕ) → contains nat_cmp numbers.known n ≡ has_number numbers.list.items n };
}

impl Numbers {
    // No number. Takes no memory.
    pub(crate) fn new(alloc: Global) -> Numbers
        ensures { result ≡ [] }
    {
        Numbers {
            list: Vec::new(alloc),
            known: BTreeSet::new(alloc),
        }
    }

    // Adds a number, unless it is there.
    pub(crate) fn add(&mut self, number: u32) -> Result<(), MemoryFault>
        ensures ok { OnOk result (self.new ≡ and_new self.old (number ∷ [])) }
    {
        if self.known.contains(&number) {
            return Ok(());
        }
        self.list.reserve(1)?;
        self.known.insert(number)?;
        self.list.push_reserved(number);
        Ok(())
    }

    // The numbers themselves, with no copy.
    pub(crate) fn into_list(self) -> Vec<u32>
        ensures { result.items ≡ self }
    {
        self.list
    }
}
