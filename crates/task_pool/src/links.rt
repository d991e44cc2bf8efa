ghost use Rattle.std.specs.Prelude.{◌≡◌, ◌+◌, ◌≤◌};
ghost use Rattle.cell_room.specs.Cells.{item_at};
ghost use Rattle.task_pool.specs.Links.{Relinks, with_before, with_after, first_at, joined as joining};

use cell_room::{Cell, Room, Steps};
use std::sync::ledger::Ledger;

/// A cell of the room: an item with its number, the list that it stands in, and the cells before and after it there.
#[derive(Drop)]
pub struct Node<T> {
    pub list: u64,
    pub number: u64,
    pub item: T,
    pub before: Option<Cell>,
    pub after: Option<Cell>,
}

/// The first cell of a list and its number.
#[derive(Clone, Copy)]
pub struct First {
    pub cell: Cell,
    pub number: u64,
}

/// Where a list begins and ends.
#[derive(Clone, Copy)]
pub struct Ends {
    pub first: Option<First>,
    pub last: Option<Cell>,
}

impl Ends {
    /// The ends once a cell has left that stood between these two.
    pub fn joined(self, before: Option<Cell>, first: Option<First>, after: Option<Cell>) -> Ends
        ensures { result ≡ joining self before first after }
    {
        Ends {
            first: if before.is_none() { first } else { self.first },
            last: if after.is_none() { before } else { self.last },
        }
    }
}

/// Sets what stands before a cell, where there is one, and answers the cell with its number.
pub fn set_before<T, L: Ledger>(
    room: &mut Room<Node<T>>,
    cell: Option<Cell>,
    before: Option<Cell>,
    steps: &mut Steps<L>,
) -> Option<First>
    ensures relinked { Relinks (item_at room.old) (item_at room.new) cell (with_before before) }
    ensures first { result ≡ first_at (item_at room.old) cell }
    ensures spare { room.new.spare ≡ room.old.spare }
    ensures inserts { room.new.inserts ≡ room.old.inserts }
    ensures accesses { steps.new ≤ steps.old + 1 }
{
    let cell = cell?;
    let node = room.get_mut(cell, steps)?;
    node.before = before;
    Some(First {
        cell,
        number: node.number,
    })
}

/// Sets what stands after a cell, where there is one.
pub fn set_after<T, L: Ledger>(
    room: &mut Room<Node<T>>,
    cell: Option<Cell>,
    after: Option<Cell>,
    steps: &mut Steps<L>,
)
    ensures relinked { Relinks (item_at room.old) (item_at room.new) cell (with_after after) }
    ensures spare { room.new.spare ≡ room.old.spare }
    ensures inserts { room.new.inserts ≡ room.old.inserts }
    ensures accesses { steps.new ≤ steps.old + 1 }
{
    let Some(cell) = cell else { return };
    if let Some(node) = room.get_mut(cell, steps) {
        node.after = after;
    }
}
