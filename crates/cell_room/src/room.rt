ghost use Rattle.std.specs.Prelude.{◌≡◌, ◌+◌, ◌^◌, ◌<◌, ◌≤◌, [], None, Some, IfOk, IfErr, OnOk, OnErr, OnSome, IfNone, option_copied, IsTrue, ◌↔◌, IsSome, IsOk};
ghost use Rattle.std.specs.Option.{option_copied_mut};
ghost use Rattle.std.specs.Borrow.{sem};
ghost use Rattle.slab.specs.Slab.{get, HasRoomFor, Updates};
ghost use Rattle.cell_room.specs.Cells.{item_at, Changes};

use crate::{MemoryFault, Steps};
use slab::Slab;
use std::alloc::Global;
use std::marker::Model;
use std::sync::ledger::Ledger;

/// The name of a cell: its key, which is used again once the cell is empty, and its generation, which no other cell of its
/// room ever has.
#[derive(Clone, Copy, Debug, PartialEq, Eq)]
pub struct Cell {
    pub key: usize,
    pub generation: u64,
}

/// What stands in a cell: the cell's generation and the item.
#[derive(Drop)]
pub struct Stored<T> {
    generation: u64,
    item: T,
}

/// Cells that each hold an item, how many items more are sure to find memory, and the number of inserts made.
#[derive(Drop)]
pub struct Room<T> {
    cells: Slab<Stored<T>>,
    spare: usize,
    inserts: u64,
}

impl<T> Model for Room<T> {
    ghost use Rattle.cell_room.specs.Cells.{Cells};

    ghost Value = { Cells T };

    ghost use Rattle.cell_room.specs.Room.{IsRoom};

    ghost view = { λ room. record { slots = room.cells.slots; spare = room.spare; inserts = room.inserts } };

    ghost invariant = { λ room. IsRoom room.cells room.spare room.inserts };
}

// Stores an item with its generation, in spare memory where there is some.
fn put<T>(
    cells: &mut Slab<Stored<T>>,
    spare: &mut usize,
    stored: Stored<T>,
) -> Result<usize, Stored<T>>
    requires { HasRoomFor cells.old spare.old }
    ensures vacant { IfOk result (λ key. get cells.old key ≡ None) }
    ensures updates { IfOk result (λ key. Updates cells.old cells.new key (Some stored)) }
    ensures fits { HasRoomFor cells.new spare.new }
    ensures less { spare.old ≤ spare.new + 1 }
    ensures succeeds { 0 < spare.old → IsOk result }
    ensures back { IfErr result (λ given. given ≡ stored) }
    ensures slots { OnErr result (cells.new.slots ≡ cells.old.slots) }
    ensures spare { OnErr result (spare.new ≡ spare.old) }
{
    if *spare > 0 {
        *spare -= 1;
    } else if cells.reserve(1).is_err() {
        return Err(stored);
    }
    Ok(cells.insert_reserved(stored))
}

impl<T> Room<T> {
    ghost use Rattle.cell_room.specs.Lends.{LendsItem, LendsItemIf};

    /// No live cell, and none to spare. It keeps the allocator and takes no memory yet.
    pub fn new(alloc: Global) -> Room<T>
        ensures { result ≡ record { slots = []; spare = 0; inserts = 0 } }
    {
        Room {
            cells: Slab::new(alloc),
            spare: 0,
            inserts: 0,
        }
    }

    /// Makes the number of items that are sure to find memory at least `n`.
    ///
    /// An error leaves all as it was.
    pub fn reserve(&mut self, n: usize) -> Result<(), MemoryFault>
        ensures made { OnOk result (n ≤ self.new.spare) }
        ensures kept { self.old.spare ≤ self.new.spare }
        ensures cells { self.new ≡ record self.old { spare = self.new.spare } }
        ensures err { OnErr result (self.new ≡ self.old) }
    {
        if self.spare < n {
            self.cells.reserve(n)?;
            self.spare = n;
        }
        Ok(())
    }

    /// How many items more are sure to find memory. Takes no memory.
    pub fn spare(&self) -> usize
        ensures { result ≡ self.now.spare }
    {
        self.spare
    }

    /// Puts an item into a cell that was not live, whose generation is the number of inserts made before. One access.
    ///
    /// The item comes back only for want of memory, never where `spare` is above 0, and then all is as it was.
    pub fn insert<L: Ledger>(&mut self, item: T, steps: &mut Steps<L>) -> Result<Cell, T>
        requires { self.old.inserts + 1 < 2 ^ 64 }
        ensures generation { IfOk result (λ cell. cell.generation ≡ self.old.inserts) }
        ensures fresh { IfOk result (λ cell. item_at self.old cell ≡ None) }
        ensures put { IfOk result (λ cell. Changes self.old self.new cell (Some item)) }
        ensures inserts { OnOk result (self.new.inserts ≡ self.old.inserts + 1) }
        ensures spare { self.old.spare ≤ self.new.spare + 1 }
        ensures succeeds { 0 < self.old.spare → IsOk result }
        ensures back { IfErr result (λ given. given ≡ item) }
        ensures err { OnErr result (self.new ≡ self.old) }
        ensures access { steps.new ≡ steps.old + 1 }
    {
        steps.count();
        let generation = self.inserts;
        match put(
            &mut self.cells,
            &mut self.spare,
            Stored { generation, item },
        ) {
            Ok(key) => {
                self.inserts = generation + 1;
                Ok(Cell { key, generation })
            }
            Err(
                Stored {
                    generation: _,
                    item,
                },
            ) => Err(item),
        }
    }

    /// The item of a cell, none exactly where the cell is not live. One access. Takes no memory.
    pub fn get<L: Ledger>(&self, cell: Cell, steps: &mut Steps<L>) -> Option<&T>
        ensures item { option_copied result ≡ item_at self.now cell }
        ensures access { steps.new ≡ steps.old + 1 }
    {
        steps.count();
        match self.cells.get(cell.key) {
            Some(stored) if stored.generation == cell.generation => Some(&stored.item),
            _ => None,
        }
    }

    /// The item of a cell for writing, none exactly where the cell is not live. One access. Takes no memory.
    pub fn get_mut<L: Ledger>(&mut self, cell: Cell, steps: &mut Steps<L>) -> Option<&mut T>
        ensures* writes_back { sem 𝓛 (LendsItemIf T.row self.entry cell.key result) }
        ensures item { option_copied_mut result ≡ item_at self.old cell }
        ensures access { steps.new ≡ steps.old + 1 }
    {
        steps.count();
        if self.is_live(cell) {
            Some(self.item_mut(cell))
        } else {
            None
        }
    }

    // Whether a cell is live.
    fn is_live(&self, cell: Cell) -> bool
        ensures { IsTrue result ↔ IsSome (item_at self.now cell) }
    {
        match self.cells.get(cell.key) {
            Some(stored) => stored.generation == cell.generation,
            None => false,
        }
    }

    // The item of a live cell.
    fn item_mut(&mut self, cell: Cell) -> &mut T
        requires { IsSome (item_at self.old cell) }
        ensures* writes_back { sem 𝓛 (LendsItem T.row self.entry cell.key result) }
        ensures item { item_at self.old cell ≡ Some result.now }
    {
        &mut self.cells[cell.key].item
    }

    /// Takes the item out of a cell, none exactly where the cell is not live, and then nothing changes. One access. Takes no
    /// memory.
    pub fn remove<L: Ledger>(&mut self, cell: Cell, steps: &mut Steps<L>) -> Option<T>
        ensures item { result ≡ item_at self.old cell }
        ensures gone { Changes self.old self.new cell None }
        ensures spare { OnSome result (self.new.spare ≡ self.old.spare + 1) }
        ensures inserts { self.new.inserts ≡ self.old.inserts }
        ensures none { IfNone result (self.new ≡ self.old) }
        ensures access { steps.new ≡ steps.old + 1 }
    {
        steps.count();
        if !self.is_live(cell) {
            return None;
        }
        let Stored {
            generation: _,
            item,
        } = self.cells.remove(cell.key);
        prove!(self.spare < self.cells.capacity());
        self.spare += 1;
        Some(item)
    }
}
