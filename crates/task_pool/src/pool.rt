ghost use Rattle.std.specs.Prelude.{◌≡◌, ℕ, ◌+◌, ◌^◌, ◌<◌, ◌≤◌, [], ◌∷◌, ◌++◌, length, map, drop, slice_set, None, Some, IfOk, IfErr, OnOk, OnErr, OnSome, IfSome, IfNone, IsOk};
ghost use Rattle.std.specs.Option.{option_map};
ghost use Rattle.task_pool.specs.Lists.{Entry, list_of, entry_of, without, numbered, first_entry, count, entry_at, with_last, StandsIn};
ghost use Rattle.task_pool.specs.Taken.{taken, taken_from, Leaves};

use crate::links::{Ends, First, Node, set_after, set_before};
use cell_room::{Cell, MemoryFault, Room, Steps};
use std::alloc::Global;
use std::marker::Model;
use std::sync::ledger::Ledger;

/// The name of a list of a pool, counted from 0.
#[derive(Clone, Copy, Debug, PartialEq, Eq)]
pub struct ListId(pub u64);

/// The name of an item in a pool: its cell. No other item of that pool ever has it.
#[derive(Clone, Copy, Debug, PartialEq, Eq)]
pub struct Ticket(pub Cell);

/// An item that was taken out of a list, with its number and that list.
#[derive(Drop)]
pub struct Unlinked<T> {
    pub list: ListId,
    pub number: u64,
    pub item: T,
}

/// Lists of numbered items, seen as what is read along the links from the first cell of each list to its last one.
#[derive(Drop)]
pub struct Pool<T> {
    room: Room<Node<T>>,
    ends: Vec<Ends>,
}

impl<T> Model for Pool<T> {
    ghost use Rattle.task_pool.specs.Lists.{Lists};

    ghost Value = { Lists T };

    ghost use Rattle.task_pool.specs.Links.{reading};
    ghost use Rattle.task_pool.specs.InRoom.{IsPool};

    ghost view = { λ pool. record {
      lists = reading pool.room pool.ends.items;
      spare = pool.room.spare;
      inserts = pool.room.inserts;
    } };

    ghost invariant = { λ pool. IsPool pool.room pool.ends.items };
}

impl<T> Pool<T> {
    /// No list. It keeps the allocator and takes no memory yet.
    pub fn new(alloc: Global) -> Pool<T>
        ensures { result ≡ record { lists = []; spare = 0; inserts = 0 } }
    {
        Pool {
            room: Room::new(alloc),
            ends: Vec::new(alloc),
        }
    }

    /// Makes the number of items that are sure to find memory at least `n`.
    ///
    /// An error leaves all as it was.
    pub fn reserve(&mut self, n: usize) -> Result<(), MemoryFault>
        ensures made { OnOk result (n ≤ self.new.spare) }
        ensures kept { self.old.spare ≤ self.new.spare }
        ensures lists { self.new ≡ record self.old { spare = self.new.spare } }
        ensures err { OnErr result (self.new ≡ self.old) }
    {
        self.room.reserve(n)
    }

    /// How many items more are sure to find memory. Takes no memory.
    pub fn spare(&self) -> usize
        ensures { result ≡ self.now.spare }
    {
        self.room.spare()
    }

    /// Makes an empty list, whose number is how many there were.
    ///
    /// An error leaves all as it was.
    pub fn new_list(&mut self) -> Result<ListId, MemoryFault>
        ensures id { IfOk result (λ id. id.0 ≡ length self.old.lists) }
        ensures made { OnOk result (self.new ≡ record self.old { lists = self.old.lists ++ [] ∷ [] }) }
        ensures err { OnErr result (self.new ≡ self.old) }
    {
        let id = ListId(self.ends.len() as u64);
        self.ends.push(Ends {
            first: None,
            last: None,
        })?;
        Ok(id)
    }

    /// The number of the first item of a list, none exactly where the list is empty. Takes no memory.
    pub fn front(&self, l: ListId) -> Option<u64>
        requires { l.0 < length self.now.lists }
        ensures { result ≡ option_map (λ entry. entry.number) (first_entry (list_of self.now l.0)) }
    {
        let first = self.ends[l.0 as usize].first?;
        Some(first.number)
    }

    /// Puts an item at the end of a list, under a number. Two accesses at most.
    ///
    /// The item comes back only for want of memory, never where `spare` is above 0, and then all is as it was.
    pub fn push_back<L: Ledger>(
        &mut self,
        l: ListId,
        number: u64,
        item: T,
        steps: &mut Steps<L>,
    ) -> Result<Ticket, T>
        requires list { l.0 < length self.old.lists }
        requires inserts { self.old.inserts + 1 < 2 ^ 64 }
        ensures put { IfOk result (λ ticket. self.new.lists ≡ with_last self.old l.0 (entry_at ticket.0 number item)) }
        ensures fresh { IfOk result (λ ticket. entry_of self.old ticket.0 ≡ None) }
        ensures generation { IfOk result (λ ticket. ticket.0.generation ≡ self.old.inserts) }
        ensures inserts { OnOk result (self.new.inserts ≡ self.old.inserts + 1) }
        ensures spare { self.old.spare ≤ self.new.spare + 1 }
        ensures succeeds { 0 < self.old.spare → IsOk result }
        ensures back { IfErr result (λ given. given ≡ item) }
        ensures err { OnErr result (self.new ≡ self.old) }
        ensures accesses { steps.new ≤ steps.old + 2 }
    {
        let at = l.0 as usize;
        let Ends { first, last } = self.ends[at];
        let node = Node {
            list: l.0,
            number,
            item,
            before: last,
            after: None,
        };
        match self.room.insert(node, steps) {
            Ok(cell) => {
                set_after(&mut self.room, last, Some(cell), steps);
                self.ends[at] = Ends {
                    first: first.or(Some(First { cell, number })),
                    last: Some(cell),
                };
                Ok(Ticket(cell))
            }
            Err(
                Node {
                    list: _,
                    number: _,
                    item,
                    before: _,
                    after: _,
                },
            ) => Err(item),
        }
    }

    /// Takes the first item out of a list, none exactly where the list is empty. Three accesses at most. Takes no
    /// memory.
    pub fn pop_front<L: Ledger>(&mut self, l: ListId, steps: &mut Steps<L>) -> Option<(u64, T)>
        requires { l.0 < length self.old.lists }
        ensures item { result ≡ option_map numbered (first_entry (list_of self.old l.0)) }
        ensures gone { self.new.lists ≡ slice_set self.old.lists l.0 (drop 1 (list_of self.old l.0)) }
        ensures spare { OnSome result (self.new.spare ≡ self.old.spare + 1) }
        ensures inserts { self.new.inserts ≡ self.old.inserts }
        ensures none { IfNone result (self.new ≡ self.old) }
        ensures accesses { steps.new ≤ steps.old + 3 }
    {
        let first = self.ends[l.0 as usize].first?;
        self.unlink(Ticket(first.cell), steps)
    }

    /// Takes an item out of its list, wherever it stands there, none exactly where the ticket is not live, and then nothing
    /// changes. Every other list is as it was. Three accesses at most. Takes no memory.
    pub fn unlink<L: Ledger>(&mut self, t: Ticket, steps: &mut Steps<L>) -> Option<(u64, T)>
        ensures item { result ≡ option_map numbered (entry_of self.old t.0) }
        ensures there { (l : ℕ) (entry : Entry T) → StandsIn self.old l t.0 entry → result ≡ Some (numbered entry) }
        ensures gone { self.new.lists ≡ map (without t.0) self.old.lists }
        ensures one { OnSome result (count self.new.lists + 1 ≡ count self.old.lists) }
        ensures spare { OnSome result (self.new.spare ≡ self.old.spare + 1) }
        ensures inserts { self.new.inserts ≡ self.old.inserts }
        ensures none { IfNone result (self.new ≡ self.old) }
        ensures accesses { steps.new ≤ steps.old + 3 }
    {
        let Unlinked {
            list: _,
            number,
            item,
        } = self.unlink_listed(t, steps)?;
        Some((number, item))
    }

    /// Takes an item out as [`Pool::unlink`] does, and tells the list that it stood in. Three accesses at most. Takes no
    /// memory.
    pub fn unlink_listed<L: Ledger>(
        &mut self,
        t: Ticket,
        steps: &mut Steps<L>,
    ) -> Option<Unlinked<T>>
        ensures item { option_map taken result ≡ option_map numbered (entry_of self.old t.0) }
        ensures there { (l : ℕ) (entry : Entry T) → StandsIn self.old l t.0 entry → result ≡ Some (taken_from l entry) }
        ensures list { IfSome result (λ unlinked. Leaves t.0 unlinked.list.0 self.old self.new) }
        ensures gone { self.new.lists ≡ map (without t.0) self.old.lists }
        ensures one { OnSome result (count self.new.lists + 1 ≡ count self.old.lists) }
        ensures spare { OnSome result (self.new.spare ≡ self.old.spare + 1) }
        ensures inserts { self.new.inserts ≡ self.old.inserts }
        ensures none { IfNone result (self.new ≡ self.old) }
        ensures accesses { steps.new ≤ steps.old + 3 }
    {
        let Node {
            list,
            number,
            item,
            before,
            after,
        } = self.room.remove(t.0, steps)?;
        let first = set_before(&mut self.room, after, before, steps);
        set_after(&mut self.room, before, after, steps);
        let ends = self.ends[list as usize];
        self.ends[list as usize] = ends.joined(before, first, after);
        Some(Unlinked {
            list: ListId(list),
            number,
            item,
        })
    }
}
