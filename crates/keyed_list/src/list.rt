ghost use Rattle.std.specs.Prelude.{◌≡◌, [], length, IfOk, IfSome, IfNone, OnErr};
ghost use Rattle.std.specs.BTreeMap.{is_at, values};
ghost use Rattle.std.specs.Map.{remove_entry, values_of};
ghost use Rattle.std.specs.Ordering.{nat_cmp};
ghost use Rattle.page_parts.specs.Words.{and_last, has_number};
ghost use Rattle.keyed_list.specs.Listed.{AreBelow, keys_in, places_in, others, remove_each, AreOrdered, HasItem};

use crate::places::{Places, drop_last, has_places, note};
use crate::{Keyed, MemoryFault, Taken};
use std::alloc::Global;
use std::collections::BTreeMap;
use std::collections::btree_map::Values;
use std::marker::Model;

/// Items in the order in which they were added, each under a key, seen as the list of those that were not removed, each with
/// its place.
///
/// A place is a number that no later item of the list has. No call looks at an item that it does not name: besides those it
/// costs look-ups among the items and among the keys that are there, whatever was added or removed before.
#[derive(Drop)]
pub struct KeyedList<T> {
    alloc: Global,
    // The items by their places.
    listed: BTreeMap<u64, Keyed<T>>,
    // The places of the items with a key.
    places: Places,
    // The place of the next item.
    next: u64,
}

impl<T> Model for KeyedList<T> {
    ghost use Rattle.std.specs.Prelude.{List, ℕ};
    ghost use Rattle.keyed_list.specs.declared.keyed.Keyed.{Keyed};
    ghost use Rattle.keyed_list.specs.Listed.{IsListed};

    ghost Value = { List (ℕ × Keyed T) };

    ghost view = { λ list. list.listed.entries };

    ghost invariant = { λ list. IsListed list.listed.entries list.places list.next };
}

impl<T: Drop> KeyedList<T> {
    /// No item. It keeps the allocator and takes no memory yet.
    pub fn new(alloc: Global) -> KeyedList<T>
        ensures { result ≡ [] }
    {
        KeyedList {
            alloc,
            listed: BTreeMap::new(alloc),
            places: BTreeMap::new(alloc),
            next: 0,
        }
    }

    /// How many items there are. It costs no look-up.
    pub fn len(&self) -> usize
        ensures { result ≡ length self.now }
    {
        self.listed.len()
    }

    /// Adds an item behind all others, and answers its place. It costs two look-ups.
    ///
    /// An error leaves all as it was. Want of memory is also told where 2^64 - 1 items were added before.
    pub fn push(&mut self, key: u64, item: T) -> Result<u64, MemoryFault>
        ensures pushed { IfOk result (λ place. self.new ≡ and_last self.old (place, record { key = key; item = item })) }
        ensures behind { IfOk result (λ place. AreBelow place self.old) }
        ensures err { OnErr result (self.new ≡ self.old) }
    {
        let place = self.next;
        let Some(next) = place.checked_add(1) else {
            return Err(MemoryFault::OutOfMemory);
        };
        self.listed.insert(place, Keyed { key, item })?;
        if let Err(fault) = note(self.alloc, &mut self.places, key, place) {
            self.listed.remove(&place);
            return Err(fault);
        }
        self.next = next;
        Ok(place)
    }

    /// Whether an item has this key. It costs a look-up. Takes no memory.
    pub fn contains(&self, key: u64) -> bool
        ensures { result ≡ has_number (keys_in self.now) key }
    {
        has_places(&self.places, key)
    }

    /// Removes the items with this key, and the others stay as they are. True exactly where there were any.
    ///
    /// It costs a look-up, and one for each of them. Takes no memory.
    pub fn remove(&mut self, key: u64) -> bool
        ensures was { result ≡ has_number (keys_in self.old) key }
        ensures gone { self.new ≡ others key self.old }
    {
        let Some(places) = self.places.remove(&key) else {
            return false;
        };
        take_out(&mut self.listed, &places);
        !places.is_empty()
    }

    /// Takes the last item with this key out, and the others stay as they are. None exactly where no item has the key, and then
    /// nothing changes.
    ///
    /// It costs three look-ups at most. Takes no memory.
    pub fn take_last(&mut self, key: u64) -> Option<Taken<T>>
        ensures last { IfSome result (λ taken. places_in self.old key ≡ and_last (places_in self.new key) taken.place) }
        ensures item { IfSome result (λ taken. HasItem self.old taken.place (record { key = key; item = taken.item })) }
        ensures gone { IfSome result (λ taken. self.new ≡ remove_entry (is_at (nat_cmp taken.place)) self.old) }
        ensures none { IfNone result (places_in self.old key ≡ []) }
        ensures kept { IfNone result (self.new ≡ self.old) }
    {
        let place = drop_last(&mut self.places, key)?;
        let keyed = self.listed.remove(&place).unwrap();
        Some(Taken {
            place,
            item: keyed.item,
        })
    }

    /// The items with their keys, in order. Each costs the same on the whole. Takes no memory.
    pub fn walk(&self) -> Values<'_, u64, Keyed<T>>
        ensures { result ≡ values_of self.now }
    {
        self.listed.values()
    }
}

// Takes the items at these places out.
fn take_out<T: Drop>(listed: &mut BTreeMap<u64, Keyed<T>>, places: &[u64])
    requires { AreOrdered listed.old.entries }
    ensures gone { listed.new.entries ≡ remove_each places.now listed.old.entries }
    ensures ordered { AreOrdered listed.new.entries }
{
    for place in places {
        listed.remove(place);
    }
}
