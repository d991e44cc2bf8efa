ghost use Rattle.std.specs.Prelude.{◌≡◌, ◌++◌, ◌≤◌, ◌+◌, nat_eq, [], length, OnOk, OnErr};
ghost use Rattle.std.specs.Vec.{vec_len, vec_capacity};
ghost use Rattle.page_parts.specs.Words.{and_last, without, has_number};
ghost use Rattle.keyed_list.specs.Listed.{keys_in};

use crate::MemoryFault;
use keyed_list::KeyedList;
use std::alloc::Global;
use std::marker::Model;
use std::mem;

// The abort algorithms of a signal, seen as their list in the order in which they were added.
//
// Each is the key of its item. So a call costs look-ups, whatever was added or removed before.
#[derive(Drop)]
pub(crate) struct Algorithms {
    alloc: Global,
    listed: KeyedList<()>,
    // An empty list with room for all algorithms, which are handed over in it.
    room: Vec<u64>,
}

impl Model for Algorithms {
    ghost use Rattle.std.specs.Prelude.{◌≡◌, ◌≤◌, List, ℕ, [], length};
    ghost use Rattle.std.specs.Vec.{vec_capacity};
    ghost use Rattle.keyed_list.specs.Listed.{keys_in};

    ghost Value = { List ℕ };

    ghost view = { λ algorithms. keys_in algorithms.listed };

    ghost invariant = { λ algorithms. (algorithms.room.items ≡ [])
        × (length algorithms.listed ≤ vec_capacity algorithms.room) };
}

impl Algorithms {
    // No algorithm. Takes no memory.
    pub(crate) fn new(alloc: Global) -> Algorithms
        ensures { result ≡ [] }
    {
        Algorithms {
            alloc,
            listed: KeyedList::new(alloc),
            room: Vec::new(alloc),
        }
    }

    // Adds an algorithm at the end. Want of memory is also told where 2^64 - 1 algorithms were added before.
    pub(crate) fn add(&mut self, a: u64) -> Result<(), MemoryFault>
        ensures ok { OnOk result (self.new ≡ and_last self.old a) }
        ensures err { OnErr result (self.new ≡ self.old) }
    {
        self.room.reserve(self.listed.len() + 1)?;
        self.listed.push(a, ())?;
        Ok(())
    }

    // Removes an algorithm. True exactly where it was there. Takes no memory.
    pub(crate) fn remove(&mut self, a: u64) -> bool
        ensures was { result ≡ has_number self.old a }
        ensures gone { self.new ≡ without (λ b. nat_eq b a) self.old }
    {
        self.listed.remove(a)
    }

    // Hands over all algorithms, in order, and keeps none. Takes no memory.
    pub(crate) fn take(&mut self) -> Vec<u64>
        ensures all { result.items ≡ self.old }
        ensures none { self.new ≡ [] }
    {
        let listed = mem::replace(&mut self.listed, KeyedList::new(self.alloc));
        let mut taken = mem::replace(&mut self.room, Vec::new(self.alloc));
        fill(&mut taken, &listed);
        taken
    }
}

// Puts algorithms into a list that has room for them.
fn fill(into: &mut Vec<u64>, listed: &KeyedList<()>)
    requires { vec_len into.old + length listed.now ≤ vec_capacity into.old }
    ensures { into.new.items ≡ into.old.items ++ keys_in listed.now }
{
    for algorithm in listed.walk() {
        into.push_reserved(algorithm.key);
    }
}
