ghost use Rattle.std.specs.Prelude.{◌≡◌, ◌≢◌, [], length, None, Some, OnOk, OnErr};
ghost use Rattle.page_parts.specs.TaskSignals.{priority_of, followed as followed_by, is_changing as changing_at, give as given, depend as depending, ended};
ghost use Rattle.task_signal.specs.Changes.{IsAnswer, Leaves, HasPriority};
ghost use Rattle.task_signal.specs.Places.{place_in, signals};

use crate::{ChangeFault, Changing, MemoryFault};
use page_types::Priority;
use std::alloc::Global;
use std::collections::BTreeMap;
use std::marker::Model;

// A signal with a priority.
#[derive(Drop)]
struct Record {
    signal: u32,
    priority: Priority,
    follows: Option<u32>,
    followers: Vec<u32>,
    changing: bool,
}

/// A change of a priority that has begun.
#[derive(Drop)]
pub struct Moved {
    /// The priority before the change.
    pub before: Priority,
    /// The signals that follow this one, in the order in which they came to follow it.
    pub dependents: Vec<u32>,
}

/// The signals that were given a priority, seen as the list of their records in the order in which they were given one.
///
/// A signal is its number.
#[derive(Drop)]
pub struct Prios {
    alloc: Global,
    records: Vec<Record>,
    // Where the record of a signal is.
    places: BTreeMap<u32, usize>,
}

impl Model for Prios {
    ghost use Rattle.page_parts.specs.TaskSignals.{Prios as Records};

    ghost Value = { Records };

    ghost use Rattle.task_signal.specs.Seen.{prios_of};
    ghost use Rattle.task_signal.specs.Places.{IsPlaced};

    ghost view = { λ prios. prios_of prios.records.items };

    ghost invariant = { λ prios. IsPlaced (prios_of prios.records.items) prios.places };
}

impl Prios {
    /// No signal has a priority. It keeps the allocator and takes no memory yet.
    pub fn new(alloc: Global) -> Prios
        ensures { result ≡ [] }
    {
        Prios {
            alloc,
            records: Vec::new(alloc),
            places: BTreeMap::new(alloc),
        }
    }

    /// How many signals were given a priority. Takes no memory.
    pub fn len(&self) -> usize
        ensures { result ≡ length self.now }
    {
        self.records.len()
    }

    /// Gives a signal its first priority. It follows no signal, and none follows it.
    ///
    /// An error leaves all as it was.
    pub fn give(&mut self, s: u32, p: Priority) -> Result<(), MemoryFault>
        requires { priority_of self.old s ≡ None }
        ensures given { OnOk result (self.new ≡ given s p self.old) }
        ensures err { OnErr result (self.new ≡ self.old) }
    {
        let record = Record {
            signal: s,
            priority: p,
            follows: None,
            followers: Vec::new(self.alloc),
            changing: false,
        };
        self.records.reserve(1)?;
        self.places.insert(s, self.records.len())?;
        self.records.push(record).unwrap();
        Ok(())
    }

    /// From now on `s` follows `on`: a change of the priority of `on` is one of `s` too. Both were given a priority, and neither
    /// follows a signal yet.
    ///
    /// An error leaves all as it was.
    pub fn depend(&mut self, s: u32, on: u32) -> Result<(), MemoryFault>
        requires follower { HasPriority s self.old }
        requires source { HasPriority on self.old }
        requires free { followed_by self.old s ≡ None }
        requires first { followed_by self.old on ≡ None }
        requires apart { s ≢ on }
        ensures depends { OnOk result (self.new ≡ depending s on self.old) }
        ensures err { OnErr result (self.new ≡ self.old) }
    {
        let follower = self.given_place(s);
        let source = self.given_place(on);
        self.records[source].followers.push(s)?;
        self.records[follower].follows = Some(on);
        Ok(())
    }

    /// The signal that this one follows, none exactly where it follows none. Takes no memory.
    pub fn followed(&self, s: u32) -> Option<u32>
        ensures { result ≡ followed_by self.now s }
    {
        let place = self.place(s)?;
        self.records[place].follows
    }

    /// The priority of a signal now, none exactly where it was given none. Takes no memory.
    pub fn priority(&self, s: u32) -> Option<Priority>
        ensures { result ≡ priority_of self.now s }
    {
        let place = self.place(s)?;
        Some(self.records[place].priority)
    }

    /// Whether a change of a signal's priority is in progress. Takes no memory.
    pub fn is_changing(&self, s: u32) -> bool
        ensures { result ≡ changing_at self.now s }
    {
        match self.place(s) {
            Some(place) => self.records[place].changing,
            None => false,
        }
    }

    /// Begins a change of the priority of a signal, which [`Prios::finish`] ends.
    ///
    /// [`Changing`] exactly while a change of this signal is in progress. Else none exactly where this is its priority already,
    /// and else the priority before and the signals that follow this one now. Nothing changes where no change begins.
    pub fn change(&mut self, s: u32, p: Priority) -> Result<Option<Moved>, ChangeFault>
        requires { HasPriority s self.old }
        ensures answer { IsAnswer s p self.old result }
        ensures after { Leaves s p self.old result self.new }
    {
        let place = self.given_place(s);
        let record = &self.records[place];
        if record.changing {
            return Err(ChangeFault::Is(Changing));
        }
        if record.priority == p {
            return Ok(None);
        }
        let moved = Moved {
            before: record.priority,
            dependents: Vec::from_slice(self.alloc, &record.followers)?,
        };
        let record = &mut self.records[place];
        record.priority = p;
        record.changing = true;
        Ok(Some(moved))
    }

    /// Ends the change of a signal's priority that is in progress. Takes no memory.
    pub fn finish(&mut self, s: u32)
        ensures { self.new ≡ ended s self.old }
    {
        if let Some(place) = self.place(s) {
            self.records[place].changing = false;
        }
    }

    // Where the record of a signal is, none exactly where it has no priority.
    fn place(&self, s: u32) -> Option<usize>
        ensures place { result ≡ place_in (signals self.now) s }
    {
        self.places.get(&s).copied()
    }

    // Where the record of a signal is that was given a priority.
    fn given_place(&self, s: u32) -> usize
        requires { HasPriority s self.now }
        ensures place { place_in (signals self.now) s ≡ Some result }
    {
        self.place(s).unwrap()
    }
}
