//! The registrations of a page, by their number and by their timer id.

ghost use Rattle.std.specs.Prelude.{◌≡◌, ◌+◌, ◌^◌, ◌<◌, ◌≤◌, [], length, IfOk, OnOk, OnErr};
ghost use Rattle.page_parts.specs.Words.{and_last, numbered};
ghost use Rattle.page_model.specs.State.{no_registration};
ghost use Rattle.page_script.specs.Seen.{registration_seen};
ghost use Rattle.page_script.specs.TimerIds.{first_with_id};

use crate::parts::Registration;
use page_values::MemoryFault;
use std::alloc::Global;
use std::marker::Model;
use timer_map::counted::{self, Counted};

// The registrations in the order of their numbers, which count from 1.
//
// The first one with each timer id is kept at the id's own place, so that no call looks for it among the others. There is a place
// for each id up to the greatest one, and those with no timer id have the id 0.
#[derive(Drop)]
pub(crate) struct Registrations {
    list: Vec<Registration>,
    first_by_id: Counted<u32>,
}

impl Model for Registrations {
    ghost use Rattle.std.specs.Prelude.{List, map, nat_eq};
    ghost use Rattle.std.specs.Coded.{coded_list};
    ghost use Rattle.std.specs.Map.{lookup};
    ghost use Rattle.page_model.specs.State as model;
    ghost use Rattle.page_script.specs.Codes.{coded_registration};
    ghost use Rattle.page_script.specs.Seen.{registration_seen};
    ghost use Rattle.page_script.specs.TimerIds.{AreFirst};
    ghost use Rattle.timer_map.specs.Counted.{entries_of};

    ghost Value = { List model.Registration };

    ghost coded = { coded_list coded_registration };

    ghost view = { λ a. map registration_seen a.list.items };

    ghost invariant = { λ a.
        AreFirst (λ id. lookup (nat_eq id) (entries_of a.first_by_id.items)) (map registration_seen a.list.items) };
}

impl Registrations {
    // There is none. Takes no memory.
    pub(crate) fn new(alloc: Global) -> Registrations
        ensures { result ≡ [] }
    {
        Registrations {
            list: Vec::new(alloc),
            first_by_id: Vec::new(alloc),
        }
    }

    // One more, and its number.
    pub(crate) fn push(&mut self, registration: Registration) -> Result<u32, MemoryFault>
        requires { length self.old + 1 < 2 ^ 32 }
        ensures number { IfOk result (λ r. r ≡ length self.old + 1) }
        ensures kept { OnOk result (self.new ≡ and_last self.old (registration_seen registration)) }
        ensures err { OnErr result (self.new ≡ self.old) }
    {
        let id = registration.timer_id;
        counted::make_place(&mut self.first_by_id, id)?;
        self.list.push(registration)?;
        let r = self.list.len() as u32;
        if counted::value_of(&self.first_by_id, id).is_none() {
            counted::put(&mut self.first_by_id, id, r);
        }
        Ok(r)
    }

    // How many there are. Takes no memory.
    pub(crate) fn len(&self) -> usize
        ensures { result ≡ length self.now }
    {
        self.list.len()
    }

    // One by its number. Takes no memory.
    pub(crate) fn get(&self, r: u32) -> &Registration
        requires counted { 0 < r }
        requires made { r ≤ length self.now }
        ensures { registration_seen result.now ≡ numbered self.now r no_registration }
    {
        &self.list[r as usize - 1]
    }

    // The number of the first one with a timer id. Takes no memory.
    pub(crate) fn first_with_id(&self, id: u32) -> Option<u32>
        ensures { result ≡ first_with_id id self.now }
    {
        counted::value_of(&self.first_by_id, id)
    }
}
