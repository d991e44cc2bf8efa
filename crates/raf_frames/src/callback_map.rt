ghost use Rattle.std.specs.Prelude.{◌≡◌, ◌+◌, ◌^◌, ◌<◌, None, nat_eq, IfOk, OnOk, OnErr};
ghost use Rattle.std.specs.Map.{lookup, set_value};
ghost use Rattle.std.specs.Option.{option_map};
ghost use Rattle.page_parts.specs.Words.{is_empty as has_none};
ghost use Rattle.page_parts.specs.Frames.{no_frames, callback_in, request as requested, cancel as cancelled, keys as handles};
ghost use Rattle.raf_frames.specs.Entries.{callbacks_of, unmarked, StayKept};

use crate::MemoryFault;
use indexmap::IndexMap;
use std::alloc::{AllocError, Global};
use std::marker::Model;

// The map of animation frame callbacks, in the order of the requests.
//
// A callback that leaves is marked, and the marks go once they are more than half of the entries, so that no callback moves
// for one that leaves.
#[derive(Drop)]
pub(crate) struct CallbackMap {
    alloc: Global,
    // Of each handle its registration, or none where its callback left.
    callbacks: IndexMap<u32, Option<u32>>,
    // How many did not leave.
    waiting: u32,
    last_handle: u32,
}

impl Model for CallbackMap {
    ghost use Rattle.page_parts.specs.Frames.{Frames};

    ghost Value = { Frames };

    ghost use Rattle.raf_frames.specs.Entries.{callbacks_of, AreKept};

    ghost view = { λ map. record { callbacks = callbacks_of map.callbacks.entries; made = map.last_handle } };

    ghost invariant = { λ map. AreKept map.last_handle map.waiting map.callbacks.entries };
}

impl CallbackMap {
    pub fn new(alloc: Global) -> CallbackMap
        ensures { result ≡ no_frames }
    {
        CallbackMap {
            alloc,
            callbacks: IndexMap::new(alloc),
            waiting: 0,
            last_handle: 0,
        }
    }

    // Stores a callback at the end, under the next handle. An error leaves all as it was.
    pub fn request(&mut self, registration: u32) -> Result<u32, MemoryFault>
        requires { self.old.made + 1 < 2 ^ 32 }
        ensures handle { IfOk result (λ handle. handle ≡ self.old.made + 1) }
        ensures stored { OnOk result (self.new ≡ requested registration self.old) }
        ensures err { OnErr result (self.new ≡ self.old) }
    {
        let handle = self.last_handle + 1;
        self.callbacks.insert(handle, Some(registration))?;
        self.waiting += 1;
        self.last_handle = handle;
        Ok(handle)
    }

    // Takes the callback of a handle out, and answers its registration. Takes no memory.
    pub fn cancel(&mut self, handle: u32) -> Option<u32>
        ensures registration { result ≡ option_map (λ callback. callback.registration) (callback_in self.old.callbacks handle) }
        ensures gone { self.new ≡ cancelled handle self.old }
    {
        let registration = mark(&mut self.callbacks, handle)?;
        self.waiting -= 1;
        self.forget_where_many();
        Some(registration)
    }

    // The same with a number of any size. No handle is above the last one.
    pub fn cancel_number(&mut self, number: u64) -> Option<u32>
        ensures registration { result ≡ option_map (λ callback. callback.registration) (callback_in self.old.callbacks number) }
        ensures gone { self.new ≡ cancelled number self.old }
    {
        if number > u64::from(self.last_handle) {
            return None;
        }
        self.cancel(number as u32)
    }

    // Takes the marks out, where they are more than half.
    fn forget_where_many(&mut self)
        ensures { self.new ≡ self.old }
    {
        if (self.waiting as usize) < self.callbacks.len() / 2 {
            forget(&mut self.callbacks);
        }
    }

    // The handles of the callbacks, in order.
    pub fn handles(&self) -> Result<Vec<u32>, AllocError>
        ensures { IfOk result (λ list. list.items ≡ handles self.now) }
    {
        let mut list = Vec::new(self.alloc);
        for (handle, callback) in &self.callbacks {
            if callback.is_some() {
                list.push(*handle)?;
            }
        }
        Ok(list)
    }

    pub fn is_empty(&self) -> bool
        ensures { result ≡ has_none self.now.callbacks }
    {
        self.waiting == 0
    }

    // How many handles were ever given.
    pub fn made(&self) -> u32
        ensures { result ≡ self.now.made }
    {
        self.last_handle
    }
}

// Marks the callback of a handle, and answers the registration that it had.
fn mark(callbacks: &mut IndexMap<u32, Option<u32>>, handle: u32) -> Option<u32>
    ensures registration { result ≡ unmarked (lookup (nat_eq handle) callbacks.old.entries) }
    ensures marked { callbacks.new.entries ≡ set_value (nat_eq handle) callbacks.old.entries None }
{
    callbacks.get_mut(&handle)?.take()
}

// Takes the marks out.
fn forget(callbacks: &mut IndexMap<u32, Option<u32>>)
    ensures same { callbacks_of callbacks.new.entries ≡ callbacks_of callbacks.old.entries }
    ensures kept { StayKept callbacks.old.entries callbacks.new.entries }
{
    callbacks.retain(|_, callback| callback.is_some());
}
