ghost use Rattle.std.specs.Prelude.{◌≡◌, ◌+◌, ◌^◌, ◌<◌, not, IfOk, OnOk, OnErr, IsOk};
ghost use Rattle.std.specs.Option.{option_map};
ghost use Rattle.page_parts.specs.Words.{is_empty};
ghost use Rattle.page_parts.specs.IdleCallbacks.{no_idle, request as requested, cancel as cancelled, waiting_callback, started, waits};
ghost use Rattle.idle_periods.specs.Runnable.{first_runnable, popped};

use crate::MemoryFault;
use std::alloc::Global;
use std::collections::BTreeMap;
use std::marker::Model;

/// The idle callbacks that wait: the pending ones, and those that an idle period made runnable, each in the order of the
/// requests (requestIdleCallback, "The requestIdleCallback() method").
///
/// A callback is a registration, which is any number. Handles are counted from 1, so their order is that of the requests, and
/// the runnable callbacks are those with handles up to one. Each call costs the logarithm of the number of callbacks at most.
#[derive(Drop)]
pub struct Idle {
    callbacks: BTreeMap<u32, u32>,
    last_runnable: u32,
    last_handle: u32,
}

impl Model for Idle {
    ghost use Rattle.page_parts.specs.IdleCallbacks.{Idle as IdleLists};

    ghost Value = { IdleLists };

    ghost use Rattle.std.specs.Prelude.{◌≤◌};
    ghost use Rattle.idle_periods.specs.Seen.{callbacks_of, up_to, beyond, HandlesRise};

    ghost view = { λ idle. record {
      pending = beyond idle.last_runnable (callbacks_of idle.callbacks.entries);
      runnable = up_to idle.last_runnable (callbacks_of idle.callbacks.entries);
      made = idle.last_handle;
    } };

    ghost invariant = { λ idle. HandlesRise 0 idle.callbacks.entries idle.last_handle × (idle.last_runnable ≤ idle.last_handle) };
}

impl Idle {
    /// No callback waits. Takes no memory.
    pub fn new(alloc: Global) -> Idle
        ensures { result ≡ no_idle }
    {
        Idle {
            callbacks: BTreeMap::new(alloc),
            last_runnable: 0,
            last_handle: 0,
        }
    }

    /// Appends a callback to the pending ones, and answers its handle, the next number.
    ///
    /// An error leaves all as it was.
    pub fn request(&mut self, registration: u32) -> Result<u32, MemoryFault>
        requires { self.old.made + 1 < 2 ^ 32 }
        ensures handle { IfOk result (λ handle. handle ≡ self.old.made + 1) }
        ensures stored { OnOk result (self.new ≡ requested registration self.old) }
        ensures err { OnErr result (self.new ≡ self.old) }
    {
        let handle = self.last_handle + 1;
        self.callbacks.insert(handle, registration)?;
        self.last_handle = handle;
        Ok(handle)
    }

    /// The registration of the callback with this handle, in either list: none exactly where the handle is in neither. Takes no
    /// memory.
    pub fn registration(&self, handle: u32) -> Option<u32>
        ensures { result ≡ option_map (λ callback. callback.registration) (waiting_callback handle self.now) }
    {
        self.callbacks.get(&handle).copied()
    }

    /// Takes the callback with this handle out of both lists, and answers its registration.
    ///
    /// None exactly where the handle is in neither, and then nothing changes. Takes no memory.
    pub fn cancel(&mut self, handle: u32) -> Option<u32>
        ensures registration { result ≡ option_map (λ callback. callback.registration) (waiting_callback handle self.old) }
        ensures gone { self.new ≡ cancelled handle self.old }
    {
        self.callbacks.remove(&handle)
    }

    /// Takes the callback whose handle is this number out of both lists, as `cancel` does. Each handle is below 2^32, so that a
    /// greater number is in neither. Takes no memory.
    pub fn cancel_number(&mut self, number: u64) -> Option<u32>
        ensures registration { result ≡ option_map (λ callback. callback.registration) (waiting_callback number self.old) }
        ensures gone { self.new ≡ cancelled number self.old }
    {
        if number > u64::from(self.last_handle) {
            return None;
        }
        self.cancel(number as u32)
    }

    /// Takes the callback whose idle timeout came out of both lists, and answers its registration (requestIdleCallback,
    /// "Invoke idle callback timeout algorithm").
    ///
    /// None exactly where the handle is in neither, and then nothing changes. Takes no memory.
    pub fn find_timeout(&mut self, handle: u32) -> Option<u32>
        ensures registration { result ≡ option_map (λ callback. callback.registration) (waiting_callback handle self.old) }
        ensures gone { self.new ≡ cancelled handle self.old }
    {
        self.cancel(handle)
    }

    /// Starts an idle period: the pending callbacks go behind the runnable ones, in their order. It takes no memory, so that
    /// it always succeeds.
    pub fn start(&mut self) -> Result<(), MemoryFault>
        ensures succeeds { IsOk result }
        ensures started { self.new ≡ started self.old }
    {
        self.last_runnable = self.last_handle;
        Ok(())
    }

    /// Takes the first runnable callback out, and answers its registration (requestIdleCallback, "Invoke idle callbacks
    /// algorithm").
    ///
    /// None exactly where none is runnable. Takes no memory.
    pub fn pop(&mut self) -> Option<u32>
        ensures registration { result ≡ option_map (λ callback. callback.registration) (first_runnable self.old) }
        ensures gone { self.new ≡ popped self.old }
    {
        if !self.runnable() {
            return None;
        }
        let (_, registration) = self.callbacks.pop_first()?;
        Some(registration)
    }

    /// Whether a callback waits in either list. Takes no memory.
    pub fn waiting(&self) -> bool
        ensures { result ≡ waits self.now }
    {
        !self.callbacks.is_empty()
    }

    /// Whether a callback is runnable. Takes no memory.
    pub fn runnable(&self) -> bool
        ensures { result ≡ not (is_empty self.now.runnable) }
    {
        match self.callbacks.first_key_value() {
            Some((handle, _)) => *handle <= self.last_runnable,
            None => false,
        }
    }

    /// How many handles were ever given. Takes no memory.
    pub fn made(&self) -> u32
        ensures { result ≡ self.now.made }
    {
        self.last_handle
    }
}
