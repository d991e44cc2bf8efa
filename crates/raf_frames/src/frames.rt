ghost use Rattle.std.specs.Prelude.{◌≡◌, ◌+◌, ◌^◌, ◌<◌, [], IfOk, OnOk, OnErr};
ghost use Rattle.std.specs.Option.{option_map};
ghost use Rattle.page_parts.specs.Words.{is_empty as has_none};
ghost use Rattle.page_parts.specs.Frames.{no_frames, callback_in, request as requested, cancel as cancelled, keys as handles};
ghost use Rattle.raf_frames.specs.FrameInProgress.{next_callback, after_next};

use crate::MemoryFault;
use crate::callback_map::CallbackMap;
use std::alloc::Global;
use std::collections::VecDeque;
use std::marker::Model;

/// The map of animation frame callbacks, in the order of the requests, and the handles of the frame in progress that were
/// not looked at yet (HTML, "Animation frames").
///
/// A callback is a registration, which is any number. Handles are counted from 1. A frame costs one look-up for each callback
/// that was in the map at its start. Every other call costs one look-up, and once in a while a pass over the map, when more
/// callbacks left it since the last one than are in it.
#[derive(Drop)]
pub struct Frames {
    map: CallbackMap,
    left: VecDeque<u32>,
}

impl Model for Frames {
    ghost use Rattle.raf_frames.specs.FrameInProgress.{FrameInProgress};

    ghost Value = { FrameInProgress };

    ghost view = { λ frames. record { map = frames.map; left = frames.left.items } };
}

impl Frames {
    /// No callback, and no frame in progress. Takes no memory.
    pub fn new(alloc: Global) -> Frames
        ensures { result ≡ record { map = no_frames; left = [] } }
    {
        Frames {
            map: CallbackMap::new(alloc),
            left: VecDeque::new(alloc),
        }
    }

    /// Stores a callback at the end of the map, and answers its handle, the next number.
    ///
    /// A frame in progress does not call it. An error leaves all as it was.
    pub fn request(&mut self, registration: u32) -> Result<u32, MemoryFault>
        requires { self.old.map.made + 1 < 2 ^ 32 }
        ensures handle { IfOk result (λ handle. handle ≡ self.old.map.made + 1) }
        ensures stored { OnOk result (self.new ≡ record self.old { map = requested registration self.old.map }) }
        ensures err { OnErr result (self.new ≡ self.old) }
    {
        self.map.request(registration)
    }

    /// Takes the callback with this handle out of the map, and answers its registration. A frame in progress does not call
    /// it any more.
    ///
    /// None exactly where the handle is not in the map, and then nothing changes. Takes no memory.
    pub fn cancel(&mut self, handle: u32) -> Option<u32>
        ensures registration { result ≡ option_map (λ callback. callback.registration) (callback_in self.old.map.callbacks handle) }
        ensures gone { self.new ≡ record self.old { map = cancelled handle self.old.map } }
    {
        self.map.cancel(handle)
    }

    /// Takes the callback whose handle is this number out of the map, as `cancel` does. Each handle is below 2^32, so that a greater
    /// number is in no map. Takes no memory.
    pub fn cancel_number(&mut self, number: u64) -> Option<u32>
        ensures registration { result ≡ option_map (λ callback. callback.registration) (callback_in self.old.map.callbacks number) }
        ensures gone { self.new ≡ record self.old { map = cancelled number self.old.map } }
    {
        self.map.cancel_number(number)
    }

    /// Begins a frame: it calls the callbacks whose handles are in the map now. A frame that was in progress is over.
    ///
    /// An error leaves all as it was.
    pub fn begin_frame(&mut self) -> Result<(), MemoryFault>
        ensures begun { OnOk result (self.new ≡ record self.old { left = handles self.old.map }) }
        ensures err { OnErr result (self.new ≡ self.old) }
    {
        self.left = VecDeque::from(self.map.handles()?);
        Ok(())
    }

    /// Takes the next callback of the frame in progress out of the map, and answers its registration.
    ///
    /// None exactly where no handle of this frame that is left is still in the map, and then the frame is over. Takes no
    /// memory.
    pub fn next_in_frame(&mut self) -> Option<u32>
        ensures registration { result ≡ option_map (λ callback. callback.registration) (next_callback self.old) }
        ensures after { self.new ≡ after_next self.old }
    {
        while let Some(next) = self.left.pop_front() {
            if let Some(registration) = self.map.cancel(next) {
                return Some(registration);
            }
        }
        None
    }

    /// The handles of the callbacks in the map, in order: those that a frame which began now would call.
    pub fn keys(&self) -> Result<Vec<u32>, MemoryFault>
        ensures { IfOk result (λ keys. keys.items ≡ handles self.now.map) }
    {
        Ok(self.map.handles()?)
    }

    /// Whether no callback is in the map. Takes no memory.
    pub fn is_empty(&self) -> bool
        ensures { result ≡ has_none self.now.map.callbacks }
    {
        self.map.is_empty()
    }

    /// How many handles were ever given. Takes no memory.
    pub fn made(&self) -> u32
        ensures { result ≡ self.now.map.made }
    {
        self.map.made()
    }
}
