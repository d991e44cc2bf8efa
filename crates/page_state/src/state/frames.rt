//! Animation frame callbacks and rendering opportunities (HTML, "Animation frames" and "Event loops: processing model").
ghost use Rattle.std.specs.Prelude.{◌≡◌, IfOk, IfErr, OnOk};
ghost use Rattle.std.specs.Option.{option_map};
ghost use Rattle.page_parts.specs.Frames.{keys};
ghost use Rattle.page_model.specs.PageTime as model;
ghost use Rattle.trace_text.specs.declared.lines.NoLine.TheVariants.{OutOfMemory};
ghost use Rattle.page_state.specs.PageActs.{changed_by, read_by, IsWanted};
ghost use Rattle.page_state.specs.Makes.{Makes};
ghost use Rattle.page_state.specs.CodeValues.{frame_registration};

use super::PageState;
use page_base::Micros;
use page_hosts::HostPort;
use std::sync::ledger::Ledger;
use trace_text::{Event, Lines, NoLine};

impl<P: HostPort, M: Ledger> PageState<P, M> {
    /// How many handles of frame callbacks were ever given. Takes no memory.
    pub fn frames_made(&self) -> u32
        ensures { result ≡ read_by (λ p. p.frames.made) self.now }
    {
        self.frames.frames_made()
    }

    /// Requests a frame callback, under the next handle.
    ///
    /// The one error is want of memory, also where no handle is left.
    pub fn request_frame(&mut self, registration: u32) -> Result<(), NoLine>
        ensures requested { OnOk result (self.new ≡ changed_by (model.request_frame registration) self.old) }
        ensures memory { IfErr result (λ why. IsWanted why self.old self.new) }
    {
        let now = self.script.now();
        if self.frames.frames_made() == u32::MAX || now.0 >= 1 << 63 {
            return Err(NoLine::OutOfMemory);
        }
        match self.frames.request_frame(registration, now) {
            Ok(_) => Ok(()),
            Err(_) => Err(NoLine::OutOfMemory),
        }
    }

    /// `cancelAnimationFrame()`: the callback with this handle leaves the map with its line, where it is there. A number of 2^32 or more
    /// is no handle.
    pub fn cancel_frame<L: Lines>(&mut self, number: u64, lines: &mut L) -> Result<(), NoLine>
        ensures { Makes L.Lines self.old lines.old (model.cancel_frame number) result self.new lines.new }
    {
        match self.drop_frame(number) {
            Some(r) => self.emit(Event::Drop { r: r as u64 }, lines),
            None => Ok(()),
        }
    }

    // Takes the frame callback whose handle is this number out of the map, and answers its registration. Takes no memory.
    fn drop_frame(&mut self, number: u64) -> Option<u32>
        ensures registration { result ≡ read_by (frame_registration number) self.old }
        ensures gone { self.new ≡ changed_by (model.without_frame number) self.old }
    {
        self.frames.cancel_frame(number)
    }

    /// Takes the frame callback with this handle out of the map, and answers its registration.
    ///
    /// None exactly where the handle is not in the map, and then nothing changes. Takes no memory.
    pub fn take_frame(&mut self, handle: u32) -> Option<u32>
        ensures registration { result ≡ read_by (frame_registration handle) self.old }
        ensures gone { self.new ≡ changed_by (model.without_frame handle) self.old }
    {
        self.frames.take_frame(handle)
    }

    /// The handles of the frame callbacks in the map, in order: those that a frame visits which begins now.
    ///
    /// The one error is want of memory.
    pub fn frame_keys(&self) -> Result<Vec<u32>, NoLine>
        ensures handles { IfOk result (λ handles. handles.items ≡ read_by (λ p. keys p.frames) self.now) }
        ensures memory { IfErr result (λ why. why ≡ OutOfMemory) }
    {
        match self.frames.frame_keys() {
            Ok(handles) => Ok(handles),
            Err(_) => Err(NoLine::OutOfMemory),
        }
    }

    /// The next rendering opportunity, a multiple of the refresh period: none exactly where no frame callback waits or a render
    /// task does. Takes no memory.
    pub fn next_frame(&self) -> Option<Micros>
        ensures { option_map (λ moment. moment.0) result ≡ read_by model.next_frame self.now }
    {
        self.frames.next_frame(self.tasks.has_render())
    }
}
