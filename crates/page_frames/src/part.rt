ghost use Rattle.std.specs.Prelude.{◌≡◌, ◌+◌, ◌^◌, ◌<◌, IfOk, IfSome, OnOk, OnErr};
ghost use Rattle.std.specs.Option.{option_map};
ghost use Rattle.page_parts.specs.Frames.{keys};
ghost use Rattle.page_parts.specs.IdleCallbacks.{waits as waits_in};
ghost use Rattle.page_frames.specs.Fields.{no_callbacks};
ghost use Rattle.page_frames.specs.Steps.{frame_requested, frame_registration, frame_gone, has_frames as has_frames_in, next_opportunity, opportunity_taken};
ghost use Rattle.page_frames.specs.Steps.{idle_requested, idle_registration, idle_gone, has_runnable as has_runnable_in, first_registration, first_gone};
ghost use Rattle.page_frames.specs.Steps.{awaited_rendering as awaited, deadline_from, idle_moment_at, idle_start_set, period_to_start, period_started, time_left};
ghost use Rattle.page_frames.specs.Moments.{micros_in};

use crate::MemoryFault;
use crate::moments::next_multiple;
use idle_periods::Idle;
use page_base::Micros;
use raf_frames::Frames;
use std::alloc::Global;
use std::marker::Model;

/// The animation frame callbacks and idle callbacks of a page, with the moments of its frames and idle periods (HTML, "Animation
/// frames" and "Event loops: processing model"; requestIdleCallback).
///
/// A callback is a registration, which is any number. Handles of frames are counted from 1, and those of idle callbacks too. A
/// frame visits the keys that the map has at its start, and takes out each that is still there when its turn comes. Each call costs
/// the logarithm of the number of callbacks at most, but for `frame_keys`, which goes over the map, and once in a while a call that
/// takes a frame callback out, when more left the map since the last pass over it than are in it.
#[derive(Drop)]
pub struct PageFrames {
    frames: Frames,
    frames_since: Micros,
    last_opportunity: Micros,
    refresh_period: Micros,
    idle: Idle,
    last_idle_start: Micros,
    idle_period_end: Micros,
}

impl Model for PageFrames {
    ghost use Rattle.page_frames.specs.Fields.{FrameFields, AreInRange};

    ghost Value = { FrameFields };

    ghost view = { λ part. record {
      frames = part.frames.map;
      frames_since = part.frames_since.0;
      last_opportunity = part.last_opportunity.0;
      refresh_period = part.refresh_period.0;
      idle = part.idle;
      last_idle_start = part.last_idle_start.0;
      idle_period_end = part.idle_period_end.0;
    } };

    ghost invariant = { λ part. AreInRange part.frames_since.0 part.last_opportunity.0 part.refresh_period.0
        part.last_idle_start.0 part.idle_period_end.0 };
}

impl PageFrames {
    /// No callback waits, and every moment is the start of the run. Takes no memory.
    pub fn new(alloc: Global, refresh_period: Micros) -> PageFrames
        requires positive { 0 < refresh_period.0 }
        requires period { refresh_period.0 < 2 ^ 20 }
        ensures { result ≡ no_callbacks refresh_period.0 }
    {
        PageFrames {
            frames: Frames::new(alloc),
            frames_since: Micros(0),
            last_opportunity: Micros(0),
            refresh_period,
            idle: Idle::new(alloc),
            last_idle_start: Micros(0),
            idle_period_end: Micros(0),
        }
    }

    /// How many handles of frame callbacks were ever given. Takes no memory.
    pub fn frames_made(&self) -> u32
        ensures { result ≡ self.now.frames.made }
    {
        self.frames.made()
    }

    /// How many handles of idle callbacks were ever given. Takes no memory.
    pub fn idle_made(&self) -> u32
        ensures { result ≡ self.now.idle.made }
    {
        self.idle.made()
    }

    /// Stores a frame callback at the end of the map, and answers its handle, the next number. Where the map was empty, it is
    /// non-empty from now on.
    ///
    /// An error leaves all as it was.
    pub fn request_frame(&mut self, registration: u32, now: Micros) -> Result<u32, MemoryFault>
        requires handle { self.old.frames.made + 1 < 2 ^ 32 }
        requires moment { now.0 < 2 ^ 63 }
        ensures handle { IfOk result (λ handle. handle ≡ self.old.frames.made + 1) }
        ensures stored { OnOk result (self.new ≡ frame_requested registration now.0 self.old) }
        ensures err { OnErr result (self.new ≡ self.old) }
    {
        let was_empty = self.frames.is_empty();
        let handle = self.frames.request(registration)?;
        if was_empty {
            self.frames_since = now;
        }
        Ok(handle)
    }

    /// Takes the frame callback whose handle is this number out of the map, and answers its registration.
    ///
    /// None exactly where the number is no handle in the map, as one of 2^32 or more never is, and then nothing changes. Takes no
    /// memory.
    pub fn cancel_frame(&mut self, number: u64) -> Option<u32>
        ensures registration { result ≡ frame_registration number self.old }
        ensures gone { self.new ≡ frame_gone number self.old }
    {
        self.frames.cancel_number(number)
    }

    /// Takes the frame callback with this handle out of the map for a frame that calls it, and answers its registration.
    ///
    /// None exactly where the handle is not in the map any more, and then nothing changes. Takes no memory.
    pub fn take_frame(&mut self, handle: u32) -> Option<u32>
        ensures registration { result ≡ frame_registration handle self.old }
        ensures gone { self.new ≡ frame_gone handle self.old }
    {
        self.frames.cancel(handle)
    }

    /// The handles of the frame callbacks in the map, in order: those that a frame visits which begins now.
    pub fn frame_keys(&self) -> Result<Vec<u32>, MemoryFault>
        ensures { IfOk result (λ handles. handles.items ≡ keys self.now.frames) }
    {
        Ok(self.frames.keys()?)
    }

    /// Whether a frame callback is in the map. Takes no memory.
    pub fn has_frames(&self) -> bool
        ensures { result ≡ has_frames_in self.now }
    {
        !self.frames.is_empty()
    }

    /// The next rendering opportunity, a multiple of the refresh period: none exactly where no frame callback waits or, as the page
    /// says, a render task does. Takes no memory.
    pub fn next_frame(&self, has_render: bool) -> Option<Micros>
        ensures moment { option_map (λ moment. moment.0) result ≡ next_opportunity has_render self.now }
        ensures in_range { IfSome result (λ moment. moment.0 < 2 ^ 63 + 2 ^ 20) }
    {
        if self.frames.is_empty() || has_render {
            return None;
        }
        let after = self.frames_since.max(self.last_opportunity);
        Some(next_multiple(self.refresh_period, after))
    }

    /// The last rendering opportunity is now. Takes no memory.
    pub fn take_opportunity(&mut self, now: Micros)
        requires { now.0 < 2 ^ 63 }
        ensures { self.new ≡ opportunity_taken now.0 self.old }
    {
        self.last_opportunity = now;
    }

    /// The last rendering opportunity that was taken. Takes no memory.
    pub fn last_opportunity(&self) -> Micros
        ensures moment { result.0 ≡ self.now.last_opportunity }
        ensures in_range { result.0 < 2 ^ 63 }
    {
        self.last_opportunity
    }

    /// Appends an idle callback to the pending ones, and answers its handle, the next number.
    ///
    /// An error leaves all as it was.
    pub fn request_idle(&mut self, registration: u32) -> Result<u32, MemoryFault>
        requires { self.old.idle.made + 1 < 2 ^ 32 }
        ensures handle { IfOk result (λ handle. handle ≡ self.old.idle.made + 1) }
        ensures stored { OnOk result (self.new ≡ idle_requested registration self.old) }
        ensures err { OnErr result (self.new ≡ self.old) }
    {
        Ok(self.idle.request(registration)?)
    }

    /// The registration of the idle callback with this handle, in either list: none exactly where the handle is in neither. Takes
    /// no memory.
    pub fn idle_callback(&self, handle: u32) -> Option<u32>
        ensures { result ≡ idle_registration handle self.now }
    {
        self.idle.registration(handle)
    }

    /// Takes the idle callback with this handle out of both lists, and answers its registration.
    ///
    /// None exactly where the handle is in neither, and then nothing changes. Takes no memory.
    pub fn take_idle(&mut self, handle: u32) -> Option<u32>
        ensures registration { result ≡ idle_registration handle self.old }
        ensures gone { self.new ≡ idle_gone handle self.old }
    {
        self.idle.cancel(handle)
    }

    /// Takes the idle callback whose handle is this number out of both lists, and answers its registration.
    ///
    /// None exactly where the number is a handle in neither, as one of 2^32 or more never is, and then nothing changes. Takes no
    /// memory.
    pub fn cancel_idle(&mut self, number: u64) -> Option<u32>
        ensures registration { result ≡ idle_registration number self.old }
        ensures gone { self.new ≡ idle_gone number self.old }
    {
        self.idle.cancel_number(number)
    }

    /// Takes the first runnable idle callback out, and answers its registration.
    ///
    /// None exactly where none is runnable, and then nothing changes. Takes no memory.
    pub fn pop_idle(&mut self) -> Option<u32>
        ensures registration { result ≡ first_registration self.old }
        ensures gone { self.new ≡ first_gone self.old }
    {
        self.idle.pop()
    }

    /// Whether an idle callback is runnable. Takes no memory.
    pub fn has_runnable(&self) -> bool
        ensures { result ≡ has_runnable_in self.now }
    {
        self.idle.runnable()
    }

    /// Whether an idle callback waits in either list. Takes no memory.
    pub fn waits(&self) -> bool
        ensures { result ≡ waits_in self.now.idle }
    {
        self.idle.waiting()
    }

    /// The last idle period start is now. Takes no memory.
    pub fn set_idle_start(&mut self, now: Micros)
        requires { now.0 < 2 ^ 63 }
        ensures { self.new ≡ idle_start_set now.0 self.old }
    {
        self.last_idle_start = now;
    }

    /// The last idle period start, also of a period whose start was delayed. Takes no memory.
    pub fn last_idle_start(&self) -> Micros
        ensures moment { result.0 ≡ self.now.last_idle_start }
        ensures in_range { result.0 < 2 ^ 63 }
    {
        self.last_idle_start
    }

    /// The end of the last idle period. Takes no memory.
    pub fn period_end(&self) -> Micros
        ensures moment { result.0 ≡ self.now.idle_period_end }
        ensures in_range { result.0 < 2 ^ 63 + 50000 }
    {
        self.idle_period_end
    }

    /// The deadline of an idle period that began at `start`, where the next timer is due at `next_timer`: 50 milliseconds later, or
    /// before that this due time, or the next rendering where a frame callback waits. Takes no memory.
    pub fn deadline(&self, start: Micros, next_timer: Option<Micros>) -> Micros
        requires { start.0 + 50000 < 2 ^ 64 }
        ensures { result.0 ≡ deadline_from start.0 (option_map (λ moment. moment.0) next_timer) self.now }
    {
        idle_periods::deadline(start, next_timer, self.awaited_rendering())
    }

    // The next rendering, where a frame callback waits.
    fn awaited_rendering(&self) -> Option<Micros>
        ensures { option_map (λ moment. moment.0) result ≡ awaited self.now }
    {
        if self.frames.is_empty() {
            return None;
        }
        Some(Micros(self.last_opportunity.0 + self.refresh_period.0))
    }

    /// The moment at which the next idle period could start: now, or the end of the last one. None exactly where no idle callback
    /// waits or the period would have no length. Takes no memory.
    pub fn idle_moment(&self, now: Micros, next_timer: Option<Micros>) -> Option<Micros>
        requires { now.0 < 2 ^ 63 }
        ensures moment { option_map (λ moment. moment.0) result
            ≡ idle_moment_at now.0 (micros_in next_timer) self.now }
        ensures in_range { IfSome result (λ moment. moment.0 < 2 ^ 63 + 50000) }
    {
        let moment = now.max(self.idle_period_end);
        if self.waits() && moment < self.deadline(moment, next_timer) {
            Some(moment)
        } else {
            None
        }
    }

    /// The deadline of the idle period that starts now, counted from the last idle period start.
    ///
    /// None exactly where its start is delayed: no idle callback waits, the deadline is not after now, or the last period has not
    /// ended. Takes no memory.
    pub fn may_start(&self, now: Micros, next_timer: Option<Micros>) -> Option<Micros>
        ensures end { option_map (λ moment. moment.0) result
            ≡ period_to_start now.0 (micros_in next_timer) self.now }
        ensures in_range { IfSome result (λ end. end.0 < 2 ^ 63 + 50000) }
    {
        let end = self.deadline(self.last_idle_start, next_timer);
        if self.waits() && now < end && self.idle_period_end <= now {
            Some(end)
        } else {
            None
        }
    }

    /// Starts an idle period with this end: the pending callbacks go behind the runnable ones, in their order. Takes no memory.
    pub fn begin_period(&mut self, end: Micros)
        requires { end.0 < 2 ^ 63 + 50000 }
        ensures { self.new ≡ period_started end.0 self.old }
    {
        // It takes no memory, and always succeeds.
        let _ = self.idle.start();
        self.idle_period_end = end;
    }

    /// The microseconds that are left of a deadline, never below 0: of the one that was fixed, or of the period's, which is computed
    /// again. Takes no memory.
    pub fn time_remaining(
        &self,
        fixed: Option<Micros>,
        now: Micros,
        next_timer: Option<Micros>,
    ) -> u64
        ensures { result ≡ time_left (micros_in fixed) now.0 (micros_in next_timer) self.now }
    {
        let end = match fixed {
            Some(end) => end,
            None => self.deadline(self.last_idle_start, next_timer),
        };
        end.0.saturating_sub(now.0)
    }
}
