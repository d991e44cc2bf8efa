//! Timers (HTML, "Timers").
ghost use Rattle.std.specs.Prelude.{◌≡◌, ◌^◌, ◌<◌, IfOk, IfErr, OnOk, IsTrue};
ghost use Rattle.std.specs.Option.{option_map};
ghost use Rattle.page_parts.specs.Timers as parts;
ghost use Rattle.page_model.specs.PageTime as model;
ghost use Rattle.timer_map.specs.Seen.{seen_armed};
ghost use Rattle.parallel_items.specs.Seen.{completion_seen};
ghost use Rattle.page_state.specs.PageActs.{changed_by, read_by, IsWanted};
ghost use Rattle.page_state.specs.Makes.{Makes, InitsTimer};
ghost use Rattle.page_state.specs.DueActs.{armed_now};
ghost use Rattle.page_state.specs.TimeActs.{timer_set, timer_dropped, MayArm, MayStart};

use super::PageState;
use page_base::Micros;
use page_hosts::HostPort;
use parallel_items::{Armed, Completion};
use std::sync::ledger::Ledger;
use trace_text::{Event, Lines, NoLine};

impl<P: HostPort, M: Ledger> PageState<P, M> {
    /// How many ids of timers were ever given. Takes no memory.
    pub fn timer_ids_made(&self) -> u32
        ensures { result ≡ read_by (λ p. p.timers.ids_made) self.now }
    {
        self.items.ids_made()
    }

    /// Whether an id is in the map of ids with this handle. Takes no memory.
    pub fn is_live(&self, id: u32, handle: u64) -> bool
        ensures { result ≡ read_by (λ p. parts.is_live id handle p.timers) self.now }
    {
        self.items.live(id, handle)
    }

    /// Whether an id is in the map of ids. Takes no memory.
    pub fn has_timer_id(&self, id: u32) -> bool
        ensures { result ≡ read_by (λ p. parts.has_id id p.timers) self.now }
    {
        self.items.has_id(id)
    }

    /// The moment at which the next active timer is due. Takes no memory.
    pub(super) fn next_timer_due(&self) -> Option<Micros>
        ensures { option_map (λ moment. moment.0) result ≡ read_by (λ p. parts.next_due p.timers) self.now }
    {
        self.items.next_timer_due()
    }

    /// Runs completion steps after so many milliseconds (HTML, "Timers": run steps after a timeout).
    ///
    /// The one error is want of memory, also where no number of an active timer is left, or where the `postTask` of a registration
    /// is delayed already.
    pub fn run_after(&mut self, ms: u64, completion: Completion) -> Result<(), NoLine>
        requires { ms < 2 ^ 32 }
        ensures started { OnOk result (self.new ≡ changed_by (model.run_after ms (completion_seen completion)) self.old) }
        ensures memory { IfErr result (λ why. IsWanted why self.old self.new) }
    {
        if !self.may_start(completion) {
            return Err(NoLine::OutOfMemory);
        }
        match self.items.after(ms, completion, self.script.now()) {
            Ok(_) => Ok(()),
            Err(_) => Err(NoLine::OutOfMemory),
        }
    }

    /// Initialises a timer (HTML, "Timers": timer initialisation steps), again under its id or under a new one, with its line.
    ///
    /// The timeout is in milliseconds, as the script gave it. Want of memory is told also where no number that it takes is left,
    /// or where the id is not in the map of ids.
    pub fn init_timer<L: Lines>(
        &mut self,
        again: Option<u32>,
        registration: u32,
        repeats: bool,
        timeout: i64,
        lines: &mut L,
    ) -> Result<(), NoLine>
        ensures { InitsTimer L.Lines self.old lines.old again registration repeats timeout result self.new lines.new }
    {
        let armed = self.arm(again, registration, repeats, timeout)?;
        self.emit(
            Event::Arm {
                r: registration as u64,
                due: armed.due,
                level: armed.level as u64,
            },
            lines,
        )
    }

    /// `clearTimeout()` and `clearInterval()`: the id leaves the map with the line of its registration, where it is there. A number of
    /// 2^32 or more is no id.
    pub fn clear_timer<L: Lines>(&mut self, number: u64, lines: &mut L) -> Result<(), NoLine>
        ensures { Makes L.Lines self.old lines.old (model.clear_timer number) result self.new lines.new }
    {
        if !self.has_timer_number(number) {
            return Ok(());
        }
        match u32::try_from(number) {
            Ok(id) => self.drop_timer(id, lines),
            Err(_) => Err(NoLine::OutOfMemory),
        }
    }

    // Whether a number is an id in the map of ids. Takes no memory.
    fn has_timer_number(&self, number: u64) -> bool
        ensures { result ≡ read_by (λ p. parts.has_id number p.timers) self.now }
    {
        self.items.has_number(number)
    }

    // An id leaves the map, with the line of its registration.
    fn drop_timer<L: Lines>(&mut self, id: u32, lines: &mut L) -> Result<(), NoLine>
        ensures { Makes L.Lines self.old lines.old (timer_dropped id) result self.new lines.new }
    {
        let r = self.registration_with_id(id);
        self.clear_id(id);
        self.emit(Event::Drop { r }, lines)
    }

    // The first registration that has this timer id, and 0 where none has. Takes no memory.
    fn registration_with_id(&self, id: u32) -> u64
        ensures { result ≡ read_by (λ p. model.registration_with_id id 1 p.registrations) self.now }
    {
        match self.script.registration_with_timer_id(id) {
            Some(r) => r as u64,
            None => 0,
        }
    }

    // Initialises a timer, without its line.
    fn arm(
        &mut self,
        again: Option<u32>,
        registration: u32,
        repeats: bool,
        timeout: i64,
    ) -> Result<Armed, NoLine>
        ensures armed { IfOk result (λ armed. seen_armed armed ≡ read_by (armed_now again timeout) self.old) }
        ensures set { OnOk result (self.new ≡ changed_by (timer_set again registration repeats timeout) self.old) }
        ensures memory { IfErr result (λ why. IsWanted why self.old self.new) }
    {
        if !self.may_arm(again) {
            return Err(NoLine::OutOfMemory);
        }
        let nesting = self.script.level();
        let now = self.script.now();
        match self
            .items
            .init(again, registration, repeats, timeout, nesting, now)
        {
            Ok(armed) => Ok(armed),
            Err(_) => Err(NoLine::OutOfMemory),
        }
    }

    // Whether each number is left that initialising a timer takes, and the id is there under which it is initialised again. Takes no
    // memory.
    fn may_arm(&self, again: Option<u32>) -> bool
        ensures { IsTrue result → MayArm again self.now }
    {
        let has_id = match again {
            Some(id) => self.items.has_id(id),
            None => self.items.ids_made() < u32::MAX,
        };
        has_id
            && self.items.handles_made() < u64::MAX
            && self.items.starts_made() < u64::MAX
            && self.script.level() < u32::MAX
            && self.script.now().0 < 1 << 63
    }

    // Whether a number is left for one more active timer, and no other of a delayed `postTask` has these completion steps. Takes no
    // memory.
    fn may_start(&self, completion: Completion) -> bool
        ensures { IsTrue result → MayStart (completion_seen completion) self.now }
    {
        let once = match completion {
            Completion::EnqueuePost { registration, .. } => !self.items.is_delayed(registration),
            Completion::QueueTimer(_) | Completion::QueueSignal { .. } => true,
        };
        once && self.items.starts_made() < u64::MAX && self.script.now().0 < 1 << 63
    }
}
