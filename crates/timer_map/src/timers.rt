ghost use Rattle.std.specs.Prelude.{◌≡◌, ◌+◌, ◌^◌, ◌<◌, IfOk, OnOk, OnErr};
ghost use Rattle.std.specs.Option.{option_map, ForNone};
ghost use Rattle.page_parts.specs.Timers.{no_timers, armed as armed_of, with_armed, run_after, has_id, clear as cleared, is_live, next_due as next_due_of};
ghost use Rattle.timer_map.specs.Due.{due_timer, after_due};
ghost use Rattle.timer_map.specs.Seen.{seen_armed};

use crate::MemoryFault;
use crate::armed::{Armed, clamped, milliseconds};
use crate::counted::{self, Counted};
use crate::due_rows::DueRows;
use crate::ids::id_and_last;
use page_base::Micros;
use std::alloc::Global;
use std::marker::Model;

/// The map of setTimeout and setInterval ids, and the active timers (HTML, "Timers").
///
/// Ids, unique handles and start numbers are counted from 1. An active timer stays where its id is cleared.
///
/// Each call costs at most the logarithm of the number of active timers, but for the growth of the map of ids, which keeps a place
/// for each id that was ever given.
#[derive(Drop)]
pub struct Timers {
    ids: Counted<u64>,
    active: DueRows<u64>,
    ids_made: u32,
    handles_made: u64,
    starts_made: u64,
}

impl Model for Timers {
    ghost use Rattle.page_parts.specs.Timers.{Timers as TimerMap};

    ghost Value = { TimerMap };

    ghost use Rattle.timer_map.specs.Counted.{entries_of};
    ghost use Rattle.timer_map.specs.Seen.{ids_in_order, timers_in_order};
    ghost use Rattle.timer_map.specs.Kept.{AreKept};

    ghost view = { λ timers. record {
      ids = ids_in_order timers.handles_made (entries_of timers.ids.items);
      active = timers_in_order timers.starts_made timers.active;
      ids_made = timers.ids_made;
      handles_made = timers.handles_made;
      starts_made = timers.starts_made;
    } };

    ghost invariant = { λ timers. AreKept timers.handles_made (entries_of timers.ids.items) timers.starts_made timers.active };
}

impl Timers {
    /// No timer. Takes no memory.
    pub fn new(alloc: Global) -> Timers
        ensures { result ≡ no_timers }
    {
        Timers {
            ids: Vec::new(alloc),
            active: DueRows::new(alloc),
            ids_made: 0,
            handles_made: 0,
            starts_made: 0,
        }
    }

    /// What initialising a timer gives now: `init` of the same gives it. Takes no memory.
    pub fn would_arm(&self, again: Option<u32>, timeout: i64, nesting: u32, now: Micros) -> Armed
        requires id { ForNone again (self.now.ids_made + 1 < 2 ^ 32) }
        requires handle { self.now.handles_made + 1 < 2 ^ 64 }
        requires start { self.now.starts_made + 1 < 2 ^ 64 }
        requires level { nesting + 1 < 2 ^ 32 }
        requires moment { now.0 < 2 ^ 63 }
        ensures { seen_armed result ≡ armed_of again timeout nesting now.0 self.now }
    {
        let (id, _) = id_and_last(again, self.ids_made);
        Armed {
            id,
            handle: self.handles_made + 1,
            start: self.starts_made + 1,
            due: Micros(now.0 + clamped(nesting, milliseconds(timeout)) * 1000),
            level: nesting + 1,
        }
    }

    /// Initialises a timer (HTML, "Timers": timer initialisation steps): under the id of `again`, or under the next one where
    /// there is none, with the next unique handle, and sets its active timer.
    ///
    /// The timeout is in milliseconds, taken modulo 2^32 into the range from -2147483648 to 2147483647. Below 0 it becomes 0,
    /// and 4 where it is below that and the nesting level is above 5. The task's level is one more than that. Whether the
    /// timer repeats changes nothing here. An error leaves all as it was.
    pub fn init(
        &mut self,
        again: Option<u32>,
        _repeat: bool,
        timeout: i64,
        nesting: u32,
        now: Micros,
    ) -> Result<Armed, MemoryFault>
        requires id { ForNone again (self.old.ids_made + 1 < 2 ^ 32) }
        requires handle { self.old.handles_made + 1 < 2 ^ 64 }
        requires start { self.old.starts_made + 1 < 2 ^ 64 }
        requires level { nesting + 1 < 2 ^ 32 }
        requires moment { now.0 < 2 ^ 63 }
        ensures armed { IfOk result (λ armed. seen_armed armed ≡ armed_of again timeout nesting now.0 self.old) }
        ensures set { OnOk result (self.new ≡ with_armed again (armed_of again timeout nesting now.0 self.old) self.old) }
        ensures err { OnErr result (self.new ≡ self.old) }
    {
        let (id, ids_made) = id_and_last(again, self.ids_made);
        let armed = self.would_arm(again, timeout, nesting, now);
        counted::make_place(&mut self.ids, id)?;
        self.active.add(armed.due, armed.start)?;
        counted::put(&mut self.ids, id, armed.handle);
        self.ids_made = ids_made;
        self.handles_made = armed.handle;
        self.starts_made = armed.start;
        Ok(armed)
    }

    /// Sets an active timer that is due so many milliseconds from now, and answers its start number (HTML, "Timers": run
    /// steps after a timeout).
    ///
    /// An error leaves all as it was.
    pub fn after(&mut self, ms: u64, now: Micros) -> Result<u64, MemoryFault>
        requires start { self.old.starts_made + 1 < 2 ^ 64 }
        requires milliseconds { ms < 2 ^ 32 }
        requires moment { now.0 < 2 ^ 63 }
        ensures start { IfOk result (λ start. start ≡ self.old.starts_made + 1) }
        ensures set { OnOk result (self.new ≡ run_after ms now.0 self.old) }
        ensures err { OnErr result (self.new ≡ self.old) }
    {
        let start = self.starts_made + 1;
        let due = Micros(now.0 + ms * 1000);
        self.active.add(due, start)?;
        self.starts_made = start;
        Ok(start)
    }

    /// Takes an id out of the map. Its active timer stays, and comes due.
    ///
    /// True exactly where the id was in the map. Takes no memory.
    pub fn clear(&mut self, id: u32) -> bool
        ensures was { result ≡ has_id id self.old }
        ensures gone { self.new ≡ cleared id self.old }
    {
        counted::take(&mut self.ids, id).is_some()
    }

    /// Whether the id is in the map with this handle. Takes no memory.
    pub fn live(&self, id: u32, handle: u64) -> bool
        ensures { result ≡ is_live id handle self.now }
    {
        counted::value_of(&self.ids, id) == Some(handle)
    }

    /// Whether the id is in the map, with any handle. Takes no memory.
    pub fn has(&self, id: u32) -> bool
        ensures { result ≡ has_id id self.now }
    {
        counted::value_of(&self.ids, id).is_some()
    }

    /// Whether a number is an id in the map, with any handle. Each id is below 2^32. Takes no memory.
    pub fn has_number(&self, number: u64) -> bool
        ensures { result ≡ has_id number self.now }
    {
        let ids = &self.ids;
        match u32::try_from(number) {
            Ok(id) => counted::value_of(ids, id).is_some(),
            Err(_) => false,
        }
    }

    /// The least due time of an active timer, none exactly where none is active. Takes no memory.
    pub fn next_due(&self) -> Option<Micros>
        ensures { option_map (λ moment. moment.0) result ≡ next_due_of self.now }
    {
        self.active.next_due()
    }

    /// Completes the active timer that is due first, and of those that was started first: it leaves, and its start number is
    /// answered.
    ///
    /// None exactly where no active timer is due, and then nothing changes. Takes no memory.
    pub fn complete(&mut self, now: Micros) -> Option<u64>
        ensures start { result ≡ option_map (λ timer. timer.start) (due_timer now.0 self.old) }
        ensures gone { self.new ≡ after_due now.0 self.old }
    {
        if self.next_due()? > now {
            return None;
        }
        self.active.take_first()
    }

    /// How many ids were ever given. Takes no memory.
    pub fn made(&self) -> u32
        ensures { result ≡ self.now.ids_made }
    {
        self.ids_made
    }

    /// How many unique handles were ever given. Takes no memory.
    pub fn handles_made(&self) -> u64
        ensures { result ≡ self.now.handles_made }
    {
        self.handles_made
    }

    /// How many active timers were ever started. Takes no memory.
    pub fn starts_made(&self) -> u64
        ensures { result ≡ self.now.starts_made }
    {
        self.starts_made
    }
}
