ghost use Rattle.std.specs.Prelude.{◌≡◌, ◌+◌, ◌^◌, ◌<◌, ℕ, [], length, map, true, false, Some, is_some, IfOk, OnOk, OnErr};
ghost use Rattle.std.specs.Option.{option_map, ForNone};
ghost use Rattle.page_parts.specs.Setup.{are_in_order};
ghost use Rattle.page_parts.specs.Timers.{has_id, is_live, next_due as next_due_of};
ghost use Rattle.page_parts.specs.Words.{is_there};
ghost use Rattle.page_model.specs.PageSignals.{is_delay_of};
ghost use Rattle.page_model.specs.Parallel.{first_item_of};
ghost use Rattle.arrivals_text.specs.SeenParts.{arrival_of};
ghost use Rattle.timer_map.specs.Seen.{seen_armed};
ghost use Rattle.parallel_items.specs.InParallel.{only_arrivals};
ghost use Rattle.parallel_items.specs.Steps.{armed_in, initialised, delay_started, id_cleared, owner_of, is_delayed as is_delay, answer_asked, pending_answer as pending_of, answer_given_up, idle_timeout_started, arrival_to_come};
ghost use Rattle.parallel_items.specs.Items.{first_waiting, first_due, first_arrival, first_answer, first_timer, first_idle, due_of, timer_items, timer_taken, without_item, Takes, nothing_waits};
ghost use Rattle.parallel_items.specs.Seen.{completion_seen, completion_taken, answer_seen, taken_seen};
ghost use Rattle.page_tasks.specs.Seen.{host_task};

use crate::answers::HostAnswers;
use crate::arrivals::Arrivals;
use crate::delays::{forget_delay, note_delay};
use crate::idle::IdleTimeouts;
use crate::moments::sooner;
use crate::{Completion, HostAnswer, HostTask, MemoryFault, Taken, TimerTask};
use arrivals_text::Arrival;
use page_base::Micros;
use std::alloc::Global;
use std::collections::HashSet;
use std::marker::Model;
use timer_map::counted::{self, Counted};
use timer_map::due_rows::DueRows;
use timer_map::{Armed, Timers};

// Completion steps, with the start number of their active timer. They stand in the order in which their active timers come due.
type Started = (u64, Completion);

/// What goes on in parallel beside the script of a page (HTML, "Event loops: processing model").
///
/// Times and spans are in microseconds, timeouts in milliseconds. Each call costs at most the logarithm of the number of items,
/// but for the growth of tables and rows, and for the answers of host closures: they are seen one after another, and a page has at
/// most 64 closures and asks each once.
#[derive(Drop)]
pub struct ParallelItems {
    timers: Timers,
    completions: DueRows<Started>,
    delayed: HashSet<u32>,
    owners: Counted<u32>,
    idle: IdleTimeouts,
    answers: HostAnswers,
    arrivals: Arrivals,
}

impl Model for ParallelItems {
    ghost use Rattle.parallel_items.specs.InParallel.{InParallel};
    ghost use Rattle.parallel_items.specs.Codes.{coded_in_parallel};

    ghost Value = { InParallel };

    ghost coded = { coded_in_parallel };

    ghost use Rattle.parallel_items.specs.Seen.{steps_of, completings_of, owners_of};
    ghost use Rattle.parallel_items.specs.Kept.{AreKeptInRows};
    ghost use Rattle.timer_map.specs.Counted.{entries_of};

    ghost view = { λ items. record {
      waiting = record {
        timers = items.timers;
        completions = completings_of items.timers.starts_made (steps_of items.completions);
        idle_timers = items.idle.timers;
        host_answers = items.answers;
        arrivals = items.arrivals.arrivals;
      };
      owners = owners_of items.timers.ids_made (entries_of items.owners.items);
      last_idle = items.idle.last;
      arrivals_made = items.arrivals.made;
    } };

    ghost invariant = { λ items.
        AreKeptInRows items.timers items.completions items.delayed.keys (entries_of items.owners.items) };
}

impl ParallelItems {
    /// These arrivals are to come, in the order of time, and nothing else goes on.
    pub fn new(alloc: Global, arrivals: Vec<Arrival>) -> Result<ParallelItems, MemoryFault>
        requires { are_in_order (map arrival_of arrivals.items) ≡ true }
        ensures waiting { IfOk result (λ items. items.waiting ≡ only_arrivals (map arrival_of arrivals.items)) }
        ensures owners { IfOk result (λ items. items.owners ≡ []) }
        ensures last_idle { IfOk result (λ items. items.last_idle ≡ 0) }
        ensures arrivals_made { IfOk result (λ items. items.arrivals_made ≡ length arrivals.items) }
    {
        let arrivals = Arrivals::new(alloc, arrivals)?;
        Ok(ParallelItems {
            timers: Timers::new(alloc),
            completions: DueRows::new(alloc),
            delayed: HashSet::new(alloc),
            owners: Vec::new(alloc),
            idle: IdleTimeouts::new(alloc),
            answers: HostAnswers::new(alloc),
            arrivals,
        })
    }

    /// Initialises a timer (HTML, "Timers": timer initialisation steps): again under its id, which is in the map, or under the next
    /// one. When its active timer completes, the timer's task is to be queued.
    ///
    /// The timeout is in milliseconds, as the script gave it. An error leaves all as it was.
    pub fn init(
        &mut self,
        again: Option<u32>,
        registration: u32,
        repeats: bool,
        timeout: i64,
        nesting: u32,
        now: Micros,
    ) -> Result<Armed, MemoryFault>
        requires again { (id : ℕ) → again ≡ Some id → has_id id self.old.waiting.timers ≡ true }
        requires id { ForNone again (self.old.waiting.timers.ids_made + 1 < 2 ^ 32) }
        requires handle { self.old.waiting.timers.handles_made + 1 < 2 ^ 64 }
        requires start { self.old.waiting.timers.starts_made + 1 < 2 ^ 64 }
        requires level { nesting + 1 < 2 ^ 32 }
        requires moment { now.0 < 2 ^ 63 }
        ensures armed { IfOk result (λ armed. seen_armed armed ≡ armed_in again timeout nesting now.0 self.old) }
        ensures started { OnOk result (self.new ≡ initialised again registration repeats timeout nesting now.0 self.old) }
        ensures err { OnErr result (self.new ≡ self.old) }
    {
        counted::make_place(&mut self.owners, self.timers.made().saturating_add(1))?;
        let armed = self.timers.would_arm(again, timeout, nesting, now);
        let task = TimerTask {
            registration,
            id: armed.id,
            handle: armed.handle,
            level: armed.level,
            repeats,
            timeout,
        };
        let started = (armed.start, Completion::QueueTimer(task));
        self.completions.add(armed.due, started)?;
        if let Err(fault) = self.timers.init(again, repeats, timeout, nesting, now) {
            self.completions.take_back(armed.due);
            return Err(fault);
        }
        if again.is_none() {
            counted::put(&mut self.owners, armed.id, registration);
        }
        Ok(armed)
    }

    /// Runs completion steps after so many milliseconds, and answers the start number of their active timer (HTML, "Timers": run
    /// steps after a timeout).
    ///
    /// Of a registration at most one `postTask` is delayed. An error leaves all as it was.
    pub fn after(
        &mut self,
        ms: u64,
        completion: Completion,
        now: Micros,
    ) -> Result<u64, MemoryFault>
        requires once { (r : ℕ) → is_delay_of r (completion_seen completion) ≡ true → is_delay r self.old.waiting ≡ false }
        requires start { self.old.waiting.timers.starts_made + 1 < 2 ^ 64 }
        requires milliseconds { ms < 2 ^ 32 }
        requires moment { now.0 < 2 ^ 63 }
        ensures start { IfOk result (λ start. start ≡ self.old.waiting.timers.starts_made + 1) }
        ensures started { OnOk result (self.new ≡ delay_started ms now.0 (completion_seen completion) self.old) }
        ensures err { OnErr result (self.new ≡ self.old) }
    {
        self.delayed.reserve(1)?;
        let start = self.timers.starts_made() + 1;
        let due = Micros(now.0 + ms * 1000);
        self.completions.add(due, (start, completion))?;
        if let Err(fault) = self.timers.after(ms, now) {
            self.completions.take_back(due);
            return Err(fault);
        }
        note_delay(&mut self.delayed, completion);
        Ok(start)
    }

    /// Takes an id out of the map, and answers the registration under which it was initialised first (HTML, "Timers":
    /// `clearTimeout()` and `clearInterval()`). Its active timer stays, and comes due.
    ///
    /// None exactly where the id is not in the map. Takes no memory.
    pub fn clear(&mut self, id: u32) -> Option<u32>
        ensures registration { result ≡ owner_of id self.old.owners }
        ensures was { is_some result ≡ has_id id self.old.waiting.timers }
        ensures cleared { self.new ≡ id_cleared id self.old }
    {
        self.timers.clear(id);
        counted::take(&mut self.owners, id)
    }

    /// Whether the id is in the map with this handle. Takes no memory.
    pub fn live(&self, id: u32, handle: u64) -> bool
        ensures { result ≡ is_live id handle self.now.waiting.timers }
    {
        self.timers.live(id, handle)
    }

    /// The least due time of an active timer, none exactly where none is active. Takes no memory.
    pub fn next_timer_due(&self) -> Option<Micros>
        ensures { option_map (λ moment. moment.0) result ≡ next_due_of self.now.waiting.timers }
    {
        self.timers.next_due()
    }

    /// How many ids were ever given. Takes no memory.
    pub fn ids_made(&self) -> u32
        ensures { result ≡ self.now.waiting.timers.ids_made }
    {
        self.timers.made()
    }

    /// How many unique handles of ids were ever given. Takes no memory.
    pub fn handles_made(&self) -> u64
        ensures { result ≡ self.now.waiting.timers.handles_made }
    {
        self.timers.handles_made()
    }

    /// How many active timers were ever started. Takes no memory.
    pub fn starts_made(&self) -> u64
        ensures { result ≡ self.now.waiting.timers.starts_made }
    {
        self.timers.starts_made()
    }

    /// Whether the id is in the map, with any handle. Takes no memory.
    pub fn has_id(&self, id: u32) -> bool
        ensures { result ≡ has_id id self.now.waiting.timers }
    {
        self.timers.has(id)
    }

    /// Whether a number is an id in the map, with any handle. Each id is below 2^32. Takes no memory.
    pub fn has_number(&self, number: u64) -> bool
        ensures { result ≡ has_id number self.now.waiting.timers }
    {
        self.timers.has_number(number)
    }

    /// The handle of the idle timeout that was started last, 0 where none was. Takes no memory.
    pub fn last_idle(&self) -> u32
        ensures { result ≡ self.now.last_idle }
    {
        self.idle.last()
    }

    /// How many arrivals there ever were. Takes no memory.
    pub fn arrivals_made(&self) -> u64
        ensures { result ≡ self.now.arrivals_made }
    {
        self.arrivals.made()
    }

    /// Whether the `postTask` of a registration is delayed. Takes no memory.
    pub fn is_delayed(&self, registration: u32) -> bool
        ensures { result ≡ is_delay registration self.now.waiting }
    {
        self.delayed.contains(&registration)
    }

    /// The answer of a host closure is pending from now on. An error leaves all as it was.
    pub fn ask(&mut self, answer: HostAnswer) -> Result<(), MemoryFault>
        ensures asked { OnOk result (self.new ≡ answer_asked (answer_seen answer) self.old) }
        ensures err { OnErr result (self.new ≡ self.old) }
    {
        self.answers.ask(answer)
    }

    /// What the pending answer of a registration was asked, none exactly where none is pending. Takes no memory.
    pub fn pending_answer(&self, registration: u32) -> Option<HostTask>
        ensures { option_map host_task result ≡ pending_of registration self.now.waiting }
    {
        self.answers.pending(registration)
    }

    /// The answer of a registration is no longer pending. Takes no memory.
    pub fn give_up(&mut self, registration: u32)
        ensures { self.new ≡ answer_given_up registration self.old }
    {
        self.answers.give_up(registration);
    }

    /// Starts the timeout of an idle callback, so many milliseconds from now (requestIdleCallback, "The requestIdleCallback()
    /// method"). Handles rise from call to call.
    ///
    /// An error leaves all as it was.
    pub fn start_idle_timeout(
        &mut self,
        handle: u32,
        registration: u32,
        ms: u64,
        now: Micros,
    ) -> Result<(), MemoryFault>
        requires handle { self.old.last_idle < handle }
        requires milliseconds { ms < 2 ^ 32 }
        requires moment { now.0 < 2 ^ 63 }
        ensures started { OnOk result (self.new ≡ idle_timeout_started ms now.0 handle registration self.old) }
        ensures err { OnErr result (self.new ≡ self.old) }
    {
        self.idle.start(handle, registration, ms, now)
    }

    /// A further arrival is to come: it goes behind those of its time. An error leaves all as it was.
    pub fn arrive(&mut self, arrival: Arrival) -> Result<(), MemoryFault>
        requires { self.old.arrivals_made + 1 < 2 ^ 64 }
        ensures to_come { OnOk result (self.new ≡ arrival_to_come (arrival_of arrival) self.old) }
        ensures err { OnErr result (self.new ≡ self.old) }
    {
        self.arrivals.add(arrival)
    }

    /// The least due time of all items, none exactly where nothing goes on. Takes no memory.
    pub fn next_due(&self) -> Option<Micros>
        ensures { option_map (λ moment. moment.0) result ≡ due_of (first_waiting self.now.waiting) }
    {
        let outside = sooner(self.arrivals.next_due(), self.answers.next_due());
        sooner(
            sooner(outside, self.timers.next_due()),
            self.idle.next_due(),
        )
    }

    /// Whether nothing goes on in parallel. Takes no memory.
    pub fn is_empty(&self) -> bool
        ensures { result ≡ nothing_waits self.now.waiting }
    {
        self.next_due().is_none()
    }

    /// Takes the first item, where it is due: of the least due time, of those an arrival before an answer, that before an active
    /// timer, and that before an idle timeout, and of one kind the one that came first.
    ///
    /// None exactly where no item is due, and then nothing changes. Takes no memory.
    pub fn take_due(&mut self, now: Micros) -> Option<Taken>
        ensures { Takes (first_due now.0 self.old.waiting) self.old (option_map taken_seen result) self.new }
    {
        if self.next_due()? > now {
            return None;
        }
        self.take_first()
    }

    /// Takes the first item, whenever it is due.
    ///
    /// None exactly where nothing goes on. Takes no memory.
    pub fn take_first(&mut self) -> Option<Taken>
        ensures { Takes (first_waiting self.old.waiting) self.old (option_map taken_seen result) self.new }
    {
        let due = self.next_due();
        if self.arrivals.next_due() == due {
            self.take_arrival()
        } else if self.answers.next_due() == due {
            self.take_answer()
        } else if self.timers.next_due() == due {
            self.take_completion()
        } else {
            self.take_idle_timeout()
        }
    }

    fn take_arrival(&mut self) -> Option<Taken>
        ensures { Takes (first_arrival self.old.waiting.arrivals) self.old (option_map taken_seen result) self.new }
    {
        let arrival = self.arrivals.take_first()?;
        Some(Taken::Arrival(arrival))
    }

    fn take_answer(&mut self) -> Option<Taken>
        ensures { Takes (first_answer self.old.waiting.host_answers) self.old (option_map taken_seen result) self.new }
    {
        let task = self.answers.take_first()?;
        Some(Taken::HostAnswer(task))
    }

    fn take_completion(&mut self) -> Option<Taken>
        ensures { Takes (first_timer self.old.waiting.timers.active) self.old (option_map taken_seen result) self.new }
    {
        let completion = self.take_timer()?;
        Some(Taken::Completion(completion))
    }

    fn take_idle_timeout(&mut self) -> Option<Taken>
        ensures { Takes (first_idle self.old.waiting.idle_timers) self.old (option_map taken_seen result) self.new }
    {
        let timeout = self.idle.take_first()?;
        Some(Taken::IdleTimeout {
            handle: timeout.handle,
            registration: timeout.registration,
        })
    }

    // Takes the active timer that is due first, with its completion steps.
    fn take_timer(&mut self) -> Option<Completion>
        ensures taken { completion_taken result ≡ timer_taken self.old.waiting }
        ensures some { is_some result ≡ is_there (first_item_of (timer_items self.old.waiting.timers.active)) }
        ensures left { self.new ≡ without_item (first_timer self.old.waiting.timers.active) self.old }
    {
        let due = self.timers.next_due()?;
        self.timers.complete(due)?;
        let (_, completion) = self.completions.take_first()?;
        forget_delay(&mut self.delayed, completion);
        Some(completion)
    }
}
