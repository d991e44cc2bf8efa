//! Idle callbacks and idle periods (requestIdleCallback).
ghost use Rattle.std.specs.Prelude.{◌≡◌, ◌+◌, ◌*◌, ◌^◌, ◌<◌, IfErr, IfOk, OnOk, IfSome};
ghost use Rattle.std.specs.Option.{option_map};
ghost use Rattle.page_frames.specs.Steps.{first_registration, first_gone};
ghost use Rattle.page_frames.specs.Fields.{fields_of, with_fields};
ghost use Rattle.page_model.specs.PageTime as model;
ghost use Rattle.page_model.specs.Tasks.{invoke_idle_again as invoked_again};
ghost use Rattle.trace_text.specs.declared.lines.NoLine.TheVariants.{OutOfMemory};
ghost use Rattle.page_state.specs.PageActs.{changed_by, read_by, IsWanted};
ghost use Rattle.page_state.specs.Makes.{Makes};
ghost use Rattle.page_state.specs.DueActs.{period_now};
ghost use Rattle.page_state.specs.TimeActs.{idle_asked, idle_timeout_set, period_set};

use super::PageState;
use page_base::{Micros, Source};
use page_hosts::HostPort;
use page_tasks::TaskSteps;
use std::sync::ledger::Ledger;
use trace_text::{Event, Lines, NoLine};

impl<P: HostPort, M: Ledger> PageState<P, M> {
    /// How many handles of idle callbacks were ever given. Takes no memory.
    pub fn idle_made(&self) -> u32
        ensures { result ≡ read_by (λ p. p.idle.made) self.now }
    {
        self.frames.idle_made()
    }

    /// Requests an idle callback, under the next handle; a positive number of milliseconds starts its timeout, with its line.
    ///
    /// Want of memory is told also where no handle is left.
    pub fn request_idle<L: Lines>(
        &mut self,
        ms: u64,
        registration: u32,
        lines: &mut L,
    ) -> Result<(), NoLine>
        requires { ms < 2 ^ 32 }
        ensures { Makes L.Lines self.old lines.old (model.request_idle ms registration) result self.new lines.new }
    {
        self.ask_idle(registration)?;
        if ms == 0 {
            return Ok(());
        }
        self.idle_timeout(ms, registration, lines)
    }

    /// `cancelIdleCallback()`: the callback with this handle leaves both lists with its line, where it is there. Its timeout stays. A
    /// number of 2^32 or more is no handle.
    pub fn cancel_idle<L: Lines>(&mut self, number: u64, lines: &mut L) -> Result<(), NoLine>
        ensures { Makes L.Lines self.old lines.old (model.cancel_idle number) result self.new lines.new }
    {
        match self.drop_idle(number) {
            Some(r) => self.emit(Event::Drop { r: r as u64 }, lines),
            None => Ok(()),
        }
    }

    // Takes the idle callback whose handle is this number out of both lists, and answers its registration. Takes no memory.
    fn drop_idle(&mut self, number: u64) -> Option<u32>
        ensures registration { result
            ≡ read_by (λ p. option_map (λ c. c.registration) (model.idle_callback number p)) self.old }
        ensures gone { self.new ≡ changed_by (model.without_idle number) self.old }
    {
        self.frames.cancel_idle(number)
    }

    /// Takes the idle callback with this handle out of both lists, and answers its registration.
    ///
    /// None exactly where the handle is in neither, and then nothing changes. Takes no memory.
    pub fn take_idle(&mut self, handle: u32) -> Option<u32>
        ensures registration { result
            ≡ read_by (λ p. option_map (λ c. c.registration) (model.idle_callback handle p)) self.old }
        ensures gone { self.new ≡ changed_by (model.without_idle handle) self.old }
    {
        self.frames.take_idle(handle)
    }

    /// Takes the first runnable idle callback out, and answers its registration.
    ///
    /// None exactly where none is runnable, and then nothing changes. Takes no memory.
    pub fn pop_idle(&mut self) -> Option<u32>
        ensures registration { result ≡ first_registration self.old.frames }
        ensures gone { self.new ≡ changed_by (λ p. with_fields (first_gone (fields_of p)) p) self.old }
    {
        self.frames.pop_idle()
    }

    /// The deadline of the idle period that began at the last start: 50 milliseconds later, or before that the due time of the next
    /// timer, or the next rendering where a frame callback waits. Takes no memory.
    pub fn idle_deadline(&self) -> Micros
        ensures { result.0 ≡ read_by (λ p. model.deadline p.last_idle_start p) self.now }
    {
        self.frames
            .deadline(self.frames.last_idle_start(), self.items.next_timer_due())
    }

    /// The moment at which the next idle period could start: none exactly where no idle callback waits or the period would have no
    /// length.
    ///
    /// Want of memory is told where the time is 2^63 or more.
    pub fn idle_moment(&self) -> Result<Option<Micros>, NoLine>
        ensures moment { IfOk result (λ moment. option_map (λ m. m.0) moment ≡ read_by model.idle_moment self.now) }
        ensures memory { IfErr result (λ why. why ≡ OutOfMemory) }
    {
        let now = self.script.now();
        if now.0 >= 1 << 63 {
            return Err(NoLine::OutOfMemory);
        }
        Ok(self.frames.idle_moment(now, self.items.next_timer_due()))
    }

    /// The microseconds that are left of a deadline, never below 0: of the one that was fixed, or of the period's, which is computed
    /// again. Takes no memory.
    pub fn time_remaining(&self, fixed: Option<Micros>) -> u64
        ensures { result ≡ read_by (model.time_remaining (option_map (λ moment. moment.0) fixed)) self.now }
    {
        self.frames
            .time_remaining(fixed, self.script.now(), self.items.next_timer_due())
    }

    /// Starts an idle period with this end, with its line and its task.
    pub fn period_begun<L: Lines>(&mut self, end: Micros, lines: &mut L) -> Result<(), NoLine>
        requires { end.0 < 2 ^ 63 + 50000 }
        ensures { Makes L.Lines self.old lines.old (model.period_begun end.0) result self.new lines.new }
    {
        self.set_period(end);
        self.emit(Event::Period { d: end }, lines)?;
        self.queue(Source::Idle, TaskSteps::InvokeIdle)
    }

    /// Starts an idle period, unless its start is delayed: no idle callback waits, the deadline is not after now, or the last period
    /// has not ended.
    pub fn start_period<L: Lines>(&mut self, lines: &mut L) -> Result<(), NoLine>
        ensures { Makes L.Lines self.old lines.old model.start_period result self.new lines.new }
    {
        match self.period_to_start() {
            Some(end) => self.period_begun(end, lines),
            None => Ok(()),
        }
    }

    /// The idle step of a turn: the last idle period start is now, and a period starts, unless its start is delayed.
    ///
    /// Want of memory is told also where the time is 2^63 or more.
    pub fn idle_step<L: Lines>(&mut self, lines: &mut L) -> Result<(), NoLine>
        ensures { Makes L.Lines self.old lines.old model.idle_step result self.new lines.new }
    {
        if self.script.now().0 >= 1 << 63 {
            return Err(NoLine::OutOfMemory);
        }
        self.set_idle_start();
        self.start_period(lines)
    }

    /// Queues the task that invokes idle callbacks again, where one is still runnable.
    ///
    /// The one error is want of memory.
    pub fn invoke_idle_again(&mut self) -> Result<(), NoLine>
        ensures queued { OnOk result (self.new ≡ changed_by invoked_again self.old) }
        ensures memory { IfErr result (λ why. IsWanted why self.old self.new) }
    {
        if !self.frames.has_runnable() {
            return Ok(());
        }
        self.queue(Source::Idle, TaskSteps::InvokeIdle)
    }

    // The deadline of the idle period that starts now, none exactly where its start is delayed. Takes no memory.
    fn period_to_start(&self) -> Option<Micros>
        ensures end { option_map (λ end. end.0) result ≡ read_by period_now self.now }
        ensures in_range { IfSome result (λ end. end.0 < 2 ^ 63 + 50000) }
    {
        self.frames
            .may_start(self.script.now(), self.items.next_timer_due())
    }

    // Requests an idle callback, without its timeout.
    fn ask_idle(&mut self, registration: u32) -> Result<(), NoLine>
        ensures asked { OnOk result (self.new ≡ changed_by (idle_asked registration) self.old) }
        ensures memory { IfErr result (λ why. IsWanted why self.old self.new) }
    {
        if self.frames.idle_made() == u32::MAX {
            return Err(NoLine::OutOfMemory);
        }
        match self.frames.request_idle(registration) {
            Ok(_) => Ok(()),
            Err(_) => Err(NoLine::OutOfMemory),
        }
    }

    // Starts the timeout of the idle callback that was requested last, with its line.
    fn idle_timeout<L: Lines>(
        &mut self,
        ms: u64,
        registration: u32,
        lines: &mut L,
    ) -> Result<(), NoLine>
        requires { ms < 2 ^ 32 }
        ensures { Makes L.Lines self.old lines.old (model.idle_timeout ms registration) result self.new lines.new }
    {
        let due = self.set_idle_timeout(ms, registration)?;
        self.emit(
            Event::Arm {
                r: registration as u64,
                due,
                level: 0,
            },
            lines,
        )
    }

    // Starts that timeout, and answers when it is due.
    fn set_idle_timeout(&mut self, ms: u64, registration: u32) -> Result<Micros, NoLine>
        requires { ms < 2 ^ 32 }
        ensures due { IfOk result (λ due. due.0 ≡ self.old.script.now + ms * 1000) }
        ensures set { OnOk result (self.new ≡ changed_by (idle_timeout_set ms registration) self.old) }
        ensures memory { IfErr result (λ why. IsWanted why self.old self.new) }
    {
        let handle = self.frames.idle_made();
        let now = self.script.now();
        if handle <= self.items.last_idle() || now.0 >= 1 << 63 {
            return Err(NoLine::OutOfMemory);
        }
        match self.items.start_idle_timeout(handle, registration, ms, now) {
            Ok(()) => Ok(Micros(now.0 + ms * 1000)),
            Err(_) => Err(NoLine::OutOfMemory),
        }
    }

    // An idle period with this end starts. Takes no memory.
    fn set_period(&mut self, end: Micros)
        requires { end.0 < 2 ^ 63 + 50000 }
        ensures { self.new ≡ changed_by (period_set end.0) self.old }
    {
        self.frames.begin_period(end);
    }

    // The last idle period start is now. Takes no memory.
    fn set_idle_start(&mut self)
        requires { self.old.script.now < 2 ^ 63 }
        ensures { self.new ≡ changed_by (λ p. record p { last_idle_start = p.now }) self.old }
    {
        self.frames.set_idle_start(self.script.now());
    }
}
