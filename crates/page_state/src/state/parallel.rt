//! What goes on in parallel (HTML, "Event loops: processing model").
ghost use Rattle.std.specs.Prelude.{◌≡◌, ◌≢◌, ◌^◌, ◌<◌, IfErr, IfNone, IfOk, IfSome, OnOk, Some, is_some};
ghost use Rattle.std.specs.Option.{option_map};
ghost use Rattle.page_types.specs.declared.Source.TheVariants.{Sched};
ghost use Rattle.page_parts.specs.Words.{is_there};
ghost use Rattle.page_model.specs.State.{the_registration};
ghost use Rattle.page_model.specs.Parallel as model;
ghost use Rattle.page_model.specs.Parallel.{FrameItem, complete};
ghost use Rattle.page_model.specs.PageSignals.{is_aborted_source};
ghost use Rattle.page_model.specs.Turns as turns;
ghost use Rattle.arrivals_text.specs.SeenParts.{arrival_of};
ghost use Rattle.parallel_items.specs.Items.{TakenArrival, first_waiting, left_of, taken_of};
ghost use Rattle.parallel_items.specs.Laws.{done_with};
ghost use Rattle.parallel_items.specs.Seen.{completion_seen, taken_seen};
ghost use Rattle.trace_text.specs.declared.lines.NoLine.TheVariants.{OutOfMemory};
ghost use Rattle.page_state.specs.PageActs.{changed_by, read_by, IsWanted};
ghost use Rattle.page_state.specs.Makes.{Makes};
ghost use Rattle.page_state.specs.DueActs.{due_queued, due_waiting, frame_item, is_item_due, post_enqueued};
ghost use Rattle.page_state.specs.ItemActs.{item_taken};

use super::PageState;
use crate::moments::{is_before, sooner};
use page_base::{Micros, Source};
use page_hosts::HostPort;
use page_tasks::{PrioSource, TaskSteps, WindowEvent};
use parallel_items::{Arrival, Completion, Taken};
use std::sync::ledger::Ledger;
use trace_text::{Event, Lines, NoLine};

impl<P: HostPort, M: Ledger> PageState<P, M> {
    /// A further arrival is to come: it goes behind those of its time.
    ///
    /// The one error is want of memory, also where no number is left for it.
    pub fn arrive(&mut self, arrival: Arrival) -> Result<(), NoLine>
        ensures to_come { OnOk result (self.new ≡ changed_by (model.arrive (arrival_of arrival)) self.old) }
        ensures memory { IfErr result (λ why. IsWanted why self.old self.new) }
    {
        if self.items.arrivals_made() == u64::MAX {
            return Err(NoLine::OutOfMemory);
        }
        match self.items.arrive(arrival) {
            Ok(()) => Ok(()),
            Err(_) => Err(NoLine::OutOfMemory),
        }
    }

    /// Whether anything is pending: an item, or an idle callback that waits. Takes no memory.
    pub fn is_pending(&self) -> bool
        ensures { result ≡ read_by turns.is_pending self.now }
    {
        !(self.items.is_empty() && !self.frames.has_frames()) || self.frames.waits()
    }

    /// The moment for which a turn with no runnable task waits: the least of the next due time, the next rendering opportunity and the
    /// idle moment, none exactly where there is none of them.
    ///
    /// Want of memory is told where the time is 2^63 or more.
    pub fn target(&self) -> Result<Option<Micros>, NoLine>
        ensures moment { IfOk result (λ moment. option_map (λ m. m.0) moment ≡ read_by turns.target self.now) }
        ensures memory { IfErr result (λ why. why ≡ OutOfMemory) }
    {
        let idle = self.idle_moment()?;
        Ok(sooner(sooner(self.items.next_due(), self.next_frame()), idle))
    }

    /// The completion steps of an active timer, with their line.
    pub fn complete<L: Lines>(
        &mut self,
        completion: Completion,
        lines: &mut L,
    ) -> Result<(), NoLine>
        ensures { Makes L.Lines self.old lines.old (complete (completion_seen completion)) result self.new lines.new }
    {
        match completion {
            Completion::QueueTimer(task) => self.queue_due(
                task.registration,
                Source::Timer,
                TaskSteps::RunTimer(task),
                lines,
            ),
            Completion::EnqueuePost {
                registration,
                source,
            } => self.complete_post(registration, source, lines),
            Completion::QueueSignal {
                registration,
                signal,
            } => self.queue_due(
                registration,
                Source::Timer,
                TaskSteps::TimeOutSignal(signal),
                lines,
            ),
        }
    }

    /// Takes the parallel items that are due, the first one first.
    pub fn parallel<L: Lines>(&mut self, lines: &mut L) -> Result<(), NoLine>
        ensures { Makes L.Lines self.old lines.old model.parallel result self.new lines.new }
    {
        'items: while self.take_item(lines)? {}
        Ok(())
    }

    /// Takes the first item, where it is due, and tells whether it was.
    pub fn take_item<L: Lines>(&mut self, lines: &mut L) -> Result<bool, NoLine>
        ensures does { Makes L.Lines self.old lines.old item_taken result self.new lines.new }
        ensures due { IfOk result (λ was_due. was_due ≡ read_by is_item_due self.old) }
    {
        if let Some(frame) = self.first_frame() {
            return self.take_frame_item(frame);
        }
        self.take_waiting(lines)
    }

    // The next rendering opportunity, where it is the first of all items. Takes no memory.
    fn first_frame(&self) -> Option<Micros>
        ensures some { IfSome result (λ t. read_by model.first_item self.now ≡ Some (frame_item t.0)) }
        ensures none { IfNone result (read_by model.first_item self.now ≡ first_waiting self.now.waiting) }
    {
        let frame = self.next_frame()?;
        if is_before(frame, self.items.next_due()) {
            Some(frame)
        } else {
            None
        }
    }

    // Takes the rendering opportunity that is the first item, where it is due, and tells whether it was.
    fn take_frame_item(&mut self, frame: Micros) -> Result<bool, NoLine>
        requires { read_by model.first_item self.old ≡ Some (record { due = frame.0; what = FrameItem }) }
        ensures taken { OnOk result (self.new ≡ changed_by item_taken self.old) }
        ensures due { IfOk result (λ was_due. was_due ≡ read_by is_item_due self.old) }
        ensures memory { IfErr result (λ why. IsWanted why self.old self.new) }
    {
        if self.script.now() < frame {
            return Ok(false);
        }
        self.take_opportunity()?;
        Ok(true)
    }

    // Takes the first item that is no rendering opportunity, where it is due, and tells whether it was. It is the first of all.
    fn take_waiting<L: Lines>(&mut self, lines: &mut L) -> Result<bool, NoLine>
        requires { read_by model.first_item self.old ≡ first_waiting self.old.waiting }
        ensures does { Makes L.Lines self.old lines.old item_taken result self.new lines.new }
        ensures due { IfOk result (λ was_due. was_due ≡ read_by is_item_due self.old) }
    {
        match self.take_due() {
            Some(taken) => {
                self.do_taken(taken, lines)?;
                Ok(true)
            }
            None => Ok(false),
        }
    }

    // Takes the first item that is no rendering opportunity out, where it is due. Takes no memory.
    fn take_due(&mut self) -> Option<Taken>
        ensures taken { option_map taken_seen result ≡ taken_of (due_waiting self.old) self.old.waiting.completions }
        ensures some { is_some result ≡ is_there (due_waiting self.old) }
        ensures left { self.new ≡ record self.old { waiting = left_of (due_waiting self.old) self.old.waiting } }
    {
        self.items.take_due(self.script.now())
    }

    // Does what an item that was taken gives.
    fn do_taken<L: Lines>(&mut self, taken: Taken, lines: &mut L) -> Result<(), NoLine>
        ensures { Makes L.Lines self.old lines.old (done_with (Some (taken_seen taken))) result self.new lines.new }
    {
        match taken {
            Taken::Arrival(arrival) => self.queue_arrival(arrival),
            Taken::HostAnswer(task) => self.queue_due(
                task.registration,
                Source::Net,
                TaskSteps::AnswerHost(task),
                lines,
            ),
            Taken::Completion(completion) => self.complete(completion, lines),
            Taken::IdleTimeout {
                handle,
                registration,
            } => self.queue_due(
                registration,
                Source::Idle,
                TaskSteps::IdleTimeout(handle),
                lines,
            ),
        }
    }

    // The line of a registration that is due, and its task.
    fn queue_due<L: Lines>(
        &mut self,
        registration: u32,
        source: Source,
        steps: TaskSteps,
        lines: &mut L,
    ) -> Result<(), NoLine>
        requires { source ≢ Sched }
        ensures { Makes L.Lines self.old lines.old (due_queued source steps registration) result self.new lines.new }
    {
        self.emit(
            Event::Due {
                r: registration as u64,
            },
            lines,
        )?;
        self.queue(source, steps)
    }

    // The task of an arrival. An arrival is never one of the scheduler's.
    fn queue_arrival(&mut self, arrival: Arrival) -> Result<(), NoLine>
        ensures queued { OnOk result (self.new ≡ changed_by (done_with (Some (TakenArrival (arrival_of arrival)))) self.old) }
        ensures memory { IfErr result (λ why. IsWanted why self.old self.new) }
    {
        if arrival.source == Source::Sched {
            return Err(NoLine::OutOfMemory);
        }
        let event = WindowEvent {
            name: arrival.name,
            value: arrival.value,
        };
        let Ok(event) = Box::new(self.alloc, event) else {
            return Err(NoLine::OutOfMemory);
        };
        self.queue(arrival.source, TaskSteps::FireAtWindow(event))
    }

    // A delayed `postTask` is enqueued, with its lines. Where its signal was aborted it is not.
    fn complete_post<L: Lines>(
        &mut self,
        registration: u32,
        source: PrioSource,
        lines: &mut L,
    ) -> Result<(), NoLine>
        ensures { Makes L.Lines self.old lines.old (post_enqueued registration source) result self.new lines.new }
    {
        let is_aborted = self.is_registration_aborted(registration);
        self.emit(
            Event::Due {
                r: registration as u64,
            },
            lines,
        )?;
        if is_aborted {
            return Ok(());
        }
        self.enqueue(registration, source, false, lines)
    }

    // Whether the signal of a registration is aborted. Takes no memory.
    fn is_registration_aborted(&self, registration: u32) -> bool
        ensures { result ≡ read_by (λ p. is_aborted_source p (the_registration p registration).signal) self.now }
    {
        if !self.script.is_registered(registration) {
            return false;
        }
        match self.script.registration(registration).signal {
            Some(s) => self.signals.is_aborted(s),
            None => false,
        }
    }

    // A rendering opportunity is taken: the last one is now, and the task of a frame is queued.
    fn take_opportunity(&mut self) -> Result<(), NoLine>
        ensures taken { OnOk result (self.new ≡ changed_by (model.take_item FrameItem) self.old) }
        ensures memory { IfErr result (λ why. IsWanted why self.old self.new) }
    {
        let now = self.script.now();
        if now.0 >= 1 << 63 {
            return Err(NoLine::OutOfMemory);
        }
        self.set_opportunity();
        self.queue(Source::Render, TaskSteps::RunFrame(now))
    }

    // The last rendering opportunity is now. Takes no memory.
    fn set_opportunity(&mut self)
        requires { self.old.script.now < 2 ^ 63 }
        ensures { self.new ≡ changed_by (λ p. record p { last_opportunity = p.now }) self.old }
    {
        self.frames.take_opportunity(self.script.now());
    }
}
