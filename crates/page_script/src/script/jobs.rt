//! The jobs of a page, the microtask checkpoint and the rejected promises.

ghost use Rattle.std.specs.Prelude.{◌≡◌, None, length, nat_lt, not, IfOk, OnOk, OnErr, IsTrue, slice_get};
ghost use Rattle.std.specs.Option.{option_map};
ghost use Rattle.page_parts.specs.Promises.{the_promise};
ghost use Rattle.promise_core.specs.Held.{IsMade, all_within};
ghost use Rattle.page_notices.specs.Steps.{held};
ghost use Rattle.page_notices.specs.Seen.{current, waiting_seen};
ghost use Rattle.page_model.specs.Invoke as model;
ghost use Rattle.page_model.specs.PagePromises.{promise_at};
ghost use Rattle.page_model.specs.Tasks.{outstanding_if_unhandled};
ghost use Rattle.page_script.specs.ScriptActs.{changed_by, read_by, queued_by};
ghost use Rattle.page_script.specs.Jobs.{oldest_begun, notified, TakesJob};
ghost use Rattle.page_script.specs.Calls.{Writes};

use super::PageScript;
use page_notices::NextJob;
use page_values::MemoryFault;
use trace_text::{Event, Lines, NoLine};

impl PageScript {
    /// Whether a job waits. Takes no memory.
    pub fn has_job(&self) -> bool
        ensures { result ≡ nat_lt 0 (length self.now.notices.jobs) }
    {
        self.promises.has_job()
    }

    /// The oldest job leaves the queue, with its `run` line, and its nesting level and scheduling state are the current ones:
    /// in form 2 those that were current when it was queued, and else level 0 and no state. None exactly where no job waits.
    pub fn next_job<L: Lines>(&mut self, lines: &mut L) -> Result<Option<NextJob>, NoLine>
        ensures does { Writes L.keeping L.seen self.old lines.old oldest_begun result self.new lines.new }
        ensures oldest { IfOk result (λ job. option_map waiting_seen job ≡ slice_get self.old.notices.jobs 0) }
    {
        let Some(job) = self.take_job() else {
            return Ok(None);
        };
        self.emit(Event::Run { j: job.job }, lines)?;
        Ok(Some(job))
    }

    /// Whether a checkpoint is being performed. Takes no memory.
    pub fn is_performing(&self) -> bool
        ensures { result ≡ self.now.performing }
    {
        self.performing
    }

    /// A microtask checkpoint begins (HTML, "Event loops: processing model": perform a microtask checkpoint). Takes no memory.
    pub fn checkpoint_begun(&mut self)
        ensures { self.new ≡ changed_by model.checkpoint_begun self.old }
    {
        self.performing = true;
    }

    /// A microtask checkpoint ends, and the nesting level and the scheduling state are these again. Hands over the rejected
    /// promises about to be notified about: where there are any, whoever keeps the tasks queues the one that notifies about
    /// them. Takes no memory.
    pub fn checkpoint_ended(&mut self, level: u32, state: Option<u32>) -> Vec<u32>
        ensures ended { self.new ≡ changed_by (λ p. model.checkpoint_ended (model.under (current level state) p) p) self.old }
        ensures rejected { result.items ≡ self.old.notices.rejected }
        ensures queued { queued_by model.notify_rejected self.old ≡ notified result.items }
        ensures made { IsTrue (all_within (length self.old.notices.promises) result.items) }
    {
        self.performing = false;
        self.moment.level = level;
        self.moment.state = state;
        self.promises.take_rejected()
    }

    /// Whether a promise has or had a handler; one that was never made has none. Takes no memory.
    pub fn handled(&self, p: u32) -> bool
        ensures { result ≡ read_by (λ q. (promise_at q p).handled) self.now }
    {
        self.promises.handled(p)
    }

    /// Notes a promise as outstanding, where it is still unhandled (HTML, "Unhandled promise rejections": notify about rejected
    /// promises). True exactly where it is. For want of memory nothing changes.
    pub fn note_outstanding(&mut self, p: u32) -> Result<bool, MemoryFault>
        requires { IsMade (held self.old.notices) p }
        ensures noted { IfOk result (λ noted. noted ≡ not (the_promise self.old.notices.promises p).handled) }
        ensures ok { OnOk result (self.new ≡ changed_by (outstanding_if_unhandled p) self.old) }
        ensures err { OnErr result (self.new ≡ self.old) }
    {
        self.promises.note_outstanding(p)
    }

    // The oldest job leaves the queue, and what is current is that of the job. Takes no memory.
    fn take_job(&mut self) -> Option<NextJob>
        ensures none { TakesJob result self.old self.new }
        ensures stays { result ≡ None → self.new ≡ self.old }
    {
        let job = self.promises.next_job()?;
        let (level, state) = context_of(self.run.form, &job);
        self.moment.level = level;
        self.moment.state = state;
        Some(job)
    }
}

// The nesting level and the scheduling state of a job, by the form of the run.
fn context_of(form: u32, job: &NextJob) -> (u32, Option<u32>)
    ensures { current result.0 result.1 ≡ model.context_of_job form (waiting_seen job.now) }
{
    if form == 2 {
        (job.level, job.state)
    } else {
        (0, None)
    }
}
