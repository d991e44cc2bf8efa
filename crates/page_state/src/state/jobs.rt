//! The jobs of a page, the microtask checkpoint and the rejected promises.

ghost use Rattle.std.specs.Prelude.{◌≡◌, length, nat_lt, IfOk, IfErr, OnOk, slice_get};
ghost use Rattle.std.specs.Option.{option_map};
ghost use Rattle.page_notices.specs.Seen.{waiting_seen};
ghost use Rattle.promise_core.specs.Seen.{settled_seen};
ghost use Rattle.page_model.specs.Invoke as model;
ghost use Rattle.page_model.specs.PageCombinators.{lead_into};
ghost use Rattle.page_model.specs.Tasks.{outstanding_if_unhandled};
ghost use Rattle.page_script.specs.Jobs.{oldest_begun};
ghost use Rattle.page_state.specs.PageActs.{changed_by, read_by, IsWanted};
ghost use Rattle.page_state.specs.Makes.{Makes};
ghost use Rattle.page_state.specs.JobActs.{checkpoint_left, script_changed, micro_made, micro_queued};

use super::PageState;
use page_base::Source;
use page_hosts::HostPort;
use page_script::{Callbacks, NextJob, Registration, Role, Settled};
use page_tasks::TaskSteps;
use page_values::Func;
use std::sync::ledger::Ledger;
use trace_text::{Lines, NoLine, RegKind};

impl<P: HostPort, M: Ledger> PageState<P, M> {
    /// A microtask callback is registered and queued behind all other jobs, with its `job` line (HTML, "Microtask queuing").
    pub fn micro_registered<L: Lines>(
        &mut self,
        callback: Func,
        lines: &mut L,
    ) -> Result<(), NoLine>
        ensures { Makes L.Lines self.old lines.old (micro_made callback) result self.new lines.new }
    {
        let registration = Registration {
            role: Role::Of(RegKind::Micro),
            callbacks: Callbacks::First(callback),
            timer_id: 0,
            promise: 0,
            signal: None,
            finally: false,
        };
        let r = self.register_as(RegKind::Micro, registration, lines)?;
        self.queue_micro(r, lines)
    }

    /// Whether a job waits. Takes no memory.
    pub fn has_job(&self) -> bool
        ensures { result ≡ read_by (λ p. nat_lt 0 (length p.notices.jobs)) self.now }
    {
        self.script.has_job()
    }

    /// The oldest job leaves the queue, with its `run` line, and its nesting level and scheduling state are the current ones:
    /// in form 2 those that were current when it was queued, and else level 0 and no state. None exactly where no job waits.
    pub fn next_job<L: Lines>(&mut self, lines: &mut L) -> Result<Option<NextJob>, NoLine>
        ensures does { Makes L.Lines self.old lines.old oldest_begun result self.new lines.new }
        ensures oldest { IfOk result (λ job. option_map waiting_seen job ≡ slice_get self.old.script.notices.jobs 0) }
    {
        self.script.next_job(lines)
    }

    /// Leads an outcome to where an inner subscription leads: an element of a combinator reports it and stays pending, and where
    /// that brings an answer, the result of the combinator is settled; any other promise follows the outcome.
    pub fn lead_into<L: Lines>(
        &mut self,
        into: u32,
        how: Settled,
        lines: &mut L,
    ) -> Result<(), NoLine>
        ensures { Makes L.Lines self.old lines.old (lead_into into (settled_seen how)) result self.new lines.new }
    {
        self.script.lead_into(into, how, lines)
    }

    /// Whether a checkpoint is being performed. Takes no memory.
    pub fn is_performing(&self) -> bool
        ensures { result ≡ read_by (λ p. p.performing) self.now }
    {
        self.script.is_performing()
    }

    /// A microtask checkpoint begins (HTML, "Event loops: processing model": perform a microtask checkpoint). Takes no memory.
    pub fn checkpoint_begun(&mut self)
        ensures { self.new ≡ changed_by model.checkpoint_begun self.old }
    {
        self.script.checkpoint_begun();
    }

    /// A microtask checkpoint ends, and the nesting level and the scheduling state are these again. Where promises were
    /// rejected, a task is queued that notifies about them. The one error is want of memory.
    pub fn checkpoint_ended(&mut self, level: u32, state: Option<u32>) -> Result<(), NoLine>
        ensures ended { OnOk result (self.new ≡ changed_by (checkpoint_left level state) self.old) }
        ensures memory { IfErr result (λ why. IsWanted why self.old self.new) }
    {
        let rejected = self.end_checkpoint(level, state);
        if rejected.is_empty() {
            return Ok(());
        }
        self.queue(Source::Dom, TaskSteps::NotifyRejected(rejected))
    }

    /// Notes a promise as outstanding, where it is still unhandled (HTML, "Unhandled promise rejections": notify about rejected
    /// promises). The one error is want of memory.
    pub fn outstanding_if_unhandled(&mut self, p: u32) -> Result<(), NoLine>
        ensures noted { OnOk result (self.new ≡ changed_by (outstanding_if_unhandled p) self.old) }
        ensures memory { IfErr result (λ why. IsWanted why self.old self.new) }
    {
        if !self.script.is_promise(p) {
            return Err(NoLine::OutOfMemory);
        }
        let Ok(_) = self.script.note_outstanding(p) else {
            return Err(NoLine::OutOfMemory);
        };
        Ok(())
    }

    // Queues the job of a microtask registration behind all others, with its line.
    fn queue_micro<L: Lines>(&mut self, r: u32, lines: &mut L) -> Result<(), NoLine>
        ensures { Makes L.Lines self.old lines.old (micro_queued r) result self.new lines.new }
    {
        self.script.queue_micro(r, lines)
    }

    // A checkpoint ends in the script's part alone, which hands over the rejected promises to notify about.
    fn end_checkpoint(&mut self, level: u32, state: Option<u32>) -> Vec<u32>
        ensures ended { self.new ≡ script_changed (checkpoint_left level state) self.old }
        ensures rejected { result.items ≡ self.old.script.notices.rejected }
    {
        self.script.checkpoint_ended(level, state)
    }
}
