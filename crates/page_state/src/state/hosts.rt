//! Host closures, what was asked of them, and registrations that are dropped. Ours
ghost use Rattle.std.specs.Prelude.{◌≡◌, ◌+◌, is_some, is_none, map, Some, IsTrue, IfErr, IfOk, OnOk, OnErr, IfSome, slice_get};
ghost use Rattle.page_types.specs.Counts.{refusals_after};
ghost use Rattle.host_jobs.specs.Closures.{meets_at};
ghost use Rattle.host_jobs.specs.KeptAnswers.{FollowsKept};
ghost use Rattle.page_model.specs.Operations.{closure_at, fitting, latency_of as latency};
ghost use Rattle.page_model.specs.PageSignals as model;
ghost use Rattle.page_model.specs.PageSignals.{drop_registration};
ghost use Rattle.page_model.specs.Turns.{not_dropped};
ghost use Rattle.page_hosts.specs.Hosts.{ask_at, is_fresh_at, unasked, IsUnfired, IsQueued};
ghost use Rattle.page_tasks.specs.Seen.{host_task};
ghost use Rattle.page_state.specs.PageActs.{changed_by, read_by, IsWanted};
ghost use Rattle.page_state.specs.HostActs.{answer_awaited, answer_set, net_task_dropped, answer_dropped, enqueued_for, host_task_for};
ghost use Rattle.page_state.specs.Makes.{Makes};
ghost use Rattle.page_state.specs.HostChanges.{hosts_by, IsFired};

use super::PageState;
use crate::latencies::latency_in;
use page_base::Micros;
use page_hosts::{HostPort, NoHost, PageHosts};
use page_tasks::HostTask;
use parallel_items::HostAnswer;
use std::sync::ledger::Ledger;
use trace_text::{Event, Lines, NoLine};

impl<P: HostPort, M: Ledger> PageState<P, M> {
    /// The host port, which drops the closures that were dropped here. One that was asked and neither fired nor dropped is live there.
    ///
    /// Takes no memory, and costs a look at each closure.
    pub fn into_port(self) -> P
        ensures closures { P.closures result ≡ map unasked self.hosts }
        ensures kept { P.kept result ≡ self.kept }
        ensures refused { P.refusals result ≡ self.refusals }
    {
        self.into_hosts().into_port()
    }

    /// The host port as it is so far: it has fired what was fired here, and has dropped nothing. Takes no memory.
    pub fn into_port_so_far(self) -> P
        ensures closures { P.closures result ≡ self.at_port }
        ensures kept { P.kept result ≡ self.kept }
        ensures refused { P.refusals result ≡ self.refusals }
    {
        self.into_hosts().into_port_so_far()
    }

    // The host closures alone. Each other part goes by a call, since what the compiler writes in its place is long to prove.
    fn into_hosts(self) -> PageHosts<P>
        ensures closures { result.closures ≡ self.hosts }
        ensures at_port { result.at_port ≡ self.at_port }
        ensures kept { result.kept ≡ self.kept }
        ensures refused { result.refusals ≡ self.refusals }
    {
        let PageState {
            alloc: _,
            script,
            tasks,
            items,
            frames,
            signals,
            hosts,
            latencies,
            room: _,
        } = self;
        drop(script);
        drop(tasks);
        drop(items);
        drop(frames);
        drop(signals);
        drop(latencies);
        hosts
    }

    /// Whether there is a closure of the number `k` that a script gives, with `x` in its range. Takes no memory.
    pub fn takes(&self, k: i64, x: i64) -> bool
        ensures { result ≡ read_by (λ p. is_some (fitting (closure_at p k) x)) self.now }
    {
        self.hosts.takes(k, x)
    }

    /// Whether there is a closure `k` that was never asked, fired or dropped. Takes no memory.
    pub fn is_fresh(&self, k: u32) -> bool
        ensures { result ≡ is_fresh_at self.now.hosts k }
    {
        self.hosts.is_fresh(k)
    }

    /// Whether closure `k` was asked and has not answered: it was not fired. Takes no memory.
    pub fn is_asked(&self, k: u32) -> bool
        ensures unfired { IsTrue result → IsUnfired self.now.hosts k }
        ensures queued { IsQueued self.now.hosts k → IsTrue result }
    {
        self.hosts.is_asked(k)
    }

    /// Whether closure `k`, which was not fired, was dropped or is not there. Takes no memory.
    pub fn is_dropped(&self, k: u32) -> bool
        requires { IsUnfired self.now.hosts k }
        ensures { result ≡ is_none (not_dropped (slice_get self.now.hosts k)) }
    {
        self.hosts.is_dropped(k)
    }

    /// The answer of closure `k` on a number of its range, by the relation of its kind; then it is fired.
    ///
    /// It refuses where its port does, and then only the count of refusals may change.
    pub fn fire(&mut self, k: u32, x: i64) -> Result<Result<i64, i64>, NoHost>
        requires unfired { IsUnfired self.old.hosts k }
        requires undropped { IsTrue (is_some (not_dropped (slice_get self.old.hosts k))) }
        requires fits { IsTrue (is_some (fitting (slice_get self.old.hosts k) x)) }
        ensures met { IfOk result (λ answer. IsTrue (meets_at self.old.hosts k x answer)) }
        ensures fired { OnOk result (IsFired k self.old self.new) }
        ensures same { OnErr result (self.new ≡ record self.old { kept = self.new.kept; refusals = self.new.refusals }) }
        ensures kept { FollowsKept (meets_at self.old.hosts k x) self.old.kept result self.new.kept }
        ensures refused { self.new.refusals ≡ refusals_after self.old.refusals result }
    {
        self.hosts.fire(k, x)
    }

    /// Closure `k` is asked on a number for a registration: its answer is pending until its latency has passed, with the line.
    ///
    /// Want of memory is told also where the closure was asked before, or where the moment is no number of 64 bits.
    pub fn await_answer<L: Lines>(
        &mut self,
        k: u32,
        x: i64,
        registration: u32,
        lines: &mut L,
    ) -> Result<(), NoLine>
        ensures { Makes L.Lines self.old lines.old (answer_awaited k x registration) result self.new lines.new }
    {
        let due = self.set_answer(k, x, registration)?;
        self.emit(
            Event::Arm {
                r: registration as u64,
                due,
                level: 0,
            },
            lines,
        )
    }

    /// Whether the task, the delay or the host answer of a registration has not begun. Takes no memory.
    pub fn has_not_begun(&self, registration: u32) -> bool
        ensures { result ≡ read_by (model.has_not_begun registration) self.now }
    {
        self.is_enqueued(registration) || self.has_host_task(registration)
    }

    // Whether a scheduler task of a registration waits, or its delay.
    fn is_enqueued(&self, registration: u32) -> bool
        ensures { result ≡ read_by (enqueued_for registration) self.now }
    {
        self.tasks.has_sched(registration) || self.items.is_delayed(registration)
    }

    // Whether a host answer of a registration is pending, or its task waits.
    fn has_host_task(&self, registration: u32) -> bool
        ensures { result ≡ read_by (host_task_for registration) self.now }
    {
        self.items.pending_answer(registration).is_some()
            || self.tasks.net_task_of(registration).is_some()
    }

    /// A registration is dropped, with its line: its scheduler task leaves the queue, its host answer is no longer pending, and the
    /// closure is dropped. A delay stays an active timer, and a net task stays in its queue.
    ///
    /// Want of memory is told also where the closure has answered.
    pub fn drop_registration<L: Lines>(
        &mut self,
        registration: u32,
        lines: &mut L,
    ) -> Result<(), NoLine>
        ensures { Makes L.Lines self.old lines.old (drop_registration registration) result self.new lines.new }
    {
        self.drop_net_task(registration)?;
        self.drop_answer(registration)?;
        self.without_sched(registration);
        self.emit(
            Event::Drop {
                r: registration as u64,
            },
            lines,
        )
    }

    // The closure that a registration's net task asks is dropped, where it has one.
    fn drop_net_task(&mut self, registration: u32) -> Result<(), NoLine>
        ensures dropped { OnOk result (self.new ≡ changed_by (net_task_dropped registration) self.old) }
        ensures memory { IfErr result (λ why. IsWanted why self.old self.new) }
    {
        match self.tasks.net_task_of(registration) {
            Some(task) => self.drop_closure(task),
            None => Ok(()),
        }
    }

    // A registration's answer is no longer pending, and the closure that it asks is dropped, where it has one.
    fn drop_answer(&mut self, registration: u32) -> Result<(), NoLine>
        ensures dropped { OnOk result (self.new ≡ changed_by (answer_dropped registration) self.old) }
        ensures memory { IfErr result (λ why. IsWanted why self.old self.new) }
    {
        if let Some(task) = self.items.pending_answer(registration) {
            self.drop_closure(task)?;
        }
        self.items.give_up(registration);
        Ok(())
    }

    // The closure of a task is dropped.
    fn drop_closure(&mut self, task: HostTask) -> Result<(), NoLine>
        ensures dropped { OnOk result (self.new ≡ hosts_by (model.drop_closure (Some (host_task task))) self.old) }
        ensures memory { IfErr result (λ why. IsWanted why self.old self.new) }
    {
        if !self.hosts.is_asked(task.closure) {
            return Err(NoLine::OutOfMemory);
        }
        self.hosts.drop_closure(task.closure);
        Ok(())
    }

    // The same as `await_answer` without its line. It answers when the answer is due.
    fn set_answer(&mut self, k: u32, x: i64, registration: u32) -> Result<Micros, NoLine>
        ensures due { IfOk result (λ due. due.0 ≡ self.old.script.now + latency self.old.latencies k) }
        ensures set { OnOk result (self.new ≡ changed_by (answer_set k x registration) self.old) }
        ensures memory { IfErr result (λ why. IsWanted why self.old self.new) }
    {
        let Some(due) = self.due_of(k) else {
            return Err(NoLine::OutOfMemory);
        };
        self.ask(k)?;
        let task = HostTask {
            registration,
            closure: k,
            number: x,
        };
        match self.items.ask(HostAnswer { due, task }) {
            Ok(()) => Ok(due),
            Err(_) => Err(NoLine::OutOfMemory),
        }
    }

    // When the answer of closure `k` is due that is asked now, where that is a number of 64 bits. Takes no memory.
    fn due_of(&self, k: u32) -> Option<Micros>
        ensures { IfSome result (λ due. due.0 ≡ self.now.script.now + latency self.now.latencies k) }
    {
        let latency = latency_in(&self.latencies, k);
        let due = self.script.now().0.checked_add(latency.0)?;
        Some(Micros(due))
    }

    // Closure `k` is asked, which was never asked before.
    fn ask(&mut self, k: u32) -> Result<(), NoLine>
        ensures asked { OnOk result (self.new ≡ hosts_by (λ hosts. ask_at k (slice_get hosts k) hosts) self.old) }
        ensures memory { IfErr result (λ why. IsWanted why self.old self.new) }
    {
        if !self.hosts.is_fresh(k) {
            return Err(NoLine::OutOfMemory);
        }
        match self.hosts.ask(k) {
            Ok(()) => Ok(()),
            Err(_) => Err(NoLine::OutOfMemory),
        }
    }
}
