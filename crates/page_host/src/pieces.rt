//! What a page does with its lines alone, piece by piece: each does what the model's page does, and where a line is not taken or memory is
//! wanting the page stops for that reason.

ghost use Rattle.std.specs.Prelude.{◌≡◌, None, IfOk, slice_get};
ghost use Rattle.std.specs.Option.{option_map};
ghost use Rattle.std.specs.Result.{result_err};
ghost use Rattle.page_types.specs.Events.{Ret};
ghost use Rattle.page_values.specs.Seen.{seen};
ghost use Rattle.promise_core.specs.Seen.{settled_seen, reaction_seen};
ghost use Rattle.page_notices.specs.Seen.{waiting_seen};
ghost use Rattle.page_model.specs.Invoke as model;
ghost use Rattle.page_model.specs.PagePromises.{settle, subscribe};
ghost use Rattle.page_model.specs.PageCombinators.{lead_into};
ghost use Rattle.page_script.specs.Jobs.{oldest_begun};
ghost use Rattle.page_script.specs.Reports.{when_seen};
ghost use Rattle.trace_text.specs.declared.lines.NoLine.TheVariants.{OutOfMemory};
ghost use Rattle.page_host.specs.Doing.{Acts};
ghost use Rattle.page_host.specs.Pieces.{stop_kept, stops_counted, WantsMemory};
ghost use Rattle.page_host.specs.StepsOfCalls.{checkpoint_over, derived_from, throw_told};
ghost use Rattle.page_host.specs.Running.{ActsBy, ActsOn};

use crate::Page;
use page_hosts::HostPort;
use page_script::{NextJob, Reaction, Settled, WhenReported};
use page_state::PageState;
use page_values::Value;
use std::sync::ledger::Ledger;
use trace_text::{Lines, NoLine};

impl<P: HostPort, L: Lines, M: Ledger> Page<P, L, M> {
    // The call of a registration's callback begins, with its line.
    pub(crate) fn call_begun(&mut self, r: u32) -> Result<(), NoLine>
        requires { self.old.stopped ≡ None }
        ensures { Acts L.keeping L.seen (model.call_begun r) (result_err result) self.old self.new }
    {
        let done = self.state.call_begun(r, &mut self.lines);
        noted(done, &mut self.stopped, &mut self.stops)
    }

    // The innermost call returns, with its line.
    pub(crate) fn returned(&mut self) -> Result<(), NoLine>
        requires { self.old.stopped ≡ None }
        ensures { Acts L.keeping L.seen (model.call_ended Ret) (result_err result) self.old self.new }
    {
        let done = self.state.returned(&mut self.lines);
        noted(done, &mut self.stopped, &mut self.stops)
    }

    // The innermost call ends with a throw, with its line and the report that comes before a checkpoint.
    pub(crate) fn threw(&mut self, when: WhenReported, value: &Value) -> Result<(), NoLine>
        requires { self.old.stopped ≡ None }
        ensures { ActsBy L.Lines (throw_told when value.now) result self.old self.new }
    {
        let done = threw_in(&mut self.state, when, value, &mut self.lines);
        noted(done, &mut self.stopped, &mut self.stops)
    }

    // The report of a throw that comes after a checkpoint.
    pub(crate) fn reported(&mut self, when: WhenReported, value: &Value) -> Result<(), NoLine>
        requires { self.old.stopped ≡ None }
        ensures { ActsBy L.Lines (model.report_after (when_seen when) (seen value.now)) result self.old self.new }
    {
        let done = self.state.report_after(when, value, &mut self.lines);
        noted(done, &mut self.stopped, &mut self.stops)
    }

    // The oldest job leaves the queue, with its line. None exactly where no job waits.
    pub(crate) fn next_job(&mut self) -> Result<Option<NextJob>, NoLine>
        requires { self.old.stopped ≡ None }
        ensures does { Acts L.keeping L.seen oldest_begun (result_err result) self.old self.new }
        ensures oldest { IfOk result (λ job. option_map waiting_seen job ≡ slice_get self.old.state.script.notices.jobs 0) }
    {
        let done = self.state.next_job(&mut self.lines);
        noted(done, &mut self.stopped, &mut self.stops)
    }

    // A promise is resolved with a value or rejected with a reason.
    pub(crate) fn settle(&mut self, p: u32, how: Settled) -> Result<(), NoLine>
        requires { self.old.stopped ≡ None }
        ensures { Acts L.keeping L.seen (settle p (settled_seen how)) (result_err result) self.old self.new }
    {
        let done = self.state.settle(p, how, &mut self.lines);
        noted(done, &mut self.stopped, &mut self.stops)
    }

    // An outcome is led to where an inner subscription leads.
    pub(crate) fn lead_into(&mut self, into: u32, how: Settled) -> Result<(), NoLine>
        requires { self.old.stopped ≡ None }
        ensures { Acts L.keeping L.seen (lead_into into (settled_seen how)) (result_err result) self.old self.new }
    {
        let done = self.state.lead_into(into, how, &mut self.lines);
        noted(done, &mut self.stopped, &mut self.stops)
    }

    // A promise gets a reaction.
    pub(crate) fn subscribe(&mut self, p: u32, reaction: Reaction) -> Result<(), NoLine>
        requires { self.old.stopped ≡ None }
        ensures { Acts L.keeping L.seen (subscribe p (reaction_seen reaction)) (result_err result) self.old self.new }
    {
        let done = self.state.subscribe(p, reaction, &mut self.lines);
        noted(done, &mut self.stopped, &mut self.stops)
    }

    // The value of a handler resolves the derived promise; that of a handler of `finally` is waited for, and then the outcome is passed
    // on.
    pub(crate) fn derive(
        &mut self,
        finally: bool,
        into: u32,
        how: Settled,
        value: Value,
    ) -> Result<(), NoLine>
        requires { self.old.stopped ≡ None }
        ensures { ActsBy L.Lines (derived_from finally into how value) result self.old self.new }
    {
        let done = derive_in(&mut self.state, finally, into, how, value, &mut self.lines);
        noted(done, &mut self.stopped, &mut self.stops)
    }

    // This scheduling state is the current one.
    pub(crate) fn set_scheduling(&mut self, state: Option<u32>)
        requires { self.old.stopped ≡ None }
        ensures { Acts L.keeping L.seen (λ p. record p { scheduling = state }) None self.old self.new }
    {
        self.state.set_scheduling(state);
    }

    // A microtask checkpoint begins.
    pub(crate) fn checkpoint_begun(&mut self)
        requires { self.old.stopped ≡ None }
        ensures { Acts L.keeping L.seen model.checkpoint_begun None self.old self.new }
    {
        self.state.checkpoint_begun();
    }

    // A microtask checkpoint ends, and this nesting level and this scheduling state are the current ones again.
    pub(crate) fn checkpoint_ended(&mut self, level: u32, state: Option<u32>) -> Result<(), NoLine>
        requires { self.old.stopped ≡ None }
        ensures { ActsBy L.Lines (checkpoint_over level state) result self.old self.new }
    {
        let done = self.state.checkpoint_ended(level, state);
        noted(done, &mut self.stopped, &mut self.stops)
    }

    // Memory is wanting for what comes next: the page stops.
    pub(crate) fn wanting(&mut self) -> NoLine
        requires { self.old.stopped ≡ None }
        ensures why { result ≡ OutOfMemory }
        ensures stopped { WantsMemory self.old self.new }
    {
        self.stopped = Some(NoLine::OutOfMemory);
        self.stops = self.stops.saturating_add(1);
        NoLine::OutOfMemory
    }
}

// What was done, and where it stopped, the page's stop with it.
pub(crate) fn noted<X>(
    done: Result<X, NoLine>,
    stopped: &mut Option<NoLine>,
    stops: &mut u64,
) -> Result<X, NoLine>
    ensures same { result ≡ done }
    ensures kept { stopped.new ≡ stop_kept (result_err done) stopped.old }
    ensures counted { stops.new ≡ stops_counted (result_err done) stops.old }
{
    match done {
        Ok(x) => Ok(x),
        Err(why) => {
            *stopped = Some(why);
            *stops = stops.saturating_add(1);
            Err(why)
        }
    }
}

// The end of a call by a throw, with the report that comes before a checkpoint.
fn threw_in<P: HostPort, L: Lines, M: Ledger>(
    state: &mut PageState<P, M>,
    when: WhenReported,
    value: &Value,
    lines: &mut L,
) -> Result<(), NoLine>
    ensures { ActsOn L.Lines (throw_told when value.now) result state.old lines.old state.new lines.new }
{
    state.thrown(value, lines)?;
    state.report_before(when, value, lines)
}

// The end of a reaction, by the value of its handler.
fn derive_in<P: HostPort, L: Lines, M: Ledger>(
    state: &mut PageState<P, M>,
    finally: bool,
    into: u32,
    how: Settled,
    value: Value,
    lines: &mut L,
) -> Result<(), NoLine>
    ensures { ActsOn L.Lines (derived_from finally into how value) result state.old lines.old state.new lines.new }
{
    if finally {
        state.pass_on(into, how, value, lines)
    } else {
        state.settle(into, Ok(value), lines)
    }
}
