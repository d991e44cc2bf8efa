//! The promises, the jobs that wait and the outstanding rejections, with the lines of calls on them.

ghost use Rattle.std.specs.Prelude.{◌≡◌, ◌∷◌, ◌+◌, ◌^◌, ◌<◌, not, [], drop, length, nat_lt, IfOk, IfErr, OnOk, OnErr};
ghost use Rattle.std.specs.Prelude.{IsTrue, MatchOption};
ghost use Rattle.page_parts.specs.Promises.{the_promise, settled_value};
ghost use Rattle.page_parts.specs.Notices as parts;
ghost use Rattle.page_parts.specs.Spelling.{spelled};
ghost use Rattle.page_values.specs.Seen.{seen};
ghost use Rattle.page_parts.specs.Notices.{no_notices, is_outstanding};
ghost use Rattle.page_values.specs.Written.{IsNumbered};
ghost use Rattle.promise_core.specs.Held.{IsMade, all_within};
ghost use Rattle.promise_core.specs.Seen.{settled_seen, IsOutcome};
ghost use Rattle.trace_text.specs.declared.lines.NoLine.TheVariants.{OutOfMemory};
ghost use Rattle.trace_text.specs.EventSeen.{event_seen};
ghost use Rattle.page_notices.specs.Seen.{waiting_seen, todo_seen};
ghost use Rattle.page_notices.specs.Steps.{held};
ghost use Rattle.page_notices.specs.Changes.{BringsWhereOk, settled_change, followed_change, subscribed_change, no_longer_unhandled, IsNamed, settled_line_of, settle_lines};
ghost use Rattle.page_notices.specs.Calls.{Writes, Settles, Follows, Subscribes, PutsMicro, TellsChange, QueuesJobs, QueuesJob, context_at};

use crate::jobs::{Moment, NextJob, Todo};
use crate::noted::Noted;
use microtasks::Jobs;
use page_base::Micros;
use page_values::{FunNames, MemoryFault, Value, print};
use promise_core::{Change, Job, Promises, Reaction, Settled};
use std::alloc::Global;
use std::marker::Model;
use trace_text::{Event, Lines, NoLine, Printed, Stamped};

/// All promises of a page, the jobs that wait for the next microtask checkpoint, the rejected promises about to be notified
/// about, and the outstanding ones (HTML, "Unhandled promise rejections"). It is seen as the notices of the definitions.
///
/// Every call that names a promise has the condition that it was made here. A call that writes lines stamps each with the
/// moment `at`, in microseconds. It answers `Failed` and `Differs` exactly where the lines answered so in this call, and
/// `OutOfMemory` also where 2^64 - 1 jobs were queued before. After any `NoLine` the lines that were written are the first
/// ones of the call's lines, and the `Notices` is not used again.
///
/// Unless its entry says otherwise, a call costs look-ups by number, whatever there is. A table that grows is moved now and
/// then.
#[derive(Drop)]
pub struct Notices {
    alloc: Global,
    promises: Promises,
    jobs: Jobs<NextJob>,
    jobs_made: u64,
    // Those that were noted as outstanding. One that was handled since stays, and is passed over: its promise tells. So a
    // promise leaves in constant time.
    noted: Noted,
}

impl Model for Notices {
    ghost use Rattle.page_parts.specs.Notices.{Notices};
    ghost use Rattle.page_notices.specs.State.{state_of, IsKept, coded_notices};

    ghost Value = { Notices };

    ghost coded = { coded_notices };

    ghost view = { λ a. state_of a.promises a.jobs a.jobs_made a.noted.noted };

    ghost invariant = { λ a. IsKept a.promises.promises a.noted.room a.noted.noted };
}

impl Notices {
    /// No promise and no job. It keeps the allocator and takes no memory yet.
    pub fn new(alloc: Global) -> Notices
        ensures { result ≡ no_notices }
    {
        Notices {
            alloc,
            promises: Promises::new(alloc),
            jobs: Jobs::new(alloc),
            jobs_made: 0,
            noted: Noted::new(alloc),
        }
    }

    /// Makes a pending promise and answers its number, which has to be below 2^32. Promises are counted from 1. For want of
    /// memory nothing changes.
    pub fn make(&mut self) -> Result<u32, MemoryFault>
        requires { length self.old.promises + 1 < 2 ^ 32 }
        ensures ok { IfOk result (λ p. p ≡ length self.old.promises + 1) }
        ensures made { OnOk result (self.new ≡ parts.make self.old) }
        ensures err { OnErr result (self.new ≡ self.old) }
    {
        let count = self.promises.made() + 1;
        self.noted.make_room(count)?;
        self.promises.make()
    }

    /// How many promises were ever made. Takes no memory.
    pub fn made(&self) -> u32
        ensures { result ≡ length self.now.promises }
    {
        self.promises.made()
    }

    /// How a promise was settled, and None exactly while it is pending. Takes no memory.
    pub fn outcome(&self, p: u32) -> Option<&Settled>
        requires { IsMade (held self.now) p }
        ensures { IsOutcome result (the_promise self.now.promises p).outcome }
    {
        self.promises.outcome(p)
    }

    /// Whether a promise has or had a handler. Takes no memory.
    pub fn handled(&self, p: u32) -> bool
        requires { IsMade (held self.now) p }
        ensures { result ≡ (the_promise self.now.promises p).handled }
    {
        self.promises.handled(p)
    }

    /// Hands over the numbers of the rejected promises about to be notified about, in the order of rejecting, and keeps none
    /// (HTML, "Unhandled promise rejections"). Takes no memory. It costs a look at each promise that was rejected with no
    /// handler since the last call.
    pub fn take_rejected(&mut self) -> Vec<u32>
        ensures list { result.items ≡ self.old.rejected }
        ensures taken { self.new ≡ record self.old { rejected = [] } }
        ensures made { IsTrue (all_within (length self.old.promises) result.items) }
    {
        self.promises.take_rejected()
    }

    /// Resolves a promise with a value or rejects it with a reason (ECMA-262, "Promise Resolve Functions" and "Promise Reject
    /// Functions"): its `settle` line, where this settles it, and then a job for each of its reactions, in order, with its
    /// `job` line. Each job keeps the nesting level and the scheduling state, which are the current ones.
    ///
    /// It costs what the spelling of the value and the promise's own reactions cost.
    pub fn settle<L: Lines>(
        &mut self,
        p: u32,
        how: Settled,
        level: u32,
        state: Option<u32>,
        at: Micros,
        names: &FunNames,
        lines: &mut L,
    ) -> Result<(), NoLine>
        requires made { IsMade (held self.old) p }
        requires named { IsNumbered (length names.now) (settled_value (settled_seen how)) }
        ensures { Settles L.keeping L.seen self.old lines.old level state at names.now p how result self.new lines.new }
    {
        let Ok(change) = self.resolved_or_rejected(p, how) else {
            return Err(NoLine::OutOfMemory);
        };
        self.tell(p, change, Moment { level, state, at }, names, lines)
    }

    /// Settles a pending promise as the promise was that it was resolved with, also where it is locked, and leaves a settled
    /// one (ECMA-262, "Promise Resolve Functions"). The lines, the jobs and the cost are those of [`Notices::settle`].
    pub fn follow<L: Lines>(
        &mut self,
        p: u32,
        o: Settled,
        level: u32,
        state: Option<u32>,
        at: Micros,
        names: &FunNames,
        lines: &mut L,
    ) -> Result<(), NoLine>
        requires made { IsMade (held self.old) p }
        requires named { IsNumbered (length names.now) (settled_value (settled_seen o)) }
        ensures { Follows L.keeping L.seen self.old lines.old level state at names.now p o result self.new lines.new }
    {
        let Ok(change) = self.followed(p, o) else {
            return Err(NoLine::OutOfMemory);
        };
        self.tell(p, change, Moment { level, state, at }, names, lines)
    }

    /// Gives a promise a reaction, which waits while the promise is pending, and for which else a job is queued, with its `job`
    /// line (ECMA-262, "PerformPromiseThen"). The promise is handled from now on: it is no longer about to be notified about,
    /// nor outstanding. True exactly where it was outstanding.
    ///
    /// The cost does not grow with the promises, jobs and rejections that there are.
    pub fn subscribe<L: Lines>(
        &mut self,
        p: u32,
        r: Reaction,
        level: u32,
        state: Option<u32>,
        at: Micros,
        lines: &mut L,
    ) -> Result<bool, NoLine>
        requires { IsMade (held self.old) p }
        ensures does { Subscribes L.keeping L.seen self.old lines.old level state at p r result self.new lines.new }
        ensures was { IfOk result (λ was. was ≡ is_outstanding p self.old) }
    {
        let was = self.was_outstanding(p);
        let Ok(change) = self.subscribed(p, r) else {
            return Err(NoLine::OutOfMemory);
        };
        self.queue_all(&change.jobs, Moment { level, state, at }, lines)?;
        Ok(was)
    }

    /// Queues the job of a `queueMicrotask` registration behind all others, with its `job` line (HTML, "Microtask queuing").
    pub fn queue_micro<L: Lines>(
        &mut self,
        registration: u32,
        level: u32,
        state: Option<u32>,
        at: Micros,
        lines: &mut L,
    ) -> Result<(), NoLine>
        ensures { PutsMicro L.keeping L.seen self.old lines.old level state at registration result self.new lines.new }
    {
        self.queue(
            Todo::Micro(registration),
            Moment { level, state, at },
            lines,
        )
    }

    /// Whether a job waits. Takes no memory.
    pub fn has_job(&self) -> bool
        ensures { result ≡ nat_lt 0 (length self.now.jobs) }
    {
        self.jobs.has_job()
    }

    /// Takes the oldest job out. None exactly where no job waits. Takes no memory.
    pub fn next_job(&mut self) -> Option<NextJob>
        ensures oldest { MatchOption result (self.old.jobs ≡ []) (λ job. self.old.jobs ≡ waiting_seen job ∷ self.new.jobs) }
        ensures others { self.new ≡ record self.old { jobs = drop 1 self.old.jobs } }
    {
        self.jobs.pop()
    }

    /// Notes a promise as outstanding, where it is still unhandled (HTML, "Unhandled promise rejections": notify about rejected
    /// promises). True exactly where it is. For want of memory nothing changes.
    pub fn note_outstanding(&mut self, p: u32) -> Result<bool, MemoryFault>
        requires { IsMade (held self.old) p }
        ensures noted { IfOk result (λ noted. noted ≡ not (the_promise self.old.promises p).handled) }
        ensures ok { OnOk result (self.new ≡ parts.note_outstanding p self.old) }
        ensures err { OnErr result (self.new ≡ self.old) }
    {
        if self.promises.handled(p) {
            return Ok(false);
        }
        self.noted.note(p)?;
        Ok(true)
    }

    // Whether a promise is outstanding. Takes no memory.
    fn was_outstanding(&self, p: u32) -> bool
        requires { IsMade (held self.now) p }
        ensures { result ≡ is_outstanding p self.now }
    {
        self.noted.has(p) && !self.promises.handled(p)
    }

    // Resolves or rejects a promise, and tells the change.
    fn resolved_or_rejected(&mut self, p: u32, how: Settled) -> Result<Change, MemoryFault>
        requires { IsMade (held self.old) p }
        ensures { BringsWhereOk result p (settled_change p how self.old) self.old self.new }
    {
        match how {
            Ok(v) => self.promises.resolve(p, v),
            Err(reason) => self.promises.reject(p, reason),
        }
    }

    // Lets a promise follow another's outcome, and tells the change.
    fn followed(&mut self, p: u32, o: Settled) -> Result<Change, MemoryFault>
        requires { IsMade (held self.old) p }
        ensures { BringsWhereOk result p (followed_change p o self.old) self.old self.new }
    {
        self.promises.follow(p, o)
    }

    // Gives a promise a reaction, and tells the change.
    fn subscribed(&mut self, p: u32, r: Reaction) -> Result<Change, MemoryFault>
        requires { IsMade (held self.old) p }
        ensures { BringsWhereOk result p (subscribed_change p r self.old) (no_longer_unhandled p self.old) self.new }
    {
        self.promises.subscribe(p, r)
    }

    // The lines of a change that came about, and its jobs.
    fn tell<L: Lines>(
        &mut self,
        p: u32,
        change: Change,
        now: Moment,
        names: &FunNames,
        lines: &mut L,
    ) -> Result<(), NoLine>
        requires made { IsMade (held self.old) p }
        requires named { IsNamed (length names.now) change.settled (the_promise self.old.promises p).outcome }
        ensures { TellsChange L.keeping L.seen self.old lines.old now names.now p change result self.new lines.new }
    {
        self.tell_settled(p, change.settled, now.at, names, lines)?;
        self.queue_all(&change.jobs, now, lines)
    }

    // The line of a promise, where it was settled.
    fn tell_settled<L: Lines>(
        &self,
        p: u32,
        settled: bool,
        at: Micros,
        names: &FunNames,
        lines: &mut L,
    ) -> Result<(), NoLine>
        requires made { IsMade (held self.now) p }
        requires named { IsNamed (length names.now) settled (the_promise self.now.promises p).outcome }
        ensures { Writes L.keeping L.seen lines.old at (settled_line_of names.now p settled self.now) result lines.new }
    {
        if !settled {
            return Ok(());
        }
        match self.promises.outcome(p) {
            None => Ok(()),
            Some(Ok(value)) => emit_settle(self.alloc, p, true, value, at, names, lines),
            Some(Err(reason)) => emit_settle(self.alloc, p, false, reason, at, names, lines),
        }
    }

    // Queues jobs of promises, in order, each with its line.
    fn queue_all<L: Lines>(
        &mut self,
        jobs: &[Job],
        now: Moment,
        lines: &mut L,
    ) -> Result<(), NoLine>
        ensures { QueuesJobs L.keeping L.seen self.old lines.old now jobs.now result self.new lines.new }
    {
        for job in jobs {
            self.queue(Todo::Promise(*job), now, lines)?;
        }
        Ok(())
    }

    // Queues a job behind all others, with its line.
    fn queue<L: Lines>(&mut self, todo: Todo, now: Moment, lines: &mut L) -> Result<(), NoLine>
        ensures { QueuesJob L.keeping L.seen self.old lines.old now todo result self.new lines.new }
    {
        let job = self.push(todo, now)?;
        let what = todo.queued();
        emit(Event::Job { j: job, what }, now.at, lines)
    }

    // Puts a job behind all others, and answers its number.
    fn push(&mut self, todo: Todo, now: Moment) -> Result<u64, NoLine>
        ensures number { IfOk result (λ job. job ≡ self.old.jobs_made + 1) }
        ensures memory { IfErr result (λ why. why ≡ OutOfMemory) }
        ensures queued { OnOk result (self.new ≡ (parts.queue_job (context_at now) (todo_seen todo) self.old).notices) }
    {
        let Some(job) = self.jobs_made.checked_add(1) else {
            return Err(NoLine::OutOfMemory);
        };
        let queued = NextJob {
            job,
            todo,
            level: now.level,
            state: now.state,
        };
        if self.jobs.push(queued).is_err() {
            return Err(NoLine::OutOfMemory);
        }
        self.jobs_made = job;
        Ok(job)
    }
}

// The line of a promise that is settled with this value or reason.
fn emit_settle<L: Lines>(
    alloc: Global,
    p: u32,
    ok: bool,
    value: &Value,
    at: Micros,
    names: &FunNames,
    lines: &mut L,
) -> Result<(), NoLine>
    requires { IsNumbered (length names.now) (seen value.now) }
    ensures { Writes L.keeping L.seen lines.old at (settle_lines names.now p ok value.now) result lines.new }
{
    let Ok(v) = printed(alloc, value, names) else {
        return Err(NoLine::OutOfMemory);
    };
    emit(Event::Settle { p: p as u64, ok, v }, at, lines)
}

// The line of an event, at this time.
fn emit<L: Lines>(event: Event, at: Micros, lines: &mut L) -> Result<(), NoLine>
    ensures { Writes L.keeping L.seen lines.old at (event_seen event ∷ []) result lines.new }
{
    lines.emit(&Stamped { time: at, event })
}

// The spelling of a value.
fn printed(alloc: Global, value: &Value, names: &FunNames) -> Result<Printed, MemoryFault>
    requires { IsNumbered (length names.now) (seen value.now) }
    ensures { IfOk result (λ v. v ≡ spelled names.now (seen value.now)) }
{
    let mut spelling = Vec::new(alloc);
    print(alloc, value, names, &mut spelling)?;
    Ok(Printed::new(spelling))
}
