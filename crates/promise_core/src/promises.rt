//! All promises, and the list of rejected ones about to be notified about.

ghost use Rattle.std.specs.Prelude.{◌≡◌, ◌+◌, ◌^◌, ◌<◌, ◌≤◌, [], length, IfOk, OnErr, OnOk, IsTrue, true};
ghost use Rattle.page_parts.specs.Words.{numbered};
ghost use Rattle.page_parts.specs.Promises as parts;
ghost use Rattle.page_values.specs.Seen.{seen};
ghost use Rattle.promise_core.specs.Held.{Held, IsMade, made, unhandled, all_within, with_rejected};
ghost use Rattle.page_parts.specs.Promises.{the_promise};
ghost use Rattle.promise_core.specs.Seen.{settled_seen, reaction_seen, jobs_seen, records_seen, record_seen, IsOutcome};
ghost use Rattle.promise_core.specs.Changes.{BringsBy, BringsReaction};
ghost use Rattle.promise_core.specs.Records.{record_at, settled_at, subscribed_at, BecomesAt};

use crate::record::{Change, Job, Reaction, Record, Settled};
use page_values::{FaultName, MemoryFault, Value, as_promise, fault};
use std::alloc::Global;
use std::marker::Model;
use std::mem;

/// All promises, seen as the list of their records in the order of their numbers, which count from 1, and the list of the
/// rejected promises about to be notified about (HTML, "Unhandled promise rejections").
///
/// Every call that names a promise has the condition that it was made here.
#[derive(Drop)]
pub struct Promises {
    alloc: Global,
    records: Vec<Record>,
    // Those that were rejected unhandled since the list was last taken. One that was handled since stays, and is passed
    // over: its record tells.
    rejected: Vec<u32>,
}

impl Model for Promises {
    ghost use Rattle.std.specs.Prelude.{length, IsTrue};
    ghost use Rattle.promise_core.specs.Held.{Held, coded_held, unhandled, all_within};

    ghost Value = { Held };

    ghost coded = { coded_held };

    ghost use Rattle.promise_core.specs.Seen.{records_seen};

    ghost view = { λ a. record {
      promises = records_seen a.records.items;
      rejected = unhandled (records_seen a.records.items) a.rejected.items;
    } };

    ghost invariant = { λ a. IsTrue (all_within (length a.records.items) a.rejected.items) };
}

impl Promises {
    /// No promise. It keeps the allocator and takes no memory yet.
    pub fn new(alloc: Global) -> Promises
        ensures { result ≡ record { promises = []; rejected = [] } }
    {
        Promises {
            alloc,
            records: Vec::new(alloc),
            rejected: Vec::new(alloc),
        }
    }

    /// Makes a pending promise and answers its number, which has to be below 2^32. For want of memory nothing changes.
    pub fn make(&mut self) -> Result<u32, MemoryFault>
        requires { length self.old.promises + 1 < 2 ^ 32 }
        ensures ok { IfOk result (λ p. p ≡ length self.old.promises + 1) }
        ensures made { IfOk result (λ p. self.new ≡ made self.old) }
        ensures err { OnErr result (self.new ≡ self.old) }
    {
        let number = self.records.len() as u32 + 1;
        self.records.push(Record::new(self.alloc))?;
        Ok(number)
    }

    /// How many promises were ever made. Takes no memory.
    pub fn made(&self) -> u32
        requires { length self.now.promises < 2 ^ 32 }
        ensures { result ≡ length self.now.promises }
    {
        self.records.len() as u32
    }

    /// Resolves a promise with a value; the first resolution wins. With the promise itself it rejects with a TypeError of
    /// empty text, and with another promise it queues one job, which subscribes to that one (ECMA-262, "Promise Resolve
    /// Functions"). For want of memory nothing changes.
    pub fn resolve(&mut self, p: u32, v: Value) -> Result<Change, MemoryFault>
        requires { IsMade self.old p }
        ensures ok { IfOk result (λ told. BringsBy told p (λ q. parts.resolve p q (seen v)) self.old self.new) }
        ensures err { OnErr result (self.new ≡ self.old) }
    {
        let record = record_of(&self.records, p);
        if record.locked {
            return Ok(Change::with_jobs(Vec::new(self.alloc)));
        }
        match as_promise(&v) {
            None => self.settle(p, Ok(v)),
            Some(other) if other == p => self.settle(
                p,
                Err(fault(self.alloc, FaultName::TypeError)),
            ),
            Some(other) => self.adopt(p, other),
        }
    }

    /// Rejects a promise with a reason, unless it was resolved before (ECMA-262, "Promise Reject Functions"). For want of
    /// memory nothing changes.
    pub fn reject(&mut self, p: u32, v: Value) -> Result<Change, MemoryFault>
        requires { IsMade self.old p }
        ensures ok { IfOk result (λ told. BringsBy told p (λ q. parts.reject p q (seen v)) self.old self.new) }
        ensures err { OnErr result (self.new ≡ self.old) }
    {
        if record_of(&self.records, p).locked {
            return Ok(Change::with_jobs(Vec::new(self.alloc)));
        }
        self.settle(p, Err(v))
    }

    /// Settles a pending promise as the promise was that it adopted, also where it is locked, and leaves a settled one. For
    /// want of memory nothing changes.
    pub fn follow(&mut self, p: u32, o: Settled) -> Result<Change, MemoryFault>
        requires { IsMade self.old p }
        ensures ok { IfOk result (λ told. BringsBy told p (λ q. parts.follow p q (settled_seen o)) self.old self.new) }
        ensures err { OnErr result (self.new ≡ self.old) }
    {
        if record_of(&self.records, p).outcome.is_some() {
            return Ok(Change::with_jobs(Vec::new(self.alloc)));
        }
        self.settle(p, o)
    }

    /// Gives a promise a reaction, which waits while it is pending, and for which else a job comes. From now on the promise is
    /// handled, so it is no longer about to be notified about (ECMA-262, "PerformPromiseThen"). For want of memory nothing
    /// changes.
    pub fn subscribe(&mut self, p: u32, r: Reaction) -> Result<Change, MemoryFault>
        requires { IsMade self.old p }
        ensures ok { IfOk result (λ told. BringsReaction told p (reaction_seen r) self.old self.new) }
        ensures err { OnErr result (self.new ≡ self.old) }
    {
        let jobs = subscribe_at(&mut self.records, p, self.alloc, r)?;
        Ok(Change::with_jobs(jobs))
    }

    /// Whether the promise has or had a handler. Takes no memory.
    pub fn handled(&self, p: u32) -> bool
        requires { IsMade self.now p }
        ensures { result ≡ (the_promise self.now.promises p).handled }
    {
        record_of(&self.records, p).handled
    }

    /// How the promise was settled, and None exactly while it is pending. Takes no memory.
    pub fn outcome(&self, p: u32) -> Option<&Settled>
        requires { IsMade self.now p }
        ensures { IsOutcome result (the_promise self.now.promises p).outcome }
    {
        record_of(&self.records, p).outcome.as_ref()
    }

    /// Hands over the numbers of the rejected promises about to be notified about, in the order of rejecting, and keeps none.
    /// Takes no memory.
    pub fn take_rejected(&mut self) -> Vec<u32>
        ensures list { result.items ≡ self.old.rejected }
        ensures taken { self.new ≡ record self.old { rejected = [] } }
        ensures made { IsTrue (all_within (length self.old.promises) result.items) }
    {
        let rejected = mem::replace(&mut self.rejected, Vec::new(self.alloc));
        unhandled_of(&self.records, rejected)
    }

    // Settles a promise, pending or not.
    fn settle(&mut self, p: u32, how: Settled) -> Result<Change, MemoryFault>
        requires { IsMade self.old p }
        ensures ok { IfOk result (λ told. BringsBy told p (λ q. parts.settle p q (settled_seen how)) self.old self.new) }
        ensures err { OnErr result (self.new ≡ self.old) }
    {
        let record = record_of(&self.records, p);
        let newly_rejected = record.is_newly_rejected(&how);
        let jobs = record.reaction_jobs(self.alloc, p)?;
        note_rejected(&mut self.rejected, p, newly_rejected)?;
        settle_at(&mut self.records, p, self.alloc, how);
        Ok(Change {
            settled: true,
            jobs,
            newly_rejected,
        })
    }

    // Locks a promise, and queues the job by which it subscribes to another.
    fn adopt(&mut self, p: u32, from: u32) -> Result<Change, MemoryFault>
        requires { IsMade self.old p }
        ensures ok { IfOk result (λ told. BringsBy told p (λ q. parts.adopt p q from) self.old self.new) }
        ensures err { OnErr result (self.new ≡ self.old) }
    {
        let jobs = vec![in self.alloc; Job::Adopt { into: p, from }]?;
        lock_at(&mut self.records, p);
        Ok(Change::with_jobs(jobs))
    }
}

// The record of a promise.
fn record_of(records: &[Record], p: u32) -> &Record
    requires within { p ≤ length records.now }
    requires counted { 0 < p }
    ensures { record_seen result.now ≡ numbered (records_seen records.now) p parts.pending_promise }
{
    &records[p as usize - 1]
}

// Whether a promise is handled. Only of one that was made is anything told.
fn is_handled(records: &[Record], p: u32) -> bool
    ensures { result ≡ (numbered (records_seen records.now) p parts.pending_promise).handled }
{
    if p == 0 {
        return false;
    }
    match records.get(p as usize - 1) {
        Some(record) => record.handled,
        None => false,
    }
}

// The numbers among these whose promises are not handled.
fn unhandled_of(records: &[Record], mut numbers: Vec<u32>) -> Vec<u32>
    ensures { result.items ≡ unhandled (records_seen records.now) numbers.items }
{
    numbers.retain(|p| !is_handled(records, *p));
    numbers
}

// Puts a promise at the end of the list, where it is newly rejected.
fn note_rejected(rejected: &mut Vec<u32>, p: u32, newly_rejected: bool) -> Result<(), MemoryFault>
    ensures ok { OnOk result (rejected.new.items ≡ with_rejected newly_rejected p rejected.old.items) }
    ensures err { OnErr result (rejected.new.items ≡ rejected.old.items) }
{
    if newly_rejected {
        rejected.push(p)?;
    }
    Ok(())
}

fn settle_at(records: &mut [Record], p: u32, alloc: Global, how: Settled)
    requires within { p ≤ length records.old }
    requires counted { 0 < p }
    ensures { BecomesAt p (settled_at records.old p how).promise records.old records.new }
{
    records[p as usize - 1].settle(alloc, how);
}

fn lock_at(records: &mut [Record], p: u32)
    requires within { p ≤ length records.old }
    requires counted { 0 < p }
    ensures { BecomesAt p (record (record_at records.old p) { locked = true }) records.old records.new }
{
    records[p as usize - 1].lock();
}

// What comes where a promise gets a reaction: the jobs are answered.
fn subscribe_at(
    records: &mut [Record],
    p: u32,
    alloc: Global,
    reaction: Reaction,
) -> Result<Vec<Job>, MemoryFault>
    requires within { p ≤ length records.old }
    requires counted { 0 < p }
    ensures ok { OnOk result (BecomesAt p (subscribed_at records.old p reaction).promise records.old records.new) }
    ensures jobs { IfOk result (λ jobs. jobs_seen jobs.items ≡ (subscribed_at records.old p reaction).jobs) }
    ensures err { OnErr result (records_seen records.new ≡ records_seen records.old) }
{
    records[p as usize - 1].subscribe(alloc, p, reaction)
}
