//! The record of one promise, and what a call on it tells.

ghost use Rattle.std.specs.Prelude.{◌≡◌, true, false, IfOk, OnOk, OnErr, map};
ghost use Rattle.page_parts.specs.Promises as parts;
ghost use Rattle.promise_core.specs.Seen.{settled_seen, subscribe_seen, jobs_seen, record_seen};

use page_values::{MemoryFault, Value};
use std::alloc::Global;

/// How a promise was settled: fulfilled with a value, or rejected with a reason.
pub type Settled = Result<Value, Value>;

/// What waits for a promise to settle (ECMA-262, "PromiseReaction Records").
#[derive(Clone, Copy, PartialEq, Eq, Debug)]
pub struct Reaction {
    /// The `then` registration whose handler is called. An inner subscription has none.
    pub registration: Option<u32>,
    /// The promise that is settled by it.
    pub into: u32,
    /// The scheduling state that it keeps (Prioritized Task Scheduling).
    pub state: Option<u32>,
}

/// A job for the microtask queue.
#[derive(Clone, Copy, PartialEq, Eq, Debug)]
pub enum Job {
    /// A reaction to the settled promise `of`.
    React { of: u32, reaction: Reaction },
    /// The promise `into` subscribes to the promise `from`, with which it was resolved.
    Adopt { into: u32, from: u32 },
}

/// What a call did to its promise.
#[derive(Drop)]
pub struct Change {
    /// Whether it was settled by this call.
    pub settled: bool,
    /// The jobs to queue, in order.
    pub jobs: Vec<Job>,
    /// Whether it was rejected by this call with no handler.
    pub newly_rejected: bool,
}

impl Change {
    // Nothing was settled, and these jobs came.
    pub(crate) fn with_jobs(jobs: Vec<Job>) -> Change
        ensures { result ≡ record { settled = false; jobs = jobs; newly_rejected = false } }
    {
        Change {
            settled: false,
            jobs,
            newly_rejected: false,
        }
    }
}

// One promise.
#[derive(Drop)]
pub(crate) struct Record {
    pub(crate) outcome: Option<Settled>,
    // Whether a resolution was accepted.
    pub(crate) locked: bool,
    pub(crate) handled: bool,
    // Those that wait, while it is pending.
    pub(crate) reactions: Vec<Reaction>,
}

impl Record {
    pub(crate) fn new(alloc: Global) -> Record
        ensures { record_seen result ≡ parts.pending_promise }
    {
        Record {
            outcome: None,
            locked: false,
            handled: false,
            reactions: Vec::new(alloc),
        }
    }

    // The jobs that come when promise number `of`, which this is, is settled.
    pub(crate) fn reaction_jobs(&self, alloc: Global, of: u32) -> Result<Vec<Job>, MemoryFault>
        ensures { IfOk result (λ jobs. jobs_seen jobs.items ≡ map (parts.React of) (record_seen self.now).reactions) }
    {
        let mut jobs = Vec::with_capacity(alloc, self.reactions.len())?;
        for reaction in &self.reactions {
            jobs.push(Job::React {
                of,
                reaction: *reaction,
            })?;
        }
        Ok(jobs)
    }

    // Whether it would be rejected with no handler, if it was settled so.
    pub(crate) fn is_newly_rejected(&self, how: &Settled) -> bool
        ensures { result ≡ (parts.settle 0 (record_seen self.now) (settled_seen how.now)).newly_rejected }
    {
        how.is_err() && !self.handled
    }

    // No further resolution is accepted.
    pub(crate) fn lock(&mut self)
        ensures { record_seen self.new ≡ record (record_seen self.old) { locked = true } }
    {
        self.locked = true;
    }

    pub(crate) fn settle(&mut self, alloc: Global, how: Settled)
        ensures { record_seen self.new ≡ (parts.settle 0 (record_seen self.old) (settled_seen how)).promise }
    {
        self.outcome = Some(how);
        self.lock();
        self.reactions = Vec::new(alloc);
    }

    // The jobs that come where promise number `of`, which this is, gets a reaction. Now it is handled.
    pub(crate) fn subscribe(
        &mut self,
        alloc: Global,
        of: u32,
        reaction: Reaction,
    ) -> Result<Vec<Job>, MemoryFault>
        ensures ok { OnOk result (record_seen self.new ≡ (subscribe_seen of self.old reaction).promise) }
        ensures jobs { IfOk result (λ jobs. jobs_seen jobs.items ≡ (subscribe_seen of self.old reaction).jobs) }
        ensures err { OnErr result (record_seen self.new ≡ record_seen self.old) }
    {
        let jobs = match self.outcome {
            Some(_) => vec![in alloc; Job::React { of, reaction }]?,
            None => {
                self.reactions.push(reaction)?;
                Vec::new(alloc)
            }
        };
        self.handled = true;
        Ok(jobs)
    }
}
