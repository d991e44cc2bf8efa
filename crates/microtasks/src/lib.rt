//! The queue of jobs that wait for the next microtask checkpoint: first in, first out.
#![tactic(auto)]

ghost use Rattle.std.specs.Prelude.{◌≡◌, ◌++◌, [], ◌∷◌, List, length, nat_lt, OnOk, OnErr, IfSome, IfNone};

pub use page_base::MemoryFault;
use std::alloc::Global;
use std::collections::VecDeque;
use std::marker::Model;

/// A queue of jobs. It is seen as the list of those that wait, the oldest first.
#[derive(Drop)]
pub struct Jobs<J> {
    waiting: VecDeque<J>,
}

impl<J> Model for Jobs<J> {
    ghost use Rattle.std.specs.Prelude.{List};

    ghost Value = { List J };

    ghost view = { λ jobs. jobs.waiting.items };
}

impl<J> Jobs<J> {
    /// A queue in which no job waits. It keeps the allocator and takes no memory yet.
    pub fn new(alloc: Global) -> Jobs<J>
        ensures { result ≡ [] }
    {
        Jobs {
            waiting: VecDeque::new(alloc),
        }
    }

    /// Queues a job behind all others. For want of memory the queue stays as it was.
    pub fn push(&mut self, job: J) -> Result<(), MemoryFault>
    where
        J: Drop,
        ensures ok { OnOk result (self.new ≡ self.old ++ job ∷ []) }
        ensures err { OnErr result (self.new ≡ self.old) }
    {
        self.waiting.push_back(job)?;
        Ok(())
    }

    /// Whether a job waits. Takes no memory.
    pub fn has_job(&self) -> bool
        ensures { result ≡ nat_lt 0 (length self.now) }
    {
        self.waiting.len() > 0
    }

    /// Takes the oldest job out, and answers None exactly where no job waits. Takes no memory.
    pub fn pop(&mut self) -> Option<J>
        ensures oldest { IfSome result (λ job. self.old ≡ job ∷ self.new) }
        ensures empty { IfNone result (self.old ≡ []) }
        ensures stays { IfNone result (self.new ≡ []) }
    {
        self.waiting.pop_front()
    }
}
