//! The timeouts of idle callbacks.
ghost use Rattle.std.specs.Prelude.{◌≡◌, ◌^◌, ◌<◌, [], List, is_some, OnOk, OnErr};
ghost use Rattle.std.specs.Option.{option_map};
ghost use Rattle.page_parts.specs.Words.{is_there};
ghost use Rattle.page_model.specs.State.{Completing};
ghost use Rattle.page_model.specs.Parallel.{first_item_of};
ghost use Rattle.parallel_items.specs.InParallel.{Waiting};
ghost use Rattle.parallel_items.specs.Items.{idle_items, first_idle, due_of, taken_of, LeavesIdle};
ghost use Rattle.parallel_items.specs.Steps.{and_idle_timeout};
ghost use Rattle.parallel_items.specs.Seen.{timeout_taken};

use crate::MemoryFault;
use page_base::Micros;
use std::alloc::Global;
use std::cmp::Reverse;
use std::collections::BinaryHeap;
use std::marker::Model;

// An idle timeout. The one that is due first comes first, and of two that are due together the one that was started first.
#[derive(Clone, Copy, PartialEq, Eq, PartialOrd, Ord)]
pub(crate) struct IdleTimeout {
    pub due: Micros,
    pub handle: u32,
    pub registration: u32,
}

// The idle timeouts, and the handle of the last one. The heap's greatest is the one that comes due first.
#[derive(Drop)]
pub(crate) struct IdleTimeouts {
    waiting: BinaryHeap<Reverse<IdleTimeout>>,
    last: u32,
}

impl Model for IdleTimeouts {
    ghost use Rattle.parallel_items.specs.Views.{IdleTimers};

    ghost Value = { IdleTimers };

    ghost use Rattle.std.specs.BinaryHeap.{heap_items};
    ghost use Rattle.parallel_items.specs.Seen.{idle_in_order};
    ghost use Rattle.parallel_items.specs.Kept.{AreIdleKept};

    ghost view = { λ t. record { timers = idle_in_order t.last (heap_items t.waiting); last = t.last } };

    ghost invariant = { λ t. AreIdleKept t.last (heap_items t.waiting) };
}

impl IdleTimeouts {
    pub(crate) fn new(alloc: Global) -> IdleTimeouts
        ensures timers { result.timers ≡ [] }
        ensures last { result.last ≡ 0 }
    {
        IdleTimeouts {
            waiting: BinaryHeap::new(alloc),
            last: 0,
        }
    }

    // Starts an idle timeout, so many milliseconds from now, for a callback with a greater handle than those before.
    pub(crate) fn start(
        &mut self,
        handle: u32,
        registration: u32,
        ms: u64,
        now: Micros,
    ) -> Result<(), MemoryFault>
        requires handle { self.old.last < handle }
        requires milliseconds { ms < 2 ^ 32 }
        requires moment { now.0 < 2 ^ 63 }
        ensures started { OnOk result (self.new.timers ≡ and_idle_timeout ms now.0 handle registration self.old.timers) }
        ensures last { OnOk result (self.new.last ≡ handle) }
        ensures err { OnErr result (self.new ≡ self.old) }
    {
        self.waiting.push(Reverse(IdleTimeout {
            due: Micros(now.0 + ms * 1000),
            handle,
            registration,
        }))?;
        self.last = handle;
        Ok(())
    }

    // The handle of the last one. Takes no memory.
    pub(crate) fn last(&self) -> u32
        ensures { result ≡ self.now.last }
    {
        self.last
    }

    pub(crate) fn next_due(&self) -> Option<Micros>
        ensures { option_map (λ moment. moment.0) result ≡ due_of (first_item_of (idle_items self.now.timers)) }
    {
        let first = self.waiting.peek()?;
        Some(first.0.due)
    }

    // Takes the first of those that are due earliest.
    pub(crate) fn take_first(&mut self) -> Option<IdleTimeout>
        ensures taken { (cs : List Completing) → timeout_taken result ≡ taken_of (first_idle self.old.timers) cs }
        ensures some { is_some result ≡ is_there (first_item_of (idle_items self.old.timers)) }
        ensures left { (w : Waiting) → LeavesIdle self.old.timers self.new.timers w }
        ensures last { self.new.last ≡ self.old.last }
    {
        let first = self.waiting.pop()?;
        Some(first.0)
    }
}
