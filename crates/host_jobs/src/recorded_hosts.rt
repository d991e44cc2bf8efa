ghost use Rattle.std.specs.Prelude.{◌≡◌, List, map, drop, IfOk};
ghost use Rattle.page_types.specs.Counts.{raised};
ghost use Rattle.host_jobs.specs.RecordedPort.{RecordedPort, first_port};
ghost use Rattle.host_jobs.specs.ToldTable.{closures_of};

use crate::closure::Closure;
use crate::{HostPort, HostTable, NoHost, Recorded, slot};
use std::alloc::{AllocError, Global};
use std::marker::Model;

/// A port that answers from a record, and calls nothing. It is seen as its closures, the answers that it still keeps, and
/// how often it has refused.
#[derive(Drop)]
pub struct RecordedHosts {
    closures: Vec<Closure>,
    answers: Vec<Recorded>,
    next: usize,
    refusals: u64,
}

impl Model for RecordedHosts {
    ghost use Rattle.std.specs.Prelude.{map, drop, ◌≤◌, vec_len};
    ghost use Rattle.host_jobs.specs.RecordedPort.{RecordedPort, answers_of};
    ghost use Rattle.host_jobs.specs.ToldClosure.{told};

    ghost Value = { RecordedPort };

    ghost view = { λ port. record {
      closures = map told port.closures.items;
      answers = answers_of (drop port.next port.answers.items);
      refusals = port.refusals;
    } };

    ghost invariant = { λ port. port.next ≤ vec_len port.answers };
}

impl RecordedHosts {
    /// A port with the kinds, ranges and marks of a table's closures, and the answers of a record in their order; the
    /// closures and numbers beside these don't count. Want of memory is the only error.
    pub fn new(
        alloc: Global,
        table: &HostTable,
        answers: Vec<Recorded>,
    ) -> Result<RecordedHosts, AllocError>
        ensures { IfOk result (λ port. port ≡ first_port (closures_of table.now) answers.items) }
    {
        Ok(RecordedHosts {
            closures: slot::closures(alloc, &table.slots)?,
            answers,
            next: 0,
            refusals: 0,
        })
    }

    // Counts a refusal.
    fn refuse(&mut self) -> NoHost
        ensures { self.new ≡ record self.old { refusals = raised self.old.refusals } }
    {
        self.refusals = self.refusals.saturating_add(1);
        NoHost
    }
}

impl HostPort for RecordedHosts {
    ghost use Rattle.std.specs.Prelude.{Some};

    ghost closures = { λ port. port.closures };

    ghost kept = { λ port. Some port.answers };

    ghost refusals = { λ port. port.refusals };

    fn live(&self, k: u32) -> bool {
        let index = k as usize;
        index < self.closures.len() && self.closures[index].is_live()
    }

    fn known(&self, k: u32) -> bool {
        (k as usize) < self.closures.len()
    }

    fn fits(&self, k: u32, x: i64) -> bool {
        let index = k as usize;
        index < self.closures.len() && self.closures[index].takes(x)
    }

    /// Refuses exactly where the next answer is absent or does not meet the relation of closure `k` on `x`. Takes no memory.
    fn fire_live(&mut self, k: u32, x: i64) -> Result<Result<i64, i64>, NoHost> {
        let index = k as usize;
        let Some(recorded) = self.answers.get(self.next) else {
            return Err(self.refuse());
        };
        let answer = recorded.answer;
        if !self.closures[index].allows(x, answer) {
            return Err(self.refuse());
        }
        self.closures[index].mark_fired();
        self.next += 1;
        Ok(answer)
    }

    fn give_up(&mut self, k: u32) {
        let index = k as usize;
        if index < self.closures.len() {
            self.closures[index].give_up();
        }
    }
}
