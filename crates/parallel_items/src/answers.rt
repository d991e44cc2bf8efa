//! The answers of host closures that are pending.
ghost use Rattle.std.specs.Prelude.{◌≡◌, ◌==◌, [], List, find, Some, is_some, OnOk, OnErr};
ghost use Rattle.std.specs.Option.{option_map};
ghost use Rattle.page_parts.specs.Words.{and_last, without, is_there};
ghost use Rattle.page_model.specs.State.{Completing};
ghost use Rattle.page_model.specs.Parallel.{first_item_of};
ghost use Rattle.parallel_items.specs.InParallel.{Waiting};
ghost use Rattle.parallel_items.specs.Items.{answer_items, first_answer, due_of, earlier, taken_of, LeavesAnswers};
ghost use Rattle.parallel_items.specs.Steps.{pending_in};
ghost use Rattle.parallel_items.specs.Seen.{answer_seen, answers_of, item_of_answer, item_if_any, answer_taken};
ghost use Rattle.page_tasks.specs.Seen.{host_task};

use crate::{HostAnswer, HostTask, MemoryFault};
use page_base::Micros;
use std::alloc::Global;
use std::marker::Model;

// In the order in which they were asked. A page has at most 64 closures and asks each once, so a list is enough.
#[derive(Drop)]
pub(crate) struct HostAnswers {
    answers: Vec<HostAnswer>,
}

impl Model for HostAnswers {
    ghost use Rattle.std.specs.Prelude.{List};
    ghost use Rattle.page_model.specs.State as model;

    ghost Value = { List model.HostAnswer };

    ghost use Rattle.parallel_items.specs.Seen.{answers_of};

    ghost view = { λ a. answers_of a.answers.items };
}

// The answer of a registration.
fn asked_by(answers: &[HostAnswer], registration: u32) -> Option<HostAnswer>
    ensures { result ≡ find (λ a. a.task.registration == registration) answers.now }
{
    for answer in answers {
        if answer.task.registration == registration {
            return Some(*answer);
        }
    }
    None
}

// The one that is due earlier, the first of them where they are due together.
fn no_later(first: Option<HostAnswer>, answer: HostAnswer) -> HostAnswer
    ensures { Some (item_of_answer result) ≡ earlier (item_if_any first) (Some (item_of_answer answer)) }
{
    match first {
        Some(before) if before.due <= answer.due => before,
        _ => answer,
    }
}

// The first of those that are due earliest.
fn first_of(answers: &[HostAnswer]) -> Option<HostAnswer>
    ensures { item_if_any result ≡ first_answer (answers_of answers.now) }
{
    let mut first = None;
    for answer in answers {
        first = Some(no_later(first, *answer));
    }
    first
}

impl HostAnswers {
    pub(crate) fn new(alloc: Global) -> HostAnswers
        ensures { result ≡ [] }
    {
        HostAnswers {
            answers: Vec::new(alloc),
        }
    }

    pub(crate) fn ask(&mut self, answer: HostAnswer) -> Result<(), MemoryFault>
        ensures asked { OnOk result (self.new ≡ and_last self.old (answer_seen answer)) }
        ensures err { OnErr result (self.new ≡ self.old) }
    {
        self.answers.push(answer)?;
        Ok(())
    }

    pub(crate) fn pending(&self, registration: u32) -> Option<HostTask>
        ensures { option_map host_task result ≡ pending_in registration self.now }
    {
        let answer = asked_by(&self.answers, registration)?;
        Some(answer.task)
    }

    pub(crate) fn give_up(&mut self, registration: u32)
        ensures { self.new ≡ without (λ a. a.task.registration == registration) self.old }
    {
        self.answers
            .retain(|answer| answer.task.registration != registration);
    }

    pub(crate) fn next_due(&self) -> Option<Micros>
        ensures { option_map (λ moment. moment.0) result ≡ due_of (first_item_of (answer_items self.now)) }
    {
        let first = first_of(&self.answers)?;
        Some(first.due)
    }

    // Takes the first of those that are due earliest.
    pub(crate) fn take_first(&mut self) -> Option<HostTask>
        ensures taken { (cs : List Completing) → answer_taken result ≡ taken_of (first_answer self.old) cs }
        ensures some { is_some result ≡ is_there (first_item_of (answer_items self.old)) }
        ensures left { (w : Waiting) → LeavesAnswers self.old self.new w }
    {
        let first = first_of(&self.answers)?;
        self.give_up(first.task.registration);
        Some(first.task)
    }
}
