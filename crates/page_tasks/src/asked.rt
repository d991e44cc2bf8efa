//! Which host closures were asked by tasks that wait. They are few, since a closure is asked once and a page has few closures, so
//! they are gone through one after another.
ghost use Rattle.std.specs.Prelude.{◌≡◌, ◌+◌, ◌≤◌, ◌==◌, ◌++◌, not, length, vec_len, vec_capacity, None, OnOk, IsOk};
ghost use Rattle.std.specs.Option.{option_to_list};
ghost use Rattle.std.specs.List.{filter};
ghost use Rattle.page_tasks.specs.Asking.{asked_by, asked_for};

use crate::page_task::TaskSteps;
use crate::tasks::HostTask;
use task_pool::MemoryFault;

/// A task of a host closure that waits, with its number.
#[derive(Clone, Copy)]
pub struct Asked {
    pub number: u64,
    pub task: HostTask,
}

/// What is noted of a task: nothing but of that of a host closure.
pub fn asked_of(number: u64, steps: &TaskSteps) -> Option<Asked>
    ensures { result ≡ asked_by number steps.now }
{
    match steps {
        TaskSteps::AnswerHost(task) => Some(Asked {
            number,
            task: *task,
        }),
        _ => None,
    }
}

/// Makes room for what is to be noted. Where that is nothing, it needs no memory.
pub fn make_room(asked: &mut Vec<Asked>, more: Option<Asked>) -> Result<(), MemoryFault>
    ensures items { asked.new.items ≡ asked.old.items }
    ensures room { OnOk result (vec_len asked.new + length (option_to_list more) ≤ vec_capacity asked.new) }
    ensures none { more ≡ None → IsOk result }
{
    if more.is_some() {
        asked.reserve(1)?;
    }
    Ok(())
}

/// Notes what is to be noted behind the others. There is room.
pub fn note(asked: &mut Vec<Asked>, more: Option<Asked>)
    requires { vec_len asked.old + length (option_to_list more) ≤ vec_capacity asked.old }
    ensures { asked.new.items ≡ asked.old.items ++ option_to_list more }
{
    if let Some(more) = more {
        let noted: Result<_, _> = asked.push(more);
        noted.unwrap();
    }
}

/// The task with a number is noted no more.
pub fn forget(asked: &mut Vec<Asked>, number: u64)
    ensures { asked.new.items ≡ filter (λ a. not (a.number == number)) asked.old.items }
{
    asked.retain(|a| a.number != number);
}

/// The first task noted that a registration asked for.
pub fn find_asked(asked: &[Asked], registration: u32) -> Option<HostTask>
    ensures { result ≡ asked_for registration asked.now }
{
    let asked = asked.iter().find(|a| a.task.registration == registration)?;
    Some(asked.task)
}
