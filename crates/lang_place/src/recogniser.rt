//! Reads a script terminal by terminal.

ghost use Rattle.std.specs.Prelude.{◌≡◌, ⊤, List, ◌∷◌, [], IsTrue, OnOk, IfOk, true, false, Ok};
ghost use Rattle.lang_place.specs.Expecting.{branches, perhaps_forms, onto, Reads, Refuses, IsToCome};
ghost use Rattle.lang_place.specs.Held.{ahead};

use crate::expected::{Expected, Next, Within};
use crate::following::after;
use crate::terminal::Terminal;
use std::alloc::{AllocError, Global};

/// What is still to come of a script, behind what was read of it.
#[derive(Drop)]
pub(crate) struct Recogniser {
    pub next: Next,
    /// What comes behind it, the last part first.
    pub later: Vec<Expected>,
}

/// Puts a part before the others, where there is one.
fn push(later: &mut Vec<Expected>, part: Option<Expected>) -> Result<(), AllocError>
    ensures { OnOk result (onto later.new.items [] ≡ perhaps_forms part (onto later.old.items [])) }
{
    match part {
        Some(expected) => Ok(later.push(expected)?),
        None => Ok(()),
    }
}

impl Recogniser {
    pub(crate) fn new(alloc: Global) -> Recogniser
        ensures next { result.next ≡ Next.Part (Expected.Statements Within.Script) }
        ensures later { result.later.items ≡ [] }
    {
        Recogniser {
            next: Next::Part(Expected::Statements(Within::Script)),
            later: Vec::new(alloc),
        }
    }

    /// Goes on to the next part, where nothing more of this one is to come. Says whether there is one.
    fn advance(&mut self) -> bool
        ensures more { result ≡ true → IsToCome self.new.next }
        ensures same { result ≡ true → ahead self.new ≡ ahead self.old }
        ensures none { result ≡ false → ahead self.old ≡ [] ∷ [] }
    {
        match self.next {
            Next::Done => match self.later.pop() {
                Some(expected) => {
                    self.next = Next::Part(expected);
                    true
                }
                None => false,
            },
            _ => true,
        }
    }

    /// Reads a terminal. Says whether it can come here.
    pub(crate) fn take(&mut self, terminal: Terminal) -> Result<bool, AllocError>
        ensures taken { result ≡ Ok true → Reads (ahead self.old) terminal (ahead self.new) }
        ensures refused { result ≡ Ok false → Refuses (ahead self.old) terminal }
    {
        if !self.advance() {
            return Ok(false);
        }
        let Some(taken) = after(self.next, terminal) else {
            return Ok(false);
        };
        push(&mut self.later, taken.last)?;
        push(&mut self.later, taken.then)?;
        self.next = taken.next;
        Ok(true)
    }
}
