//! The promises that were noted as outstanding.

ghost use Rattle.std.specs.Prelude.{◌≡◌, ◌+◌, ◌≤◌, ◌<◌, [], OnOk, OnErr};
ghost use Rattle.page_parts.specs.Words.{and_last, has_number};

use page_values::MemoryFault;
use std::alloc::Global;
use std::marker::Model;

// Numbers of promises, in the order in which they were noted, each as often as it was; and up to which number there is room.
//
// A mark for each number tells whether it was noted, so that no call looks for one among the others. The numbers are what
// the definitions keep.
#[derive(Drop)]
pub(crate) struct Noted {
    numbers: Vec<u32>,
    marks: Vec<bool>,
}

impl Model for Noted {
    ghost use Rattle.std.specs.Prelude.{length};
    ghost use Rattle.page_notices.specs.Marks.{Numbers, coded_numbers, AreMarked};

    ghost Value = { Numbers };

    ghost coded = { coded_numbers };

    ghost view = { λ a. record { noted = a.numbers.items; room = length a.marks.items } };

    ghost invariant = { λ a. AreMarked a.marks.items a.numbers.items };
}

impl Noted {
    // None is noted, and there is room for none. Takes no memory.
    pub(crate) fn new(alloc: Global) -> Noted
        ensures { result ≡ record { noted = []; room = 0 } }
    {
        Noted {
            numbers: Vec::new(alloc),
            marks: Vec::new(alloc),
        }
    }

    // Makes room for the number behind those that have room, where `count` is that number.
    pub(crate) fn make_room(&mut self, count: u32) -> Result<(), MemoryFault>
        requires { count ≤ self.old.room + 1 }
        ensures room { OnOk result (count ≤ self.new.room) }
        ensures kept { self.new.noted ≡ self.old.noted }
        ensures grows { self.old.room ≤ self.new.room }
    {
        if self.marks.len() < count as usize {
            self.marks.push(false)?;
        }
        Ok(())
    }

    // Notes a number.
    pub(crate) fn note(&mut self, number: u32) -> Result<(), MemoryFault>
        requires counted { 0 < number }
        requires within { number ≤ self.old.room }
        ensures ok { OnOk result (self.new.noted ≡ and_last self.old.noted number) }
        ensures err { OnErr result (self.new.noted ≡ self.old.noted) }
        ensures room { self.new.room ≡ self.old.room }
    {
        self.numbers.push(number)?;
        self.marks[number as usize - 1] = true;
        Ok(())
    }

    // Whether a number was noted. Takes no memory.
    pub(crate) fn has(&self, number: u32) -> bool
        requires { 0 < number }
        ensures { result ≡ has_number self.now.noted number }
    {
        match self.marks.get(number as usize - 1) {
            Some(mark) => *mark,
            None => false,
        }
    }
}
