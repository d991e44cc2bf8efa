//! Rooms of cells: what a name finds, and how accesses are counted.
ghost use Rattle.std.specs.Prelude.{◌≡◌, ◌+◌, ◌<◌, ◌^◌, OnOk, OnSome};

use cell_room::{Cell, MemoryFault, Room, Steps};
use std::alloc::Global;
use std::marker::Brand;
use std::process::Abort;
use std::sync::ledger::{Blank, Ledger};

// Four accesses to one room: the book of the ledger tells four more.
fn four_accesses<L: Ledger>(room: &mut Room<u32>, steps: &mut Steps<L>) -> Option<u32>
    requires { room.old.inserts + 1 < 2 ^ 64 }
    ensures { OnSome result (steps.new ≡ steps.old + 4) }
{
    let Ok(cell) = room.insert(7, steps) else {
        return None
    };
    let seven = *room.get(cell, steps)?;
    *room.get_mut(cell, steps)? += seven;
    room.remove(cell, steps)
}

fn counted<L: Ledger>(rt: &impl Abort, alloc: Global, blank: Blank)
    requires name { blank.name ≡ L.name }
    requires parts { blank.parts ≡ L.parts }
    requires some { 0 < blank.parts }
{
    let (book, share) = blank.open::<L>();
    let mut steps = Steps::new(book, share);
    let mut room = Room::new(alloc);
    assert_eq!(rt; four_accesses(&mut room, &mut steps), Some(14));
}

// Puts an item in, where a name is left for it.
fn put<L: Ledger>(
    room: &mut Room<u32>,
    item: u32,
    steps: &mut Steps<L>,
) -> Result<Cell, MemoryFault>
    requires { room.old.inserts + 1 < 2 ^ 64 }
    ensures { OnOk result (room.new.inserts ≡ room.old.inserts + 1) }
{
    match room.insert(item, steps) {
        Ok(cell) => Ok(cell),
        Err(_) => Err(MemoryFault::OutOfMemory),
    }
}

fn found<L: Ledger>(room: &Room<u32>, cells: [Cell; 3], steps: &mut Steps<L>) -> [Option<u32>; 3] {
    let [first, second, third] = cells;
    [
        room.get(first, steps).copied(),
        room.get(second, steps).copied(),
        room.get(third, steps).copied(),
    ]
}

fn old_names<L: Ledger>(
    rt: &impl Abort,
    room: &mut Room<u32>,
    steps: &mut Steps<L>,
) -> Result<(), MemoryFault>
    requires { room.old.inserts + 9 < 2 ^ 64 }
{
    let first = put(room, 10, steps)?;
    let second = put(room, 20, steps)?;
    let removed = [room.remove(first, steps), room.remove(first, steps)];
    assert_eq!(rt; removed, [Some(10), None]);
    let third = put(room, 30, steps)?;
    assert_eq!(rt; third.key, first.key);
    assert!(rt; room.get_mut(first, steps).is_none());
    assert_eq!(rt; room.remove(first, steps), None);
    let there = found(room, [first, second, third], steps);
    assert_eq!(rt; there, [None, Some(20), Some(30)]);
    Ok(())
}

fn named<L: Ledger>(rt: &impl Abort, alloc: Global, blank: Blank) -> Result<(), MemoryFault>
    requires name { blank.name ≡ L.name }
    requires parts { blank.parts ≡ L.parts }
    requires some { 0 < blank.parts }
{
    let (book, share) = blank.open::<L>();
    let mut steps = Steps::new(book, share);
    let mut room = Room::new(alloc);
    old_names(rt, &mut room, &mut steps)
}

fn reserved<L: Ledger>(rt: &impl Abort, alloc: Global, blank: Blank) -> Result<(), MemoryFault>
    requires name { blank.name ≡ L.name }
    requires parts { blank.parts ≡ L.parts }
    requires some { 0 < blank.parts }
{
    let (book, share) = blank.open::<L>();
    let mut steps = Steps::new(book, share);
    let mut room = Room::new(alloc);
    let unreserved = room.spare();
    room.reserve(2)?;
    assert_eq!(rt; [unreserved, room.spare()], [0, 2]);
    let cell = put(&mut room, 1, &mut steps)?;
    let with_one = room.spare();
    let removed = room.remove(cell, &mut steps);
    assert_eq!(rt; (with_one, removed, room.spare()), (1, Some(1), 2));
    Ok(())
}

#[test]
fn each_access_is_counted_in_the_book(rt: HostRuntime) {
    counted::<Brand>(&rt, rt.alloc(), Blank::new(1));
}

#[test]
fn an_old_name_never_finds_a_newer_item(rt: HostRuntime) -> Result<(), MemoryFault> {
    named::<Brand>(&rt, rt.alloc(), Blank::new(1))
}

#[test]
fn a_removal_gives_back_what_an_insert_took(rt: HostRuntime) -> Result<(), MemoryFault> {
    reserved::<Brand>(&rt, rt.alloc(), Blank::new(1))
}
