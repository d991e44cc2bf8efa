//! Pools: lists of numbered items, which are taken out by ticket and in order.
ghost use Rattle.std.specs.Prelude.{◌≡◌, ◌+◌, ◌^◌, ◌<◌, length, IfOk};

use std::alloc::Global;
use std::marker::Brand;
use std::process::Abort;
use std::sync::ledger::{Blank, Ledger};
use std::test::Fail;
use task_pool::{ListId, Pool, Steps, Ticket};

const TASKS: usize = 100_000;

// Numbered items in one list, with their tickets.
fn fill<L: Ledger>(
    alloc: Global,
    pool: &mut Pool<u64>,
    l: ListId,
    steps: &mut Steps<L>,
) -> Result<Vec<Ticket>, Fail>
    requires list { l.0 < length pool.old.lists }
    requires inserts { pool.old.inserts ≡ 0 }
    ensures { IfOk result (λ _. length pool.new.lists ≡ length pool.old.lists) }
{
    let mut tickets = Vec::new(alloc);
    for number in 0..TASKS {
        let Ok(ticket) = pool.push_back(l, number as u64, number as u64 + 5, steps) else {
            return Err(Fail::from("no memory"));
        };
        tickets.push(ticket)?;
    }
    Ok(tickets)
}

// Takes every second item out, in a scattered order: 7919 has no divisor in common with 50,000.
fn scatter<L: Ledger>(
    rt: &impl Abort,
    pool: &mut Pool<u64>,
    tickets: &[Ticket],
    steps: &mut Steps<L>,
)
    ensures { length pool.new.lists ≡ length pool.old.lists }
{
    for turn in 0..TASKS / 2 {
        let number = turn * 7919 % (TASKS / 2) * 2;
        assert!(rt; number < tickets.len());
        let taken = pool.unlink(tickets[number], steps);
        assert_eq!(rt; taken, Some((number as u64, number as u64 + 5)));
        assert_eq!(rt; pool.unlink(tickets[number], steps), None);
    }
}

// Takes the rest, which comes in the order in which it was put in.
fn drain<L: Ledger>(rt: &impl Abort, pool: &mut Pool<u64>, l: ListId, steps: &mut Steps<L>)
    requires list { l.0 < length pool.old.lists }
{
    for turn in 0..TASKS / 2 {
        let number = turn as u64 * 2 + 1;
        assert_eq!(rt; pool.front(l), Some(number));
        assert_eq!(rt; pool.pop_front(l, steps), Some((number, number + 5)));
    }
    assert_eq!(rt; pool.front(l), None);
    assert_eq!(rt; pool.pop_front(l, steps), None);
}

fn scattered<L: Ledger>(rt: &impl Abort, alloc: Global, blank: Blank) -> Result<(), Fail>
    requires name { blank.name ≡ L.name }
    requires parts { blank.parts ≡ L.parts }
    requires some { 0 < blank.parts }
{
    let (book, share) = blank.open::<L>();
    let mut steps = Steps::new(book, share);
    let mut pool = Pool::new(alloc);
    let l = pool.new_list()?;
    let tickets = fill(alloc, &mut pool, l, &mut steps)?;
    scatter(rt, &mut pool, &tickets, &mut steps);
    assert_eq!(rt; pool.spare(), TASKS / 2);
    drain(rt, &mut pool, l, &mut steps);
    assert_eq!(rt; pool.spare(), TASKS);
    Ok(())
}

// Puts an item at the end of a list.
fn put<L: Ledger>(
    pool: &mut Pool<char>,
    l: ListId,
    number: u64,
    item: char,
    steps: &mut Steps<L>,
) -> Result<Ticket, Fail>
    requires list { l.0 < length pool.old.lists }
    requires inserts { pool.old.inserts + 1 < 2 ^ 64 }
    ensures lists { IfOk result (λ _. length pool.new.lists ≡ length pool.old.lists) }
    ensures inserts { IfOk result (λ _. pool.new.inserts ≡ pool.old.inserts + 1) }
{
    match pool.push_back(l, number, item, steps) {
        Ok(ticket) => Ok(ticket),
        Err(_) => Err(Fail::from("no memory")),
    }
}

// Two lists in one room, and an old ticket whose cell is used again.
fn used_again<L: Ledger>(
    rt: &impl Abort,
    pool: &mut Pool<char>,
    steps: &mut Steps<L>,
) -> Result<(), Fail>
    requires { pool.old.inserts + 2 < 2 ^ 64 }
{
    let first = pool.new_list()?;
    let second = pool.new_list()?;
    let old = put(pool, first, 1, 'a', steps)?;
    let taken = pool.unlink(old, steps);
    let new = put(pool, second, 2, 'b', steps)?;
    assert_eq!(rt; (taken, new.0.key), (Some((1, 'a')), old.0.key));
    assert_eq!(rt; pool.unlink(old, steps), None);
    assert_eq!(rt; [pool.front(first), pool.front(second)], [None, Some(2)]);
    assert_eq!(rt; pool.pop_front(second, steps), Some((2, 'b')));
    Ok(())
}

fn two_lists<L: Ledger>(rt: &impl Abort, alloc: Global, blank: Blank) -> Result<(), Fail>
    requires name { blank.name ≡ L.name }
    requires parts { blank.parts ≡ L.parts }
    requires some { 0 < blank.parts }
{
    let (book, share) = blank.open::<L>();
    let mut steps = Steps::new(book, share);
    let mut pool = Pool::new(alloc);
    pool.reserve(3)?;
    assert_eq!(rt; pool.spare(), 3);
    used_again(rt, &mut pool, &mut steps)
}

#[test]
fn half_of_100000_is_taken_out_by_ticket(rt: HostRuntime) -> Result<(), Fail> {
    scattered::<Brand>(&rt, rt.alloc(), Blank::new(1))
}

#[test]
fn an_old_ticket_never_takes_a_newer_item(rt: HostRuntime) -> Result<(), Fail> {
    two_lists::<Brand>(&rt, rt.alloc(), Blank::new(1))
}
