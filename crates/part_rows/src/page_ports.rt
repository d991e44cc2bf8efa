//! The host closures of a page: which it has asked, and what its port tells of each.

ghost use Rattle.std.specs.Prelude.{◌≡◌, IfOk};
ghost use Rattle.host_jobs.specs.ToldClosure.{told_once};
ghost use Rattle.host_jobs.specs.ToldTable.{closures_of};
ghost use Rattle.part_rows.specs.TwoClosures.{doubling_closure, answering_closure, both_closures};

use crate::answers::double;
use crate::rows::expect_met;
use host_jobs::{Fired, HostKind, HostOnce, HostPort, HostTable};
use page_hosts::PageHosts;
use std::alloc::{AllocError, Global};
use std::process::Abort;
use std::test::Fail;

// A call on the closures, and what it answers.
enum Step {
    Takes(i64, i64, bool),
    IsFresh(u32, bool),
    IsAsked(u32, bool),
    IsDropped(u32, bool),
    Ask(u32),
    Fire(u32, i64, Result<i64, i64>),
    Drop(u32),
}

use Step::{Ask, Fire, IsAsked, IsDropped, IsFresh, Takes};

// Both closures are asked, the first one is fired and the second one dropped.
const STEPS: [Step; 18] = [
    Takes(0, 100, true),
    Takes(0, 101, false),
    Takes(2, 0, false),
    Takes(-1, 0, false),
    IsFresh(1, true),
    IsFresh(2, false),
    Ask(0),
    Ask(1),
    IsFresh(0, false),
    IsDropped(0, false),
    IsAsked(0, true),
    IsAsked(1, true),
    IsAsked(2, false),
    Fire(0, 21, Ok(42)),
    IsAsked(0, false),
    Step::Drop(1),
    IsDropped(1, true),
    IsFresh(1, false),
];

fn ask<P: HostPort>(hosts: &mut PageHosts<P>, k: u32) -> Result<bool, Fail> {
    if !hosts.is_fresh(k) {
        return Ok(false);
    }
    hosts.ask(k)?;
    Ok(true)
}

// Whether a closure that may be fired answers so.
fn is_fired<P: HostPort>(
    hosts: &mut PageHosts<P>,
    k: u32,
    x: i64,
    answer: Result<i64, i64>,
) -> bool {
    hosts.is_asked(k)
        && hosts.takes(i64::from(k), x)
        && !hosts.is_dropped(k)
        && hosts.fire(k, x) == Ok(answer)
}

fn drop_closure<P: HostPort>(hosts: &mut PageHosts<P>, k: u32) -> bool {
    let is_asked = hosts.is_asked(k);
    if is_asked {
        hosts.drop_closure(k);
    }
    is_asked
}

fn take<P: HostPort>(hosts: &mut PageHosts<P>, step: &Step) -> Result<bool, Fail> {
    match step {
        Takes(k, x, is) => Ok(hosts.takes(*k, *x) == *is),
        IsFresh(k, is) => Ok(hosts.is_fresh(*k) == *is),
        IsAsked(k, is) => Ok(hosts.is_asked(*k) == *is),
        IsDropped(k, is) => Ok(hosts.is_asked(*k) && hosts.is_dropped(*k) == *is),
        Ask(k) => ask(hosts, *k),
        Fire(k, x, answer) => Ok(is_fired(hosts, *k, *x, *answer)),
        Step::Drop(k) => Ok(drop_closure(hosts, *k)),
    }
}

fn take_all<P: HostPort>(rt: &impl Abort, hosts: &mut PageHosts<P>) -> Result<(), Fail> {
    for (number, step) in STEPS.iter().enumerate() {
        expect_met(rt, take(hosts, step)?, number);
    }
    Ok(())
}

// The page's side of a port with two closures.
fn hosts_of<P: HostPort + Drop>(alloc: Global, port: P) -> Result<PageHosts<P>, Fail>
    requires { P.closures port ≡ both_closures }
{
    match PageHosts::new(alloc, port) {
        Ok(hosts) => Ok(hosts),
        Err(_) => Err(Fail::new("out of memory")),
    }
}

// The port of a run that came to its end.
fn ask_to_the_end<P: HostPort + Drop>(rt: &impl Abort, alloc: Global, port: P) -> Result<P, Fail>
    requires { P.closures port ≡ both_closures }
{
    let mut hosts = hosts_of(alloc, port)?;
    take_all(rt, &mut hosts)?;
    Ok(hosts.into_port())
}

// The port of a run that stopped there.
fn ask_so_far<P: HostPort + Drop>(rt: &impl Abort, alloc: Global, port: P) -> Result<P, Fail>
    requires { P.closures port ≡ both_closures }
{
    let mut hosts = hosts_of(alloc, port)?;
    take_all(rt, &mut hosts)?;
    Ok(hosts.into_port_so_far())
}

fn doubling(alloc: Global) -> Result<HostOnce, AllocError>
    ensures { IfOk result (λ once. told_once once ≡ doubling_closure) }
{
    let job = Box::new(alloc, double)?;
    Ok(HostOnce::new(HostKind::Double, -100, 100, job))
}

fn answering_7(alloc: Global) -> Result<HostOnce, AllocError>
    ensures { IfOk result (λ once. told_once once ≡ answering_closure) }
{
    let job = Box::new(alloc, |_x: i64| Ok(7))?;
    Ok(HostOnce::new(HostKind::Any, 0, 9, job))
}

// The first closure answers with a number's double, and the second one with 7.
fn both(alloc: Global) -> Result<HostTable, AllocError>
    ensures { IfOk result (λ table. closures_of table ≡ both_closures) }
{
    let mut table = HostTable::new(alloc);
    table.push(doubling(alloc)?)?;
    table.push(answering_7(alloc)?)?;
    Ok(table)
}

fn fire_both(table: &mut HostTable) -> (Fired, Fired) {
    (table.fire(0, 21), table.fire(1, 5))
}

#[test]
fn a_closure_is_asked_and_then_fired_or_dropped(rt: HostRuntime) -> Result<(), Fail> {
    let table = both(rt.alloc())?;
    let mut table = ask_to_the_end(&rt, rt.alloc(), table)?;
    let fired = fire_both(&mut table);
    drop(table);
    assert_eq!(rt; fired, (Fired::Used, Fired::Used));
    Ok(())
}

#[test]
fn a_port_so_far_has_dropped_nothing(rt: HostRuntime) -> Result<(), Fail> {
    let table = both(rt.alloc())?;
    let mut table = ask_so_far(&rt, rt.alloc(), table)?;
    let fired = fire_both(&mut table);
    drop(table);
    assert_eq!(rt; fired, (Fired::Used, Fired::Answer(Ok(7))));
    Ok(())
}
