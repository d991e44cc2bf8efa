//! Worked calls, and the lines that they write to a sink in memory.

ghost use Rattle.std.specs.Prelude.{◌+◌, ◌^◌, ◌<◌, length};
ghost use Rattle.promise_core.specs.Held.{IsMade};
ghost use Rattle.page_notices.specs.Steps.{held};

use crate::rows::{expect_bytes, expect_met};
use page_io::MemSink;
use page_script::{
    Callbacks, Kind, PageScript, PrioSource, Priority, Reaction, Registration, Role,
    SchedulingState,
};
use page_values::{FunNames, Func, Items, Value};
use std::alloc::Global;
use std::process::Abort;
use std::test::Fail;
use trace_text::{LineSink, RegKind};

fn first_page(alloc: Global) -> Result<PageScript, Fail> {
    Ok(PageScript::new(alloc, 1, 2, FunNames::new(Vec::new(alloc)))?)
}

fn sink(alloc: Global) -> Result<LineSink<MemSink>, Fail> {
    Ok(LineSink::new(alloc, MemSink::new(alloc, 1000, Vec::new(alloc))?))
}

// There is room for one more of each.
fn assert_room(rt: &impl Abort, page: &PageScript)
    ensures turns { page.now.turns + 1 < 2 ^ 64 }
    ensures registrations { length page.now.registrations + 1 < 2 ^ 32 }
    ensures promises { length page.now.notices.promises + 1 < 2 ^ 32 }
    ensures combinators { length page.now.combinators + 1 < 2 ^ 32 }
    ensures states { length page.now.scheduling_states + 1 < 2 ^ 32 }
{
    assert!(rt; page.turns() < 100 && page.registered() < 100 && page.promises_made() < 100);
    assert!(rt; page.combinators_made() < 100 && page.states_made() < 100);
}

fn assert_made(rt: &impl Abort, page: &PageScript, p: u32)
    ensures { IsMade (held page.now.notices) p }
{
    assert!(rt; p > 0 && p <= page.promises_made());
}

// A call on the script of a page, and what it answers.
enum Call {
    // A combinator `all` of so many items, with its number and that of its result.
    All(u32, u32, u32),
    Item(i64, u32),
    // The first element of a combinator, made of a promise that is not outstanding.
    Element(u32, u32),
    Own(u32),
    Rejected(i64, u32),
    Lead(u32, i64),
    // A promise that is not led into: it was settled, or never made.
    LeadNowhere(u32),
    // A handler of a promise that is outstanding.
    Handle(u32, Reaction),
    // A timeout with timer id 4.
    Timeout,
    // The scheduling state of a task in the background, whose abort source is signal 3.
    Background,
    // A message of unit to port 3.
    Post,
    // A promise that is told as unhandled.
    Note(u32),
    Look(Look),
}

// A look at the script of a page, and what is found.
enum Look {
    IsOwn(u32, bool),
    Ended(&'static [u32]),
    HasOutcome(u32, bool),
    IsPromise(u32, bool),
    IsRegistered(u32, bool),
    WithTimerId(u32, Option<u32>),
    // How many messages are taken.
    Posts(usize),
}

use Call::{
    All, Background, Element, Handle, Item, Lead, LeadNowhere, Note, Own, Post, Rejected, Timeout,
};
use Look::{Ended, HasOutcome, IsOwn, IsPromise, IsRegistered, Posts, WithTimerId};

fn all(
    rt: &impl Abort,
    page: &mut PageScript,
    lines: &mut LineSink<MemSink>,
    count: u32,
    expected: (u32, u32),
) -> Result<bool, Fail> {
    assert_room(rt, page);
    let made = page.combine(Kind::All, count, lines)?;
    Ok((made.combinator, made.result) == expected)
}

fn item(
    rt: &impl Abort,
    page: &mut PageScript,
    lines: &mut LineSink<MemSink>,
    n: i64,
    p: u32,
) -> Result<bool, Fail> {
    assert_room(rt, page);
    Ok(page.item(Value::Int(n), lines)? == p)
}

fn element(
    rt: &impl Abort,
    page: &mut PageScript,
    lines: &mut LineSink<MemSink>,
    combinator: u32,
    p: u32,
) -> Result<bool, Fail> {
    assert_room(rt, page);
    assert_made(rt, page, p);
    Ok(!page.element(combinator, 0, p, lines)?)
}

fn own(rt: &impl Abort, page: &mut PageScript, p: u32) -> Result<bool, Fail> {
    assert_room(rt, page);
    Ok(page.script_promise()? == p)
}

fn rejected(
    rt: &impl Abort,
    page: &mut PageScript,
    lines: &mut LineSink<MemSink>,
    n: i64,
    p: u32,
) -> Result<bool, Fail> {
    assert_room(rt, page);
    Ok(page.settled_promise(Err(Value::Int(n)), lines)? == p)
}

fn handle(
    rt: &impl Abort,
    page: &mut PageScript,
    lines: &mut LineSink<MemSink>,
    p: u32,
    reaction: Reaction,
) -> Result<bool, Fail> {
    assert_made(rt, page, p);
    Ok(page.subscribe(p, reaction, lines)?)
}

fn lead(
    page: &mut PageScript,
    lines: &mut LineSink<MemSink>,
    into: u32,
    n: i64,
) -> Result<bool, Fail> {
    page.lead_into(into, Ok(Value::Int(n)), lines)?;
    Ok(true)
}

fn leads_nowhere(page: &mut PageScript, lines: &mut LineSink<MemSink>, into: u32) -> bool {
    page.lead_into(into, Ok(Value::Unit), lines).is_err()
}

fn timeout(
    rt: &impl Abort,
    page: &mut PageScript,
    lines: &mut LineSink<MemSink>,
) -> Result<bool, Fail> {
    const REGISTRATION: Registration = Registration {
        role: Role::Of(RegKind::Timeout),
        callbacks: Callbacks::Absent,
        timer_id: 4,
        promise: 0,
        signal: None,
        finally: false,
    };
    assert_room(rt, page);
    page.register(RegKind::Timeout, REGISTRATION, lines)?;
    Ok(true)
}

fn background(rt: &impl Abort, page: &mut PageScript) -> Result<bool, Fail> {
    const STATE: SchedulingState = SchedulingState {
        abort_source: Some(3),
        prio_source: PrioSource::Fixed(Priority::Background),
    };
    assert_room(rt, page);
    let number = page.with_state(STATE)?;
    Ok(number == 1 && page.current_state() == STATE)
}

fn post(page: &mut PageScript, lines: &mut LineSink<MemSink>) -> Result<bool, Fail> {
    page.post(3, Value::Unit, lines)?;
    Ok(true)
}

fn note(rt: &impl Abort, page: &mut PageScript, p: u32) -> Result<bool, Fail> {
    assert_made(rt, page, p);
    Ok(page.note_outstanding(p)?)
}

fn ends_with(page: &mut PageScript, rejected: &[u32]) -> bool {
    page.checkpoint_ended(0, None).as_slice() == rejected
}

// Whether a look finds what is wanted.
fn is_seen(page: &mut PageScript, look: &Look) -> bool {
    match look {
        IsOwn(p, is) => *p > 0 && page.is_script_promise(*p) == *is,
        Ended(rejected) => ends_with(page, *rejected),
        HasOutcome(p, has) => page.outcome(*p).is_some() == *has,
        IsPromise(p, is) => page.is_promise(*p) == *is && (*is || !page.handled(*p)),
        IsRegistered(r, is) => page.is_registered(*r) == *is,
        WithTimerId(id, r) => page.registration_with_timer_id(*id) == *r,
        Posts(count) => page.take_posts().len() == *count,
    }
}

// Whether a call answers what is wanted.
fn take(
    rt: &impl Abort,
    page: &mut PageScript,
    lines: &mut LineSink<MemSink>,
    call: &Call,
) -> Result<bool, Fail> {
    match call {
        All(count, combinator, p) => all(rt, page, lines, *count, (*combinator, *p)),
        Item(n, p) => item(rt, page, lines, *n, *p),
        Element(combinator, p) => element(rt, page, lines, *combinator, *p),
        Own(p) => own(rt, page, *p),
        Rejected(n, p) => rejected(rt, page, lines, *n, *p),
        Lead(into, n) => lead(page, lines, *into, *n),
        LeadNowhere(into) => Ok(leads_nowhere(page, lines, *into)),
        Handle(p, reaction) => handle(rt, page, lines, *p, *reaction),
        Timeout => timeout(rt, page, lines),
        Background => background(rt, page),
        Post => post(page, lines),
        Note(p) => note(rt, page, *p),
        Call::Look(look) => Ok(is_seen(page, look)),
    }
}

fn take_all(
    rt: &impl Abort,
    page: &mut PageScript,
    lines: &mut LineSink<MemSink>,
    calls: &[Call],
) -> Result<(), Fail> {
    for (number, call) in calls.iter().enumerate() {
        expect_met(rt, take(rt, page, lines, call)?, number);
    }
    Ok(())
}

fn write(
    rt: &impl Abort,
    alloc: Global,
    lines: &mut LineSink<MemSink>,
    calls: &[Call],
) -> Result<(), Fail> {
    let mut page = first_page(alloc)?;
    let taken = take_all(rt, &mut page, lines, calls);
    drop(page);
    taken
}

// A page that takes these calls writes these lines.
fn expect(rt: &impl Abort, alloc: Global, calls: &[Call], written: &[u8]) -> Result<(), Fail> {
    let mut lines = sink(alloc)?;
    let taken = write(rt, alloc, &mut lines, calls);
    let sink = lines.into_sink();
    expect_bytes(rt, sink.bytes(), written);
    taken
}

#[test]
fn promises_write_their_lines(rt: HostRuntime) -> Result<(), Fail> {
    const HANDLER: Reaction = Reaction {
        registration: Some(1),
        into: 4,
        state: None,
    };
    // Promise 3 is the element. Promise 5 is told as unhandled, and then it is handled.
    const CALLS: [Call; 10] = [
        All(0, 1, 1),
        Item(7, 2),
        Element(1, 2),
        Own(4),
        Call::Look(IsOwn(4, true)),
        Call::Look(IsOwn(3, false)),
        Rejected(9, 5),
        Call::Look(Ended(&[5])),
        Note(5),
        Handle(5, HANDLER),
    ];
    expect(
        &rt,
        rt.alloc(),
        &CALLS,
        b"0 settle 1 ok []\n0 settle 2 ok 7\n0 job 1 react 2\n0 settle 5 err 9\n\
        0 job 2 react 5\n",
    )
}

#[test]
fn an_element_reports_once(rt: HostRuntime) -> Result<(), Fail> {
    // Promise 3 is the element, which stays pending.
    const CALLS: [Call; 7] = [
        All(1, 1, 1),
        Item(7, 2),
        Element(1, 2),
        Lead(3, 7),
        Call::Look(HasOutcome(1, true)),
        Call::Look(HasOutcome(3, false)),
        LeadNowhere(3),
    ];
    expect(
        &rt,
        rt.alloc(),
        &CALLS,
        b"0 settle 2 ok 7\n0 job 1 react 2\n0 settle 1 ok [7]\n",
    )
}

#[test]
fn what_was_never_made_is_led_nowhere(rt: HostRuntime) -> Result<(), Fail> {
    const CALLS: [Call; 3] = [
        Call::Look(IsPromise(1, false)),
        Call::Look(HasOutcome(1, false)),
        LeadNowhere(1),
    ];
    expect(&rt, rt.alloc(), &CALLS, b"")
}

// The first function, which has no name here.
fn unnamed(alloc: Global) -> Value {
    Value::Fun(Func {
        function: 0,
        bound: Items::new(Vec::new(alloc)),
    })
}

fn is_numbered(page: &PageScript, value: Value) -> bool {
    let is = page.is_numbered(&value);
    drop(value);
    is
}

fn may_settle(page: &PageScript, p: u32, how: Result<Value, Value>) -> bool {
    let may = page.may_settle(p, &how);
    drop(how);
    may
}

// Promise 1 may be settled, but with no function.
fn is_without_functions(alloc: Global, page: &PageScript) -> bool {
    is_numbered(page, Value::Int(1))
        && !is_numbered(page, unnamed(alloc))
        && may_settle(page, 1, Err(Value::Unit))
        && !may_settle(page, 1, Ok(unnamed(alloc)))
        && !may_settle(page, 2, Ok(Value::Unit))
}

fn make_promise(rt: &impl Abort, page: &mut PageScript) -> Result<u32, Fail> {
    assert_room(rt, page);
    Ok(page.new_promise()?)
}

#[test]
fn names_of_functions_are_tested(rt: HostRuntime) -> Result<(), Fail> {
    let mut page = first_page(rt.alloc())?;
    let made = make_promise(&rt, &mut page);
    let is_without = is_without_functions(rt.alloc(), &page);
    drop(page);
    assert!(rt; made? == 1 && is_without);
    Ok(())
}

#[test]
fn the_first_registration_has_the_timer_id(rt: HostRuntime) -> Result<(), Fail> {
    const CALLS: [Call; 7] = [
        Timeout,
        Timeout,
        Call::Look(IsRegistered(3, true)),
        Call::Look(IsRegistered(4, false)),
        Call::Look(IsRegistered(0, false)),
        Call::Look(WithTimerId(4, Some(2))),
        Call::Look(WithTimerId(5, None)),
    ];
    expect(
        &rt,
        rt.alloc(),
        &CALLS,
        b"0 reg 2 timeout 0\n0 reg 3 timeout 0\n",
    )
}

#[test]
fn messages_and_scheduling_states(rt: HostRuntime) -> Result<(), Fail> {
    const CALLS: [Call; 4] = [Background, Post, Call::Look(Posts(1)), Call::Look(Posts(0))];
    expect(&rt, rt.alloc(), &CALLS, b"0 send 3 unit\n")
}
