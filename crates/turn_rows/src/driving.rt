//! A page that is driven step by step (HTML, "Event loops: processing model"). A test says which step is next, and the page has to tell
//! the same.

ghost use Rattle.std.specs.Prelude.{◌≡◌, ◌≤◌, None, IfOk};
ghost use Rattle.page_host.specs.Doing.{IfFinished};
ghost use Rattle.turn_rows.specs.Ready.{IsReady, StaysReady};

use arrivals_text::Arrival;
use loop_policy::View;
use page_base::{End, Micros, Source};
use page_host::{Did, Page, PageStop};
use page_hosts::HostPort;
use page_interp::{Machine, Ran};
use page_values::{Str, Value, as_int};
use std::alloc::Global;
use std::process::Abort;
use std::sync::ledger::Ledger;
use trace_text::Lines;

/// The latest end of a run, in microseconds: no script runs after it.
const LATEST: u64 = 1_000_000_000_000;

/// The sources in the order in which a view shows them.
const IN_VIEW: [Source; 7] = [
    Source::User,
    Source::Render,
    Source::Sched,
    Source::Timer,
    Source::Net,
    Source::Dom,
    Source::Idle,
];

/// A callback that is invoked with a number: the first one of a registration, or its second one. It gives or throws a number.
#[derive(Clone, Copy, Debug)]
pub(crate) struct Call {
    pub(crate) registration: u32,
    pub(crate) second: bool,
    pub(crate) number: i64,
    pub(crate) gives: Result<i64, i64>,
}

/// What a page does next. Moments are in microseconds.
#[derive(Clone, Copy, Debug)]
pub(crate) enum Step {
    /// A turn with the first task of this source.
    Serve(Source),
    /// A turn with the first task whose number is the least.
    Next,
    /// A turn with no task: an idle period may start.
    Rest,
    /// A wait for the first moment, which ends at the second one.
    Wait(u64, u64),
    /// An event `a` with this number is to come now, on the user source.
    Arrive(i64),
    /// The messages are handed over that were posted, of which there are so many.
    TakePosts(usize),
    /// There is room for so many tasks more.
    HasRoom(usize),
    /// A callback is invoked alone.
    Invoke(Call),
    /// A microtask checkpoint is performed alone.
    Checkpoint,
    /// The run ends: nothing is pending.
    Done,
    /// The run ends by the clock: it would wait for this moment.
    TimeUp(u64),
}

/// Takes these steps one after another, each behind the parallel items that are due. Where a unit of fuel is needed and none is left, the
/// run ends, with its line.
pub(crate) fn walk<P: HostPort, L: Lines, M: Ledger>(
    rt: &impl Abort,
    alloc: Global,
    page: &mut Page<P, L, M>,
    machine: &mut Machine<'_>,
    steps: &[Step],
) -> Result<Did, PageStop>
    requires { IsReady machine.old page.old }
{
    for step in steps {
        take_items(page)?;
        assert!(rt; is_next(page, *step)?, "{step:?}");
        match take(rt, alloc, page, machine, *step)? {
            Did::Finished => {}
            Did::Fuel => {
                page.finish(End::Fuel)?;
                return Ok(Did::Fuel);
            }
        }
    }
    Ok(Did::Finished)
}

// Takes the parallel items that are due, but before the first turn.
fn take_items<P: HostPort, L: Lines, M: Ledger>(page: &mut Page<P, L, M>) -> Result<(), PageStop>
    requires { page.old.stopped ≡ None }
    ensures { IfOk result (λ _. StaysReady page.old page.new) }
{
    if page.turns() > 0 {
        page.parallel()?;
    }
    Ok(())
}

// Whether the page tells that this step is next.
fn is_next<P: HostPort, L: Lines, M: Ledger>(
    page: &Page<P, L, M>,
    step: Step,
) -> Result<bool, PageStop> {
    match step {
        Step::Serve(source) => Ok(has_task(&page.view(), source)),
        Step::Next => Ok(!page.has_no_task()),
        Step::Rest => waits_for(page, Some(page.now())),
        Step::Wait(until, _) | Step::TimeUp(until) => waits_for(page, Some(Micros(until))),
        Step::Done => waits_for(page, None),
        Step::HasRoom(tasks) => Ok(page.pool().spare() >= tasks),
        Step::Arrive(_) | Step::TakePosts(_) | Step::Invoke(_) | Step::Checkpoint => Ok(true),
    }
}

// Whether the page has no task and waits for this moment; where there is none, whether nothing is pending either.
fn waits_for<P: HostPort, L: Lines, M: Ledger>(
    page: &Page<P, L, M>,
    moment: Option<Micros>,
) -> Result<bool, PageStop> {
    let target = page.target()?;
    Ok(page.has_no_task() && page.is_pending() == moment.is_some() && target == moment)
}

// Whether a source has a task.
fn has_task(view: &View, source: Source) -> bool {
    for (of, first) in IN_VIEW.iter().zip(view.first.iter()) {
        if *of == source {
            return first.is_some();
        }
    }
    false
}

// The source whose first task has the least number.
fn first_source(view: &View) -> Option<Source> {
    let mut least = u64::MAX;
    let mut source = None;
    for (of, first) in IN_VIEW.iter().zip(view.first.iter()) {
        if let Some(number) = first {
            if *number < least {
                least = *number;
                source = Some(*of);
            }
        }
    }
    source
}

// Takes a step.
fn take<P: HostPort, L: Lines, M: Ledger>(
    rt: &impl Abort,
    alloc: Global,
    page: &mut Page<P, L, M>,
    machine: &mut Machine<'_>,
    step: Step,
) -> Result<Did, PageStop>
    requires { IsReady machine.old page.old }
    ensures running { IfOk result (λ _. page.new.stopped ≡ None) }
    ensures ready { IfFinished result (IsReady machine.new page.new) }
{
    match step {
        Step::Serve(source) => take_turn(rt, page, machine, Some(source)),
        Step::Next => take_turn(rt, page, machine, first_source(&page.view())),
        Step::Rest => take_turn(rt, page, machine, None),
        Step::Invoke(call) => invoke(rt, alloc, page, machine, call),
        Step::Checkpoint => checkpoint(rt, page, machine),
        _ => {
            work_alone(rt, alloc, page, step)?;
            Ok(Did::Finished)
        }
    }
}

// A turn with the first task of a source, or with none, and the idle step behind it.
fn take_turn<P: HostPort, L: Lines, M: Ledger>(
    rt: &impl Abort,
    page: &mut Page<P, L, M>,
    machine: &mut Machine<'_>,
    source: Option<Source>,
) -> Result<Did, PageStop>
    requires { IsReady machine.old page.old }
    ensures running { IfOk result (λ _. page.new.stopped ≡ None) }
    ensures ready { IfFinished result (IsReady machine.new page.new) }
{
    if !page.has_fuel() {
        return Ok(Did::Fuel);
    }
    begin(page, source)?;
    match perform(rt, page, machine, source)? {
        Did::Finished => {
            idle(page)?;
            Ok(Did::Finished)
        }
        Did::Fuel => Ok(Did::Fuel),
    }
}

// A turn begins.
fn begin<P: HostPort, L: Lines, M: Ledger>(
    page: &mut Page<P, L, M>,
    source: Option<Source>,
) -> Result<(), PageStop>
    requires running { page.old.stopped ≡ None }
    requires fuel { 1 ≤ page.old.fuel }
    ensures { IfOk result (λ _. StaysReady page.old page.new) }
{
    page.begin_turn(source)?;
    Ok(())
}

// The first task of a source is performed, where there is a source.
fn perform<P: HostPort, L: Lines, M: Ledger>(
    rt: &impl Abort,
    page: &mut Page<P, L, M>,
    machine: &mut Machine<'_>,
    source: Option<Source>,
) -> Result<Did, PageStop>
    requires { IsReady machine.old page.old }
    ensures running { IfOk result (λ _. page.new.stopped ≡ None) }
    ensures ready { IfFinished result (IsReady machine.new page.new) }
{
    let Some(source) = source else {
        return Ok(Did::Finished);
    };
    assert!(rt; page.now().0 <= LATEST);
    page.perform(machine, source)
}

// The idle step, where no task is runnable.
fn idle<P: HostPort, L: Lines, M: Ledger>(page: &mut Page<P, L, M>) -> Result<(), PageStop>
    requires { page.old.stopped ≡ None }
    ensures { IfOk result (λ _. StaysReady page.old page.new) }
{
    if page.has_no_task() {
        page.idle_step()?;
    }
    Ok(())
}

// A callback is invoked, and gives or throws what is wanted.
fn invoke<P: HostPort, L: Lines, M: Ledger>(
    rt: &impl Abort,
    alloc: Global,
    page: &mut Page<P, L, M>,
    machine: &mut Machine<'_>,
    call: Call,
) -> Result<Did, PageStop>
    requires { IsReady machine.old page.old }
    ensures running { IfOk result (λ _. page.new.stopped ≡ None) }
    ensures ready { IfFinished result (IsReady machine.new page.new) }
{
    assert!(rt; page.now().0 <= LATEST);
    let Ok(args) = vec![in alloc; Value::Int(call.number)] else {
        return Err(PageStop::OutOfMemory);
    };
    match page.invoke(machine, call.registration, call.second, args)? {
        Ran::Value(value) => {
            assert_eq!(rt; as_int(&value), call.gives.ok());
            Ok(Did::Finished)
        }
        Ran::Throw(value) => {
            assert_eq!(rt; as_int(&value), call.gives.err());
            Ok(Did::Finished)
        }
        Ran::Fuel => Ok(Did::Fuel),
    }
}

// A microtask checkpoint is performed.
fn checkpoint<P: HostPort, L: Lines, M: Ledger>(
    rt: &impl Abort,
    page: &mut Page<P, L, M>,
    machine: &mut Machine<'_>,
) -> Result<Did, PageStop>
    requires { IsReady machine.old page.old }
    ensures running { IfOk result (λ _. page.new.stopped ≡ None) }
    ensures ready { IfFinished result (IsReady machine.new page.new) }
{
    assert!(rt; page.now().0 <= LATEST);
    page.checkpoint(machine)
}

// What the page does by itself in a step.
fn work_alone<P: HostPort, L: Lines, M: Ledger>(
    rt: &impl Abort,
    alloc: Global,
    page: &mut Page<P, L, M>,
    step: Step,
) -> Result<(), PageStop>
    requires { page.old.stopped ≡ None }
    ensures { IfOk result (λ _. StaysReady page.old page.new) }
{
    match step {
        Step::Wait(until, reading) => wait(page, until, reading),
        Step::Arrive(number) => arrive(page, event_at(alloc, page.now(), number)?),
        Step::TakePosts(count) => {
            take_posts(rt, page, count);
            Ok(())
        }
        Step::Done => finish(page, End::Done),
        Step::TimeUp(_) => finish(page, End::Clock),
        _ => Ok(()),
    }
}

// The wait for a moment ends at another one, which is not before now.
fn wait<P: HostPort, L: Lines, M: Ledger>(
    page: &mut Page<P, L, M>,
    until: u64,
    reading: u64,
) -> Result<(), PageStop>
    requires { page.old.stopped ≡ None }
    ensures { IfOk result (λ _. StaysReady page.old page.new) }
{
    let now = page.now().0;
    page.set_now(Micros(reading.max(now)));
    page.mark_wait(Micros(until))?;
    Ok(())
}

// An event `a` with a number, which comes at a moment on the user source.
fn event_at(alloc: Global, at: Micros, number: i64) -> Result<Arrival, PageStop> {
    let Ok(name) = vec![in alloc; b'a'] else {
        return Err(PageStop::OutOfMemory);
    };
    Ok(Arrival {
        at,
        source: Source::User,
        name: Str::new(name),
        value: Value::Int(number),
    })
}

// An event is to come.
fn arrive<P: HostPort, L: Lines, M: Ledger>(
    page: &mut Page<P, L, M>,
    event: Arrival,
) -> Result<(), PageStop>
    requires { page.old.stopped ≡ None }
    ensures { IfOk result (λ _. StaysReady page.old page.new) }
{
    page.arrive(event)?;
    Ok(())
}

// The messages are handed over that were posted, of which there are so many.
fn take_posts<P: HostPort, L: Lines, M: Ledger>(
    rt: &impl Abort,
    page: &mut Page<P, L, M>,
    count: usize,
)
    ensures { StaysReady page.old page.new }
{
    let posts = page.take_posts();
    assert_eq!(rt; posts.len(), count);
}

// The run ends.
fn finish<P: HostPort, L: Lines, M: Ledger>(
    page: &mut Page<P, L, M>,
    end: End,
) -> Result<(), PageStop>
    requires { page.old.stopped ≡ None }
    ensures { IfOk result (λ _. StaysReady page.old page.new) }
{
    page.finish(end)?;
    Ok(())
}
