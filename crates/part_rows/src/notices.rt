//! Worked calls, and the lines that they write to a sink in memory.

ghost use Rattle.promise_core.specs.Held.{IsMade};
ghost use Rattle.page_notices.specs.Steps.{held};

use crate::rows::{expect_bytes, expect_met};
use page_base::Micros;
use page_io::MemSink;
use page_notices::{Job, NextJob, Notices, Reaction, Todo};
use page_values::{FunNames, Value};
use std::alloc::Global;
use std::process::Abort;
use std::test::Fail;
use trace_text::{LineSink, NoLine};

const AT: Micros = Micros(5);

// Notices, and the sink of their lines. No function has a name.
#[derive(Drop)]
struct Written {
    notices: Notices,
    names: FunNames,
    lines: LineSink<MemSink>,
}

impl Written {
    fn new(alloc: Global, fails: Vec<(u64, usize)>) -> Result<Written, Fail> {
        Ok(Written {
            notices: Notices::new(alloc),
            names: FunNames::new(Vec::new(alloc)),
            lines: LineSink::new(alloc, MemSink::new(alloc, 1000, fails)?),
        })
    }

    fn make(&mut self, rt: &impl Abort) -> Result<u32, Fail> {
        assert!(rt; self.notices.made() < 100);
        Ok(self.notices.make()?)
    }

    fn fulfil(&mut self, rt: &impl Abort, p: u32, n: i64) -> Result<(), NoLine> {
        let Written {
            notices,
            names,
            lines,
        } = self;
        assert_made(rt, notices, p);
        notices.settle(p, Ok(Value::Int(n)), 0, None, AT, names, lines)
    }

    fn reject(&mut self, rt: &impl Abort, p: u32, n: i64) -> Result<(), NoLine> {
        let Written {
            notices,
            names,
            lines,
        } = self;
        assert_made(rt, notices, p);
        notices.settle(p, Err(Value::Int(n)), 0, None, AT, names, lines)
    }

    fn adopt(&mut self, rt: &impl Abort, p: u32, other: u32) -> Result<(), NoLine> {
        let Written {
            notices,
            names,
            lines,
        } = self;
        assert_made(rt, notices, p);
        notices.settle(p, Ok(Value::Promise(other)), 0, None, AT, names, lines)
    }

    fn subscribe(
        &mut self,
        rt: &impl Abort,
        p: u32,
        registration: Option<u32>,
        into: u32,
    ) -> Result<bool, NoLine> {
        assert_made(rt, &self.notices, p);
        let reaction = Reaction {
            registration,
            into,
            state: None,
        };
        self.notices
            .subscribe(p, reaction, 0, None, AT, &mut self.lines)
    }

    // A handler is registered, and its promise is made.
    fn then(&mut self, rt: &impl Abort, p: u32, registration: u32) -> Result<u32, Fail> {
        let into = self.make(rt)?;
        self.subscribe(rt, p, Some(registration), into)?;
        Ok(into)
    }

    // What a job does where each handler answers unit.
    fn run(&mut self, rt: &impl Abort, job: NextJob) -> Result<(), Fail> {
        match job.todo {
            Todo::Micro(_) => {}
            Todo::Promise(Job::Adopt { into, from }) => {
                self.subscribe(rt, from, None, into)?;
            }
            Todo::Promise(Job::React { of, reaction }) => self.react(rt, of, reaction)?,
        }
        Ok(())
    }

    fn react(&mut self, rt: &impl Abort, of: u32, reaction: Reaction) -> Result<(), NoLine> {
        if reaction.registration.is_none() {
            return self.pass_on(rt, of, reaction.into);
        }
        let Written {
            notices,
            names,
            lines,
        } = self;
        let into = reaction.into;
        assert_made(rt, notices, into);
        notices.settle(into, Ok(Value::Unit), 0, None, AT, names, lines)
    }

    // A promise follows another one that is fulfilled with a number.
    fn pass_on(&mut self, rt: &impl Abort, of: u32, into: u32) -> Result<(), NoLine> {
        let Written {
            notices,
            names,
            lines,
        } = self;
        let n = number_of(rt, notices, of);
        assert_made(rt, notices, into);
        notices.follow(into, Ok(Value::Int(n)), 0, None, AT, names, lines)
    }

    // The jobs run until there is none.
    fn run_all(&mut self, rt: &impl Abort) -> Result<(), Fail> {
        for _ in 0..20 {
            match self.notices.next_job() {
                None => break,
                Some(job) => self.run(rt, job)?,
            }
        }
        Ok(())
    }

    // A promise is noted, where it is unhandled still.
    fn note(&mut self, rt: &impl Abort, p: u32) -> Result<bool, Fail> {
        assert_made(rt, &self.notices, p);
        Ok(self.notices.note_outstanding(p)?)
    }

    fn queue_micro(
        &mut self,
        registration: u32,
        level: u32,
        state: Option<u32>,
    ) -> Result<(), NoLine> {
        self.notices
            .queue_micro(registration, level, state, AT, &mut self.lines)
    }

    fn into_sink(self) -> MemSink {
        let Written {
            notices: _,
            names: _,
            lines,
        } = self;
        lines.into_sink()
    }
}

// The condition of every call that names a promise.
fn assert_made(rt: &impl Abort, notices: &Notices, p: u32)
    ensures { IsMade (held notices.now) p }
{
    assert!(rt; p > 0 && p <= notices.made());
}

// The number that a promise is fulfilled with.
fn number_of(rt: &impl Abort, notices: &Notices, of: u32) -> i64 {
    assert_made(rt, notices, of);
    match notices.outcome(of) {
        Some(Ok(Value::Int(n))) => *n,
        _ => panic!(rt; "a reaction to a promise that is not fulfilled with a number"),
    }
}

// A call on promises, and what it answers.
enum Call {
    Make(u32),
    Fulfil(u32, i64),
    // The promise cannot be fulfilled, since a line fails.
    FulfilInVain(u32, i64),
    Reject(u32, i64),
    Adopt(u32, u32),
    // A handler of this promise, with its registration and the promise that it leads into, and
    // whether the promise was outstanding.
    Handle(u32, u32, u32, bool),
    // A handler of this promise, with its registration, and the promise that is made for it.
    Then(u32, u32, u32),
    IsHandled(u32),
    Rejected(&'static [u32]),
    Note(u32, bool),
    // A microtask of this registration, with the level and the state that are current.
    Micro(u32, u32, Option<u32>),
    Next(Option<NextJob>),
    RunAll,
}

use Call::{
    Adopt, Fulfil, FulfilInVain, Handle, IsHandled, Make, Micro, Next, Note, Reject, Rejected,
    RunAll, Then,
};

fn is_handled(rt: &impl Abort, notices: &Notices, p: u32) -> bool {
    assert_made(rt, notices, p);
    notices.handled(p)
}

fn are_rejected(notices: &mut Notices, expected: &[u32]) -> bool {
    notices.take_rejected().as_slice() == expected
}

// Whether a call that writes no line answers what is wanted.
fn is_met(page: &mut Written, rt: &impl Abort, call: &Call) -> Result<bool, Fail> {
    match call {
        Make(p) => Ok(page.make(rt)? == *p),
        Then(p, registration, into) => Ok(page.then(rt, *p, *registration)? == *into),
        IsHandled(p) => Ok(is_handled(rt, &page.notices, *p)),
        Rejected(expected) => Ok(are_rejected(&mut page.notices, *expected)),
        Note(p, was) => Ok(page.note(rt, *p)? == *was),
        Next(job) => Ok(page.notices.next_job() == *job),
        _ => Ok(false),
    }
}

// Whether a call answers what is wanted.
fn take(page: &mut Written, rt: &impl Abort, call: &Call) -> Result<bool, Fail> {
    match call {
        Fulfil(p, n) => page.fulfil(rt, *p, *n)?,
        FulfilInVain(p, n) => return Ok(page.fulfil(rt, *p, *n) == Err(NoLine::Failed)),
        Reject(p, n) => page.reject(rt, *p, *n)?,
        Adopt(p, other) => page.adopt(rt, *p, *other)?,
        Handle(p, registration, into, was) => {
            return Ok(page.subscribe(rt, *p, Some(*registration), *into)? == *was);
        }
        Micro(registration, level, state) => page.queue_micro(*registration, *level, *state)?,
        RunAll => page.run_all(rt)?,
        _ => return is_met(page, rt, call),
    }
    Ok(true)
}

fn take_all(page: &mut Written, rt: &impl Abort, calls: &[Call]) -> Result<(), Fail> {
    for (number, call) in calls.iter().enumerate() {
        expect_met(rt, take(page, rt, call)?, number);
    }
    Ok(())
}

// These calls write these lines, to a sink whose pieces of these numbers fail.
fn expect(
    rt: &impl Abort,
    alloc: Global,
    fails: Vec<(u64, usize)>,
    calls: &[Call],
    written: &[u8],
) -> Result<(), Fail> {
    let mut page = Written::new(alloc, fails)?;
    let taken = take_all(&mut page, rt, calls);
    let sink = page.into_sink();
    expect_bytes(rt, sink.bytes(), written);
    taken
}

#[test]
fn an_adopted_promise_settles_two_jobs_later(rt: HostRuntime) -> Result<(), Fail> {
    // The handlers a, b, c and x have the registrations 1, 2, 3 and 4. Promise 1, which adopts
    // promise 2, has the handler x, and from promise 4 on the others are a chain.
    const CALLS: [Call; 11] = [
        Make(1),
        Make(2),
        Fulfil(2, 1),
        Adopt(1, 2),
        Then(1, 4, 3),
        Make(4),
        Fulfil(4, 0),
        Then(4, 1, 5),
        Then(5, 2, 6),
        Then(6, 3, 7),
        RunAll,
    ];
    const WRITTEN: &[u8] = b"5 settle 2 ok 1\n5 job 1 adopt 1\n5 settle 4 ok 0\n5 job 2 react 4\n\
          5 job 3 react 2\n\
          5 settle 5 ok unit\n5 job 4 react 5\n\
          5 settle 1 ok 1\n5 job 5 react 1\n\
          5 settle 6 ok unit\n5 job 6 react 6\n\
          5 settle 3 ok unit\n5 settle 7 ok unit\n";
    expect(&rt, rt.alloc(), Vec::new(rt.alloc()), &CALLS, WRITTEN)
}

#[test]
fn a_rejection_is_outstanding_until_it_is_handled(rt: HostRuntime) -> Result<(), Fail> {
    // Promise 1 stays unhandled at first, and promise 2 is handled.
    const CALLS: [Call; 12] = [
        Make(1),
        Make(2),
        Reject(1, 7),
        Reject(2, 8),
        Handle(2, 1, 1, false),
        IsHandled(2),
        Rejected(&[1]),
        Rejected(&[]),
        Note(1, true),
        Note(2, false),
        Handle(1, 2, 2, true),
        Handle(1, 3, 2, false),
    ];
    const WRITTEN: &[u8] =
        b"5 settle 1 err 7\n5 settle 2 err 8\n5 job 1 react 2\n5 job 2 react 1\n5 job 3 react 1\n";
    expect(&rt, rt.alloc(), Vec::new(rt.alloc()), &CALLS, WRITTEN)
}

#[test]
fn a_job_keeps_what_was_current(rt: HostRuntime) -> Result<(), Fail> {
    const QUEUED: NextJob = NextJob {
        job: 1,
        todo: Todo::Micro(9),
        level: 3,
        state: Some(2),
    };
    const CALLS: [Call; 3] = [Micro(9, 3, Some(2)), Next(Some(QUEUED)), Next(None)];
    const WRITTEN: &[u8] = b"5 job 1 micro 9\n";
    expect(&rt, rt.alloc(), Vec::new(rt.alloc()), &CALLS, WRITTEN)
}

#[test]
fn a_failed_line_is_the_last(rt: HostRuntime) -> Result<(), Fail> {
    // The promise has two handlers.
    const CALLS: [Call; 4] = [Make(1), Then(1, 1, 2), Then(1, 2, 3), FulfilInVain(1, 3)];
    const WRITTEN: &[u8] = b"5 settle 1 ok 3\n5 jo";
    expect(
        &rt,
        rt.alloc(),
        vec![in rt.alloc(); (2, 4)]?,
        &CALLS,
        WRITTEN,
    )
}

#[test]
fn the_first_resolution_wins(rt: HostRuntime) -> Result<(), Fail> {
    const CALLS: [Call; 3] = [Make(1), Fulfil(1, 1), Reject(1, 2)];
    const WRITTEN: &[u8] = b"5 settle 1 ok 1\n";
    expect(&rt, rt.alloc(), Vec::new(rt.alloc()), &CALLS, WRITTEN)
}

#[test]
fn a_promise_resolved_with_itself_is_rejected(rt: HostRuntime) -> Result<(), Fail> {
    const CALLS: [Call; 2] = [Make(1), Adopt(1, 1)];
    const WRITTEN: &[u8] = b"5 settle 1 err TypeError(\"\")\n";
    expect(&rt, rt.alloc(), Vec::new(rt.alloc()), &CALLS, WRITTEN)
}
