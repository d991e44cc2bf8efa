//! Traces compared line by line, and their summaries.

use crate::rows::expect_met;
use crate::traces_read::{TIMER_FIRST, takes_each};
use page_base::End;
use std::alloc::Global;
use std::test::Fail;
use trace_text::{
    Events, LineCheck, LineCount, Lines, NoLine, Stamped, Summary, read_trace, summary_of,
};

// A host closure is asked twice, and answers once.
const ASKED_TWICE: &[u8] = b"trace 1\n\
0 turn 1 dom\n\
0 call 1\n\
0 reg 2 host\n\
0 arm 2 3000 0\n\
0 reg 3 then\n\
0 settle 3 err NotAllowedError(\"\")\n\
0 reg 4 then\n\
0 job 1 react 3\n\
0 ret\n\
0 run 1\n\
0 call 4\n\
0 log NotAllowedError(\"\")\n\
0 ret\n\
0 settle 4 ok unit\n\
3000 wait 3000\n\
3000 due 2\n\
3000 turn 2 net\n\
3000 host 0 7 ok 49\n\
3000 settle 1 ok 49\n\
3000 job 2 react 1\n\
3000 run 2\n\
3000 call 3\n\
3000 log 49\n\
3000 ret\n\
3000 settle 2 ok unit\n\
3000 end done\n";

// What a check is given, and what it answers.
enum Step {
    // the head of the first form
    Head(Result<(), NoLine>),
    // the head of the second form
    SecondHead(Result<(), NoLine>),
    // the first event of the trace
    First(Result<(), NoLine>),
    // the last event of the trace
    Last(Result<(), NoLine>),
    // each event of the trace in order, which is met
    Each,
    // how many lines are met
    Matched(usize),
}

use Step::{Each, First, Head, Last, Matched, SecondHead};

fn emits(check: &mut LineCheck, event: Option<&Stamped>, answer: Result<(), NoLine>) -> bool {
    match event {
        Some(e) => check.emit(e) == answer,
        None => false,
    }
}

fn take(check: &mut LineCheck, events: &Events, step: &Step) -> bool {
    match step {
        Head(answer) => check.head(1) == *answer,
        SecondHead(answer) => check.head(2) == *answer,
        First(answer) => emits(check, events.items().first(), *answer),
        Last(answer) => emits(check, events.items().last(), *answer),
        Each => takes_each(check, events),
        Matched(count) => check.matched() == *count,
    }
}

fn takes_all(alloc: Global, events: &Events, steps: &[Step]) -> bool {
    let mut check = LineCheck::new(alloc, events);
    for step in steps {
        if !take(&mut check, events, step) {
            return false;
        }
    }
    true
}

// What is asked of a trace.
enum Asked {
    // its comparison
    Steps(&'static [Step]),
    // its summary, which counts it, and which is there at its end and not before
    Counts(Summary),
}

use Asked::{Counts, Steps};

fn is_there_at_the_end(events: &Events, summary: Summary) -> bool {
    let mut count = LineCount::new();
    count.head(1) == Ok(())
        && count.summary().is_none()
        && takes_each(&mut count, events)
        && count.summary() == Some(summary)
}

fn is_answered(alloc: Global, events: &Events, asked: &Asked) -> bool {
    match asked {
        Steps(steps) => takes_all(alloc, events, *steps),
        Counts(summary) => {
            summary_of(events) == *summary && is_there_at_the_end(events, *summary)
        }
    }
}

fn is_met(alloc: Global, trace: &[u8], asked: &Asked) -> Result<bool, Fail> {
    let events = read_trace(alloc, trace)?;
    let is_answered = is_answered(alloc, &events, asked);
    drop(events);
    Ok(is_answered)
}

const TRACES: [(&'static [u8], Asked); 4] = [
    // Lines are met in order.
    (
        ASKED_TWICE,
        Steps(&[
            // an event before the head, and a head of another form
            First(Err(NoLine::Differs)),
            SecondHead(Err(NoLine::Differs)),
            Head(Ok(())),
            // a second head
            Head(Err(NoLine::Differs)),
            Each,
            Matched(27),
            // a line behind the last
            First(Err(NoLine::Differs)),
            Matched(27),
        ]),
    ),
    // Another line differs, and the next one is still met.
    (
        ASKED_TWICE,
        Steps(&[
            Head(Ok(())),
            Last(Err(NoLine::Differs)),
            Matched(1),
            First(Ok(())),
            Matched(2),
        ]),
    ),
    (
        ASKED_TWICE,
        Counts(Summary {
            turns: 2,
            calls: 3,
            drops: 0,
            settles: 4,
            end: End::Done,
        }),
    ),
    (
        TIMER_FIRST,
        Counts(Summary {
            turns: 3,
            calls: 3,
            drops: 0,
            settles: 1,
            end: End::Done,
        }),
    ),
];

#[test]
fn lines_are_met_in_order_and_a_summary_counts_them(rt: HostRuntime) -> Result<(), Fail> {
    for (number, (trace, asked)) in TRACES.iter().enumerate() {
        expect_met(&rt, is_met(rt.alloc(), *trace, asked)?, number);
    }
    Ok(())
}
