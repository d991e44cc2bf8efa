//! Traces of runs by whatever policy, judged; and a run made again under the choices of its trace.

ghost use Rattle.std.specs.Prelude.{◌≡◌, ◌≤◌, ◌<◌, ◌^◌, length};
ghost use Rattle.host_jobs.specs.ToldTable.{closures_of};

use arrivals_text::{PageSetup, read_page};
use cell_room::Steps;
use host_jobs::{HostKind, HostOnce, HostTable, Recorded};
use lang_ast::Program;
use lang_names::resolve;
use lang_parse::parse;
use lang_tokens::tokens;
use loop_turn::RunStop;
use page_base::{End, Micros, Source};
use std::alloc::Global;
use std::marker::Brand;
use std::sync::ledger::{Blank, Ledger};
use std::test::Fail;
use trace_check::{Verdict, check_text, check_trace, choices_of, replay};
use trace_text::{BadLine, Events, LineCheck, TraceFault, read_trace};

// A timer and a posted task. By the default rank the posted task would go first.
const TWO_TASKS: &[u8] =
    b"fn t() { log(\"t\"); } fn a() { log(\"a\"); } setTimeout(t, 0); postTask(a, unit, unit, 0);";

const POSTED: &[u8] = b"trace 1\n\
0 turn 1 dom\n\
0 call 1\n\
0 reg 2 timeout\n\
0 arm 2 0 1\n\
0 reg 3 post\n\
0 enq 3 user-visible task 2\n\
0 ret\n\
0 due 2\n";

const SERVED: &[u8] = b"0 ret\n\
0 turn 3 sched\n\
0 call 3\n\
0 log \"a\"\n\
0 ret\n\
0 settle 1 ok unit\n\
0 end done\n";

// A host closure is asked twice, and answers once.
const ASKED_TWICE: &[u8] =
    b"fn f(v) { log(v); } then(host(0, 7, unit), f, f); then(host(0, 1, unit), f, f);";

const ASKED: &[u8] = b"trace 1\n\
0 turn 1 dom\n\
0 call 1\n\
0 reg 2 host\n\
0 arm 2 3000 0\n\
0 reg 3 then\n\
0 settle 3 err NotAllowedError(\"\")\n\
0 reg 4 then\n\
0 job 1 react 3\n\
0 ret\n\
0 run 1\n\
0 call 4\n\
0 log NotAllowedError(\"\")\n\
0 ret\n\
0 settle 4 ok unit\n";

const ANSWERED: &[u8] = b"3000 settle 1 ok 49\n\
3000 job 2 react 1\n\
3000 run 2\n\
3000 call 3\n\
3000 log 49\n\
3000 ret\n\
3000 settle 2 ok unit\n\
3000 end done\n";

// Frame callbacks, of which one cancels the next and requests another one.
const FRAMES: &[u8] =
    b"fn c(t) { log(t); } fn b(t) { log(\"b\"); } fn a(t) { log(t); cancelAnimationFrame(2); requestAnimationFrame(c); } \
requestAnimationFrame(a); requestAnimationFrame(b);";

const FRAMES_TRACE: &[u8] = b"trace 1\n\
0 turn 1 dom\n\
0 call 1\n\
0 reg 2 frame\n\
0 reg 3 frame\n\
0 ret\n\
20000 wait 20000\n\
20000 turn 2 render\n\
20000 frame 20000\n\
20000 call 2\n\
20000 log 20000\n\
20000 drop 3\n\
20000 reg 4 frame\n\
20000 ret\n\
40000 wait 40000\n\
40000 turn 3 render\n\
40000 frame 40000\n\
40000 call 4\n\
40000 log 40000\n\
40000 ret\n\
40000 end done\n";

const FRAMES_TOLD_MORE: &[u8] = b"trace 2\n\
0 turn 1 dom\n\
0 call 1\n\
0 reg 2 frame 1\n\
0 reg 3 frame 1\n\
0 ret\n\
20000 wait 20000\n\
20000 turn 2 render\n\
20000 frame 20000\n\
20000 call 2\n\
20000 log 20000\n\
20000 drop 3\n\
20000 reg 4 frame 2\n\
20000 ret\n\
40000 wait 40000\n\
40000 turn 3 render\n\
40000 frame 40000\n\
40000 call 4\n\
40000 log 40000\n\
40000 ret\n\
40000 end done\n";

const HOST_LATE: &[u8] = b"page 1\nhost 0 3000\n";

/// A script and its arrivals, the pieces of a trace, and what is wanted.
#[derive(Clone, Copy)]
struct Example {
    script: &'static [u8],
    arrivals: &'static [u8],
    trace: [&'static [u8]; 5],
    verdict: Verdict,
}

const EXAMPLES: [Example; 8] = [
    Example {
        script: TWO_TASKS,
        arrivals: b"page 1\n",
        trace: [
            POSTED,
            b"0 turn 2 timer\n",
            b"0 call 2\n",
            b"0 log \"t\"\n",
            SERVED,
        ],
        verdict: Verdict::Yes,
    },
    Example {
        script: TWO_TASKS,
        arrivals: b"page 1\n",
        trace: [
            POSTED,
            b"0 turn 2 timer\n",
            b"0 call 2\n",
            b"0 log \"u\"\n",
            SERVED,
        ],
        verdict: Verdict::Differs { line: 12 },
    },
    Example {
        script: TWO_TASKS,
        arrivals: b"page 1\n",
        trace: [
            POSTED,
            b"0 turn 2 user\n",
            b"0 call 2\n",
            b"0 log \"t\"\n",
            SERVED,
        ],
        verdict: Verdict::Illegal { line: 10 },
    },
    Example {
        script: ASKED_TWICE,
        arrivals: HOST_LATE,
        trace: [
            ASKED,
            b"3000 wait 3000\n",
            b"3000 due 2\n3000 turn 2 net\n",
            b"3000 host 0 7 ok 49\n",
            ANSWERED,
        ],
        verdict: Verdict::Yes,
    },
    Example {
        script: ASKED_TWICE,
        arrivals: HOST_LATE,
        trace: [
            ASKED,
            b"3000 wait 3000\n",
            b"3000 due 2\n3000 turn 2 net\n",
            b"3000 host 0 7 ok 48\n",
            ANSWERED,
        ],
        verdict: Verdict::Illegal { line: 19 },
    },
    Example {
        script: ASKED_TWICE,
        arrivals: HOST_LATE,
        trace: [
            ASKED,
            b"2999 wait 3000\n",
            b"3000 due 2\n3000 turn 2 net\n",
            b"3000 host 0 7 ok 49\n",
            ANSWERED,
        ],
        verdict: Verdict::Illegal { line: 16 },
    },
    Example {
        script: FRAMES,
        arrivals: b"page 1\nrefresh 50\n",
        trace: [FRAMES_TOLD_MORE, b"", b"", b"", b""],
        verdict: Verdict::Differs { line: 1 },
    },
    Example {
        script: FRAMES,
        arrivals: b"page 1\ntrace 2\nrefresh 50\n",
        trace: [FRAMES_TOLD_MORE, b"", b"", b"", b""],
        verdict: Verdict::Yes,
    },
];

fn program(alloc: Global, script: &[u8]) -> Result<Program, Fail> {
    let tokens = tokens(alloc, script)?;
    Ok(resolve(alloc, parse(alloc, &tokens)?)?)
}

fn text(alloc: Global, pieces: &[&[u8]]) -> Result<Vec<u8>, Fail> {
    let mut text = Vec::new(alloc);
    for piece in pieces {
        text.extend_from_slice(piece)?;
    }
    Ok(text)
}

fn trace(alloc: Global, pieces: &[&[u8]]) -> Result<Events, Fail> {
    let text = text(alloc, pieces)?;
    Ok(read_trace(alloc, &text)?)
}

fn judge<M: Ledger>(
    alloc: Global,
    hosts: &HostTable,
    example: &Example,
    blank: Blank,
) -> Result<Verdict, Fail>
    requires count { length (closures_of hosts.now) ≤ 2 ^ 32 }
    requires name { blank.name ≡ M.name }
    requires parts { blank.parts ≡ M.parts }
    requires some { 0 < blank.parts }
{
    let program = program(alloc, example.script)?;
    let setup = read_page(alloc, example.arrivals)?;
    let trace = trace(alloc, &example.trace)?;
    let (book, share) = blank.open::<M>();
    let accesses = Steps::new(book, share);
    Ok(check_trace(alloc, &program, &setup, hosts, &trace, accesses)?)
}

// The same, by the bytes of the trace.
fn judge_text<M: Ledger>(
    alloc: Global,
    hosts: &HostTable,
    example: &Example,
    blank: Blank,
) -> Result<Result<Verdict, TraceFault>, Fail>
    requires count { length (closures_of hosts.now) ≤ 2 ^ 32 }
    requires name { blank.name ≡ M.name }
    requires parts { blank.parts ≡ M.parts }
    requires some { 0 < blank.parts }
{
    let program = program(alloc, example.script)?;
    let setup = read_page(alloc, example.arrivals)?;
    let text = text(alloc, &example.trace)?;
    let (book, share) = blank.open::<M>();
    let accesses = Steps::new(book, share);
    Ok(check_text(alloc, &program, &setup, hosts, &text, accesses))
}

#[test]
fn a_trace_is_judged_by_the_run_under_its_own_choices(rt: HostRuntime) -> Result<(), Fail> {
    let alloc = rt.alloc();
    let square = Box::new(alloc, |x: i64| x.checked_mul(x).ok_or(x))?;
    let mut hosts = HostTable::new(alloc);
    hosts.push(HostOnce::new(HostKind::Square, -1000, 1000, square))?;
    for example in &EXAMPLES {
        assert_eq!(rt;
            judge::<Brand>(alloc, &hosts, example, Blank::new(1))?,
            example.verdict
        );
        assert_eq!(rt;
            judge_text::<Brand>(alloc, &hosts, example, Blank::new(1))?,
            Ok(example.verdict)
        );
    }
    Ok(())
}

#[test]
fn bytes_that_are_no_trace_are_refused_in_their_line(rt: HostRuntime) -> Result<(), Fail> {
    let alloc = rt.alloc();
    let hosts = HostTable::new(alloc);
    let traces: [([&[u8]; 5], usize); 4] = [
        ([b"trace 3\n", b"0 end done\n", b"", b"", b""], 1),
        ([POSTED, b"0 turn 2 timer\n", b"0 ret", b"", b""], 11),
        ([POSTED, b"0 turn 2 timer\n", b"0 ret\n", b"", b""], 12),
        ([POSTED, b"0 end done\n", b"0 end done\n", b"", b""], 11),
    ];
    for (trace, line) in traces {
        let example = Example {
            script: TWO_TASKS,
            arrivals: b"page 1\n",
            trace,
            verdict: Verdict::Yes,
        };
        assert_eq!(rt;
            judge_text::<Brand>(alloc, &hosts, &example, Blank::new(1))?,
            Err(TraceFault::Is(BadLine { line }))
        );
    }
    Ok(())
}

// How the run under the choices of the frames' trace ends, and how many lines of the trace that tells more were met.
fn run_frames_again<M: Ledger>(
    alloc: Global,
    setup: &PageSetup,
    hosts: &HostTable,
    blank: Blank,
) -> Result<(Result<End, RunStop>, usize), Fail>
    requires count { length (closures_of hosts.now) ≤ 2 ^ 32 }
    requires name { blank.name ≡ M.name }
    requires parts { blank.parts ≡ M.parts }
    requires some { 0 < blank.parts }
{
    let program = program(alloc, FRAMES)?;
    let told = trace(alloc, &[FRAMES_TRACE])?;
    let wanted = trace(alloc, &[FRAMES_TOLD_MORE])?;
    let (book, share) = blank.open::<M>();
    let lines = LineCheck::new(alloc, &wanted);
    let accesses = Steps::new(book, share);
    let replayed = replay(alloc, &program, setup, hosts, &told, lines, accesses);
    Ok((replayed.outcome, replayed.lines.matched()))
}

#[test]
fn a_run_under_the_choices_of_a_trace_tells_more_in_form_2(rt: HostRuntime) -> Result<(), Fail> {
    let alloc = rt.alloc();
    let hosts = HostTable::new(alloc);
    let setup = read_page(alloc, b"page 1\ntrace 2\nrefresh 50\n")?;
    let (outcome, lines) = run_frames_again::<Brand>(alloc, &setup, &hosts, Blank::new(1))?;
    assert_eq!(rt; outcome, Ok(End::Done));
    assert_eq!(rt; lines, 21);
    Ok(())
}

#[test]
fn choices_stand_in_the_order_of_their_lines(rt: HostRuntime) -> Result<(), Fail> {
    let alloc = rt.alloc();
    let trace = trace(
        alloc,
        &[
            ASKED,
            b"3000 wait 3000\n3000 due 2\n3000 turn 2 net\n3000 host 0 7 ok 49\n",
            ANSWERED,
        ],
    )?;
    let choices = choices_of(alloc, trace.items())?;
    assert!(rt; choices.sources.as_slice() == [Source::Dom, Source::Net].as_slice());
    assert!(rt; choices.readings.as_slice() == [Micros(3000)].as_slice());
    assert_eq!(rt;
        choices.answers.first(),
        Some(&Recorded {
            k: 0,
            x: 7,
            answer: Ok(49)
        })
    );
    assert_eq!(rt; choices.answers.len(), 1);
    Ok(())
}
