//! The long turns of a trace.

ghost use Rattle.std.specs.Prelude.{◌≡◌, ◌≤◌, ◌<◌, ◌+◌, ◌^◌, [], map, length, IfOk};
ghost use Rattle.trace_text.specs.EventSeen.{event_seen, stamped_seen};
ghost use Rattle.trace_export.specs.Ends.{ends_of};
ghost use Rattle.trace_export.specs.EndsSeen.{micros};
ghost use Rattle.trace_blame.specs.Turns.{ends_turn as is_end_of_turn, open_after as open_behind, turns_of};
ghost use Rattle.trace_blame.specs.Walked.{opened, longest_with, closed_by};
ghost use Rattle.trace_blame.specs.Seen.{turn_seen, longest_seen, open_seen, ended_seen, AreLongTurns, TakesLine, TakesEnd};

use page_base::{Micros, Source};
use std::alloc::{AllocError, Global};
use std::collections::VecDeque;
use trace_export::{call_ends, called};
use trace_text::{Event, Events, Stamped};

/// The length above which a turn is long, in microseconds.
pub const LONG: u64 = 50_000;

/// A long turn: its number and its task's source, when it begins, how long it is, and which registration's call is the longest of
/// its outermost calls, 0 where there is none.
#[derive(Drop)]
pub struct LongTurn {
    pub number: u64,
    pub source: Option<Source>,
    pub begin: Micros,
    pub length: Micros,
    pub blamed: u64,
}

/// The long turns of a trace, in order: those above 50,000 microseconds from the `turn` line to the last line before the next `turn`,
/// `wait` or `end` line. It takes time in proportion to the trace.
pub fn long_turns(alloc: Global, trace: &Events) -> Result<Vec<LongTurn>, AllocError>
    ensures { IfOk result (λ turns. AreLongTurns turns.items (map stamped_seen trace.now.events)) }
{
    let mut ends = call_ends(alloc, trace.items())?;
    let mut turns = Vec::new(alloc);
    let mut rest = trace.items();
    while let Some((e, after)) = rest.split_first() {
        next_call(&e.event, &mut ends);
        rest = after;
        if let Event::Turn { n, source } = &e.event {
            let (turn, more) = walk_turn(OpenTurn::new(*n, *source, e.time), after, &mut ends);
            if turn.length.0 > LONG {
                turns.push(turn)?;
            }
            rest = more;
        }
    }
    Ok(turns)
}

// The rest of a turn, and the lines behind it. The ends are those of the calls among the lines that follow.
fn walk_turn<'a>(
    mut turn: OpenTurn,
    after: &'a [Stamped],
    ends: &mut VecDeque<Micros>,
) -> (LongTurn, &'a [Stamped])
    requires fresh { turn.depth ≡ 0 }
    requires ends { micros ends.old.items ≡ ends_of (map stamped_seen after.now) }
    ensures turn { turn_seen result.0 ≡ closed_by (open_seen turn) (map stamped_seen after.now) }
    ensures others { turns_of (map stamped_seen result.1.now) ≡ turns_of (map stamped_seen after.now) }
    ensures ends { micros ends.new.items ≡ ends_of (map stamped_seen result.1.now) }
    ensures shorter { length result.1.now ≤ length after.now }
{
    let mut rest = after;
    while let Some((e, more)) = rest.split_first() {
        if ends_turn(&e.event) {
            break;
        }
        let call = next_call(&e.event, ends);
        turn.add(e, call);
        rest = more;
    }
    (turn.closed(), rest)
}

// The registration that is called, and when the call ends, which is taken off the ends.
fn next_call(event: &Event, ends: &mut VecDeque<Micros>) -> Option<(u64, Micros)>
    ensures { TakesEnd event.now ends.old.items ends.new.items result }
{
    let registration = called(event)?;
    let end = ends.pop_front()?;
    Some((registration, end))
}

// Whether a line ends the turn before it.
fn ends_turn(event: &Event) -> bool
    ensures { result ≡ is_end_of_turn (event_seen event.now) }
{
    match event {
        Event::Turn { .. } | Event::Wait { .. } | Event::End(_) => true,
        _ => false,
    }
}

// How many calls that began in a turn are open after a line.
fn open_after(event: &Event, depth: u64) -> u64
    requires { depth + 1 < 2 ^ 64 }
    ensures count { result ≡ open_behind (event_seen event.now) depth }
    ensures grows { result ≤ depth + 1 }
{
    match event {
        Event::Call { .. } => depth + 1,
        Event::Ret | Event::Throw { .. } => depth.saturating_sub(1),
        _ => depth,
    }
}

// The longest outermost call that was met.
#[derive(Clone, Copy)]
pub(crate) struct LongestCall {
    pub registration: u64,
    pub length: u64,
}

// A turn of which some lines were met.
#[derive(Drop)]
pub(crate) struct OpenTurn {
    pub number: u64,
    pub source: Option<Source>,
    pub begin: Micros,
    // The time of the last line that was met.
    pub last: Micros,
    // How many calls are open that began in it.
    pub depth: u64,
    pub longest: Option<LongestCall>,
}

impl OpenTurn {
    fn new(number: u64, source: Option<Source>, begin: Micros) -> OpenTurn
        ensures { open_seen result ≡ opened number source begin.0 }
    {
        OpenTurn {
            number,
            source,
            begin,
            last: begin,
            depth: 0,
            longest: None,
        }
    }

    // Takes in a line of the turn, which may begin a call.
    fn add(&mut self, e: &Stamped, call: Option<(u64, Micros)>)
        requires { self.old.depth + 1 < 2 ^ 64 }
        ensures line { TakesLine e.now call self.old self.new }
        ensures grows { self.new.depth ≤ self.old.depth + 1 }
    {
        self.last = e.time;
        self.longest = longest_after(self.depth, e.time, call, self.longest);
        self.depth = open_after(&e.event, self.depth);
    }

    // The turn, where no line follows that belongs to it.
    fn closed(self) -> LongTurn
        ensures { turn_seen result ≡ closed_by (open_seen self) [] }
    {
        LongTurn {
            number: self.number,
            source: self.source,
            begin: self.begin,
            // Times never fall.
            length: Micros(self.last.0.saturating_sub(self.begin.0)),
            blamed: match self.longest {
                None => 0,
                Some(call) => call.registration,
            },
        }
    }
}

// The longest outermost call after a line that may begin a call.
fn longest_after(
    depth: u64,
    time: Micros,
    call: Option<(u64, Micros)>,
    longest: Option<LongestCall>,
) -> Option<LongestCall>
    ensures { longest_seen result ≡ longest_with depth time.0 (ended_seen call) (longest_seen longest) }
{
    let Some((registration, end)) = call else {
        return longest;
    };
    if depth > 0 {
        return longest;
    }
    // No call ends before it begins.
    let length = end.0.saturating_sub(time.0);
    match longest {
        Some(first) if first.length >= length => Some(first),
        _ => Some(LongestCall {
            registration,
            length,
        }),
    }
}
