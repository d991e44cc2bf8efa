//! The summary of a trace.

ghost use Rattle.std.specs.Prelude.{◌≡◌, ℕ, List, [], map, Some};
ghost use Rattle.page_types.specs.Events.{Stamped as StampedSeen};
ghost use Rattle.trace_text.specs.EventSeen.{event_seen, stamped_seen};
ghost use Rattle.trace_text.specs.Checks.{lines_of};
ghost use Rattle.trace_text.specs.Summaries.{counts_of, counts_after, summarised, IsSummaryOf, counts_of_lines};
ghost use Rattle.trace_text.specs.Counters.{counts_in};

use crate::{Event, Events, Lines, NoLine, Stamped};
use page_base::End;

/// How many turns, calls, drops and settlings a trace has, and why its run ended. A number above 2^64 - 1 is told as
/// that.
#[derive(Clone, Copy, PartialEq, Eq, Debug)]
pub struct Summary {
    pub turns: u64,
    pub calls: u64,
    pub drops: u64,
    pub settles: u64,
    pub end: End,
}

/// Counts the lines that it is given, and keeps none.
#[derive(Drop)]
pub struct LineCount {
    turns: u64,
    calls: u64,
    drops: u64,
    settles: u64,
    end: Option<End>,
}

impl LineCount {
    /// A count of no lines. Takes no memory.
    pub fn new() -> LineCount
        ensures { counts_in result ≡ counts_of [] }
    {
        LineCount {
            turns: 0,
            calls: 0,
            drops: 0,
            settles: 0,
            end: None,
        }
    }

    /// The summary of the events that were given. None exactly where no `End` was among them. Takes no memory.
    pub fn summary(&self) -> Option<Summary>
        ensures { IsSummaryOf result (counts_in self.now) }
    {
        let end = self.end?;
        Some(Summary {
            turns: self.turns,
            calls: self.calls,
            drops: self.drops,
            settles: self.settles,
            end,
        })
    }

    fn count(&mut self, event: &Event)
        ensures { counts_in self.new ≡ counts_after (counts_in self.old) (event_seen event.now) }
    {
        match event {
            Event::Turn { .. } => self.turns = self.turns.saturating_add(1),
            Event::Call { .. } => self.calls = self.calls.saturating_add(1),
            Event::Drop { .. } => self.drops = self.drops.saturating_add(1),
            Event::Settle { .. } => self.settles = self.settles.saturating_add(1),
            Event::End(end) => self.end = Some(*end),
            _ => {}
        }
    }
}

impl Lines for LineCount {
    ghost use Rattle.std.specs.Prelude.{◌≡◌, Ok};
    ghost use Rattle.trace_text.specs.EventSeen.{stamped_seen};
    ghost use Rattle.trace_text.specs.Line.{Head, Of};
    ghost use Rattle.trace_text.specs.Summaries.{Counts, CountsLine, count_keeping, seen_counts};
    ghost use Rattle.trace_text.specs.Counters.{counts_in};
    ghost use Rattle.trace_text.specs.Trace.{IsForm};

    ghost Told = { Counts };

    ghost seen = { λ count. seen_counts (counts_in count) };

    ghost keeping = { count_keeping };

    /// It takes the head, and no memory.
    fn head(&mut self, _form: u32) -> Result<(), NoLine>
        requires { IsForm _form }
        ensures gives { CountsLine (counts_in self.old) (Head _form) result (counts_in self.new) }
        ensures always { result ≡ Ok tt }
    {
        Ok(())
    }

    /// It takes the line, and no memory.
    fn emit(&mut self, e: &Stamped) -> Result<(), NoLine>
        ensures gives { CountsLine (counts_in self.old) (Of (stamped_seen e.now)) result (counts_in self.new) }
        ensures always { result ≡ Ok tt }
    {
        self.count(&e.event);
        Ok(())
    }
}

/// The summary of a trace. Takes no memory.
pub fn summary_of(events: &Events) -> Summary
    ensures { summarised result ≡ counts_of (map stamped_seen events.now.events) }
{
    let mut count = LineCount::new();
    let mut rest = events.items();
    while let Some((e, more)) = rest.split_first() {
        count.count(&e.event);
        rest = more;
    }
    match count.summary() {
        Some(summary) => summary,
        None => unreachable!(),
    }
}

/// The law of the count: given the lines of some events, in any form, it has their counts.
pub fn counting_gives_the_summary()
    ensures { (form : ℕ) (es : List StampedSeen) → counts_of_lines (lines_of form es) ≡ Some (counts_of es) }
{}
