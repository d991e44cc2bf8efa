//! The choices that stand in a trace.

ghost use Rattle.std.specs.Prelude.{[], map, IfOk, OnOk};
ghost use Rattle.trace_text.specs.EventSeen.{stamped_seen};
ghost use Rattle.trace_check.specs.Collected.{AreChoicesOf, AddsSource, AddsReading, AddsAnswer};

use host_jobs::Recorded;
use page_base::{Micros, Source};
use std::alloc::{AllocError, Global};
use trace_text::{Event, Stamped};

/// The choices of a run: the sources that were served, the readings of the clock and the answers of the host closures, each in order.
#[derive(Drop)]
pub struct TraceChoices {
    pub sources: Vec<Source>,
    pub readings: Vec<Micros>,
    pub answers: Vec<Recorded>,
}

impl TraceChoices {
    pub(crate) fn new(alloc: Global) -> TraceChoices
        ensures { AreChoicesOf [] result }
    {
        TraceChoices {
            sources: Vec::new(alloc),
            readings: Vec::new(alloc),
            answers: Vec::new(alloc),
        }
    }

    /// Adds the choice of an event, where it has one.
    pub(crate) fn add(&mut self, e: &Stamped) -> Result<(), AllocError>
        ensures sources { OnOk result (AddsSource e.now self.old self.new) }
        ensures readings { OnOk result (AddsReading e.now self.old self.new) }
        ensures answers { OnOk result (AddsAnswer e.now self.old self.new) }
    {
        match &e.event {
            Event::Turn {
                source: Some(source),
                ..
            } => self.sources.push(*source)?,
            Event::Wait { .. } => self.readings.push(e.time)?,
            Event::Host { k, x, answer } => self.answers.push(Recorded {
                // A number that no table has: the line will differ.
                k: u32::try_from(*k).unwrap_or(u32::MAX),
                x: *x,
                answer: *answer,
            })?,
            _ => {}
        }
        Ok(())
    }

    /// The same, and lets the event go.
    pub(crate) fn take(&mut self, e: Stamped) -> Result<(), AllocError>
        ensures sources { OnOk result (AddsSource e self.old self.new) }
        ensures readings { OnOk result (AddsReading e self.old self.new) }
        ensures answers { OnOk result (AddsAnswer e self.old self.new) }
    {
        self.add(&e)
    }
}

/// The choices that stand in the lines of some events, found in one pass: the sources of the `turn` lines but `none`, the times of the
/// `wait` lines, and the answers of the `host` lines. Want of memory is the one error.
pub fn choices_of(alloc: Global, events: &[Stamped]) -> Result<TraceChoices, AllocError>
    ensures { IfOk result (λ choices. AreChoicesOf (map stamped_seen events.now) choices) }
{
    let mut choices = TraceChoices::new(alloc);
    let mut rest = events;
    while let Some((e, more)) = rest.split_first() {
        choices.add(e)?;
        rest = more;
    }
    Ok(choices)
}
