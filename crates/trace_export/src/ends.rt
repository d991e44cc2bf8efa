//! When the calls of a trace end.

ghost use Rattle.std.specs.Prelude.{◌≡◌, [], map, IfOk, OnOk};
ghost use Rattle.trace_text.specs.EventSeen.{stamped_seen};
ghost use Rattle.trace_export.specs.Ends.{ends_of};
ghost use Rattle.trace_export.specs.EndsSeen.{micros, known_seen, TakesIn};

use page_base::Micros;
use std::alloc::{AllocError, Global};
use std::collections::VecDeque;
use trace_text::{Event, Stamped};

/// When each call ends, in the order of the `call` lines. It goes over the events once, from the last to the first.
pub fn call_ends(alloc: Global, events: &[Stamped]) -> Result<VecDeque<Micros>, AllocError>
    ensures { IfOk result (λ ends. micros ends.items ≡ ends_of (map stamped_seen events.now)) }
{
    let mut known = Known::new(alloc);
    let mut rest = events;
    while let Some((e, before)) = rest.split_last() {
        known.add(e)?;
        rest = before;
    }
    Ok(known.ends)
}

// What is known of the events behind the present one.
#[derive(Drop)]
pub(crate) struct Known {
    // The ends of their calls.
    ends: VecDeque<Micros>,
    // When callbacks ended that were called earlier, the first one in front.
    left: VecDeque<Micros>,
    // The time of the `end` line.
    last: Micros,
}

impl Known {
    fn new(alloc: Global) -> Known
        ensures { known_seen result ≡ record { ends = []; left = []; last = 0 } }
    {
        Known {
            ends: VecDeque::new(alloc),
            left: VecDeque::new(alloc),
            last: Micros(0),
        }
    }

    // Takes in the event before these.
    fn add(&mut self, e: &Stamped) -> Result<(), AllocError>
        ensures { OnOk result (TakesIn e.now self.old self.new) }
    {
        match &e.event {
            Event::Call { .. } => {
                let end = self.left.pop_front().unwrap_or(self.last);
                self.ends.push_front(end)?;
            }
            Event::Ret | Event::Throw { .. } => self.left.push_front(e.time)?,
            Event::End(_) => {
                self.left.clear();
                self.last = e.time;
            }
            _ => {}
        }
        Ok(())
    }
}
