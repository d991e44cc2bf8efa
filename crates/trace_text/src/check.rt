//! Lines that are compared with those of a trace.

ghost use Rattle.std.specs.Prelude.{◌≡◌, Err, IfOk};
ghost use Rattle.page_parts.specs.Words.{same_bytes};
ghost use Rattle.trace_text.specs.Comparing.{differed, have_same_text};
ghost use Rattle.trace_text.specs.declared.lines.NoLine.TheVariants.{Differs};

use crate::writing::write_line;
use crate::{Events, Lines, NoLine, Stamped};
use std::alloc::{AllocError, Global};
use std::marker::Model;

/// Compares each line with the next one of a trace, the head among them. It holds the events whose lines are left.
#[derive(Drop)]
pub struct LineCheck<'e> {
    alloc: Global,
    form: u32,
    left: &'e [Stamped],
    matched: usize,
    refusals: u64,
}

impl<'e> Model for LineCheck<'e> {
    ghost use Rattle.std.specs.Prelude.{◌+◌, ◌≤◌, ◌^◌, length};
    ghost use Rattle.trace_text.specs.Comparing.{Comparison};

    ghost Value = { Comparison };

    ghost view = { λ check. record { form = check.form; left = check.left.now; matched = check.matched; refusals = check.refusals } };

    ghost invariant = { λ check. check.matched + length check.left.now ≤ 2 ^ 60 };
}

impl<'e> LineCheck<'e> {
    /// A comparison with this trace, of which no line was met. Takes no memory.
    pub fn new(alloc: Global, events: &'e Events) -> LineCheck<'e>
        ensures { result ≡ record { form = events.now.form; left = events.now.events; matched = 0; refusals = 0 } }
    {
        LineCheck {
            alloc,
            form: events.form(),
            left: events.items(),
            matched: 0,
            refusals: 0,
        }
    }

    /// How many lines of the trace were met, the head among them. Takes no memory.
    pub fn matched(&self) -> usize
        ensures { result ≡ self.now.matched }
    {
        self.matched
    }

    fn differs(&mut self) -> Result<(), NoLine>
        ensures answer { result ≡ Err Differs }
        ensures counted { self.new ≡ differed self.old }
    {
        self.refusals = self.refusals.saturating_add(1);
        Err(NoLine::Differs)
    }
}

/// `Differs` comes exactly where the next line of the trace is another or absent, at the head where the trace has another
/// form; then that line is still the next one.
/// `Failed` never comes.
impl<'e> Lines for LineCheck<'e> {
    ghost use Rattle.std.specs.Prelude.{[], ◌∷◌};
    ghost use Rattle.std.specs.Result.{result_err};
    ghost use Rattle.trace_text.specs.declared.lines.NoLine.TheVariants.{Failed};
    ghost use Rattle.trace_text.specs.EventSeen.{stamped_seen};
    ghost use Rattle.trace_text.specs.Line.{Head, Of};
    ghost use Rattle.trace_text.specs.Given.{Gives};
    ghost use Rattle.trace_text.specs.Checks.{Kept, check_keeping, seen_kept};
    ghost use Rattle.trace_text.specs.Comparing.{kept_in};

    ghost Told = { Kept };

    ghost seen = { λ check. seen_kept (kept_in check) check.refusals };

    ghost keeping = { check_keeping };

    fn head(&mut self, form: u32) -> Result<(), NoLine> {
        if self.matched > 0 {
            return self.differs();
        }
        if form != self.form {
            return self.differs();
        }
        self.matched = 1;
        Ok(())
    }

    fn emit(&mut self, e: &Stamped) -> Result<(), NoLine> {
        if self.matched == 0 {
            return self.differs();
        }
        let Some((next, left)) = self.left.split_first() else {
            return self.differs();
        };
        if !have_same_line(self.alloc, next, e)? {
            return self.differs();
        }
        self.left = left;
        self.matched += 1;
        Ok(())
    }
}

// Whether two events have the same line.
fn have_same_line(alloc: Global, a: &Stamped, b: &Stamped) -> Result<bool, AllocError>
    ensures { IfOk result (λ same. same ≡ have_same_text a.now b.now) }
{
    let mut one = Vec::new(alloc);
    write_line(a, &mut one)?;
    let mut other = Vec::new(alloc);
    write_line(b, &mut other)?;
    Ok(are_same(&one, &other))
}

fn are_same(a: &[u8], b: &[u8]) -> bool
    ensures { result ≡ same_bytes a.now b.now }
{
    a == b
}
