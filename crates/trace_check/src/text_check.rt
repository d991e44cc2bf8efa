//! Lines that are compared with the bytes of a trace.

ghost use Rattle.std.specs.Prelude.{◌≡◌, ◌+◌, [], ◌∷◌, ◌++◌, Err, IfOk};
ghost use Rattle.page_types.specs.Counts.{raised};
ghost use Rattle.page_parts.specs.Words.{same_bytes};
ghost use Rattle.page_parts.specs.TraceText.{line_text};
ghost use Rattle.trace_text.specs.EventSeen.{stamped_seen};
ghost use Rattle.trace_text.specs.declared.lines.NoLine.TheVariants.{Differs};

use page_base::{behind, cut_at, is_word};
use std::alloc::{AllocError, Global};
use std::marker::Model;
use trace_text::{Lines, NoLine, Stamped, write_event};

/// Compares each line with the next one in the bytes of a trace, the head among them. It keeps no event: the bytes stay with the caller.
#[derive(Drop)]
pub(crate) struct TextCheck<'t> {
    alloc: Global,
    form: u32,
    left: &'t [u8],
    matched: usize,
    refusals: u64,
}

impl<'t> Model for TextCheck<'t> {
    ghost use Rattle.std.specs.Prelude.{◌+◌, ◌≤◌, ◌^◌, length};
    ghost use Rattle.trace_check.specs.TextKept.{TextComparison};

    ghost Value = { TextComparison };

    ghost view = { λ check. record {
      kept = record { form = check.form; left = check.left.now; matched = check.matched };
      refusals = check.refusals;
    } };

    ghost invariant = { λ check. check.matched + length check.left.now ≤ 2 ^ 63 };
}

impl<'t> TextCheck<'t> {
    /// A comparison with the trace of this form that has this text behind its head. No line was met. Takes no memory.
    pub(crate) fn new(alloc: Global, form: u32, text: &'t [u8]) -> TextCheck<'t>
        ensures { result ≡ record { kept = record { form = form; left = text.now; matched = 0 }; refusals = 0 } }
    {
        TextCheck {
            alloc,
            form,
            left: text,
            matched: 0,
            refusals: 0,
        }
    }

    /// The line of the trace behind those that were met, counted from 1. Takes no memory.
    pub(crate) fn next_line(&self) -> usize
        ensures { result ≡ self.now.kept.matched + 1 }
    {
        self.matched + 1
    }

    fn differs(&mut self) -> Result<(), NoLine>
        ensures answer { result ≡ Err Differs }
        ensures same { self.new.kept ≡ self.old.kept }
        ensures counted { self.new.refusals ≡ raised self.old.refusals }
    {
        self.refusals = self.refusals.saturating_add(1);
        Err(NoLine::Differs)
    }
}

/// `Differs` comes exactly where the next line of the trace is another or absent, at the head where the trace has another form; then that
/// line is still the next one. `Failed` never comes.
impl<'t> Lines for TextCheck<'t> {
    ghost use Rattle.std.specs.Prelude.{[], ◌∷◌};
    ghost use Rattle.std.specs.Result.{result_err};
    ghost use Rattle.trace_text.specs.EventSeen.{stamped_seen};
    ghost use Rattle.trace_text.specs.Line.{Head, Of};
    ghost use Rattle.trace_text.specs.Given.{Gives};
    ghost use Rattle.trace_check.specs.TextKept.{TextKept, seen_in_text, text_keeping};

    ghost Told = { TextKept };

    ghost seen = { λ check. seen_in_text check.kept check.refusals };

    ghost keeping = { text_keeping };

    fn head(&mut self, form: u32) -> Result<(), NoLine> {
        if self.matched > 0 {
            return self.differs();
        }
        if form != self.form {
            return self.differs();
        }
        self.matched = 1;
        Ok(())
    }

    fn emit(&mut self, e: &Stamped) -> Result<(), NoLine> {
        if self.matched == 0 {
            return self.differs();
        }
        let Some((line, after)) = cut_at(self.left, b'\n') else {
            return self.differs();
        };
        if !is_line_of(self.alloc, line, e)? {
            return self.differs();
        }
        self.left = after;
        self.matched += 1;
        Ok(())
    }
}

/// Whether this is the line of an event, without its line feed.
fn is_line_of(alloc: Global, line: &[u8], e: &Stamped) -> Result<bool, AllocError>
    ensures { IfOk result (λ same. same ≡ same_bytes (line.now ++ 10 ∷ []) (line_text (stamped_seen e.now))) }
{
    let mut text = Vec::new(alloc);
    write_event(alloc, e, &mut text)?;
    Ok(is_whole_line(line, &text))
}

/// Whether the text is this line and a line feed.
#[tactic(auto, using(crate::proofs::WholeLines::whole_behind, crate::proofs::WholeLines::none_behind))]
fn is_whole_line(line: &[u8], text: &[u8]) -> bool
    ensures { result ≡ same_bytes (line.now ++ 10 ∷ []) text.now }
{
    match behind(text, line) {
        Some(end) => is_word(end, b"\n"),
        None => false,
    }
}
