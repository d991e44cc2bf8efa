//! Laws of traces.

ghost use Rattle.std.specs.Prelude.{◌≡◌, ℕ, List};
ghost use Rattle.page_types.specs.Events.{Stamped};
ghost use Rattle.trace_text.specs.Trace.{IsBadLine, HasNoBadLine, HaveOneForm, HaveSameEvents};

/// A law: no line of a trace is bad. So what `write_event` writes of the events of a trace, behind the head, is read again.
pub fn a_trace_is_read()
    ensures { (form : ℕ) (bytes : List ℕ) (es : List Stamped) (number : ℕ) → HasNoBadLine form bytes es number }
{}

/// A law: some bytes are the trace of one list of events at most, in one form. So what is read is what was written.
pub fn a_trace_has_one_reading()
    ensures form { (a b : ℕ) (bytes : List ℕ) (es others : List Stamped) → HaveOneForm a b bytes es others }
    ensures events { (a b : ℕ) (bytes : List ℕ) (es others : List Stamped) → HaveSameEvents a b bytes es others }
{}

/// A law: one line at most is the first that is refused.
pub fn there_is_one_bad_line()
    ensures { (bytes : List ℕ) (a b : ℕ) → IsBadLine bytes a → IsBadLine bytes b → a ≡ b }
{}
