//! What is found of a trace.

/// What is found of a trace, by comparing its lines with those of the run under the choices that stand in it. Lines are counted from 1,
/// and the head is the first.
#[derive(Clone, Copy, Debug, PartialEq, Eq)]
pub enum Verdict {
    /// The trace is legal: the run ends with exactly its events.
    Yes,
    /// The run has another line than the trace; this is the first such line.
    Differs { line: usize },
    /// The run is stuck, since a choice is absent or not legal there; all its lines are the trace's, and this is the line behind them.
    Illegal { line: usize },
}
