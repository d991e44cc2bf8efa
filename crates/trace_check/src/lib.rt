//! Judging finished traces: whether a trace is that of a run under the choices that it records, and at which line it first is not.
#![tactic(auto)]

mod checking;
mod collecting;
mod replaying;
mod scanning;
mod text_check;
mod verdict;

pub use checking::{check_text, check_trace};
pub use collecting::{TraceChoices, choices_of};
pub use replaying::{Replayed, replay, replay_choices};
pub use scanning::text_choices;
pub use verdict::Verdict;
