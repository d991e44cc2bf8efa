//! The text of a trace: the events of a run, the line of each, and what takes the lines one by one.
//!
//! Times are in microseconds. Values stand in events by their spelling.
#![tactic(auto)]

mod check;
mod event;
mod events;
mod fault;
mod fields;
mod line_reading;
mod lines;
mod printed;
mod reading;
mod sink;
mod spellings;
mod summary;
mod trace_laws;
mod word_tables;
mod words;
mod writing;

pub use check::LineCheck;
pub use event::{Event, QueueName, Queued, Stamped};
pub use events::Events;
pub use fault::{BadLine, TraceFault};
pub use line_reading::read_line;
pub use lines::{Lines, NoLine};
pub use page_types::{Priority as PrioName, RegKind};
pub use printed::Printed;
pub use reading::{read_head, read_trace};
pub use sink::LineSink;
pub use summary::{LineCount, Summary, counting_gives_the_summary, summary_of};
pub use trace_laws::{a_trace_has_one_reading, a_trace_is_read, there_is_one_bad_line};
pub use words::{kind_word, source_word};
pub use writing::write_event;
