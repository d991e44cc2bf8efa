//! The calls of a trace as a file that timeline viewers open, in the trace event format.
//!
//! Times are in microseconds, as they are in that format.
#![tactic(auto)]

mod ends;
mod fault;
mod laws;
mod reading;
mod span;
mod trace_calls;
mod writing;

pub use ends::call_ends;
pub use fault::{ExportFault, NotExport};
pub use laws::{an_export_has_one_reading, an_export_is_json};
pub use reading::read_export;
pub use span::CallSpan;
pub use trace_calls::{called, calls};
pub use writing::export;
