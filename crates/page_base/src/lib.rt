//! What every part of a page counts and reads by: moments of time, task sources, clocks, and numbers and fields in
//! text; and the fault of calls that fail for want of memory alone.
#![tactic(auto)]

mod clock;
mod cursor;
mod fields;
mod laws;
mod memory;
mod moment;

pub use clock::{Clock, NoReading, RecordedClock, ScriptClock};
pub use cursor::Cursor;
pub use fields::{behind, cut_at, is_word};
pub use laws::{recorded_clock_is_recorded, script_clock_is_written};
pub use memory::MemoryFault;
pub use moment::Micros;
pub use page_types::{End, Source};
