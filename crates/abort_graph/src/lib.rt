//! Abort signals: their reasons, how they depend on one another, and their abort algorithms (DOM, "Interface AbortSignal").
//!
//! Nothing is called here: an abort tells which signals to run the abort steps of, and their algorithms are numbers that are
//! handed over.
#![tactic(auto)]

mod algorithms;
mod by_value;
mod marked;
mod numbers;
mod signal;
mod signals;

pub use by_value::{reasons_are_among_the_values, reasons_by_number_are_reasons_by_value};
pub use marked::Marked;
pub use page_base::MemoryFault;
pub use signals::Signals;
