//! A room of cells: storage whose cells are named by a key and a generation, with counted accesses.
//!
//! An access is one call of `insert`, `get`, `get_mut` or `remove`, and each adds one to the [`Steps`] that it is handed.
#![tactic(auto)]

mod room;
mod steps;

pub use page_base::MemoryFault;
pub use room::{Cell, Room};
pub use steps::Steps;
