//! Lists of numbered items, doubly linked, that all stand in one room of cells.
//!
//! Any item is taken out by its ticket, wherever it stands, in a bounded number of accesses and with no memory.
#![tactic(auto)]

mod links;
mod pool;

pub use cell_room::{Cell, MemoryFault, Steps};
pub use pool::{ListId, Pool, Ticket, Unlinked};
