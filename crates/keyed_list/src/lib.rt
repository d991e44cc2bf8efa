//! A list whose items are found and removed by a key that each has, in the time of look-ups.
//!
//! It stands below the abort algorithms of a signal and the listeners of a page, which both are such lists.
#![tactic(auto)]

mod keyed;
mod list;
mod places;

pub use keyed::{Keyed, Taken};
pub use list::KeyedList;
pub use page_base::MemoryFault;
