//! The timers of a page: the map of ids that `clearTimeout` and `clearInterval` clear, and the active timers in the order
//! in which they come due.
#![tactic(auto)]

mod armed;
pub mod counted;
pub mod due_rows;
mod ids;
mod timers;

pub use armed::Armed;
pub use page_base::MemoryFault;
pub use timers::Timers;
