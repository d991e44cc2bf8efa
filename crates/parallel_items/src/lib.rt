//! What goes on in parallel beside the script of a page (HTML, "Event loops: processing model"): the active timers with their
//! completion steps, the idle timeouts, the answers of host closures and the arrivals, and which of them is due first.
//!
//! Nothing is called and no line is written here: the page does both. Times are in microseconds.
#![tactic(auto)]

mod answers;
mod arrivals;
mod completion;
mod delays;
mod idle;
mod items;
mod laws;
mod moments;
mod taken;

pub use arrivals_text::Arrival;
pub use completion::Completion;
pub use items::ParallelItems;
pub use laws::{calls_are_steps_of_a_page, items_are_those_of_a_page, taking_is_a_step_of_a_page};
pub use page_base::{MemoryFault, Micros};
pub use page_tasks::{HostTask, TimerTask};
pub use post_task::PrioSource;
pub use taken::{HostAnswer, Taken};
pub use timer_map::Armed;
