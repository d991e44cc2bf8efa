//! A page's animation frame callbacks (HTML, "Animation frames") and idle callbacks (requestIdleCallback), with the moments of
//! frames and idle periods.
//!
//! Nothing is called, no line is written and no task is queued here: the page does all three. Moments and spans are in
//! microseconds.
#![tactic(auto)]

mod laws;
mod moments;
mod part;

pub use laws::{
    callbacks_called_are_those_of_a_page, frame_calls_are_steps_of_a_page,
    idle_calls_are_steps_of_a_page, idle_periods_are_those_of_a_page,
};
pub use page_base::{MemoryFault, Micros};
pub use part::PageFrames;
