//! The operations of a page that have to do with time, and `postMessage`: the clock, timers, frame callbacks and idle callbacks. None
//! of them calls a callback back.
//!
//! Each does on a page what the row of its operation in the model does, its faults included. Its one further fault is want of
//! memory, which is also told where a number of 64 bits would pass its range.
#![tactic(auto)]

mod arguments;
mod clock;
mod frames;
mod idle;
mod messages;
mod requests;
mod timers;

pub use clock::{busy, now};
pub use frames::{cancel_frame, request_frame};
pub use idle::{cancel_idle, request_idle, time_remaining};
pub use messages::post_message;
pub use timers::{clear_timer, set_interval, set_timeout};
