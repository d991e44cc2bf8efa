//! The operations of signals, listeners, scheduler tasks and host closures on a page, but those that call back.
//!
//! Each one takes its arguments, unit where one is missing, and answers by a step. Want of memory may stop it at any place.
#![tactic(auto)]

mod arguments;
mod asking;
mod delays;
mod listening;
mod making;
mod priorities;
mod queueing;
mod reading;
mod refusing;
mod room;
mod scheduling;

pub use arguments::{priority_in, reason_given};
pub use asking::host;
pub use listening::{listen, unlisten};
pub use making::{
    aborted_signal, any_signal, controller, task_any, task_controller, timeout_signal,
};
pub use reading::{aborted, priority, reason, signal};
pub use scheduling::{post_task, yield_task};
