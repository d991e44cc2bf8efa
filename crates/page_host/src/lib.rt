//! The page: one object that owns every part of it, its host port and its lines, is the host of the script machine, and takes each step
//! of a turn besides its task as the model's page does. Times are in microseconds.
#![tactic(auto)]

mod abort_tasks;
mod callbacks;
mod checkpoint;
mod did;
mod event_tasks;
mod frame_tasks;
mod host_tasks;
mod idle_tasks;
mod jobs;
mod making;
mod messages;
mod page;
mod performing;
mod pieces;
mod rejection_tasks;
mod sched_tasks;
mod stop;
mod stopping;
mod timer_tasks;
mod turn_laws;
mod turn_steps;
mod turning;

pub use did::Did;
pub use making::NoPage;
pub use page::Page;
pub use stop::PageStop;
pub use turn_laws::{
    runs_end_when_the_time_is_up, turns_begin_as_in_the_model, waits_end_as_in_the_model,
};
