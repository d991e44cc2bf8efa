//! Host closures: Rust closures that a page asks for an answer on a number, each at most once.
//!
//! A closure is kept beside the fact that it answers by the relation of its kind. It is live until it is fired, which calls
//! it, or dropped, which does not.
#![tactic(auto)]

mod answer;
mod closure;
mod once;
mod overlay;
mod port;
mod recorded_hosts;
mod slot;
mod table;

pub use answer::{Fired, NoHost, Recorded};
pub use once::HostOnce;
pub use overlay::asked_closures_are_queued;
pub use page_types::{HostKind, HostMark};
pub use port::HostPort;
pub use recorded_hosts::RecordedHosts;
pub use table::HostTable;
