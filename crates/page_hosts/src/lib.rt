//! The host closures of a page: which it has asked, and what its port tells of each.
#![tactic(auto)]

mod deferred;
mod hosts;
mod laws;

pub use host_jobs::{HostPort, NoHost};
pub use hosts::PageHosts;
pub use laws::{closures_are_those_of_a_page, kept_answers_are_choices};
pub use page_values::MemoryFault;
