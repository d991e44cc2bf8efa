//! Event listeners at one target, and the dispatches that call them (DOM, "Interface EventTarget" and "Dispatching events").
//!
//! Nothing is called here: a dispatch tells which registrations to call, one after another.
#![tactic(auto)]

mod dispatch;
mod index;
mod listener;
mod listeners;
mod target;

pub use dispatch::Dispatch;
pub use listeners::Listeners;
pub use page_base::MemoryFault;
pub use target::Target;
