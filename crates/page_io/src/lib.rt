//! The ways in and out of the program: folders that files are fetched from, and sinks that bytes are put into.
//!
//! Both stand in memory too, with calls that fail where they are told to, for tests.
#![tactic(auto)]

mod edge;
mod fetched;
mod folder;
mod mem_folder;
mod mem_sink;
mod sink;

pub use edge::{RealFolder, StdSink};
pub use fetched::{FetchFault, Fetched};
pub use folder::Folder;
pub use mem_folder::MemFolder;
pub use mem_sink::MemSink;
pub use sink::{Failed, Sink};
