//! The map of animation frame callbacks, and the frame that runs them.
#![tactic(auto)]

mod callback_map;
mod frames;
mod in_turn;

pub use frames::Frames;
pub use in_turn::callbacks_one_by_one_are_the_frame;
pub use page_base::MemoryFault;
