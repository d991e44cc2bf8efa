//! The page as a host that is asked: all operations of a script, those that call back among them.
#![tactic(auto)]

mod asking;
mod folding;
mod giving;
mod operating;
mod promises;
mod signals;
mod times;

pub use asking::{answer, go_on};
pub use folding::are_numbered;
pub use giving::{gives_value, known_value};
