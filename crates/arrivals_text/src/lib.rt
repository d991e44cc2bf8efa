//! The arrivals file, which sets the choices of a run and what arrives.
#![tactic(auto)]

mod arrival;
mod draft;
mod fault;
mod fields;
mod line;
mod lists;
mod order;
mod place;
mod reading;
mod setup;
mod values;

pub use arrival::Arrival;
pub use fault::{BadLine, PageFault};
pub use reading::read_page;
pub use setup::PageSetup;
