//! Promises of ECMA-262 on records: settling, adoption, reactions, and the list of rejected promises about to be
//! notified about.
//!
//! A promise is a number, counted from 1 in the order of making. Jobs are handed out, and whoever keeps the queue runs
//! them. The steps are those of the definitions in `page_parts`.
#![tactic(auto)]

mod laws;
mod promises;
mod record;

pub use laws::{a_promise_settles_once, a_reaction_leads_to_one_job};
pub use page_values::MemoryFault;
pub use promises::Promises;
pub use record::{Change, Job, Reaction, Settled};
