//! Which task source is served: the policies of a setup, and lists of sources.
#![tactic(auto)]

mod chooser;
mod laws;
mod policy;
mod policy_chooser;
mod recorded;
mod seeing;
mod view;

pub use chooser::{Chooser, NoChoice};
pub use laws::{policy_chooser_is_written, recorded_chooser_is_recorded};
pub use policy::Policy;
pub use policy_chooser::PolicyChooser;
pub use recorded::RecordedChooser;
pub use view::View;
