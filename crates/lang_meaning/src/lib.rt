//! What a script means: the state of the script machine around any host, the evaluation of expressions, statements and
//! calls, what operations mean for a host that answers by steps, and what a call that is stopped has asked of its host.
//! Definitions in `specs/`, and laws above them as functions with empty bodies.
#![tactic(auto)]

mod stops;

pub use stops::{Growing, stopped_calls_come_before_their_end};
