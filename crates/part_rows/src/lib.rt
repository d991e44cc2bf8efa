//! Worked examples of the parts of a page: frame callbacks, idle callbacks, timers, microtasks, signals, listeners, closures of
//! hosts and the ports to them, policies, combinators, promises with their lines, what goes on in parallel, and operations that
//! touch no page.
//!
//! There is nothing here but tests. They stand apart from the crates that they test, so that the proofs of those are not made a
//! second time for their tests. The tables hold what is wanted, which was worked out by hand. Memory is ample in each.
#![tactic(auto)]

#[cfg(test)]
mod answers;
#[cfg(test)]
mod closures;
#[cfg(test)]
mod combinators;
#[cfg(test)]
mod due_rows;
#[cfg(test)]
mod frame_lists;
#[cfg(test)]
mod frame_requests;
#[cfg(test)]
mod idle;
#[cfg(test)]
mod listeners;
#[cfg(test)]
mod microtask_list;
#[cfg(test)]
mod notices;
#[cfg(test)]
mod page_ports;
#[cfg(test)]
mod parallel;
#[cfg(test)]
mod policies;
#[cfg(test)]
mod pure_operations;
#[cfg(test)]
mod recorded_answers;
#[cfg(test)]
mod rows;
#[cfg(test)]
mod script_lines;
#[cfg(test)]
mod signals;
#[cfg(test)]
mod spellings;
#[cfg(test)]
mod timers;
