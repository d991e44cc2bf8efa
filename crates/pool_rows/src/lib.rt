//! The queues of all task sources in one pool: what is put in on one side is taken out there, whatever the other side does.
//!
//! And worked examples of rooms of cells, pools, the queues of the task sources and of the scheduler, the queued tasks of a page,
//! priorities of signals, keyed lists and folds. They stand apart from the crates that they test, so that the proofs of those are
//! not made a second time for their tests. What is wanted was worked out by hand. Memory is ample in each.
#![tactic(auto)]

#[cfg(test)]
mod folds;
#[cfg(test)]
mod keyed_lists;
#[cfg(test)]
mod pools;
#[cfg(test)]
mod priorities;
#[cfg(test)]
mod queued_tasks;
#[cfg(test)]
mod queues;
#[cfg(test)]
mod rooms;
#[cfg(test)]
mod scheduler;
mod shared;

pub use shared::one_of_each;
