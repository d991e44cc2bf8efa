//! Worked examples of a page: a script and its arrivals are read, and the page is driven turn by turn, without a run's loop, clock and
//! chooser. The lines that it writes to a sink are compared as one text. And finished traces, judged, and whole runs of many
//! callbacks, counted.
//!
//! There is nothing here but tests. A row says which step comes next, and the page has to tell the same before each. The tables hold
//! what is wanted, which was worked out by hand. Memory is ample in each.
#![tactic(auto)]

#[cfg(test)]
mod arrivals;
#[cfg(test)]
mod callbacks;
#[cfg(test)]
mod driving;
#[cfg(test)]
mod frames;
#[cfg(test)]
mod host_closures;
#[cfg(test)]
mod judging;
#[cfg(test)]
mod many;
#[cfg(test)]
mod priorities;
#[cfg(test)]
mod promises;
#[cfg(test)]
mod refusals;
#[cfg(test)]
mod row;
#[cfg(test)]
mod signals;
#[cfg(test)]
mod timers;
