//! Worked examples of what is read and written: fields, clocks, folders, sinks, values, scripts and their names, async
//! scripts and what they become, storms, arrivals files, and traces and their exports.
//!
//! There is nothing here but tests. They stand apart from the crates that they test, so that the proofs of those are not made a
//! second time for their tests. The tables hold what is wanted, which was worked out by hand. Memory is ample in each.
#![tactic(auto)]

#[cfg(test)]
mod arrivals;
#[cfg(test)]
mod blame;
#[cfg(test)]
mod clocks;
#[cfg(test)]
mod cursor;
#[cfg(test)]
mod edge;
#[cfg(test)]
mod expansions;
#[cfg(test)]
mod exports;
#[cfg(test)]
mod fields;
#[cfg(test)]
mod folders;
#[cfg(test)]
mod operations;
#[cfg(test)]
mod places;
#[cfg(test)]
mod rows;
#[cfg(test)]
mod script_names;
#[cfg(test)]
mod scripts_read;
#[cfg(test)]
mod sinks;
#[cfg(test)]
mod spellings;
#[cfg(test)]
mod storms;
#[cfg(test)]
mod texts;
#[cfg(test)]
mod tokens_read;
#[cfg(test)]
mod trace_lines;
#[cfg(test)]
mod traces_compared;
#[cfg(test)]
mod traces_read;
#[cfg(test)]
mod values;
