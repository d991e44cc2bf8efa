//! Worked examples across crates: what the program does with files that are too long or not read, with outputs that fail and with
//! closures of its host; and what the script machine does around a small host, which is proved to keep what every host promises.
//!
//! There is nothing here but tests and that host. The tables hold what is wanted, which was worked out by hand. Memory is ample in
//! each. What the program writes from its words and files alone stands in the folder `rows` of the repository.
#![tactic(auto)]

#[cfg(test)]
mod deep;
#[cfg(test)]
mod example;
#[cfg(test)]
mod files;
#[cfg(test)]
mod host_closures;
#[cfg(test)]
mod judged;
pub mod nested_host;
#[cfg(test)]
mod scripts;
#[cfg(test)]
mod storms;
#[cfg(test)]
mod write_faults;
