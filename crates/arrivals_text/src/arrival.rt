//! What arrives at a page.

use page_base::{Micros, Source};
use page_values::{Str, Value};

/// An event that comes from outside: when it comes, on which task source, its name, and the value that listeners get.
#[derive(Drop)]
pub struct Arrival {
    pub at: Micros,
    pub source: Source,
    pub name: Str,
    pub value: Value,
}
