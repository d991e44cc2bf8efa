//! A call, as it is exported.

use page_base::Micros;
use page_values::Str;

/// A call: its name, when it begins and when it ends.
#[derive(Drop)]
pub struct CallSpan {
    pub name: Str,
    pub begin: Micros,
    pub end: Micros,
}
