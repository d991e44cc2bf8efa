//! A name where it stands in a script.

use lang_ast::Role;
use page_values::Str;

/// A name in a script: as what it stands there, in which function, the name, and the byte at which it stands.
#[derive(Clone, Copy)]
pub struct Occurrence<'a> {
    /// The number of the function that it stands in; `None` outside functions.
    pub scope: Option<usize>,
    pub role: Role,
    pub name: &'a Str,
    pub at: usize,
}
