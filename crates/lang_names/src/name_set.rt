//! Names in scopes.

ghost use Rattle.std.specs.Prelude.{◌≡◌, ℕ, List, Option, false, IfOk};
ghost use Rattle.lang_names.specs.Known.{has_name, Added};

use page_values::Str;
use std::alloc::{AllocError, Global};
use std::collections::HashSet;

/// A set of names, each in a function, by its number, or outside functions.
#[derive(Drop)]
pub struct NameSet<'a> {
    names: HashSet<(Option<usize>, &'a [u8])>,
}

impl<'a> NameSet<'a> {
    pub fn new(alloc: Global) -> NameSet<'a>
        ensures { (scope : Option ℕ) (x : List ℕ) → has_name result scope x ≡ false }
    {
        NameSet {
            names: HashSet::new(alloc),
        }
    }

    pub fn has(&self, scope: Option<usize>, name: &'a Str) -> bool
        ensures { result ≡ has_name self.now scope name.now }
    {
        self.names.contains(&(scope, name.bytes()))
    }

    pub fn add(&mut self, scope: Option<usize>, name: &'a Str) -> Result<(), AllocError>
        ensures { IfOk result (λ _. Added self.old self.new scope name.now) }
    {
        self.names.insert((scope, name.bytes()))?;
        Ok(())
    }
}
