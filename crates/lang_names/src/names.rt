//! What is known of the names of a script.

ghost use Rattle.std.specs.Prelude.{◌≡◌, List, [], IfOk};
ghost use Rattle.lang_ast.specs.Names.{Occurrence as OccurrenceSeen};
ghost use Rattle.lang_ast.specs.NameFaults.{is_variable, names_function, names_as};
ghost use Rattle.lang_names.specs.Known.{Added};
ghost use Rattle.lang_names.specs.Knows.{Knows};
ghost use Rattle.lang_names.specs.Checks.{Learns, names_declared};

use crate::name_set::NameSet;
use crate::occurrence::Occurrence;
use lang_ast::Role;
use page_values::Str;
use std::alloc::{AllocError, Global};

/// The names that some occurrences give, by what they name.
#[derive(Drop)]
pub struct Names<'a> {
    functions: NameSet<'a>,
    variables: NameSet<'a>,
    /// The variables that no other `var` may name again.
    declared: NameSet<'a>,
}

impl<'a> Names<'a> {
    pub fn new(alloc: Global) -> Names<'a>
        ensures { Knows result [] }
    {
        Names {
            functions: NameSet::new(alloc),
            variables: NameSet::new(alloc),
            declared: NameSet::new(alloc),
        }
    }

    /// Adds the name of an occurrence, where it names something.
    pub fn add(&mut self, occurrence: &Occurrence<'a>) -> Result<(), AllocError>
        ensures { IfOk result (λ _. Learns self.old self.new occurrence.now) }
    {
        let scope = occurrence.scope;
        let name = occurrence.name;
        match occurrence.role {
            Role::Function => self.functions.add(scope, name),
            Role::Parameter => self.add_declared(scope, name),
            Role::Variable => self.add_declared(scope, name),
            Role::Caught => self.variables.add(scope, name),
            Role::Read => Ok(()),
            Role::Assigned => Ok(()),
            Role::Called(_) => Ok(()),
        }
    }

    fn add_declared(&mut self, scope: Option<usize>, name: &'a Str) -> Result<(), AllocError>
        ensures functions { self.new.functions ≡ self.old.functions }
        ensures variables { IfOk result (λ _. Added self.old.variables self.new.variables scope name.now) }
        ensures declared { IfOk result (λ _. Added self.old.declared self.new.declared scope name.now) }
    {
        self.variables.add(scope, name)?;
        self.declared.add(scope, name)
    }

    pub fn has_function(&self, name: &'a Str) -> bool
        ensures { (os : List OccurrenceSeen) → Knows self.now os → result ≡ names_function os name.now }
    {
        self.functions.has(None, name)
    }

    pub fn has_variable(&self, scope: Option<usize>, name: &'a Str) -> bool
        ensures { (os : List OccurrenceSeen) → Knows self.now os → result ≡ names_as is_variable os scope name.now }
    {
        self.variables.has(scope, name)
    }

    pub fn has_declared(&self, scope: Option<usize>, name: &'a Str) -> bool
        ensures { (os : List OccurrenceSeen) → Knows self.now os → result ≡ names_declared os scope name.now }
    {
        self.declared.has(scope, name)
    }
}
