//! The first fault of the names of a script.

ghost use Rattle.std.specs.Prelude.{◌≡◌, List, IfOk};
ghost use Rattle.std.specs.Option.{option_map};
ghost use Rattle.lang_ast.specs.Names.{Occurrence as OccurrenceSeen};
ghost use Rattle.lang_ast.specs.NameFaults.{is_operation, knows_variable, clashes, is_twice, is_arity};
ghost use Rattle.lang_ast.specs.declared.role.Role.TheVariants as role;
ghost use Rattle.lang_names.specs.Collected.{seen_all};
ghost use Rattle.lang_names.specs.Knows.{Knows};
ghost use Rattle.lang_names.specs.Checks.{WhereBothKnown, is_function_twice, is_callable, is_twice_at, is_unknown_at, TellsFault};
ghost use Rattle.lang_names.specs.Told.{seen_fault, IsTold};

use crate::fault::NameFault;
use crate::names::Names;
use crate::occurrence::Occurrence;
use lang_ast::{Role, argument_count, operation_named};
use page_values::Str;
use std::alloc::{AllocError, Global};

fn is_operation(name: &Str) -> bool
    ensures { result ≡ is_operation name.now }
{
    operation_named(name).is_some()
}

/// Whether a name is a variable where it stands.
fn knows_variable<'a>(all: &Names<'a>, scope: Option<usize>, name: &'a Str) -> bool
    ensures { (os : List OccurrenceSeen) → Knows all.now os → result ≡ knows_variable os scope name.now }
{
    all.has_variable(scope, name) || all.has_variable(None, name)
}

/// Whether the name of a variable clashes with a function's.
fn clashes<'a>(all: &Names<'a>, before: &Names<'a>, scope: Option<usize>, name: &'a Str) -> bool
    ensures { WhereBothKnown all.now before.now (λ os us. result ≡ clashes os us scope name.now) }
{
    match scope {
        None => before.has_function(name),
        Some(_) => all.has_function(name),
    }
}

/// Whether the name of a parameter or a variable was given before, or is an operation's or a function's.
fn is_declared<'a>(all: &Names<'a>, before: &Names<'a>, scope: Option<usize>, name: &'a Str) -> bool
    ensures { WhereBothKnown all.now before.now (λ os us. result ≡ is_twice os us role.Variable scope name.now) }
{
    is_operation(name) || clashes(all, before, scope, name) || before.has_declared(scope, name)
}

/// Whether the name of a function was given before, or is an operation's.
fn is_function_twice<'a>(before: &Names<'a>, name: &'a Str) -> bool
    ensures { (os : List OccurrenceSeen) → Knows before.now os → result ≡ is_function_twice os name.now }
{
    is_operation(name) || before.has_function(name) || before.has_variable(None, name)
}

/// Whether a name is an operation, a variable where it stands, or a function.
fn is_callable<'a>(all: &Names<'a>, scope: Option<usize>, name: &'a Str) -> bool
    ensures { (os : List OccurrenceSeen) → Knows all.now os → result ≡ is_callable os scope name.now }
{
    is_operation(name) || knows_variable(all, scope, name) || all.has_function(name)
}

fn is_twice<'a>(all: &Names<'a>, before: &Names<'a>, occurrence: &Occurrence<'a>) -> bool
    ensures { WhereBothKnown all.now before.now (λ os us. result ≡ is_twice_at os us occurrence.now) }
{
    let scope = occurrence.scope;
    let name = occurrence.name;
    match occurrence.role {
        Role::Function => is_function_twice(before, name),
        Role::Parameter => is_declared(all, before, scope, name),
        Role::Variable => is_declared(all, before, scope, name),
        Role::Caught => is_operation(name) || clashes(all, before, scope, name),
        Role::Read => false,
        Role::Assigned => false,
        Role::Called(_) => false,
    }
}

fn is_unknown<'a>(all: &Names<'a>, occurrence: &Occurrence<'a>) -> bool
    ensures { (os : List OccurrenceSeen) → Knows all.now os → result ≡ is_unknown_at os occurrence.now }
{
    let scope = occurrence.scope;
    let name = occurrence.name;
    match occurrence.role {
        Role::Read => {
            is_operation(name) || !(knows_variable(all, scope, name) || all.has_function(name))
        }
        Role::Called(_) => !is_callable(all, scope, name),
        Role::Assigned => is_operation(name) || !knows_variable(all, scope, name),
        Role::Function => false,
        Role::Parameter => false,
        Role::Variable => false,
        Role::Caught => false,
    }
}

/// Whether an operation is called with another number of arguments than it has.
fn is_arity(occurrence: &Occurrence<'_>) -> bool
    ensures { result ≡ is_arity occurrence.now.role occurrence.now.name.now }
{
    match occurrence.role {
        Role::Called(count) => match operation_named(occurrence.name) {
            Some(op) => count != argument_count(op),
            None => false,
        },
        _ => false,
    }
}

/// The fault of a name, if there is one.
fn fault_of<'a>(
    all: &Names<'a>,
    before: &Names<'a>,
    occurrence: &Occurrence<'a>,
) -> Option<NameFault>
    ensures { WhereBothKnown all.now before.now (λ os us. TellsFault result os us occurrence.now) }
{
    let at = occurrence.at;
    if is_twice(all, before, occurrence) {
        Some(NameFault::Twice { at })
    } else if is_unknown(all, occurrence) {
        Some(NameFault::Unknown { at })
    } else if is_arity(occurrence) {
        Some(NameFault::Arity { at })
    } else {
        None
    }
}

fn all_names<'a>(alloc: Global, occurrences: &[Occurrence<'a>]) -> Result<Names<'a>, AllocError>
    ensures { IfOk result (λ names. Knows names (seen_all occurrences.now)) }
{
    let mut names = Names::new(alloc);
    for occurrence in occurrences {
        names.add(occurrence)?;
    }
    Ok(names)
}

/// The first fault of the names of a script, which these are.
pub fn first_fault(
    alloc: Global,
    occurrences: &[Occurrence<'_>],
) -> Result<Option<NameFault>, AllocError>
    ensures { IfOk result (λ found. IsTold (seen_all occurrences.now) (option_map seen_fault found)) }
{
    let all = all_names(alloc, occurrences)?;
    let mut before = Names::new(alloc);
    for occurrence in occurrences {
        if let Some(fault) = fault_of(&all, &before, occurrence) {
            return Ok(Some(fault));
        }
        before.add(occurrence)?;
    }
    Ok(None)
}
