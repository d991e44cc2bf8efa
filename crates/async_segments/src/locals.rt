//! The local names of a function: its parameters, and what `var` and `catch` name in it.

ghost use Rattle.std.specs.Prelude.{◌≡◌, ◌∷◌, [], IfOk, map};
ghost use Rattle.lang_meaning.specs.Evaluation.{names_in, names_in_stmt, names_in_others, names_in_else};
ghost use Rattle.lang_ast.specs.Seen.{seen_name, seen_stmt, seen_block, seen_others, seen_else};
ghost use Rattle.lang_place.specs.NameSets.{has_name};
ghost use Rattle.async_segments.specs.Names.{spellings};
ghost use Rattle.async_segments.specs.Written.{names_of, AddsNames, Gathers};
ghost use Rattle.async_segments.specs.OfCode.{parameter_names, AreLocals};

use crate::marking::is_same;
use lang_ast::{Expr, Named, Stmt};
use std::alloc::{AllocError, Global};

/// Whether a name is among these.
pub(crate) fn has_name(names: &Vec<Vec<u8>>, name: &[u8]) -> bool
    ensures { result ≡ has_name (names_of names.now.items) name.now }
{
    for other in names {
        if is_same(other, name) {
            return true;
        }
    }
    false
}

/// Whether a name is that of a parameter.
pub(crate) fn has_parameter(parameters: &Vec<Named>, name: &[u8]) -> bool
    ensures { result ≡ has_name (spellings (map seen_name parameters.now.items)) name.now }
{
    for parameter in parameters {
        if is_same(parameter.name.bytes(), name) {
            return true;
        }
    }
    false
}

/// Adds a name, if it is new.
fn add(alloc: Global, name: &Named, names: &mut Vec<Vec<u8>>) -> Result<(), AllocError>
    ensures { IfOk result (λ _. AddsNames names.old.items names.new.items (name.now.name ∷ [])) }
{
    let spelling = name.name.bytes();
    if has_name(names, spelling) {
        return Ok(());
    }
    names.push(spelling.to_vec(alloc)?)?;
    Ok(())
}

#[cycle(names)]
fn add_of(alloc: Global, stmt: &Stmt, names: &mut Vec<Vec<u8>>) -> Result<(), AllocError>
    ensures { IfOk result (λ _. AddsNames names.old.items names.new.items (names_in_stmt (seen_stmt stmt.now))) }
{
    match stmt {
        Stmt::Var(name, _) => add(alloc, name, names),
        Stmt::Assign(_, _) => Ok(()),
        Stmt::Expr(_) => Ok(()),
        Stmt::If(_, block, others, last) => {
            add_all(alloc, block, names)?;
            add_of_others(alloc, others, names)?;
            add_of_else(alloc, last, names)
        }
        Stmt::While(_, block) => add_all(alloc, block, names),
        Stmt::Return(_) => Ok(()),
        Stmt::Throw(_) => Ok(()),
        Stmt::Try(block, name, handler) => {
            add_all(alloc, block, names)?;
            add(alloc, name, names)?;
            add_all(alloc, handler, names)
        }
    }
}

#[cycle(names)]
fn add_all(alloc: Global, block: &Vec<Stmt>, names: &mut Vec<Vec<u8>>) -> Result<(), AllocError>
    ensures { IfOk result (λ _. AddsNames names.old.items names.new.items (names_in (seen_block block.now.items))) }
{
    for stmt in block {
        add_of(alloc, stmt, names)?;
    }
    Ok(())
}

#[cycle(names)]
fn add_of_others(
    alloc: Global,
    others: &Vec<(Expr, Vec<Stmt>)>,
    names: &mut Vec<Vec<u8>>,
) -> Result<(), AllocError>
    ensures { Gathers result names.old names.new (names_in_others (seen_others others.now.items)) }
{
    for other in others {
        add_all(alloc, &other.1, names)?;
    }
    Ok(())
}

#[cycle(names)]
fn add_of_else(
    alloc: Global,
    last: &Option<Vec<Stmt>>,
    names: &mut Vec<Vec<u8>>,
) -> Result<(), AllocError>
    ensures { IfOk result (λ _. AddsNames names.old.items names.new.items (names_in_else (seen_else last.now))) }
{
    match last {
        Some(block) => add_all(alloc, block, names),
        None => Ok(()),
    }
}

fn add_parameters(
    alloc: Global,
    parameters: &Vec<Named>,
    names: &mut Vec<Vec<u8>>,
) -> Result<(), AllocError>
    ensures { Gathers result names.old names.new (parameter_names parameters.now.items) }
{
    for parameter in parameters {
        add(alloc, parameter, names)?;
    }
    Ok(())
}

/// The local names of a function, each once, in the order of the text.
pub(crate) fn locals_of(
    alloc: Global,
    parameters: &Vec<Named>,
    body: &Vec<Stmt>,
) -> Result<Vec<Vec<u8>>, AllocError>
    ensures { IfOk result (AreLocals parameters.now.items body.now.items) }
{
    let mut names = Vec::new(alloc);
    add_parameters(alloc, parameters, &mut names)?;
    add_all(alloc, body, &mut names)?;
    Ok(names)
}
