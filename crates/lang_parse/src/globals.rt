//! How many functions a script has, and how many names of variables outside functions.

ghost use Rattle.std.specs.Prelude.{◌≡◌, ◌∷◌, [], IfOk, IfErr, OnOk, length};
ghost use Rattle.lang_meaning.specs.Evaluation.{names_in, names_in_stmt, names_in_others, own_body, functions_of};
ghost use Rattle.lang_ast.specs.Seen.{seen_stmt, seen_block, seen_others, seen_items};
ghost use Rattle.lang_parse.specs.declared.error.ParseError.TheVariants.{OutOfMemory};
ghost use Rattle.lang_place.specs.NameSets.{distinct, Adds};

use crate::error::ParseError;
use lang_ast::{Expr, Item, Named, Stmt};
use std::alloc::Global;
use std::collections::HashSet;

/// Adds a name.
fn add_name(alloc: Global, name: &Named, names: &mut HashSet<Vec<u8>>) -> Result<(), ParseError>
    ensures added { OnOk result (Adds names.old.keys names.new.keys (name.now.name ∷ [])) }
    ensures memory { IfErr result (λ e. e ≡ OutOfMemory) }
{
    lang_place::add_name(alloc, names, name.name.bytes())?;
    Ok(())
}

/// Adds the names of `var` and `catch` in statements.
#[cycle(names)]
fn add_names(
    alloc: Global,
    statements: &[Stmt],
    names: &mut HashSet<Vec<u8>>,
) -> Result<(), ParseError>
    ensures added { OnOk result (Adds names.old.keys names.new.keys (names_in (seen_block statements.now))) }
    ensures memory { IfErr result (λ e. e ≡ OutOfMemory) }
{
    for statement in statements {
        add_names_of(alloc, statement, names)?;
    }
    Ok(())
}

/// The same in `else if` parts.
#[cycle(names)]
fn add_names_of_others(
    alloc: Global,
    others: &[(Expr, Vec<Stmt>)],
    names: &mut HashSet<Vec<u8>>,
) -> Result<(), ParseError>
    ensures added { OnOk result (Adds names.old.keys names.new.keys (names_in_others (seen_others others.now))) }
    ensures memory { IfErr result (λ e. e ≡ OutOfMemory) }
{
    for other in others {
        add_names(alloc, &other.1, names)?;
    }
    Ok(())
}

/// The same in one statement.
#[cycle(names)]
fn add_names_of(
    alloc: Global,
    statement: &Stmt,
    names: &mut HashSet<Vec<u8>>,
) -> Result<(), ParseError>
    ensures added { OnOk result (Adds names.old.keys names.new.keys (names_in_stmt (seen_stmt statement.now))) }
    ensures memory { IfErr result (λ e. e ≡ OutOfMemory) }
{
    match statement {
        Stmt::Var(name, _) => add_name(alloc, name, names),
        Stmt::If(_, block, others, last) => {
            add_names(alloc, block, names)?;
            add_names_of_others(alloc, others, names)?;
            match last {
                Some(block) => add_names(alloc, block, names),
                None => Ok(()),
            }
        }
        Stmt::While(_, block) => add_names(alloc, block, names),
        Stmt::Try(block, name, handler) => {
            add_names(alloc, block, names)?;
            add_name(alloc, name, names)?;
            add_names(alloc, handler, names)
        }
        Stmt::Assign(_, _) => Ok(()),
        Stmt::Expr(_) => Ok(()),
        Stmt::Return(_) => Ok(()),
        Stmt::Throw(_) => Ok(()),
    }
}

/// The same in one item: none where it is a function.
fn add_names_of_item(
    alloc: Global,
    item: &Item,
    names: &mut HashSet<Vec<u8>>,
) -> Result<(), ParseError>
    ensures added { OnOk result (Adds names.old.keys names.new.keys (names_in (own_body (seen_items (item.now ∷ []))))) }
    ensures memory { IfErr result (λ e. e ≡ OutOfMemory) }
{
    match item {
        Item::Fn(_) => Ok(()),
        Item::Stmt(statement) => add_names_of(alloc, statement, names),
    }
}

/// How many different names `var` and `catch` give outside functions.
pub(crate) fn global_count(alloc: Global, items: &[Item]) -> Result<usize, ParseError>
    ensures count { IfOk result (λ n. n ≡ length (distinct (names_in (own_body (seen_items items.now))))) }
    ensures memory { IfErr result (λ e. e ≡ OutOfMemory) }
{
    let mut names = HashSet::new(alloc);
    for item in items {
        add_names_of_item(alloc, item, &mut names)?;
    }
    Ok(names.len())
}

/// How many functions a script has.
pub(crate) fn function_count(items: &[Item]) -> usize
    ensures { result ≡ length (functions_of (seen_items items.now)) }
{
    let mut count = 0;
    for item in items {
        if let Item::Fn(_) = item {
            count += 1;
        }
    }
    count
}
