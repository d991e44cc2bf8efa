//! The names that a script gives.

ghost use Rattle.std.specs.Prelude.{◌≡◌, IfOk, OnOk, map};
ghost use Rattle.lang_meaning.specs.Evaluation.{names_in, names_in_stmt, names_in_others, names_in_else, own_body};
ghost use Rattle.lang_ast.specs.Seen.{seen_stmt, seen_block, seen_others, seen_else, seen_items, seen_function};
ghost use Rattle.page_interp.specs.Runs.{frame_names};
ghost use Rattle.page_interp.specs.CodeNames.{frames_of, is_own, Appends};

use crate::names::Names;
use lang_ast::{Expr, Function, Item, Stmt, operation_named};
use page_values::{MemoryFault, Str, copy_text};
use std::alloc::Global;

/// Appends the names that `var` and `catch` give in a block.
#[cycle(gathering)]
#[tactic(auto, using(lang_ast::proofs::Trees::seen_stmts_by, lang_ast::proofs::Sizes::in_block, lang_ast::proofs::Sizes::in_others))]
fn names_in(alloc: Global, block: &Vec<Stmt>, into: &mut Vec<Str>) -> Result<(), MemoryFault>
    ensures { OnOk result (Appends into.old into.new (names_in (seen_block block.now.items))) }
{
    for stmt in block {
        names_in_stmt(alloc, stmt, into)?;
    }
    Ok(())
}

#[cycle(gathering)]
#[tactic(auto, using(lang_ast::proofs::Trees::seen_stmts_by, lang_ast::proofs::Sizes::in_block, lang_ast::proofs::Sizes::in_others))]
fn names_in_stmt(alloc: Global, stmt: &Stmt, into: &mut Vec<Str>) -> Result<(), MemoryFault>
    ensures { OnOk result (Appends into.old into.new (names_in_stmt (seen_stmt stmt.now))) }
{
    match stmt {
        Stmt::Var(name, _) => {
            into.push(copy_text(alloc, &name.name)?)?;
            Ok(())
        }
        Stmt::If(_, block, others, last) => {
            names_in(alloc, block, into)?;
            names_in_others(alloc, others, into)?;
            names_in_else(alloc, last, into)
        }
        Stmt::While(_, block) => names_in(alloc, block, into),
        Stmt::Try(block, name, handler) => {
            names_in(alloc, block, into)?;
            into.push(copy_text(alloc, &name.name)?)?;
            names_in(alloc, handler, into)
        }
        Stmt::Assign(_, _) => Ok(()),
        Stmt::Expr(_) => Ok(()),
        Stmt::Return(_) => Ok(()),
        Stmt::Throw(_) => Ok(()),
    }
}

#[cycle(gathering)]
#[tactic(auto, using(lang_ast::proofs::Trees::seen_stmts_by, lang_ast::proofs::Sizes::in_block, lang_ast::proofs::Sizes::in_others))]
fn names_in_others(
    alloc: Global,
    others: &Vec<(Expr, Vec<Stmt>)>,
    into: &mut Vec<Str>,
) -> Result<(), MemoryFault>
    ensures { OnOk result (Appends into.old into.new
        (names_in_others (seen_others others.now.items))) }
{
    for other in others {
        names_in(alloc, &other.1, into)?;
    }
    Ok(())
}

#[cycle(gathering)]
#[tactic(auto, using(lang_ast::proofs::Trees::seen_stmts_by, lang_ast::proofs::Sizes::in_block, lang_ast::proofs::Sizes::in_others))]
fn names_in_else(
    alloc: Global,
    last: &Option<Vec<Stmt>>,
    into: &mut Vec<Str>,
) -> Result<(), MemoryFault>
    ensures { OnOk result (Appends into.old into.new (names_in_else (seen_else last.now))) }
{
    match last {
        Some(block) => names_in(alloc, block, into),
        None => Ok(()),
    }
}

/// The names of the variables of a function: its parameters, and those that its block gives.
pub fn frame_names(alloc: Global, function: &Function) -> Result<Names, MemoryFault>
    ensures { IfOk result (λ names. names ≡ frame_names (seen_function function.now)) }
{
    let mut names = Vec::new(alloc);
    for parameter in &function.parameters {
        names.push(copy_text(alloc, &parameter.name)?)?;
    }
    names_in(alloc, &function.body, &mut names)?;
    Names::new(alloc, names)
}

/// The names of the variables of each function.
pub fn all_frame_names(alloc: Global, items: &[Item]) -> Result<Vec<Names>, MemoryFault>
    ensures { IfOk result (λ all. all.items ≡ frames_of (seen_items items.now)) }
{
    let mut all = Vec::new(alloc);
    for item in items {
        let function = match item {
            Item::Fn(function) => function,
            Item::Stmt(_) => continue,
        };
        all.push(frame_names(alloc, function)?)?;
    }
    Ok(all)
}

/// The names of the global variables.
pub fn global_names(alloc: Global, items: &[Item]) -> Result<Names, MemoryFault>
    ensures { IfOk result (λ names. names ≡ names_in (own_body (seen_items items.now))) }
{
    let mut names = Vec::new(alloc);
    for item in items {
        let stmt = match item {
            Item::Stmt(stmt) => stmt,
            Item::Fn(_) => continue,
        };
        names_in_stmt(alloc, stmt, &mut names)?;
    }
    Names::new(alloc, names)
}

/// Of each of some names, whether it is no operation's and none of the global ones.
pub fn own_names(alloc: Global, names: &[Str], globals: &Names) -> Result<Vec<bool>, MemoryFault>
    ensures { IfOk result (λ own. own.items ≡ map (is_own globals.now) names.now) }
{
    let mut own = Vec::new(alloc);
    for name in names {
        own.push(operation_named(name).is_none() && globals.place(name).is_none())?;
    }
    Ok(own)
}

/// The same names.
pub fn same_names(alloc: Global, names: &[Str]) -> Result<Names, MemoryFault>
    ensures { IfOk result (λ copies. copies ≡ names.now) }
{
    let mut copies = Vec::new(alloc);
    for name in names {
        copies.push(copy_text(alloc, name)?)?;
    }
    Names::new(alloc, copies)
}
