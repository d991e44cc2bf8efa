//! Writes statements, as they are or as a segment has them.

ghost use Rattle.std.specs.Prelude.{◌∷◌, [], IfOk, if◌then◌else◌, codes};
ghost use Rattle.page_types.specs.Tree.{ExprStmt};
ghost use Rattle.lang_ast.specs.Seen.{seen_name, seen_expr, seen_stmt, seen_else};
ghost use Rattle.lang_parse.specs.Symbols.{WordOf};
ghost use Rattle.lang_parse.specs.Grammar.{spelling, in_brackets, stmt_spelling, stmts_spelling, else_spelling, name_symbol};
ghost use Rattle.async_segments.specs.Expanded.{resolves_and_returns};
ghost use Rattle.async_segments.specs.Written.{Adds, resolve_symbols, call_end_symbols, return_symbols, as_in, else_as_in, Writes};
ghost use Rattle.async_segments.specs.OfCode.{assignment_of, return_of, returned_expr, block_as_in, else_ifs_as_in};

use crate::expressions::write_expr;
use crate::written::{Written, name, own_name, sign, word};
use lang_ast::{Expr, Named, Stmt};
use std::alloc::{AllocError, Global};

/// expr ";"
fn write_ended(alloc: Global, value: &Expr, into: &mut Vec<Written>) -> Result<(), AllocError>
    ensures { Writes result into.old into.new (stmt_spelling (ExprStmt (seen_expr value.now))) }
{
    write_expr(alloc, value, into)?;
    sign(alloc, b";", into)
}

/// name "=" expr ";"
fn write_assigned(
    alloc: Global,
    name: &Named,
    value: &Expr,
    into: &mut Vec<Written>,
) -> Result<(), AllocError>
    ensures { Writes result into.old into.new (assignment_of name.now value.now) }
{
    own_name(alloc, name, into)?;
    sign(alloc, b"=", into)?;
    write_ended(alloc, value, into)
}

/// "var", where it is not left out.
fn write_var(alloc: Global, in_segment: bool, into: &mut Vec<Written>) -> Result<(), AllocError>
    ensures { Writes result into.old into.new (if in_segment then [] else WordOf (codes "var") ∷ []) }
{
    if in_segment {
        return Ok(());
    }
    word(alloc, b"var", into)
}

/// "(" expr ")"
fn write_condition(alloc: Global, value: &Expr, into: &mut Vec<Written>) -> Result<(), AllocError>
    ensures { IfOk result (λ _. Adds into.old.items into.new.items (in_brackets (spelling (seen_expr value.now)))) }
{
    sign(alloc, b"(", into)?;
    write_expr(alloc, value, into)?;
    sign(alloc, b")", into)
}

/// What `return` returns.
fn write_returned(
    alloc: Global,
    value: &Option<Expr>,
    into: &mut Vec<Written>,
) -> Result<(), AllocError>
    ensures { Writes result into.old into.new (spelling (returned_expr value.now)) }
{
    match value {
        Some(value) => write_expr(alloc, value, into),
        None => word(alloc, b"unit", into),
    }
}

/// resolve(p__,
pub(crate) fn write_resolve(alloc: Global, into: &mut Vec<Written>) -> Result<(), AllocError>
    ensures { IfOk result (λ _. Adds into.old.items into.new.items resolve_symbols) }
{
    name(alloc, b"resolve", into)?;
    sign(alloc, b"(", into)?;
    name(alloc, b"p__", into)?;
    sign(alloc, b",", into)
}

/// );
pub(crate) fn write_call_end(alloc: Global, into: &mut Vec<Written>) -> Result<(), AllocError>
    ensures { IfOk result (λ _. Adds into.old.items into.new.items call_end_symbols) }
{
    sign(alloc, b")", into)?;
    sign(alloc, b";", into)
}

/// return;
pub(crate) fn write_return(alloc: Global, into: &mut Vec<Written>) -> Result<(), AllocError>
    ensures { IfOk result (λ _. Adds into.old.items into.new.items return_symbols) }
{
    word(alloc, b"return", into)?;
    sign(alloc, b";", into)
}

/// return e;
fn write_plain_return(
    alloc: Global,
    value: &Option<Expr>,
    into: &mut Vec<Written>,
) -> Result<(), AllocError>
    ensures { Writes result into.old into.new (stmt_spelling (return_of value.now)) }
{
    match value {
        Some(value) => {
            word(alloc, b"return", into)?;
            write_ended(alloc, value, into)
        }
        None => write_return(alloc, into),
    }
}

/// resolve(p__, e); return;
fn write_resolving_return(
    alloc: Global,
    value: &Option<Expr>,
    into: &mut Vec<Written>,
) -> Result<(), AllocError>
    ensures { Writes result into.old into.new (stmts_spelling (resolves_and_returns (returned_expr value.now))) }
{
    write_resolve(alloc, into)?;
    write_returned(alloc, value, into)?;
    write_call_end(alloc, into)?;
    write_return(alloc, into)
}

/// `return`, which in a segment resolves the promise before.
fn write_returning(
    alloc: Global,
    value: &Option<Expr>,
    in_segment: bool,
    into: &mut Vec<Written>,
) -> Result<(), AllocError>
    ensures { Writes result into.old into.new (stmts_spelling (as_in in_segment (return_of value.now))) }
{
    match in_segment {
        true => write_resolving_return(alloc, value, into),
        false => write_plain_return(alloc, value, into),
    }
}

/// "(" name ")"
fn write_caught(alloc: Global, name: &Named, into: &mut Vec<Written>) -> Result<(), AllocError>
    ensures { Writes result into.old into.new (in_brackets (name_symbol (seen_name name.now) ∷ [])) }
{
    sign(alloc, b"(", into)?;
    own_name(alloc, name, into)?;
    sign(alloc, b")", into)
}

#[cycle(statements)]
pub(crate) fn write_stmt(
    alloc: Global,
    stmt: &Stmt,
    in_segment: bool,
    into: &mut Vec<Written>,
) -> Result<(), AllocError>
    ensures { Writes result into.old into.new (stmts_spelling (as_in in_segment (seen_stmt stmt.now))) }
{
    match stmt {
        Stmt::Var(name, value) => {
            write_var(alloc, in_segment, into)?;
            write_assigned(alloc, name, value, into)
        }
        Stmt::Assign(name, value) => write_assigned(alloc, name, value, into),
        Stmt::Expr(value) => write_ended(alloc, value, into),
        Stmt::If(condition, block, others, last) => {
            word(alloc, b"if", into)?;
            write_condition(alloc, condition, into)?;
            write_block(alloc, block, in_segment, into)?;
            write_others(alloc, others, in_segment, into)?;
            write_else(alloc, last, in_segment, into)
        }
        Stmt::While(condition, block) => {
            word(alloc, b"while", into)?;
            write_condition(alloc, condition, into)?;
            write_block(alloc, block, in_segment, into)
        }
        Stmt::Return(value) => write_returning(alloc, value, in_segment, into),
        Stmt::Throw(value) => {
            word(alloc, b"throw", into)?;
            write_ended(alloc, value, into)
        }
        Stmt::Try(block, name, handler) => {
            word(alloc, b"try", into)?;
            write_block(alloc, block, in_segment, into)?;
            word(alloc, b"catch", into)?;
            write_caught(alloc, name, into)?;
            write_block(alloc, handler, in_segment, into)
        }
    }
}

/// "{" {stmt} "}"
#[cycle(statements)]
pub(crate) fn write_block(
    alloc: Global,
    block: &Vec<Stmt>,
    in_segment: bool,
    into: &mut Vec<Written>,
) -> Result<(), AllocError>
    ensures { Writes result into.old into.new (block_as_in in_segment block.now.items) }
{
    sign(alloc, b"{", into)?;
    for stmt in block {
        write_stmt(alloc, stmt, in_segment, into)?;
    }
    sign(alloc, b"}", into)
}

#[cycle(statements)]
fn write_others(
    alloc: Global,
    others: &Vec<(Expr, Vec<Stmt>)>,
    in_segment: bool,
    into: &mut Vec<Written>,
) -> Result<(), AllocError>
    ensures { Writes result into.old into.new (else_ifs_as_in in_segment others.now.items) }
{
    for other in others {
        word(alloc, b"else", into)?;
        word(alloc, b"if", into)?;
        write_condition(alloc, &other.0, into)?;
        write_block(alloc, &other.1, in_segment, into)?;
    }
    Ok(())
}

#[cycle(statements)]
fn write_else(
    alloc: Global,
    last: &Option<Vec<Stmt>>,
    in_segment: bool,
    into: &mut Vec<Written>,
) -> Result<(), AllocError>
    ensures { Writes result into.old into.new (else_spelling (else_as_in in_segment (seen_else last.now))) }
{
    match last {
        Some(block) => {
            word(alloc, b"else", into)?;
            write_block(alloc, block, in_segment, into)
        }
        None => Ok(()),
    }
}
