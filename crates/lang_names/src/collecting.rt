//! All names of a script, in the order of the text.

ghost use Rattle.std.specs.Prelude.{◌≡◌, ◌∷◌, [], IfOk};
ghost use Rattle.std.specs.Option.{option_map};
ghost use Rattle.lang_ast.specs.Names.{in_expr, in_exprs, in_terms, in_factors, in_returned, in_stmt, in_block, in_others, in_else, occurrences, mention};
ghost use Rattle.lang_ast.specs.Seen.{seen_name, seen_expr, seen_exprs, seen_terms, seen_factors, seen_stmt, seen_block, seen_others, seen_else, seen_tree};
ghost use Rattle.lang_names.specs.Collected.{seen_all, Adds, Collects, in_parameters, mentions_of};

use crate::occurrence::Occurrence;
use lang_ast::{Expr, Function, Item, Named, ProductSign, Role, Stmt, SumSign, Tree};
use std::alloc::{AllocError, Global};

fn add<'a>(
    role: Role,
    name: &'a Named,
    scope: Option<usize>,
    into: &mut Vec<Occurrence<'a>>,
) -> Result<(), AllocError>
    ensures { IfOk result (λ _. Adds scope into.old.items into.new.items (mention role (seen_name name.now) ∷ [])) }
{
    into.push(Occurrence {
        scope,
        role,
        name: &name.name,
        at: name.at,
    })?;
    Ok(())
}

#[cycle(exprs)]
fn in_expr<'a>(
    expr: &'a Expr,
    scope: Option<usize>,
    into: &mut Vec<Occurrence<'a>>,
) -> Result<(), AllocError>
    ensures { IfOk result (λ _. Adds scope into.old.items into.new.items (in_expr (seen_expr expr.now))) }
{
    match expr {
        Expr::Or(first, others) => {
            in_expr(first, scope, into)?;
            in_exprs(others, scope, into)
        }
        Expr::And(first, others) => {
            in_expr(first, scope, into)?;
            in_exprs(others, scope, into)
        }
        Expr::Compare(left, _, right) => {
            in_expr(left, scope, into)?;
            in_expr(right, scope, into)
        }
        Expr::Sum(first, parts) => {
            in_expr(first, scope, into)?;
            in_terms(parts, scope, into)
        }
        Expr::Product(first, parts) => {
            in_expr(first, scope, into)?;
            in_factors(parts, scope, into)
        }
        Expr::Unary(_, operand) => in_expr(operand, scope, into),
        Expr::Post(value, places) => {
            in_expr(value, scope, into)?;
            in_exprs(places, scope, into)
        }
        Expr::Number(_) => Ok(()),
        Expr::Text(_) => Ok(()),
        Expr::True => Ok(()),
        Expr::False => Ok(()),
        Expr::Unit => Ok(()),
        Expr::Name(name) => add(Role::Read, name, scope, into),
        Expr::Call(name, args) => {
            add(Role::Called(args.len()), name, scope, into)?;
            in_exprs(args, scope, into)
        }
        Expr::Paren(inner) => in_expr(inner, scope, into),
        Expr::List(items) => in_exprs(items, scope, into),
    }
}

#[cycle(exprs)]
fn in_exprs<'a>(
    exprs: &'a Vec<Expr>,
    scope: Option<usize>,
    into: &mut Vec<Occurrence<'a>>,
) -> Result<(), AllocError>
    ensures { IfOk result (λ _. Adds scope into.old.items into.new.items (in_exprs (seen_exprs exprs.now.items))) }
{
    for expr in exprs {
        in_expr(expr, scope, into)?;
    }
    Ok(())
}

#[cycle(exprs)]
fn in_terms<'a>(
    parts: &'a Vec<(SumSign, Expr)>,
    scope: Option<usize>,
    into: &mut Vec<Occurrence<'a>>,
) -> Result<(), AllocError>
    ensures { IfOk result (λ _. Adds scope into.old.items into.new.items (in_terms (seen_terms parts.now.items))) }
{
    for part in parts {
        in_expr(&part.1, scope, into)?;
    }
    Ok(())
}

#[cycle(exprs)]
fn in_factors<'a>(
    parts: &'a Vec<(ProductSign, Expr)>,
    scope: Option<usize>,
    into: &mut Vec<Occurrence<'a>>,
) -> Result<(), AllocError>
    ensures { IfOk result (λ _. Collects scope into.old into.new (in_factors (seen_factors parts.now.items))) }
{
    for part in parts {
        in_expr(&part.1, scope, into)?;
    }
    Ok(())
}

#[cycle(stmts)]
fn in_stmt<'a>(
    stmt: &'a Stmt,
    scope: Option<usize>,
    into: &mut Vec<Occurrence<'a>>,
) -> Result<(), AllocError>
    ensures { IfOk result (λ _. Adds scope into.old.items into.new.items (in_stmt (seen_stmt stmt.now))) }
{
    match stmt {
        Stmt::Var(name, value) => {
            add(Role::Variable, name, scope, into)?;
            in_expr(value, scope, into)
        }
        Stmt::Assign(name, value) => {
            add(Role::Assigned, name, scope, into)?;
            in_expr(value, scope, into)
        }
        Stmt::Expr(expr) => in_expr(expr, scope, into),
        Stmt::If(condition, block, others, last) => {
            in_expr(condition, scope, into)?;
            in_block(block, scope, into)?;
            in_others(others, scope, into)?;
            in_else(last, scope, into)
        }
        Stmt::While(condition, block) => {
            in_expr(condition, scope, into)?;
            in_block(block, scope, into)
        }
        Stmt::Return(value) => in_returned(value, scope, into),
        Stmt::Throw(value) => in_expr(value, scope, into),
        Stmt::Try(block, name, handler) => {
            in_block(block, scope, into)?;
            add(Role::Caught, name, scope, into)?;
            in_block(handler, scope, into)
        }
    }
}

#[cycle(stmts)]
fn in_block<'a>(
    block: &'a Vec<Stmt>,
    scope: Option<usize>,
    into: &mut Vec<Occurrence<'a>>,
) -> Result<(), AllocError>
    ensures { IfOk result (λ _. Adds scope into.old.items into.new.items (in_block (seen_block block.now.items))) }
{
    for stmt in block {
        in_stmt(stmt, scope, into)?;
    }
    Ok(())
}

#[cycle(stmts)]
fn in_others<'a>(
    others: &'a Vec<(Expr, Vec<Stmt>)>,
    scope: Option<usize>,
    into: &mut Vec<Occurrence<'a>>,
) -> Result<(), AllocError>
    ensures { IfOk result (λ _. Collects scope into.old into.new (in_others (seen_others others.now.items))) }
{
    for other in others {
        in_expr(&other.0, scope, into)?;
        in_block(&other.1, scope, into)?;
    }
    Ok(())
}

#[cycle(stmts)]
fn in_else<'a>(
    last: &'a Option<Vec<Stmt>>,
    scope: Option<usize>,
    into: &mut Vec<Occurrence<'a>>,
) -> Result<(), AllocError>
    ensures { IfOk result (λ _. Adds scope into.old.items into.new.items (in_else (seen_else last.now))) }
{
    match last {
        Some(block) => in_block(block, scope, into),
        None => Ok(()),
    }
}

fn in_returned<'a>(
    value: &'a Option<Expr>,
    scope: Option<usize>,
    into: &mut Vec<Occurrence<'a>>,
) -> Result<(), AllocError>
    ensures { IfOk result (λ _. Collects scope into.old into.new (in_returned (option_map seen_expr value.now))) }
{
    match value {
        Some(value) => in_expr(value, scope, into),
        None => Ok(()),
    }
}

fn in_parameters<'a>(
    parameters: &'a Vec<Named>,
    scope: Option<usize>,
    into: &mut Vec<Occurrence<'a>>,
) -> Result<(), AllocError>
    ensures { IfOk result (λ _. Collects scope into.old into.new (in_parameters parameters.now.items)) }
{
    for parameter in parameters {
        add(Role::Parameter, parameter, scope, into)?;
    }
    Ok(())
}

/// The parameters and the block of a function.
fn in_function<'a>(
    function: &'a Function,
    scope: Option<usize>,
    into: &mut Vec<Occurrence<'a>>,
) -> Result<(), AllocError>
    ensures { IfOk result (λ _. Collects scope into.old into.new (mentions_of function.now)) }
{
    in_parameters(&function.parameters, scope, into)?;
    in_block(&function.body, scope, into)
}

/// All names of a script.
pub fn occurrences(alloc: Global, tree: &Tree) -> Result<Vec<Occurrence<'_>>, AllocError>
    ensures { IfOk result (λ all. seen_all all.items ≡ occurrences (seen_tree tree.now)) }
{
    let mut all = Vec::new(alloc);
    let mut number = 0;
    for item in &tree.items {
        match item {
            Item::Fn(function) => {
                add(Role::Function, &function.name, None, &mut all)?;
                in_function(function, Some(number), &mut all)?;
                number += 1;
            }
            Item::Stmt(stmt) => in_stmt(stmt, None, &mut all)?,
        }
    }
    Ok(all)
}
