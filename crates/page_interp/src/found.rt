//! What stands in a script: the names by which it calls, and the variables.

use lang_ast::{Expr, Item, Named, ProductSign, Stmt, SumSign};
use page_values::MemoryFault;
use std::alloc::Global;

/// What stands in a part of a script.
#[derive(Drop)]
pub struct Found<'a> {
    /// The names by which it calls, as often as it does.
    pub called: Vec<&'a Named>,
    /// The variables that it reads and those that it gives, as often as it does.
    pub variables: Vec<&'a Named>,
    /// Whether it only gives variables values, has conditions and returns.
    pub straight: bool,
}

/// Adds what stands in an expression: the names that it calls, and its variables.
#[cycle(exprs)]
fn in_expr<'a>(expr: &'a Expr, into: &mut Found<'a>) -> Result<(), MemoryFault> {
    match expr {
        Expr::Or(first, others) => {
            in_expr(first, into)?;
            in_exprs(others, into)
        }
        Expr::And(first, others) => {
            in_expr(first, into)?;
            in_exprs(others, into)
        }
        Expr::Compare(left, _, right) => {
            in_expr(left, into)?;
            in_expr(right, into)
        }
        Expr::Sum(first, parts) => {
            in_expr(first, into)?;
            in_terms(parts, into)
        }
        Expr::Product(first, parts) => {
            in_expr(first, into)?;
            in_factors(parts, into)
        }
        Expr::Unary(_, operand) => in_expr(operand, into),
        Expr::Post(value, places) => {
            in_expr(value, into)?;
            in_exprs(places, into)
        }
        Expr::Number(_) => Ok(()),
        Expr::Text(_) => Ok(()),
        Expr::True => Ok(()),
        Expr::False => Ok(()),
        Expr::Unit => Ok(()),
        Expr::Name(name) => into.variable(name),
        Expr::Call(name, args) => {
            into.called.push(name)?;
            in_exprs(args, into)
        }
        Expr::Paren(inner) => in_expr(inner, into),
        Expr::List(items) => in_exprs(items, into),
    }
}

#[cycle(exprs)]
fn in_exprs<'a>(exprs: &'a Vec<Expr>, into: &mut Found<'a>) -> Result<(), MemoryFault> {
    for expr in exprs {
        in_expr(expr, into)?;
    }
    Ok(())
}

#[cycle(exprs)]
fn in_terms<'a>(parts: &'a Vec<(SumSign, Expr)>, into: &mut Found<'a>) -> Result<(), MemoryFault> {
    for part in parts {
        in_expr(&part.1, into)?;
    }
    Ok(())
}

#[cycle(exprs)]
fn in_factors<'a>(
    parts: &'a Vec<(ProductSign, Expr)>,
    into: &mut Found<'a>,
) -> Result<(), MemoryFault> {
    for part in parts {
        in_expr(&part.1, into)?;
    }
    Ok(())
}

fn in_returned<'a>(value: &'a Option<Expr>, into: &mut Found<'a>) -> Result<(), MemoryFault> {
    match value {
        Some(value) => in_expr(value, into),
        None => Ok(()),
    }
}

/// Adds what stands in a statement.
#[cycle(stmts)]
fn in_stmt<'a>(stmt: &'a Stmt, into: &mut Found<'a>) -> Result<(), MemoryFault> {
    match stmt {
        Stmt::Var(name, value) => {
            into.variable(name)?;
            in_expr(value, into)
        }
        Stmt::Assign(name, value) => {
            into.variable(name)?;
            in_expr(value, into)
        }
        Stmt::Expr(expr) => in_expr(expr, into),
        Stmt::If(condition, block, others, last) => {
            in_expr(condition, into)?;
            in_block(block, into)?;
            in_others(others, into)?;
            in_else(last, into)
        }
        Stmt::While(condition, block) => {
            into.straight = false;
            in_expr(condition, into)?;
            in_block(block, into)
        }
        Stmt::Return(value) => in_returned(value, into),
        Stmt::Throw(value) => {
            into.straight = false;
            in_expr(value, into)
        }
        Stmt::Try(block, name, handler) => {
            into.straight = false;
            into.variable(name)?;
            in_block(block, into)?;
            in_block(handler, into)
        }
    }
}

#[cycle(stmts)]
fn in_block<'a>(block: &'a Vec<Stmt>, into: &mut Found<'a>) -> Result<(), MemoryFault> {
    for stmt in block {
        in_stmt(stmt, into)?;
    }
    Ok(())
}

#[cycle(stmts)]
fn in_others<'a>(
    others: &'a Vec<(Expr, Vec<Stmt>)>,
    into: &mut Found<'a>,
) -> Result<(), MemoryFault> {
    for other in others {
        in_expr(&other.0, into)?;
        in_block(&other.1, into)?;
    }
    Ok(())
}

#[cycle(stmts)]
fn in_else<'a>(last: &'a Option<Vec<Stmt>>, into: &mut Found<'a>) -> Result<(), MemoryFault> {
    match last {
        Some(block) => in_block(block, into),
        None => Ok(()),
    }
}

impl<'a> Found<'a> {
    /// Nothing.
    fn new(alloc: Global) -> Found<'a> {
        Found {
            called: Vec::new(alloc),
            variables: Vec::new(alloc),
            straight: true,
        }
    }

    fn variable(&mut self, name: &'a Named) -> Result<(), MemoryFault> {
        self.variables.push(name)?;
        Ok(())
    }
}

// Adds what stands in an item.
fn in_item<'a>(item: &'a Item, into: &mut Found<'a>) -> Result<(), MemoryFault> {
    match item {
        Item::Fn(function) => in_block(&function.body, into),
        Item::Stmt(stmt) => in_stmt(stmt, into),
    }
}

/// What stands in an item.
pub fn found_in(alloc: Global, item: &Item) -> Result<Found<'_>, MemoryFault> {
    let mut found = Found::new(alloc);
    in_item(item, &mut found)?;
    Ok(found)
}

/// The names by which the items of a script call, as often as they do.
pub fn called_names(alloc: Global, items: &[Item]) -> Result<Vec<&Named>, MemoryFault> {
    let mut found = Found::new(alloc);
    for item in items {
        in_item(item, &mut found)?;
    }
    Ok(found.called)
}
