//! Finds the marks of a tree in which signs stand in place of `async` and `await`.

ghost use Rattle.std.specs.Prelude.{◌≡◌, ◌<◌, IfSome, Some, length};
ghost use Rattle.std.specs.Option.{option_map};
ghost use Rattle.lang_ast.specs.Seen.{seen_name, seen_expr, seen_exprs, seen_stmt, seen_item};
ghost use Rattle.async_segments.specs.Encoded.{mark_in_name, mark_in_expr, mark_in_stmt, mark_at, operand_by, operand_behind};
ghost use Rattle.async_segments.specs.Encoded.{await_returned, await_in};
ghost use Rattle.async_segments.specs.Awaits.{seen_await, seen_operands, operand_after, await_with};

use crate::marking::{MARK, is_same};
use lang_ast::{Expr, Item, Named, Stmt};

/// How an await stands, and the operands behind its mark.
#[derive(Drop)]
pub(crate) enum Form<'a> {
    Alone,
    Declared(&'a Named),
    Stored(&'a Named),
    Returned,
}

/// An await: the byte at which it stands, how it stands, and the operands with `||` between them that are its operand.
#[derive(Drop)]
pub(crate) struct Await<'a> {
    pub at: usize,
    pub form: Form<'a>,
    pub operands: &'a Vec<Expr>,
}

fn mark_in_name(name: &Named) -> Option<usize>
    ensures { result ≡ mark_in_name (seen_name name.now) }
{
    if is_same(name.name.bytes(), MARK) {
        Some(name.at)
    } else {
        None
    }
}

/// The byte at which a mark stands, if the expression is one.
fn mark_in_expr(expr: &Expr) -> Option<usize>
    ensures { result ≡ mark_in_expr (seen_expr expr.now) }
{
    match expr {
        Expr::Name(name) => mark_in_name(name),
        Expr::Or(_, _) => None,
        Expr::And(_, _) => None,
        Expr::Compare(_, _, _) => None,
        Expr::Sum(_, _) => None,
        Expr::Product(_, _) => None,
        Expr::Unary(_, _) => None,
        Expr::Post(_, _) => None,
        Expr::Number(_) => None,
        Expr::Text(_) => None,
        Expr::True => None,
        Expr::False => None,
        Expr::Unit => None,
        Expr::Call(_, _) => None,
        Expr::Paren(_) => None,
        Expr::List(_) => None,
    }
}

/// The byte at which a mark stands, and the operands behind it, if there is one at least.
fn some_operands(at: usize, others: &Vec<Expr>) -> Option<(usize, &Vec<Expr>)>
    ensures found { option_map seen_operands result ≡ operand_by (Some at) (seen_exprs others.now.items) }
    ensures some { IfSome result (λ p. 0 < length p.1.now.items) }
{
    if others.is_empty() {
        return None;
    }
    Some((at, others))
}

/// The same behind an expression that may be a mark.
fn operands_by<'a>(first: &Expr, others: &'a Vec<Expr>) -> Option<(usize, &'a Vec<Expr>)>
    ensures found { option_map seen_operands result ≡ operand_after first.now others.now.items }
    ensures some { IfSome result (λ p. 0 < length p.1.now.items) }
{
    match mark_in_expr(first) {
        Some(at) => some_operands(at, others),
        None => None,
    }
}

/// The same, where an expression begins with a mark.
fn operands_behind(expr: &Expr) -> Option<(usize, &Vec<Expr>)>
    ensures found { option_map seen_operands result ≡ operand_behind (seen_expr expr.now) }
    ensures some { IfSome result (λ p. 0 < length p.1.now.items) }
{
    match expr {
        Expr::Or(first, others) => operands_by(first, others),
        Expr::And(_, _) => None,
        Expr::Compare(_, _, _) => None,
        Expr::Sum(_, _) => None,
        Expr::Product(_, _) => None,
        Expr::Unary(_, _) => None,
        Expr::Post(_, _) => None,
        Expr::Number(_) => None,
        Expr::Text(_) => None,
        Expr::True => None,
        Expr::False => None,
        Expr::Unit => None,
        Expr::Name(_) => None,
        Expr::Call(_, _) => None,
        Expr::Paren(_) => None,
        Expr::List(_) => None,
    }
}

fn await_by<'a>(form: Form<'a>, value: &'a Expr) -> Option<Await<'a>>
    ensures found { option_map seen_await result ≡ await_with form.entry value.now }
    ensures some { IfSome result (λ a. 0 < length a.operands.now.items) }
{
    let (at, operands) = operands_behind(value)?;
    Some(Await { at, form, operands })
}

/// The await whose value is returned.
fn await_returned(value: &Option<Expr>) -> Option<Await<'_>>
    ensures found { option_map seen_await result ≡ await_returned (option_map seen_expr value.now) }
    ensures some { IfSome result (λ a. 0 < length a.operands.now.items) }
{
    match value {
        Some(value) => await_by(Form::Returned, value),
        None => None,
    }
}

/// The await that a statement is.
pub(crate) fn await_in(stmt: &Stmt) -> Option<Await<'_>>
    ensures found { option_map seen_await result ≡ await_in (seen_stmt stmt.now) }
    ensures some { IfSome result (λ a. 0 < length a.operands.now.items) }
{
    match stmt {
        Stmt::Var(name, value) => await_by(Form::Declared(name), value),
        Stmt::Assign(name, value) => await_by(Form::Stored(name), value),
        Stmt::Expr(value) => await_by(Form::Alone, value),
        Stmt::Return(value) => await_returned(value),
        Stmt::If(_, _, _, _) => None,
        Stmt::While(_, _) => None,
        Stmt::Throw(_) => None,
        Stmt::Try(_, _, _) => None,
    }
}

fn mark_in_stmt(stmt: &Stmt) -> Option<usize>
    ensures { result ≡ mark_in_stmt (seen_stmt stmt.now) }
{
    match stmt {
        Stmt::Expr(value) => mark_in_expr(value),
        Stmt::Var(_, _) => None,
        Stmt::Assign(_, _) => None,
        Stmt::If(_, _, _, _) => None,
        Stmt::While(_, _) => None,
        Stmt::Return(_) => None,
        Stmt::Throw(_) => None,
        Stmt::Try(_, _, _) => None,
    }
}

/// The byte at which an item stands that marks the function behind it.
pub(crate) fn mark_at(item: &Item) -> Option<usize>
    ensures { result ≡ mark_at (seen_item item.now) }
{
    match item {
        Item::Fn(_) => None,
        Item::Stmt(stmt) => mark_in_stmt(stmt),
    }
}
