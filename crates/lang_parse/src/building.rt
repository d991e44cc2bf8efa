//! The levels of an expression from their operands. A level without its optional parts is its one operand.

ghost use Rattle.std.specs.Prelude.{◌≡◌, IfOk, map};
ghost use Rattle.lang_ast.specs.Seen.{seen_expr};
ghost use Rattle.lang_parse.specs.Parts.{or_of, and_of, sum_of, product_of, post_of};
ghost use Rattle.lang_parse.specs.Reading.{seen_signed};

use lang_ast::{Expr, ProductSign, SumSign};
use std::alloc::{AllocError, Global};

pub(crate) fn or_of(alloc: Global, first: Expr, others: Vec<Expr>) -> Result<Expr, AllocError>
    ensures { IfOk result (λ t. seen_expr t ≡ or_of (seen_expr first) (map seen_expr others.items)) }
{
    if others.is_empty() {
        return Ok(first);
    }
    Ok(Expr::Or(Box::new(alloc, first)?, others))
}

pub(crate) fn and_of(alloc: Global, first: Expr, others: Vec<Expr>) -> Result<Expr, AllocError>
    ensures { IfOk result (λ t. seen_expr t ≡ and_of (seen_expr first) (map seen_expr others.items)) }
{
    if others.is_empty() {
        return Ok(first);
    }
    Ok(Expr::And(Box::new(alloc, first)?, others))
}

pub(crate) fn sum_of(
    alloc: Global,
    first: Expr,
    others: Vec<(SumSign, Expr)>,
) -> Result<Expr, AllocError>
    ensures { IfOk result (λ t. seen_expr t ≡ sum_of (seen_expr first) (map seen_signed others.items)) }
{
    if others.is_empty() {
        return Ok(first);
    }
    Ok(Expr::Sum(Box::new(alloc, first)?, others))
}

pub(crate) fn product_of(
    alloc: Global,
    first: Expr,
    others: Vec<(ProductSign, Expr)>,
) -> Result<Expr, AllocError>
    ensures { IfOk result (λ t. seen_expr t ≡ product_of (seen_expr first) (map seen_signed others.items)) }
{
    if others.is_empty() {
        return Ok(first);
    }
    Ok(Expr::Product(Box::new(alloc, first)?, others))
}

pub(crate) fn post_of(alloc: Global, base: Expr, places: Vec<Expr>) -> Result<Expr, AllocError>
    ensures { IfOk result (λ t. seen_expr t ≡ post_of (seen_expr base) (map seen_expr places.items)) }
{
    if places.is_empty() {
        return Ok(base);
    }
    Ok(Expr::Post(Box::new(alloc, base)?, places))
}
