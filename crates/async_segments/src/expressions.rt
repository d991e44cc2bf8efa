//! Writes expressions.

ghost use Rattle.std.specs.Prelude.{◌∷◌, [], IfOk};
ghost use Rattle.lang_ast.specs.Seen.{seen_expr, seen_exprs, seen_terms, seen_factors};
ghost use Rattle.lang_parse.specs.Symbols.{SignOf};
ghost use Rattle.lang_parse.specs.Grammar.{spelling, each_behind, terms, factors, places_spelled, sum_sign, product_sign, compare_sign};
ghost use Rattle.lang_parse.specs.Grammar.{unary_sign};
ghost use Rattle.async_segments.specs.Written.{Adds, joined, Writes};

use crate::written::{Written, between, number, own_name, sign, text, word};
use lang_ast::{CompareSign, Expr, ProductSign, SumSign, UnarySign};
use std::alloc::{AllocError, Global};

fn write_sum_sign(alloc: Global, found: SumSign, into: &mut Vec<Written>) -> Result<(), AllocError>
    ensures { IfOk result (λ _. Adds into.old.items into.new.items (sum_sign found ∷ [])) }
{
    match found {
        SumSign::Plus => sign(alloc, b"+", into),
        SumSign::Minus => sign(alloc, b"-", into),
    }
}

fn write_product_sign(
    alloc: Global,
    found: ProductSign,
    into: &mut Vec<Written>,
) -> Result<(), AllocError>
    ensures { IfOk result (λ _. Adds into.old.items into.new.items (product_sign found ∷ [])) }
{
    match found {
        ProductSign::Times => sign(alloc, b"*", into),
        ProductSign::Divide => sign(alloc, b"/", into),
        ProductSign::Remainder => sign(alloc, b"%", into),
    }
}

fn write_compare_sign(
    alloc: Global,
    found: CompareSign,
    into: &mut Vec<Written>,
) -> Result<(), AllocError>
    ensures { IfOk result (λ _. Adds into.old.items into.new.items (compare_sign found ∷ [])) }
{
    match found {
        CompareSign::Equals => sign(alloc, b"==", into),
        CompareSign::Differs => sign(alloc, b"!=", into),
        CompareSign::Less => sign(alloc, b"<", into),
        CompareSign::AtMost => sign(alloc, b"<=", into),
        CompareSign::Greater => sign(alloc, b">", into),
        CompareSign::AtLeast => sign(alloc, b">=", into),
    }
}

fn write_unary_sign(
    alloc: Global,
    found: UnarySign,
    into: &mut Vec<Written>,
) -> Result<(), AllocError>
    ensures { IfOk result (λ _. Adds into.old.items into.new.items (unary_sign found ∷ [])) }
{
    match found {
        UnarySign::Negative => sign(alloc, b"-", into),
        UnarySign::Not => sign(alloc, b"!", into),
    }
}

#[cycle(exprs)]
pub(crate) fn write_expr(
    alloc: Global,
    expr: &Expr,
    into: &mut Vec<Written>,
) -> Result<(), AllocError>
    ensures { IfOk result (λ _. Adds into.old.items into.new.items (spelling (seen_expr expr.now))) }
{
    match expr {
        Expr::Or(first, others) => {
            write_expr(alloc, first, into)?;
            write_behind(alloc, b"||", others, into)
        }
        Expr::And(first, others) => {
            write_expr(alloc, first, into)?;
            write_behind(alloc, b"&&", others, into)
        }
        Expr::Compare(left, found, right) => {
            write_expr(alloc, left, into)?;
            write_compare_sign(alloc, *found, into)?;
            write_expr(alloc, right, into)
        }
        Expr::Sum(first, parts) => {
            write_expr(alloc, first, into)?;
            write_terms(alloc, parts, into)
        }
        Expr::Product(first, parts) => {
            write_expr(alloc, first, into)?;
            write_factors(alloc, parts, into)
        }
        Expr::Unary(found, operand) => {
            write_unary_sign(alloc, *found, into)?;
            write_expr(alloc, operand, into)
        }
        Expr::Post(value, places) => {
            write_expr(alloc, value, into)?;
            write_places(alloc, places, into)
        }
        Expr::Number(n) => number(alloc, *n, into),
        Expr::Text(value) => text(alloc, value.bytes(), into),
        Expr::True => word(alloc, b"true", into),
        Expr::False => word(alloc, b"false", into),
        Expr::Unit => word(alloc, b"unit", into),
        Expr::Name(name) => own_name(alloc, name, into),
        Expr::Call(name, arguments) => {
            own_name(alloc, name, into)?;
            sign(alloc, b"(", into)?;
            write_joined(alloc, b",", arguments, into)?;
            sign(alloc, b")", into)
        }
        Expr::Paren(inner) => {
            sign(alloc, b"(", into)?;
            write_expr(alloc, inner, into)?;
            sign(alloc, b")", into)
        }
        Expr::List(items) => {
            sign(alloc, b"[", into)?;
            write_joined(alloc, b",", items, into)?;
            sign(alloc, b"]", into)
        }
    }
}

/// Expressions, with a sign before each.
#[cycle(exprs)]
fn write_behind(
    alloc: Global,
    spelling: &[u8],
    exprs: &Vec<Expr>,
    into: &mut Vec<Written>,
) -> Result<(), AllocError>
    ensures { Writes result into.old into.new (each_behind (SignOf spelling.now) (seen_exprs exprs.now.items)) }
{
    for expr in exprs {
        sign(alloc, spelling, into)?;
        write_expr(alloc, expr, into)?;
    }
    Ok(())
}

/// Expressions, with a sign between each two.
#[cycle(exprs)]
pub(crate) fn write_joined(
    alloc: Global,
    spelling: &[u8],
    exprs: &Vec<Expr>,
    into: &mut Vec<Written>,
) -> Result<(), AllocError>
    ensures { Writes result into.old into.new (joined (SignOf spelling.now) (seen_exprs exprs.now.items)) }
{
    let mut is_first = true;
    for expr in exprs {
        between(alloc, is_first, spelling, into)?;
        write_expr(alloc, expr, into)?;
        is_first = false;
    }
    Ok(())
}

#[cycle(exprs)]
fn write_terms(
    alloc: Global,
    parts: &Vec<(SumSign, Expr)>,
    into: &mut Vec<Written>,
) -> Result<(), AllocError>
    ensures { IfOk result (λ _. Adds into.old.items into.new.items (terms (seen_terms parts.now.items))) }
{
    for part in parts {
        write_sum_sign(alloc, part.0, into)?;
        write_expr(alloc, &part.1, into)?;
    }
    Ok(())
}

#[cycle(exprs)]
fn write_factors(
    alloc: Global,
    parts: &Vec<(ProductSign, Expr)>,
    into: &mut Vec<Written>,
) -> Result<(), AllocError>
    ensures { IfOk result (λ _. Adds into.old.items into.new.items (factors (seen_factors parts.now.items))) }
{
    for part in parts {
        write_product_sign(alloc, part.0, into)?;
        write_expr(alloc, &part.1, into)?;
    }
    Ok(())
}

/// Places in brackets.
#[cycle(exprs)]
fn write_places(
    alloc: Global,
    places: &Vec<Expr>,
    into: &mut Vec<Written>,
) -> Result<(), AllocError>
    ensures { IfOk result (λ _. Adds into.old.items into.new.items (places_spelled (seen_exprs places.now.items))) }
{
    for place in places {
        sign(alloc, b"[", into)?;
        write_expr(alloc, place, into)?;
        sign(alloc, b"]", into)?;
    }
    Ok(())
}
