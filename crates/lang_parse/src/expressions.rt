//! Reads expressions from the front of a list of tokens.

ghost use Rattle.lang_ast.specs.Seen.{seen_expr};
ghost use Rattle.lang_parse.specs.Symbols.{symbols_of};
ghost use Rattle.lang_parse.specs.Deciding.{Decides};
ghost use Rattle.lang_parse.specs.Parts.{Reads, Stops, Anything, ListedUpTo, SomeListed, ListEnds, IsCloser};
ghost use Rattle.lang_parse.specs.Reading.{with_rest, each};

use crate::building::{and_of, or_of, post_of, product_of, sum_of};
use crate::error::ParseError;
use crate::leaves::{after_literal, name_of, text_of};
use crate::operators::{after_compare_sign, after_product_sign, after_sum_sign, after_unary_sign};
use crate::reading::{after_name, after_number, after_sign, after_text};
use lang_ast::Expr;
use lang_tokens::Token;
use std::alloc::Global;

/// An expression at the front of the tokens, and what stands behind it.
#[cycle(expr)]
pub(crate) fn expr(alloc: Global, tokens: &[Token]) -> Result<(Expr, &[Token]), ParseError>
    ensures { Decides (Reads 0) (Stops 0) (symbols_of tokens.now) (with_rest seen_expr) result }
{
    let (first, mut rest) = and(alloc, tokens)?;
    let mut others = Vec::new(alloc);
    while let Some(next) = after_sign(rest, b"||") {
        let (operand, end) = and(alloc, next)?;
        others.push(operand)?;
        rest = end;
    }
    Ok((or_of(alloc, first, others)?, rest))
}

#[cycle(expr)]
fn and(alloc: Global, tokens: &[Token]) -> Result<(Expr, &[Token]), ParseError>
    ensures { Decides (Reads 1) (Stops 1) (symbols_of tokens.now) (with_rest seen_expr) result }
{
    let (first, mut rest) = compare(alloc, tokens)?;
    let mut others = Vec::new(alloc);
    while let Some(next) = after_sign(rest, b"&&") {
        let (operand, end) = compare(alloc, next)?;
        others.push(operand)?;
        rest = end;
    }
    Ok((and_of(alloc, first, others)?, rest))
}

#[cycle(expr)]
fn compare(alloc: Global, tokens: &[Token]) -> Result<(Expr, &[Token]), ParseError>
    ensures { Decides (Reads 2) (Stops 2) (symbols_of tokens.now) (with_rest seen_expr) result }
{
    let (first, rest) = sum(alloc, tokens)?;
    let Some((sign, next)) = after_compare_sign(rest) else {
        return Ok((first, rest));
    };
    let (second, end) = sum(alloc, next)?;
    let first = Box::new(alloc, first)?;
    Ok((Expr::Compare(first, sign, Box::new(alloc, second)?), end))
}

#[cycle(expr)]
fn sum(alloc: Global, tokens: &[Token]) -> Result<(Expr, &[Token]), ParseError>
    ensures { Decides (Reads 3) (Stops 3) (symbols_of tokens.now) (with_rest seen_expr) result }
{
    let (first, mut rest) = product(alloc, tokens)?;
    let mut others = Vec::new(alloc);
    while let Some((sign, next)) = after_sum_sign(rest) {
        let (operand, end) = product(alloc, next)?;
        others.push((sign, operand))?;
        rest = end;
    }
    Ok((sum_of(alloc, first, others)?, rest))
}

#[cycle(expr)]
fn product(alloc: Global, tokens: &[Token]) -> Result<(Expr, &[Token]), ParseError>
    ensures { Decides (Reads 4) (Stops 4) (symbols_of tokens.now) (with_rest seen_expr) result }
{
    let (first, mut rest) = unary(alloc, tokens)?;
    let mut others = Vec::new(alloc);
    while let Some((sign, next)) = after_product_sign(rest) {
        let (operand, end) = unary(alloc, next)?;
        others.push((sign, operand))?;
        rest = end;
    }
    Ok((product_of(alloc, first, others)?, rest))
}

#[cycle(expr)]
fn unary(alloc: Global, tokens: &[Token]) -> Result<(Expr, &[Token]), ParseError>
    ensures { Decides (Reads 5) (Stops 5) (symbols_of tokens.now) (with_rest seen_expr) result }
{
    let Some((sign, next)) = after_unary_sign(tokens) else {
        return post(alloc, tokens);
    };
    let (operand, rest) = post(alloc, next)?;
    Ok((Expr::Unary(sign, Box::new(alloc, operand)?), rest))
}

#[cycle(expr)]
fn post(alloc: Global, tokens: &[Token]) -> Result<(Expr, &[Token]), ParseError>
    ensures { Decides (Reads 6) (Stops 6) (symbols_of tokens.now) (with_rest seen_expr) result }
{
    let (base, mut rest) = value(alloc, tokens)?;
    let mut places = Vec::new(alloc);
    while let Some(next) = after_sign(rest, b"[") {
        let (place, end) = expr(alloc, next)?;
        let Some(end) = after_sign(end, b"]") else {
            return Err(ParseError::NoParse(end.len()));
        };
        places.push(place)?;
        rest = end;
    }
    Ok((post_of(alloc, base, places)?, rest))
}

/// A number, a text, a word, a name, a call, an expression in brackets or a list.
#[cycle(expr)]
fn value(alloc: Global, tokens: &[Token]) -> Result<(Expr, &[Token]), ParseError>
    ensures { Decides (Reads 7) (Stops 7) (symbols_of tokens.now) (with_rest seen_expr) result }
{
    if let Some((number, rest)) = after_number(tokens) {
        return Ok((Expr::Number(number), rest));
    }
    if let Some((bytes, rest)) = after_text(tokens) {
        return Ok((Expr::Text(text_of(alloc, bytes)?), rest));
    }
    if let Some((word, rest)) = after_literal(tokens) {
        return Ok((word, rest));
    }
    if let Some((token, rest)) = after_name(tokens) {
        let name = name_of(alloc, token)?;
        let Some(next) = after_sign(rest, b"(") else {
            return Ok((Expr::Name(name), rest));
        };
        let (arguments, end) = items(alloc, next, b")")?;
        return Ok((Expr::Call(name, arguments), end));
    }
    if let Some(next) = after_sign(tokens, b"(") {
        let (inner, end) = expr(alloc, next)?;
        let Some(rest) = after_sign(end, b")") else {
            return Err(ParseError::NoParse(end.len()));
        };
        return Ok((Expr::Paren(Box::new(alloc, inner)?), rest));
    }
    let Some(next) = after_sign(tokens, b"[") else {
        return Err(ParseError::NoParse(tokens.len()));
    };
    let (items, end) = items(alloc, next, b"]")?;
    Ok((Expr::List(items), end))
}

/// Expressions with commas between them, up to the closing sign.
#[cycle(expr)]
fn items<'a>(
    alloc: Global,
    tokens: &'a [Token],
    close: &[u8],
) -> Result<(Vec<Expr>, &'a [Token]), ParseError>
    requires { IsCloser close.now }
    ensures { Decides (ListedUpTo close.now) Anything (symbols_of tokens.now) (with_rest (each seen_expr)) result }
{
    if let Some(rest) = after_sign(tokens, close) {
        let none = Vec::new(alloc);
        return Ok((none, rest));
    }
    let (items, end) = some_items(alloc, tokens)?;
    match after_sign(end, close) {
        Some(rest) => Ok((items, rest)),
        None => Err(ParseError::NoParse(end.len())),
    }
}

#[cycle(expr)]
fn some_items(alloc: Global, tokens: &[Token]) -> Result<(Vec<Expr>, &[Token]), ParseError>
    ensures { Decides SomeListed ListEnds (symbols_of tokens.now) (with_rest (each seen_expr)) result }
{
    let (first, mut rest) = expr(alloc, tokens)?;
    let mut items = Vec::new(alloc);
    items.push(first)?;
    while let Some(next) = after_sign(rest, b",") {
        let (item, end) = expr(alloc, next)?;
        items.push(item)?;
        rest = end;
    }
    Ok((items, rest))
}
