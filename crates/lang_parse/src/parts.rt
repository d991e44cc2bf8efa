//! Reads the parts of statements that hold no statement.

ghost use Rattle.std.specs.Prelude.{◌≡◌, IsNone, IfSome, IsTrue, false};
ghost use Rattle.lang_ast.specs.Seen.{seen_name, seen_expr};
ghost use Rattle.lang_parse.specs.Symbols.{symbols_of};
ghost use Rattle.lang_parse.specs.Deciding.{Decides};
ghost use Rattle.lang_parse.specs.Parts.{Anything, NameRead, Ended, Condition, BracketedName, AssignParts, BeginsWith, BeginsAssignment};
ghost use Rattle.lang_parse.specs.Parts.{BeginsElseIf, NotElseIf};
ghost use Rattle.lang_parse.specs.Reading.{with_rest, seen_assigned};

use crate::error::ParseError;
use crate::expressions::expr;
use crate::leaves::name_of;
use crate::reading::{after_name, after_sign, after_word};
use lang_ast::{Expr, Named};
use lang_tokens::Token;
use std::alloc::Global;

/// A name.
pub(crate) fn name(alloc: Global, tokens: &[Token]) -> Result<(Named, &[Token]), ParseError>
    ensures { Decides NameRead Anything (symbols_of tokens.now) (λ r. (seen_name r.0, symbols_of r.1.now)) result }
{
    let Some((token, rest)) = after_name(tokens) else {
        return Err(ParseError::NoParse(tokens.len()));
    };
    Ok((name_of(alloc, token)?, rest))
}

/// A name in brackets.
pub(crate) fn bracketed_name(
    alloc: Global,
    tokens: &[Token],
) -> Result<(Named, &[Token]), ParseError>
    ensures { Decides BracketedName Anything (symbols_of tokens.now) (with_rest seen_name) result }
{
    let Some(next) = after_sign(tokens, b"(") else {
        return Err(ParseError::NoParse(tokens.len()));
    };
    let (name, end) = name(alloc, next)?;
    let Some(rest) = after_sign(end, b")") else {
        return Err(ParseError::NoParse(end.len()));
    };
    Ok((name, rest))
}

/// An expression in brackets.
pub(crate) fn condition(alloc: Global, tokens: &[Token]) -> Result<(Expr, &[Token]), ParseError>
    ensures { Decides Condition Anything (symbols_of tokens.now) (λ r. (seen_expr r.0, symbols_of r.1.now)) result }
{
    let Some(next) = after_sign(tokens, b"(") else {
        return Err(ParseError::NoParse(tokens.len()));
    };
    let (condition, end) = expr(alloc, next)?;
    let Some(rest) = after_sign(end, b")") else {
        return Err(ParseError::NoParse(end.len()));
    };
    Ok((condition, rest))
}

/// An expression and the `;` behind it.
pub(crate) fn ended(alloc: Global, tokens: &[Token]) -> Result<(Expr, &[Token]), ParseError>
    ensures { Decides Ended Anything (symbols_of tokens.now) (λ r. (seen_expr r.0, symbols_of r.1.now)) result }
{
    let (value, end) = expr(alloc, tokens)?;
    let Some(rest) = after_sign(end, b";") else {
        return Err(ParseError::NoParse(end.len()));
    };
    Ok((value, rest))
}

/// A name, and what is assigned to it.
pub(crate) fn assigned(
    alloc: Global,
    tokens: &[Token],
) -> Result<((Named, Expr), &[Token]), ParseError>
    ensures { Decides AssignParts Anything (symbols_of tokens.now) (with_rest seen_assigned) result }
{
    let (name, rest) = name(alloc, tokens)?;
    let Some(next) = after_sign(rest, b"=") else {
        return Err(ParseError::NoParse(rest.len()));
    };
    let (value, end) = ended(alloc, next)?;
    Ok(((name, value), end))
}

/// Whether the tokens begin with a sign.
pub(crate) fn begins_with(tokens: &[Token], sign: &[u8]) -> bool
    ensures yes { IsTrue result → BeginsWith sign.now (symbols_of tokens.now) }
    ensures no { result ≡ false → BeginsWith sign.now (symbols_of tokens.now) → ⊥ }
{
    after_sign(tokens, sign).is_some()
}

/// Whether the tokens begin with a name and `=`.
pub(crate) fn begins_assignment(tokens: &[Token]) -> bool
    ensures yes { IsTrue result → BeginsAssignment (symbols_of tokens.now) }
    ensures no { result ≡ false → BeginsAssignment (symbols_of tokens.now) → ⊥ }
{
    match after_name(tokens) {
        Some((_, rest)) => begins_with(rest, b"="),
        None => false,
    }
}

/// What follows `else if`.
pub(crate) fn after_else_if(tokens: &[Token]) -> Option<&[Token]>
    ensures found { IfSome result (λ rest. BeginsElseIf (symbols_of tokens.now) (symbols_of rest.now)) }
    ensures none { IsNone result → NotElseIf (symbols_of tokens.now) }
{
    let rest = after_word(tokens, b"else")?;
    after_word(rest, b"if")
}
