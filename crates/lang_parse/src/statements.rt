//! Reads statements from the front of a list of tokens.

ghost use Rattle.std.specs.Prelude.{codes};
ghost use Rattle.std.specs.Option.{option_map};
ghost use Rattle.lang_ast.specs.Seen.{seen_stmt};
ghost use Rattle.lang_parse.specs.Symbols.{symbols_of};
ghost use Rattle.lang_parse.specs.Deciding.{Decides};
ghost use Rattle.lang_parse.specs.Parts.{Anything, Many, Perhaps, StmtRead, BlockRead, ElseIf, Else, NotElse, NotElseIf, ClosesBlock};
ghost use Rattle.lang_parse.specs.Reading.{with_rest, behind_word, each, seen_stmts, seen_else_if};

use crate::error::ParseError;
use crate::parts::{
    after_else_if, assigned, begins_assignment, begins_with, bracketed_name, condition, ended,
};
use crate::reading::{after_sign, after_word};
use lang_ast::{Expr, Stmt};
use lang_tokens::Token;
use std::alloc::Global;

/// What stands behind `var`.
fn var_statement(alloc: Global, tokens: &[Token]) -> Result<(Stmt, &[Token]), ParseError>
    ensures { Decides StmtRead NotElse (behind_word (codes "var") tokens.now) (with_rest seen_stmt) result }
{
    let ((name, value), rest) = assigned(alloc, tokens)?;
    Ok((Stmt::Var(name, value), rest))
}

/// What stands behind `return`.
fn return_statement(alloc: Global, tokens: &[Token]) -> Result<(Stmt, &[Token]), ParseError>
    ensures { Decides StmtRead NotElse (behind_word (codes "return") tokens.now) (with_rest seen_stmt) result }
{
    if let Some(rest) = after_sign(tokens, b";") {
        return Ok((Stmt::Return(None), rest));
    }
    let (value, rest) = ended(alloc, tokens)?;
    Ok((Stmt::Return(Some(value)), rest))
}

/// What stands behind `throw`.
fn throw_statement(alloc: Global, tokens: &[Token]) -> Result<(Stmt, &[Token]), ParseError>
    ensures { Decides StmtRead NotElse (behind_word (codes "throw") tokens.now) (with_rest seen_stmt) result }
{
    let (value, rest) = ended(alloc, tokens)?;
    Ok((Stmt::Throw(value), rest))
}

/// A statement, and what stands behind it.
#[cycle(statement)]
pub(crate) fn statement(alloc: Global, tokens: &[Token]) -> Result<(Stmt, &[Token]), ParseError>
    ensures { Decides StmtRead NotElse (symbols_of tokens.now) (λ r. (seen_stmt r.0, symbols_of r.1.now)) result }
{
    if let Some(rest) = after_word(tokens, b"var") {
        return var_statement(alloc, rest);
    }
    if let Some(rest) = after_word(tokens, b"if") {
        return if_statement(alloc, rest);
    }
    if let Some(rest) = after_word(tokens, b"while") {
        return while_statement(alloc, rest);
    }
    if let Some(rest) = after_word(tokens, b"return") {
        return return_statement(alloc, rest);
    }
    if let Some(rest) = after_word(tokens, b"throw") {
        return throw_statement(alloc, rest);
    }
    if let Some(rest) = after_word(tokens, b"try") {
        return try_statement(alloc, rest);
    }
    if begins_assignment(tokens) {
        let ((name, value), rest) = assigned(alloc, tokens)?;
        return Ok((Stmt::Assign(name, value), rest));
    }
    let (value, rest) = ended(alloc, tokens)?;
    Ok((Stmt::Expr(value), rest))
}

/// What stands behind `if`.
#[cycle(statement)]
fn if_statement(alloc: Global, tokens: &[Token]) -> Result<(Stmt, &[Token]), ParseError>
    ensures { Decides StmtRead NotElse (behind_word (codes "if") tokens.now) (with_rest seen_stmt) result }
{
    let (condition, rest) = condition(alloc, tokens)?;
    let (block, rest) = block(alloc, rest)?;
    let (others, rest) = else_ifs(alloc, rest)?;
    let (last, rest) = else_part(alloc, rest)?;
    Ok((Stmt::If(condition, block, others, last), rest))
}

/// The `else if` parts of an `if`.
#[cycle(statement)]
fn else_ifs(
    alloc: Global,
    tokens: &[Token],
) -> Result<(Vec<(Expr, Vec<Stmt>)>, &[Token]), ParseError>
    ensures { Decides (Many ElseIf) NotElseIf (symbols_of tokens.now) (with_rest (each seen_else_if)) result }
{
    let mut others = Vec::new(alloc);
    let mut rest = tokens;
    while let Some(next) = after_else_if(rest) {
        let (condition, middle) = condition(alloc, next)?;
        let (block, end) = block(alloc, middle)?;
        others.push((condition, block))?;
        rest = end;
    }
    Ok((others, rest))
}

/// The `else` part of an `if`, where there is one.
#[cycle(statement)]
fn else_part(alloc: Global, tokens: &[Token]) -> Result<(Option<Vec<Stmt>>, &[Token]), ParseError>
    ensures { Decides (Perhaps Else) NotElse (symbols_of tokens.now) (with_rest (option_map seen_stmts)) result }
{
    let Some(next) = after_word(tokens, b"else") else {
        return Ok((None, tokens));
    };
    let (block, rest) = block(alloc, next)?;
    Ok((Some(block), rest))
}

/// What stands behind `while`.
#[cycle(statement)]
fn while_statement(alloc: Global, tokens: &[Token]) -> Result<(Stmt, &[Token]), ParseError>
    ensures { Decides StmtRead NotElse (behind_word (codes "while") tokens.now) (with_rest seen_stmt) result }
{
    let (condition, rest) = condition(alloc, tokens)?;
    let (block, rest) = block(alloc, rest)?;
    Ok((Stmt::While(condition, block), rest))
}

/// What stands behind `try`.
#[cycle(statement)]
fn try_statement(alloc: Global, tokens: &[Token]) -> Result<(Stmt, &[Token]), ParseError>
    ensures { Decides StmtRead NotElse (behind_word (codes "try") tokens.now) (with_rest seen_stmt) result }
{
    let (tried, rest) = block(alloc, tokens)?;
    let Some(next) = after_word(rest, b"catch") else {
        return Err(ParseError::NoParse(rest.len()));
    };
    let (name, rest) = bracketed_name(alloc, next)?;
    let (handler, rest) = block(alloc, rest)?;
    Ok((Stmt::Try(tried, name, handler), rest))
}

/// Statements in braces.
#[cycle(statement)]
pub(crate) fn block(alloc: Global, tokens: &[Token]) -> Result<(Vec<Stmt>, &[Token]), ParseError>
    ensures { Decides BlockRead Anything (symbols_of tokens.now) (with_rest seen_stmts) result }
{
    let Some(next) = after_sign(tokens, b"{") else {
        return Err(ParseError::NoParse(tokens.len()));
    };
    let (statements, end) = statements(alloc, next)?;
    let Some(rest) = after_sign(end, b"}") else {
        return Err(ParseError::NoParse(end.len()));
    };
    Ok((statements, rest))
}

/// Statements up to the brace that closes a block.
#[cycle(statement)]
fn statements(alloc: Global, tokens: &[Token]) -> Result<(Vec<Stmt>, &[Token]), ParseError>
    ensures { Decides (Many StmtRead) ClosesBlock (symbols_of tokens.now) (with_rest seen_stmts) result }
{
    let mut statements = Vec::new(alloc);
    let mut rest = tokens;
    while !begins_with(rest, b"}") {
        let (statement, end) = statement(alloc, rest)?;
        statements.push(statement)?;
        rest = end;
    }
    Ok((statements, rest))
}
