//! Reads the items of a script.

ghost use Rattle.std.specs.Prelude.{[], codes, IfOk, IfErr};
ghost use Rattle.lang_ast.specs.Seen.{seen_name, seen_item, seen_items};
ghost use Rattle.lang_parse.specs.Symbols.{symbols_of};
ghost use Rattle.lang_parse.specs.Deciding.{Decides, Fails};
ghost use Rattle.lang_parse.specs.Parts.{Anything, Many, Parameters, SomeNames, NotComma, ItemRead, NotElse, AtEnd};
ghost use Rattle.lang_parse.specs.Reading.{with_rest, behind_word, each};

use crate::error::ParseError;
use crate::parts::name;
use crate::reading::{after_sign, after_word};
use crate::statements::{block, statement};
use lang_ast::{Function, Item, Named};
use lang_tokens::Token;
use std::alloc::Global;

/// How many parameters a function may have.
pub const MOST_PARAMETERS: usize = 8;

/// Names with commas between them.
fn some_names(alloc: Global, tokens: &[Token]) -> Result<(Vec<Named>, &[Token]), ParseError>
    ensures { Decides SomeNames NotComma (symbols_of tokens.now) (with_rest (each seen_name)) result }
{
    let (first, mut rest) = name(alloc, tokens)?;
    let mut names = Vec::new(alloc);
    names.push(first)?;
    while let Some(next) = after_sign(rest, b",") {
        let (name, end) = name(alloc, next)?;
        names.push(name)?;
        rest = end;
    }
    Ok((names, rest))
}

/// The parameters of a function in brackets.
fn parameters(alloc: Global, tokens: &[Token]) -> Result<(Vec<Named>, &[Token]), ParseError>
    ensures { Decides Parameters Anything (symbols_of tokens.now) (with_rest (each seen_name)) result }
{
    let Some(next) = after_sign(tokens, b"(") else {
        return Err(ParseError::NoParse(tokens.len()));
    };
    if let Some(rest) = after_sign(next, b")") {
        let none = Vec::new(alloc);
        return Ok((none, rest));
    }
    let (names, end) = some_names(alloc, next)?;
    let Some(rest) = after_sign(end, b")") else {
        return Err(ParseError::NoParse(end.len()));
    };
    Ok((names, rest))
}

/// What stands behind `fn`.
fn function(alloc: Global, tokens: &[Token]) -> Result<(Item, &[Token]), ParseError>
    ensures { Decides ItemRead NotElse (behind_word (codes "fn") tokens.now) (with_rest seen_item) result }
{
    let (name, rest) = name(alloc, tokens)?;
    let (parameters, rest) = parameters(alloc, rest)?;
    if parameters.len() > MOST_PARAMETERS {
        return Err(ParseError::NoParse(rest.len()));
    }
    let (body, rest) = block(alloc, rest)?;
    let function = Function {
        name,
        parameters,
        body,
    };
    Ok((Item::Fn(function), rest))
}

/// An item, and what stands behind it.
fn item(alloc: Global, tokens: &[Token]) -> Result<(Item, &[Token]), ParseError>
    ensures { Decides ItemRead NotElse (symbols_of tokens.now) (λ r. (seen_item r.0, symbols_of r.1.now)) result }
{
    if let Some(next) = after_word(tokens, b"fn") {
        return function(alloc, next);
    }
    let (statement, rest) = statement(alloc, tokens)?;
    Ok((Item::Stmt(statement), rest))
}

/// The items of a script.
pub(crate) fn items(alloc: Global, tokens: &[Token]) -> Result<Vec<Item>, ParseError>
    ensures found { IfOk result (λ items. Many ItemRead (seen_items items.items) (symbols_of tokens.now) []) }
    ensures none { IfErr result (λ e. Fails (Many ItemRead) AtEnd (symbols_of tokens.now) e) }
{
    let mut items = Vec::new(alloc);
    let mut rest = tokens;
    while !rest.is_empty() {
        let (item, end) = item(alloc, rest)?;
        items.push(item)?;
        rest = end;
    }
    Ok(items)
}
