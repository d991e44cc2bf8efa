//! Values of expressions that call nothing and throw nothing, found with no frame for their parts.
//!
//! Where one of these functions answers `None`, the expression is evaluated part by part.

ghost use Rattle.std.specs.Prelude.{◌≡◌, Ok, IfOk, IfSome};
ghost use Rattle.page_types.specs.Values.{BoolValue, IntValue, TextValue};
ghost use Rattle.lang_meaning.specs.Evaluation.{compare_answer, sum_answer};
ghost use Rattle.page_values.specs.Seen.{seen};
ghost use Rattle.page_interp.specs.Direct.{NameHolds, HasValue, ComparesTo, TermsGive, FactorsGive, LeadToItem, FindsSum};

use crate::code::Code;
use crate::exit::Store;
use crate::operators::{int_product, item_of};
use crate::stack::Current;
use crate::values::copied;
use crate::variables::{find, named};
use lang_ast::{CompareSign, Expr, Named, ProductSign, SumSign};
use page_values::{MemoryFault, Str, Value, ValueFault, as_int, as_list, as_text, copy_text, join};

/// How deep the parts of an expression may nest that is evaluated at once.
const LEVELS: u32 = 8;

/// A variable of this name: a local one, or else a global one.
pub fn variable<'a>(
    code: &'a Code,
    store: &'a Store,
    current: &'a Current,
    name: &Named,
) -> Option<&'a Value>
    ensures { IfSome result (λ v. NameHolds code.now store.now current.now name.now.name (seen v.now)) }
{
    let near = code.likely_place(name);
    if let Some(value) = find(current.names, &current.locals, &name.name, near) {
        return Some(value);
    }
    find(code.globals(), &store.globals, &name.name, near)
}

/// The variable that an expression names, or an item in it.
#[cycle(direct)]
fn item<'a>(
    code: &'a Code,
    store: &'a Store,
    current: &'a Current,
    expr: &Expr,
    levels: u32,
) -> Option<&'a Value>
    ensures { IfSome result (λ v. HasValue code.now store.now current.now expr.now (seen v.now)) }
{
    if levels == 0 {
        return None;
    }
    match expr {
        Expr::Name(x) => variable(code, store, current, x),
        Expr::Paren(inner) => item(code, store, current, inner, levels - 1),
        Expr::Post(first, places) => {
            let list = item(code, store, current, first, levels - 1)?;
            item_in(code, store, current, list, places, levels - 1)
        }
        _ => None,
    }
}

/// An item of an item and so on, by the places in a row.
#[cycle(direct)]
fn item_in<'a>(
    code: &'a Code,
    store: &'a Store,
    current: &'a Current,
    list: &'a Value,
    places: &[Expr],
    levels: u32,
) -> Option<&'a Value>
    ensures { IfSome result (LeadToItem code.now store.now current.now places.now list.now) }
{
    let mut value = list;
    let mut rest = places;
    while let Some((place, more)) = rest.split_first() {
        let n = int(code, store, current, place, levels)?;
        let items = as_list(value)?;
        value = item_of(items.items(), n)?;
        rest = more;
    }
    Some(value)
}

/// An integer.
#[cycle(direct)]
fn int(code: &Code, store: &Store, current: &Current, expr: &Expr, levels: u32) -> Option<i64>
    ensures { IfSome result (λ n. HasValue code.now store.now current.now expr.now (IntValue n)) }
{
    if levels == 0 {
        return None;
    }
    match expr {
        Expr::Number(n) => Some(*n),
        Expr::Paren(inner) => int(code, store, current, inner, levels - 1),
        Expr::Sum(first, parts) => {
            let total = int(code, store, current, first, levels - 1)?;
            sum_in(code, store, current, total, parts, levels - 1)
        }
        Expr::Product(first, parts) => {
            let total = int(code, store, current, first, levels - 1)?;
            product_in(code, store, current, total, parts, levels - 1)
        }
        Expr::Name(x) => as_int(variable(code, store, current, x)?),
        Expr::Post(_, _) => as_int(item(code, store, current, expr, levels - 1)?),
        _ => None,
    }
}

/// A sum or a difference within 64 bits.
fn int_sum(sign: SumSign, x: i64, y: i64) -> Option<i64>
    ensures { IfSome result (λ n. sum_answer sign (IntValue x) (IntValue y) ≡ Ok (IntValue n)) }
{
    match sign {
        SumSign::Plus => x.checked_add(y),
        SumSign::Minus => x.checked_sub(y),
    }
}

/// The sum so far with the further terms.
#[cycle(direct)]
fn sum_in(
    code: &Code,
    store: &Store,
    current: &Current,
    first: i64,
    terms: &[(SumSign, Expr)],
    levels: u32,
) -> Option<i64>
    ensures { IfSome result (TermsGive code.now store.now current.now terms.now first) }
{
    let mut total = first;
    let mut rest = terms;
    while let Some((term, more)) = rest.split_first() {
        let n = int(code, store, current, &term.1, levels)?;
        total = int_sum(term.0, total, n)?;
        rest = more;
    }
    Some(total)
}

/// The product so far with the further factors.
#[cycle(direct)]
fn product_in(
    code: &Code,
    store: &Store,
    current: &Current,
    first: i64,
    factors: &[(ProductSign, Expr)],
    levels: u32,
) -> Option<i64>
    ensures { IfSome result (FactorsGive code.now store.now current.now factors.now first) }
{
    let mut total = first;
    let mut rest = factors;
    while let Some((factor, more)) = rest.split_first() {
        let n = int(code, store, current, &factor.1, levels)?;
        total = int_product(factor.0, total, n)?;
        rest = more;
    }
    Some(total)
}

/// How two integers compare.
fn compared(sign: CompareSign, x: i64, y: i64) -> bool
    ensures { compare_answer sign (IntValue x) (IntValue y) ≡ Ok (BoolValue result) }
{
    match sign {
        CompareSign::Equals => x == y,
        CompareSign::Differs => x != y,
        CompareSign::Less => x < y,
        CompareSign::AtMost => x <= y,
        CompareSign::Greater => y < x,
        CompareSign::AtLeast => y <= x,
    }
}

/// A text that is written there, that a variable holds or that is an item.
fn text<'a>(
    code: &'a Code,
    store: &'a Store,
    current: &'a Current,
    expr: &'a Expr,
) -> Option<&'a Str>
    ensures { IfSome result (λ t.
        HasValue code.now store.now current.now expr.now (TextValue t.now)) }
{
    match expr {
        Expr::Text(text) => Some(text),
        Expr::Name(_) | Expr::Post(_, _) => as_text(item(code, store, current, expr, LEVELS)?),
        _ => None,
    }
}

/// Two texts in a row, within the limits.
fn text_sum(
    code: &Code,
    store: &Store,
    current: &Current,
    first: &Expr,
    terms: &[(SumSign, Expr)],
) -> Result<Option<Value>, MemoryFault>
    ensures { FindsSum result code.now store.now current.now first.now terms.now }
{
    let Some((term, more)) = terms.split_first() else {
        return Ok(None);
    };
    if term.0 != SumSign::Plus || !more.is_empty() {
        return Ok(None);
    }
    let Some(a) = text(code, store, current, first) else {
        return Ok(None);
    };
    let Some(b) = text(code, store, current, &term.1) else {
        return Ok(None);
    };
    match join(code.alloc(), a, b) {
        Ok(joined) => Ok(Some(joined)),
        Err(ValueFault::Is(_)) => Ok(None),
        Err(ValueFault::OutOfMemory) => Err(MemoryFault::OutOfMemory),
    }
}

/// The variable that an expression names, or an item in it, where it is found at once. It is not copied.
pub fn direct_held<'a>(
    code: &'a Code,
    store: &'a Store,
    current: &'a Current,
    expr: &Expr,
) -> Option<&'a Value>
    ensures { IfSome result (λ v. HasValue code.now store.now current.now expr.now (seen v.now)) }
{
    item(code, store, current, expr, LEVELS)
}

/// An integer that is found at once.
pub fn direct_int(code: &Code, store: &Store, current: &Current, expr: &Expr) -> Option<i64>
    ensures { IfSome result (λ n. HasValue code.now store.now current.now expr.now (IntValue n)) }
{
    int(code, store, current, expr, LEVELS)
}

/// Whether two integers that are found at once compare so.
pub fn direct_compare(
    code: &Code,
    store: &Store,
    current: &Current,
    left: &Expr,
    sign: CompareSign,
    right: &Expr,
) -> Option<bool>
    ensures { IfSome result (ComparesTo code.now store.now current.now left.now sign right.now) }
{
    let x = direct_int(code, store, current, left)?;
    let y = direct_int(code, store, current, right)?;
    Some(compared(sign, x, y))
}

/// The value of an expression of integers, of two texts in a row, of a literal, of a name or of an
/// item, where it calls nothing and throws nothing.
pub fn direct_value(
    code: &Code,
    store: &Store,
    current: &Current,
    expr: &Expr,
) -> Result<Option<Value>, MemoryFault>
    ensures { IfOk result (λ o. IfSome o (λ v.
        HasValue code.now store.now current.now expr.now (seen v))) }
{
    match direct_int(code, store, current, expr) {
        Some(n) => Ok(Some(Value::Int(n))),
        None => direct_other(code, store, current, expr),
    }
}

/// The same, where no integer was found.
pub fn direct_other(
    code: &Code,
    store: &Store,
    current: &Current,
    expr: &Expr,
) -> Result<Option<Value>, MemoryFault>
    ensures { IfOk result (λ o. IfSome o (λ v.
        HasValue code.now store.now current.now expr.now (seen v))) }
{
    match expr {
        Expr::Sum(first, terms) => text_sum(code, store, current, first, terms),
        Expr::Text(text) => Ok(Some(Value::Text(copy_text(code.alloc(), text)?))),
        Expr::True => Ok(Some(Value::Bool(true))),
        Expr::False => Ok(Some(Value::Bool(false))),
        Expr::Compare(left, sign, right) => {
            match direct_compare(code, store, current, left, *sign, right) {
                Some(b) => Ok(Some(Value::Bool(b))),
                None => Ok(None),
            }
        }
        Expr::Name(x) => named(code, store, current.names, &current.locals, x),
        Expr::Post(_, _) => match item(code, store, current, expr, LEVELS) {
            Some(value) => Ok(Some(copied(code.alloc(), value)?)),
            None => Ok(None),
        },
        _ => Ok(None),
    }
}
