//! The operators.

ghost use Rattle.std.specs.Prelude.{◌≡◌, [], Ok, IfOk, IfErr, map};
ghost use Rattle.std.specs.Option.{option_map};
ghost use Rattle.page_types.specs.Values.{FaultValue, IntValue, values_of};
ghost use Rattle.page_types.specs.declared.FaultName.TheVariants.{TypeError, RangeError};
ghost use Rattle.lang_meaning.specs.Evaluation.{sum_answer, product_answer, compare_answer, unary_answer, item_answer, both_ints, need, place_in};
ghost use Rattle.page_values.specs.Seen.{seen};
ghost use Rattle.page_interp.specs.Runs.{value_left, exit_left, ends, throws};
ghost use Rattle.page_interp.specs.Answers.{Answers, AreInts, AreNoInts, text_answer, int_sum_answer, int_product};

use crate::exit::Exit;
use crate::values::{copied, made};
use page_types::{CompareSign, ProductSign, SumSign, UnarySign};
use page_values::{FaultName, Str, Value, as_bool, as_int, as_list, as_text, fault, join, same};
use std::alloc::Global;

/// A fault with an empty text.
fn throw<S: Drop>(alloc: Global, name: FaultName) -> Exit<S>
    ensures { exit_left result ≡ ends (throws (FaultValue name [])) }
{
    Exit::Throw(fault(alloc, name))
}

/// An integer, or RangeError where it lies outside 64 bits.
fn int_or_range<S: Drop>(alloc: Global, n: Option<i64>) -> Result<Value, Exit<S>>
    ensures { Answers (value_left result) (need n RangeError (λ n. Ok (IntValue n))) }
{
    match n {
        Some(n) => Ok(Value::Int(n)),
        None => Err(throw(alloc, FaultName::RangeError)),
    }
}

/// Two integers, or TypeError.
fn both_ints<S: Drop>(alloc: Global, a: &Value, b: &Value) -> Result<(i64, i64), Exit<S>>
    ensures ok { IfOk result (AreInts (seen a.now) (seen b.now)) }
    ensures err { IfErr result (AreNoInts (seen a.now) (seen b.now)) }
{
    let Some(x) = as_int(a) else {
        return Err(throw(alloc, FaultName::TypeError));
    };
    match as_int(b) {
        Some(y) => Ok((x, y)),
        None => Err(throw(alloc, FaultName::TypeError)),
    }
}

/// The sum or the difference of two integers, or two texts in a row.
pub fn add<S: Drop>(alloc: Global, sign: SumSign, a: &Value, b: &Value) -> Result<Value, Exit<S>>
    ensures { Answers (value_left result) (sum_answer sign (seen a.now) (seen b.now)) }
{
    match sign {
        SumSign::Plus => match a {
            Value::Text(text) => add_text(alloc, text, b),
            _ => add_ints(alloc, SumSign::Plus, a, b),
        },
        SumSign::Minus => add_ints(alloc, SumSign::Minus, a, b),
    }
}

fn add_text<S: Drop>(alloc: Global, a: &Str, b: &Value) -> Result<Value, Exit<S>>
    ensures { Answers (value_left result) (text_answer a.now (seen b.now)) }
{
    match as_text(b) {
        Some(b) => made(alloc, join(alloc, a, b)),
        None => Err(throw(alloc, FaultName::TypeError)),
    }
}

fn add_ints<S: Drop>(alloc: Global, sign: SumSign, a: &Value, b: &Value) -> Result<Value, Exit<S>>
    ensures { Answers (value_left result) (int_sum_answer sign (seen a.now) (seen b.now)) }
{
    match both_ints(alloc, a, b) {
        Ok((x, y)) => {
            let sum = match sign {
                SumSign::Plus => x.checked_add(y),
                SumSign::Minus => x.checked_sub(y),
            };
            int_or_range(alloc, sum)
        }
        Err(exit) => Err(exit),
    }
}

/// The product, the quotient or the remainder of two integers.
pub fn multiply<S: Drop>(
    alloc: Global,
    sign: ProductSign,
    a: &Value,
    b: &Value,
) -> Result<Value, Exit<S>>
    ensures { Answers (value_left result) (product_answer sign (seen a.now) (seen b.now)) }
{
    match both_ints(alloc, a, b) {
        Ok((x, y)) => int_or_range(alloc, int_product(sign, x, y)),
        Err(exit) => Err(exit),
    }
}

/// A product, a quotient or a remainder within 64 bits. Division truncates towards zero, and a
/// remainder has the sign of the dividend.
pub fn int_product(sign: ProductSign, x: i64, y: i64) -> Option<i64>
    ensures { result ≡ int_product sign x y }
{
    match sign {
        ProductSign::Times => x.checked_mul(y),
        ProductSign::Divide => x.checked_div(y),
        ProductSign::Remainder => x.checked_rem(y),
    }
}

/// Equality of any two values, or the order of two integers.
pub fn compare<S: Drop>(
    alloc: Global,
    sign: CompareSign,
    a: &Value,
    b: &Value,
) -> Result<Value, Exit<S>>
    ensures { Answers (value_left result) (compare_answer sign (seen a.now) (seen b.now)) }
{
    match sign {
        CompareSign::Equals => Ok(Value::Bool(same(a, b))),
        CompareSign::Differs => Ok(Value::Bool(!same(a, b))),
        CompareSign::Less => match both_ints(alloc, a, b) {
            Ok((x, y)) => Ok(Value::Bool(x < y)),
            Err(exit) => Err(exit),
        },
        CompareSign::AtMost => match both_ints(alloc, a, b) {
            Ok((x, y)) => Ok(Value::Bool(x <= y)),
            Err(exit) => Err(exit),
        },
        CompareSign::Greater => match both_ints(alloc, a, b) {
            Ok((x, y)) => Ok(Value::Bool(y < x)),
            Err(exit) => Err(exit),
        },
        CompareSign::AtLeast => match both_ints(alloc, a, b) {
            Ok((x, y)) => Ok(Value::Bool(y <= x)),
            Err(exit) => Err(exit),
        },
    }
}

/// A negated integer, or a negated Bool.
pub fn negate<S: Drop>(alloc: Global, sign: UnarySign, a: &Value) -> Result<Value, Exit<S>>
    ensures { Answers (value_left result) (unary_answer sign (seen a.now)) }
{
    match sign {
        UnarySign::Negative => match as_int(a) {
            Some(n) => int_or_range(alloc, n.checked_neg()),
            None => Err(throw(alloc, FaultName::TypeError)),
        },
        UnarySign::Not => match as_bool(a) {
            Some(b) => Ok(Value::Bool(!b)),
            None => Err(throw(alloc, FaultName::TypeError)),
        },
    }
}

/// The item of a list at a place from 0.
pub fn item_at<S: Drop>(alloc: Global, list: &Value, place: &Value) -> Result<Value, Exit<S>>
    ensures { Answers (value_left result) (item_answer (seen list.now) (seen place.now)) }
{
    let Some(items) = as_list(list) else {
        return Err(throw(alloc, FaultName::TypeError));
    };
    let Some(n) = as_int(place) else {
        return Err(throw(alloc, FaultName::TypeError));
    };
    match item_of(items.items(), n) {
        Some(v) => match copied(alloc, v) {
            Ok(v) => Ok(v),
            Err(_) => Err(Exit::OutOfMemory),
        },
        None => Err(throw(alloc, FaultName::RangeError)),
    }
}

/// The item at a place from 0.
pub fn item_of(items: &[Value], n: i64) -> Option<&Value>
    ensures { option_map (λ v. seen v.now) result ≡ place_in (values_of (map seen items.now)) n }
{
    if n < 0 {
        return None;
    }
    let place = n as usize;
    if place < items.len() {
        return Some(&items[place]);
    }
    None
}
