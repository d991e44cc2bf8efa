//! Equality of values.

ghost use Rattle.std.specs.Prelude.{◌≡◌, ◌↔◌, IsTrue};
ghost use Rattle.page_parts.specs.Kinds.{same, same_all, same_deadline};
ghost use Rattle.page_parts.specs.Words.{same_bytes};
ghost use Rattle.page_values.specs.Seen.{seen};

use crate::kinds::{as_bool, as_fault, as_function, as_int, as_list, as_text, is_unit};
use crate::{Items, Str, Value};

/// Whether two values are equal by structure.
pub fn same(a: &Value, b: &Value) -> bool
    ensures same { result ≡ same (seen a.now) (seen b.now) }
    ensures equal { IsTrue result ↔ (seen a.now ≡ seen b.now) }
{
    same_values(a, b)
}

#[cycle(same)]
fn same_values(a: &Value, b: &Value) -> bool
    ensures { result ≡ same (seen a.now) (seen b.now) }
{
    match a {
        Value::Unit => is_unit(b),
        Value::Bool(x) => match as_bool(b) {
            Some(y) => *x == y,
            None => false,
        },
        Value::Int(x) => match as_int(b) {
            Some(y) => *x == y,
            None => false,
        },
        Value::Text(x) => match as_text(b) {
            Some(y) => same_text(x, y),
            None => false,
        },
        Value::List(xs) => match as_list(b) {
            Some(ys) => same_items(xs, ys),
            None => false,
        },
        Value::Fun(f) => match as_function(b) {
            Some(g) => f.function == g.function && same_items(&f.bound, &g.bound),
            None => false,
        },
        Value::Promise(x) => match b {
            Value::Promise(y) => *x == *y,
            _ => false,
        },
        Value::Signal(x) => match b {
            Value::Signal(y) => *x == *y,
            _ => false,
        },
        Value::Controller(x) => match b {
            Value::Controller(y) => *x == *y,
            _ => false,
        },
        Value::Deadline(x) => match b {
            Value::Deadline(y) => same_deadline(*x, *y),
            _ => false,
        },
        Value::Fault(name, x) => match as_fault(b) {
            Some((other, y)) => *name == other && same_text(x, y),
            None => false,
        },
    }
}

fn same_deadline(a: Option<u64>, b: Option<u64>) -> bool
    ensures { result ≡ same_deadline a b }
{
    match a {
        Some(x) => match b {
            Some(y) => x == y,
            None => false,
        },
        None => b.is_none(),
    }
}

/// Whether two texts have the same bytes.
pub fn same_text(a: &Str, b: &Str) -> bool
    ensures { result ≡ same_bytes a.now b.now }
{
    a.bytes.as_slice() == b.bytes.as_slice()
}

/// Whether a text is this word.
pub fn is_word(text: &Str, word: &[u8]) -> bool
    ensures { result ≡ same_bytes word.now text.now }
{
    word == text.bytes.as_slice()
}

#[cycle(same)]
fn same_items(xs: &Items, ys: &Items) -> bool
    ensures { result ≡ same_all xs.now ys.now }
{
    let mut at = 0;
    for x in &xs.items {
        let Some(y) = ys.items.get(at) else {
            return false;
        };
        if !same_values(x, y) {
            return false;
        }
        at += 1;
    }
    at == ys.items.len()
}
