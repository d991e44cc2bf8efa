//! What kind a value is, and what a value of a kind holds.

ghost use Rattle.std.specs.Prelude.{◌≡◌, Option, Some, None, MatchOption};
ghost use Rattle.page_parts.specs.Kinds.{is_unit, bool_in, int_in, text_in, list_in, func_in, promise_in, signal_in, controller_in, deadline_in, fault_in, Fault};
ghost use Rattle.page_base.specs.Found.{IsFound};
ghost use Rattle.page_values.specs.Seen.{seen, seen_func};

use crate::{FaultName, Func, Items, Str, Value};

/// Whether the value is unit.
pub fn is_unit(value: &Value) -> bool
    ensures { result ≡ is_unit (seen value.now) }
{
    match value {
        Value::Unit => true,
        _ => false,
    }
}

/// The value of a `Bool`, and `None` for any other value.
pub fn as_bool(value: &Value) -> Option<bool>
    ensures { result ≡ bool_in (seen value.now) }
{
    match value {
        Value::Bool(b) => Some(*b),
        _ => None,
    }
}

/// The value of an `Int`, and `None` for any other value.
pub fn as_int(value: &Value) -> Option<i64>
    ensures { result ≡ int_in (seen value.now) }
{
    match value {
        Value::Int(n) => Some(*n),
        _ => None,
    }
}

/// The bytes of a `Text`, and `None` for any other value.
pub fn as_text(value: &Value) -> Option<&Str>
    ensures { MatchOption result (text_in (seen value.now) ≡ None) (λ t. text_in (seen value.now) ≡ Some t.now) }
{
    match value {
        Value::Text(text) => Some(text),
        _ => None,
    }
}

/// The items of a `List`, and `None` for any other value.
pub fn as_list(value: &Value) -> Option<&Items>
    ensures { MatchOption result (list_in (seen value.now) ≡ None) (λ vs. list_in (seen value.now) ≡ Some vs.now) }
{
    match value {
        Value::List(items) => Some(items),
        _ => None,
    }
}

/// The function of a `Fun`, and `None` for any other value.
pub fn as_function(value: &Value) -> Option<&Func>
    ensures { IsFound result (func_in (seen value.now)) (λ f. seen_func f.now) }
{
    match value {
        Value::Fun(function) => Some(function),
        _ => None,
    }
}

/// The name and the text of a `Fault`, and `None` for any other value.
pub fn as_fault(value: &Value) -> Option<(FaultName, &Str)>
    ensures { IsFound result (fault_in (seen value.now)) (λ f. record { name = f.0; text = f.1.now }) }
{
    match value {
        Value::Fault(name, text) => Some((*name, text)),
        _ => None,
    }
}

/// The number of a `Promise`, and `None` for any other value.
pub fn as_promise(value: &Value) -> Option<u32>
    ensures { result ≡ promise_in (seen value.now) }
{
    match value {
        Value::Promise(x) => Some(*x),
        _ => None,
    }
}

/// The number of a `Signal`, and `None` for any other value.
pub fn as_signal(value: &Value) -> Option<u32>
    ensures { result ≡ signal_in (seen value.now) }
{
    match value {
        Value::Signal(x) => Some(*x),
        _ => None,
    }
}

/// The number of a `Controller`, and `None` for any other value.
pub fn as_controller(value: &Value) -> Option<u32>
    ensures { result ≡ controller_in (seen value.now) }
{
    match value {
        Value::Controller(x) => Some(*x),
        _ => None,
    }
}

/// The time of a `Deadline`, if it is fixed, and `None` for any other value.
pub fn as_deadline(value: &Value) -> Option<Option<u64>>
    ensures { result ≡ deadline_in (seen value.now) }
{
    match value {
        Value::Deadline(x) => Some(*x),
        _ => None,
    }
}
