//! Whether the functions that a value names are there.

ghost use Rattle.std.specs.Prelude.{◌↔◌, IsTrue};
ghost use Rattle.page_values.specs.Seen.{seen};
ghost use Rattle.page_values.specs.Written.{IsNumbered, AreNumbered};

use page_values::{Items, Value};

// Whether the number of each function that a value names is below `count`. Takes no memory, and costs at most the weight of
// the value; a list that is plain costs one step.
#[cycle(numbered)]
pub(crate) fn is_numbered(value: &Value, count: usize) -> bool
    ensures { IsTrue result ↔ IsNumbered count (seen value.now) }
{
    match value {
        Value::List(items) => are_numbered(items, count),
        Value::Fun(function) => {
            (function.function as usize) < count && are_numbered(&function.bound, count)
        }
        Value::Unit
        | Value::Bool(_)
        | Value::Int(_)
        | Value::Text(_)
        | Value::Promise(_)
        | Value::Signal(_)
        | Value::Controller(_)
        | Value::Deadline(_)
        | Value::Fault(_, _) => true,
    }
}

// The same of all items.
#[cycle(numbered)]
fn are_numbered(items: &Items, count: usize) -> bool
    ensures { IsTrue result ↔ AreNumbered count items.now }
{
    if items.is_plain() {
        return true;
    }
    for value in items.items() {
        if !is_numbered(value, count) {
            return false;
        }
    }
    true
}
