//! What an argument is, handed over with no copy.

ghost use Rattle.std.specs.Prelude.{◌≡◌};
ghost use Rattle.std.specs.Option.{option_map};
ghost use Rattle.page_parts.specs.Kinds.{func_in, list_in};
ghost use Rattle.page_values.specs.Seen.{seen, seen_func};

use page_values::{Func, Items, Value};

/// The function that a value is, `None` for any other value. Takes no memory.
pub fn function_of(value: Value) -> Option<Func>
    ensures { option_map seen_func result ≡ func_in (seen value) }
{
    match value {
        Value::Fun(function) => Some(function),
        _ => None,
    }
}

/// The items of the list that a value is, `None` for any other value. Takes no memory.
pub fn list_of(value: Value) -> Option<Items>
    ensures { result ≡ list_in (seen value) }
{
    match value {
        Value::List(items) => Some(items),
        _ => None,
    }
}
