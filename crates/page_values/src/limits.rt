//! Values within the limits.

ghost use Rattle.std.specs.Prelude.{◌≡◌, ◌≢◌, ◌++◌, ◌∷◌, [], IsTrue, Err};
ghost use Rattle.page_types.specs.Values.{ListValue, TextValue, FaultValue, FunValue, no_values, values_of, items_of};
ghost use Rattle.page_parts.specs.Kinds.{within_limits};
ghost use Rattle.page_values.specs.Made.{IsMade, with_bound};
ghost use Rattle.page_values.specs.Seen.{seen, seen_all};
ghost use Rattle.page_values.specs.Texts.{is_text};

use crate::copying::append_copies;
use crate::faults::{TooHeavy, ValueFault};
use crate::weighing::measure_of;
use crate::{FaultName, Func, Items, Str, Value};
use std::alloc::Global;

/// The most that a value may weigh.
pub const WEIGHT_LIMIT: u64 = 65_536;

/// The deepest that lists and bound lists may nest in a value.
pub const NESTING_LIMIT: u64 = 64;

/// A list of these items. It takes no memory, and costs a step for each item.
pub fn make_list(items: Vec<Value>) -> Result<Value, ValueFault>
    ensures made { IsMade result (within_limits (ListValue (seen_all items.items))) }
    ensures memory { result ≢ Err ValueFault.OutOfMemory }
{
    match measure_of(&items) {
        Some(measure) => Ok(Value::List(Items { items, measure })),
        None => Err(ValueFault::Is(TooHeavy)),
    }
}

/// A text of these bytes. It takes no memory.
pub fn make_text(bytes: Vec<u8>) -> Result<Value, ValueFault>
    requires { IsTrue (is_text bytes.items) }
    ensures made { IsMade result (within_limits (TextValue bytes.items)) }
    ensures memory { result ≢ Err ValueFault.OutOfMemory }
{
    if bytes.len() as u64 >= WEIGHT_LIMIT {
        return Err(ValueFault::Is(TooHeavy));
    }
    Ok(Value::Text(Str { bytes }))
}

/// The function with more arguments bound, after those that are bound already.
pub fn bind(alloc: Global, function: &Func, more: &Items) -> Result<Value, ValueFault>
    ensures { IsMade result (within_limits (with_bound function.now more.now)) }
{
    let Some(measure) = function.bound.measure().and_all(more.measure()) else {
        return Err(ValueFault::Is(TooHeavy));
    };
    let mut bound = Vec::new(alloc);
    append_copies(alloc, function.bound.items(), &mut bound)?;
    append_copies(alloc, more.items(), &mut bound)?;
    Ok(Value::Fun(Func {
        function: function.function,
        bound: Items {
            items: bound,
            measure,
        },
    }))
}

/// The list with one more item at its end. No item is copied or looked at.
pub fn push(list: Items, item: Value) -> Result<Value, ValueFault>
    ensures { IsMade result (within_limits (ListValue (values_of (items_of list ++ seen item ∷ [])))) }
{
    let Some(measure) = list.measure().with(&item) else {
        return Err(ValueFault::Is(TooHeavy));
    };
    let mut items = list.into_items();
    items.push(item)?;
    Ok(Value::List(Items { items, measure }))
}

/// A fault with an empty text. It takes no memory.
pub fn fault(alloc: Global, name: FaultName) -> Value
    ensures { seen result ≡ FaultValue name [] }
{
    Value::Fault(
        name,
        Str {
            bytes: Vec::new(alloc),
        },
    )
}

/// A function with no bound arguments. It takes no memory.
pub fn function_value(alloc: Global, function: u32) -> Value
    ensures { seen result ≡ FunValue function no_values }
{
    Value::Fun(Func {
        function,
        bound: Items::none(alloc),
    })
}

/// Two texts in a row.
pub fn join(alloc: Global, a: &Str, b: &Str) -> Result<Value, ValueFault>
    ensures { IsMade result (within_limits (TextValue (a.now ++ b.now))) }
{
    let size = a.bytes.len() + b.bytes.len();
    if size as u64 >= WEIGHT_LIMIT {
        return Err(ValueFault::Is(TooHeavy));
    }
    let mut bytes = Vec::with_capacity(alloc, size)?;
    bytes.extend_from_slice(&a.bytes)?;
    bytes.extend_from_slice(&b.bytes)?;
    Ok(Value::Text(Str { bytes }))
}
