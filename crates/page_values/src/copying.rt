//! Copies of values.

ghost use Rattle.std.specs.Prelude.{◌≡◌, ◌++◌, IfOk};

use crate::{Func, Items, MemoryFault, Str, Value};
use std::alloc::Global;

/// A value equal to this one.
#[cycle(copy)]
pub fn copy(alloc: Global, value: &Value) -> Result<Value, MemoryFault>
    ensures { IfOk result (λ v. v ≡ value.now) }
{
    Ok(match value {
        Value::Unit => Value::Unit,
        Value::Bool(b) => Value::Bool(*b),
        Value::Int(n) => Value::Int(*n),
        Value::Text(text) => Value::Text(copy_text(alloc, text)?),
        Value::List(items) => Value::List(copy_items(alloc, items)?),
        Value::Fun(function) => Value::Fun(Func {
            function: function.function,
            bound: copy_items(alloc, &function.bound)?,
        }),
        Value::Promise(n) => Value::Promise(*n),
        Value::Signal(n) => Value::Signal(*n),
        Value::Controller(n) => Value::Controller(*n),
        Value::Deadline(at) => Value::Deadline(*at),
        Value::Fault(name, text) => Value::Fault(*name, copy_text(alloc, text)?),
    })
}

/// A text with the same bytes.
pub fn copy_text(alloc: Global, text: &Str) -> Result<Str, MemoryFault>
    ensures { IfOk result (λ t. t ≡ text.now) }
{
    let bytes = Vec::from_slice(alloc, &text.bytes)?;
    Ok(Str { bytes })
}

/// The same items, and what is kept beside them.
#[cycle(copy)]
pub fn copy_items(alloc: Global, items: &Items) -> Result<Items, MemoryFault>
    ensures { IfOk result (λ vs. vs ≡ items.now) }
{
    let mut copies = Vec::with_capacity(alloc, items.items.len())?;
    append_copies(alloc, &items.items, &mut copies)?;
    Ok(Items {
        items: copies,
        measure: items.measure,
    })
}

/// Appends a copy of each item.
#[cycle(copy)]
pub(crate) fn append_copies(
    alloc: Global,
    items: &[Value],
    into: &mut Vec<Value>,
) -> Result<(), MemoryFault>
    ensures { IfOk result (λ _. into.new.items ≡ into.old.items ++ items.now) }
{
    into.reserve(items.len())?;
    for value in items {
        if let Value::Int(n) = value {
            into.push(Value::Int(*n))?;
        } else {
            into.push(copy(alloc, value)?)?;
        }
    }
    Ok(())
}
