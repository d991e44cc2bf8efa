//! Work on values.

ghost use Rattle.std.specs.Prelude.{◌≡◌, ◌++◌, ◌∷◌, [], Option, Some, None, Ok, IfOk, IfErr, IfSome, IfNone, map};
ghost use Rattle.std.specs.Option.{option_map};
ghost use Rattle.page_types.specs.Values.{items_of, ListValue, TextValue};
ghost use Rattle.page_types.specs.declared.FaultName.TheVariants.{RangeError};
ghost use Rattle.lang_meaning.specs.Evaluation.{limited_value};
ghost use Rattle.page_values.specs.Seen.{seen, seen_all, seen_func};
ghost use Rattle.page_interp.specs.Runs.{value_left, unit_left, call_left, func_of};
ghost use Rattle.page_interp.specs.Answers.{Answers, MadeGives};

use crate::exit::Exit;
use page_values::{
    FaultName, Func, Items, MemoryFault, Str, Value, ValueFault, copy, copy_text, fault, make_list,
};
use std::alloc::{AllocError, Global};

/// A value that was made, or RangeError where it is too heavy.
pub fn made<S: Drop>(alloc: Global, made: Result<Value, ValueFault>) -> Result<Value, Exit<S>>
    ensures { MadeGives made (value_left result) }
{
    match made {
        Ok(v) => Ok(v),
        Err(ValueFault::Is(_)) => Err(Exit::Throw(fault(alloc, FaultName::RangeError))),
        Err(ValueFault::OutOfMemory) => Err(Exit::OutOfMemory),
    }
}

/// A list of values.
pub fn list<S: Drop>(alloc: Global, items: Vec<Value>) -> Result<Value, Exit<S>>
    ensures { Answers (value_left result) (limited_value (ListValue (seen_all items.items))) }
{
    made(alloc, make_list(items))
}

/// A text with the same bytes.
pub fn text<S: Drop>(alloc: Global, text: &Str) -> Result<Value, Exit<S>>
    ensures { Answers (value_left result) (Ok (TextValue text.now)) }
{
    match copy_text(alloc, text) {
        Ok(text) => Ok(Value::Text(text)),
        Err(_) => Err(Exit::OutOfMemory),
    }
}

/// A value equal to this one. Most values are integers.
pub fn copied(alloc: Global, value: &Value) -> Result<Value, MemoryFault>
    ensures { IfOk result (λ v. v ≡ value.now) }
{
    match value {
        Value::Int(n) => Ok(Value::Int(*n)),
        _ => copy(alloc, value),
    }
}

/// One more value at the end.
pub fn append<S: Drop>(values: &mut Vec<Value>, value: Value) -> Result<(), Exit<S>>
    ensures appended { IfOk result (λ _. values.new.items ≡ values.old.items ++ value ∷ []) }
    ensures err { IfErr result (λ x. x ≡ Exit.OutOfMemory) }
{
    values.push(value).map_err(|_| Exit::OutOfMemory)
}

/// The function that a value is.
pub fn callee(value: Option<Value>) -> Option<Func>
    ensures none { IfNone result (func_of (option_map seen value) ≡ None) }
    ensures some { IfSome result (λ f. func_of (option_map seen value) ≡ Some (seen_func f)) }
{
    match value {
        Some(Value::Fun(function)) => Some(function),
        _ => None,
    }
}

/// The bound arguments, and then the given ones.
pub fn joined(bound: Items, mut args: Vec<Value>) -> Result<Vec<Value>, AllocError>
    ensures { IfOk result (λ vs. map seen vs.items ≡ items_of bound ++ map seen args.items) }
{
    let mut all = bound.into_items();
    if all.is_empty() {
        return Ok(args);
    }
    all.append(&mut args)?;
    Ok(all)
}

/// How a call ends, by the end of its body.
pub fn ended<S: Drop>(done: Result<(), Exit<S>>) -> Result<Value, Exit<S>>
    ensures { value_left result ≡ call_left (unit_left done) }
{
    match done {
        Ok(_) => Ok(Value::Unit),
        Err(Exit::Throw(v)) => Err(Exit::Throw(v)),
        Err(Exit::Return(v)) => Ok(v),
        Err(Exit::Fuel) => Err(Exit::Fuel),
        Err(Exit::Host(stop)) => Err(Exit::Host(stop)),
        Err(Exit::OutOfMemory) => Err(Exit::OutOfMemory),
    }
}
