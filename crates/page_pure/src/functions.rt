//! Lists, bound arguments and deadlines.

ghost use Rattle.std.specs.Prelude.{◌≡◌, Ok};
ghost use Rattle.page_types.specs.Values.{IntValue};
ghost use Rattle.page_types.specs.declared.FaultName.TheVariants.{TypeError};
ghost use Rattle.lang_meaning.specs.Evaluation.{need};
ghost use Rattle.lang_meaning.specs.PureOperations.{length_answer, push_answer, bind_answer, did_timeout_answer};
ghost use Rattle.lang_ast.specs.Steps.{seen_step};
ghost use Rattle.page_values.specs.Seen.{seen};
ghost use Rattle.page_pure.specs.PureSteps.{IsStepOf, step_of};

use crate::answers::{made, throw};
use lang_ast::HostStep;
use page_values::{
    FaultName, MemoryFault, Value, as_deadline, as_function, as_list, as_text, bind, copy,
    copy_items, push,
};
use std::alloc::Global;

/// `len`: the number of items of a list or of bytes of a text, TypeError for any other value. It takes no memory.
pub fn count(alloc: Global, value: &Value) -> HostStep
    ensures { seen_step result ≡ step_of (length_answer (seen value.now)) }
{
    match length_of(value) {
        Some(n) => HostStep::Value(Value::Int(n)),
        None => throw(alloc, FaultName::TypeError),
    }
}

/// The number of items of a list or of bytes of a text, and none for any other value. It costs one step.
pub fn length_of(value: &Value) -> Option<i64>
    ensures { length_answer (seen value.now) ≡ need result TypeError (λ n. Ok (IntValue n)) }
{
    if let Some(text) = as_text(value) {
        return Some(text.bytes().len() as i64);
    }
    match as_list(value) {
        Some(items) => Some(items.items().len() as i64),
        None => None,
    }
}

/// `push`: the list with a value at its end. TypeError where it is no list, RangeError where it would be too heavy.
pub fn push_item(alloc: Global, list: &Value, value: &Value) -> Result<HostStep, MemoryFault>
    ensures { IsStepOf result (push_answer (seen list.now) (seen value.now)) }
{
    match as_list(list) {
        Some(items) => {
            let items = copy_items(alloc, items)?;
            let value = copy(alloc, value)?;
            made(alloc, push(items, value))
        }
        None => Ok(throw(alloc, FaultName::TypeError)),
    }
}

/// The same with list and value handed over: the list is kept, and the value put at its end. No item is copied.
pub fn push_onto(alloc: Global, list: Value, value: Value) -> Result<HostStep, MemoryFault>
    ensures { IsStepOf result (push_answer (seen list) (seen value)) }
{
    match list {
        Value::List(items) => made(alloc, push(items, value)),
        _ => Ok(throw(alloc, FaultName::TypeError)),
    }
}

/// `bind`: the function with the items of a list bound behind the arguments that it has. TypeError where it is no function
/// or the other one no list, RangeError where it would be too heavy.
pub fn bind_more(alloc: Global, function: &Value, list: &Value) -> Result<HostStep, MemoryFault>
    ensures { IsStepOf result (bind_answer (seen function.now) (seen list.now)) }
{
    let Some(function) = as_function(function) else {
        return Ok(throw(alloc, FaultName::TypeError));
    };
    match as_list(list) {
        Some(items) => made(alloc, bind(alloc, function, items)),
        None => Ok(throw(alloc, FaultName::TypeError)),
    }
}

/// `didTimeout`: whether a deadline is fixed, TypeError for any other value. It takes no memory.
pub fn did_timeout(alloc: Global, value: &Value) -> HostStep
    ensures { seen_step result ≡ step_of (did_timeout_answer (seen value.now)) }
{
    match as_deadline(value) {
        Some(at) => HostStep::Value(Value::Bool(at.is_some())),
        None => throw(alloc, FaultName::TypeError),
    }
}
