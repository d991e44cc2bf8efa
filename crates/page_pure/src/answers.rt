//! Arguments, and answers as steps.

ghost use Rattle.std.specs.Prelude.{◌≡◌, ◌<◌, [], ℕ, length, map, Option, Ok};
ghost use Rattle.page_types.specs.Values as Model;
ghost use Rattle.page_types.specs.Values.{FaultValue};
ghost use Rattle.page_types.specs.declared.FaultName.TheVariants.{RangeError};
ghost use Rattle.lang_meaning.specs.PureOperations.{argument};
ghost use Rattle.lang_meaning.specs.Evaluation.{need};
ghost use Rattle.lang_meaning.specs.HostSteps.{StepThrow};
ghost use Rattle.lang_ast.specs.Steps.{seen_step};
ghost use Rattle.page_values.specs.Made.{IsMade};
ghost use Rattle.page_values.specs.Seen.{seen};
ghost use Rattle.page_pure.specs.PureSteps.{IsStepOf};

use lang_ast::HostStep;
use page_values::{FaultName, MemoryFault, Value, ValueFault, fault};
use std::alloc::Global;

/// The argument at a place, counted from 0.
pub fn argument(args: &Vec<Value>, place: usize) -> &Value
    requires { place < length args.now.items }
    ensures { seen result.now ≡ argument (map seen args.now.items) place }
{
    &args[place]
}

/// The first two arguments, unit where one is missing. No item is copied.
pub fn both(args: Vec<Value>) -> (Value, Value)
    ensures first { seen result.0 ≡ argument (map seen args.items) 0 }
    ensures second { seen result.1 ≡ argument (map seen args.items) 1 }
{
    let mut args = args.into_iter();
    let first = args.next().unwrap_or(Value::Unit);
    let second = args.next().unwrap_or(Value::Unit);
    (first, second)
}

/// A fault with an empty text is thrown.
pub fn throw(alloc: Global, name: FaultName) -> HostStep
    ensures { seen_step result ≡ StepThrow (FaultValue name []) }
{
    HostStep::Throw(fault(alloc, name))
}

/// A value that was made, or RangeError where it is too heavy.
pub fn made(alloc: Global, made: Result<Value, ValueFault>) -> Result<HostStep, MemoryFault>
    ensures { (wanted : Option Model.Value) → IsMade made wanted → IsStepOf result (need wanted RangeError Ok) }
{
    match made {
        Ok(v) => Ok(HostStep::Value(v)),
        Err(ValueFault::Is(_)) => Ok(throw(alloc, FaultName::RangeError)),
        Err(ValueFault::OutOfMemory) => Err(MemoryFault::OutOfMemory),
    }
}
