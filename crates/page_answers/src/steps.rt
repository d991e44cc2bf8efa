//! Answers as steps of a host.

ghost use Rattle.std.specs.Prelude.{◌≡◌, []};
ghost use Rattle.page_types.specs.Values.{FaultValue, UnitValue};
ghost use Rattle.lang_meaning.specs.HostSteps.{StepThrow, StepValue};
ghost use Rattle.lang_ast.specs.Steps.{seen_step};
ghost use Rattle.page_values.specs.Seen.{seen};

use lang_ast::HostStep;
use page_values::{FaultName, Value, fault};
use std::alloc::Global;

/// A fault with an empty text is thrown.
pub fn throw(alloc: Global, name: FaultName) -> HostStep
    ensures { seen_step result ≡ StepThrow (FaultValue name []) }
{
    HostStep::Throw(fault(alloc, name))
}

/// A value is given.
pub fn give(value: Value) -> HostStep
    ensures { seen_step result ≡ StepValue (seen value) }
{
    HostStep::Value(value)
}

/// There is nothing to give.
pub fn give_unit() -> HostStep
    ensures { seen_step result ≡ StepValue UnitValue }
{
    HostStep::Value(Value::Unit)
}
