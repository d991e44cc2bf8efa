//! Copies of values.
ghost use Rattle.std.specs.Prelude.{◌≡◌, IfErr, IfOk};
ghost use Rattle.page_types.specs.Values.{FunValue};
ghost use Rattle.page_values.specs.Seen.{seen};
ghost use Rattle.trace_text.specs.declared.lines.NoLine.TheVariants.{OutOfMemory};

use page_values::{Func, Value, copy, copy_items};
use std::alloc::Global;
use trace_text::NoLine;

// A copy of a value.
pub(crate) fn copied(alloc: Global, value: &Value) -> Result<Value, NoLine>
    ensures same { IfOk result (λ v. v ≡ value.now) }
    ensures memory { IfErr result (λ why. why ≡ OutOfMemory) }
{
    match copy(alloc, value) {
        Ok(value) => Ok(value),
        Err(_) => Err(NoLine::OutOfMemory),
    }
}

// A copy of a function with its bound arguments, as a value.
pub(crate) fn function_copied(alloc: Global, function: &Func) -> Result<Value, NoLine>
    ensures same { IfOk result (λ v. seen v ≡ FunValue function.now.function function.now.bound) }
    ensures memory { IfErr result (λ why. why ≡ OutOfMemory) }
{
    match copy_items(alloc, &function.bound) {
        Ok(bound) => Ok(Value::Fun(Func {
            function: function.function,
            bound,
        })),
        Err(_) => Err(NoLine::OutOfMemory),
    }
}
