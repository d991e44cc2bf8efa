//! Faults, as values that a script makes and reads.

ghost use Rattle.std.specs.Prelude.{◌≡◌, IsTrue};
ghost use Rattle.page_parts.specs.Spelling.{fault_text};
ghost use Rattle.lang_meaning.specs.PureOperations.{fault_answer, fault_name_answer, fault_text_answer};
ghost use Rattle.page_values.specs.Seen.{seen};
ghost use Rattle.page_values.specs.Texts.{is_text};
ghost use Rattle.page_pure.specs.PureSteps.{IsStepOf};

use crate::answers::throw;
use lang_ast::HostStep;
use page_values::{FaultName, MemoryFault, Str, Value, as_fault, as_text, copy_text};
use std::alloc::Global;

/// `fault`: a fault with the name Error and this text, TypeError for any other value.
pub fn make_fault(alloc: Global, text: &Value) -> Result<HostStep, MemoryFault>
    ensures { IsStepOf result (fault_answer (seen text.now)) }
{
    match as_text(text) {
        Some(text) => {
            let text = copy_text(alloc, text)?;
            Ok(HostStep::Value(Value::Fault(FaultName::Error, text)))
        }
        None => Ok(throw(alloc, FaultName::TypeError)),
    }
}

/// `faultName`: the name of a fault as a text, TypeError for any other value.
pub fn fault_name(alloc: Global, value: &Value) -> Result<HostStep, MemoryFault>
    ensures { IsStepOf result (fault_name_answer (seen value.now)) }
{
    match as_fault(value) {
        Some((name, _)) => {
            let text = Str::new(Vec::from_slice(alloc, fault_word(name))?);
            Ok(HostStep::Value(Value::Text(text)))
        }
        None => Ok(throw(alloc, FaultName::TypeError)),
    }
}

/// `faultText`: the text of a fault, TypeError for any other value.
pub fn fault_text(alloc: Global, value: &Value) -> Result<HostStep, MemoryFault>
    ensures { IsStepOf result (fault_text_answer (seen value.now)) }
{
    match as_fault(value) {
        Some((_, text)) => {
            let text = copy_text(alloc, text)?;
            Ok(HostStep::Value(Value::Text(text)))
        }
        None => Ok(throw(alloc, FaultName::TypeError)),
    }
}

/// The name of a fault in letters.
fn fault_word(name: FaultName) -> &'static [u8]
    ensures word { result.now ≡ fault_text name }
    ensures text { IsTrue (is_text result.now) }
{
    match name {
        FaultName::Error => b"Error",
        FaultName::TypeError => b"TypeError",
        FaultName::RangeError => b"RangeError",
        FaultName::AbortError => b"AbortError",
        FaultName::TimeoutError => b"TimeoutError",
        FaultName::NotAllowedError => b"NotAllowedError",
    }
}
