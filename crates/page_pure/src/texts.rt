//! Values as texts.

ghost use Rattle.std.specs.Prelude.{◌≡◌, length, IsTrue};
ghost use Rattle.page_parts.specs.Kinds.{kind_text};
ghost use Rattle.lang_meaning.specs.PureOperations.{text_answer, kind_answer};
ghost use Rattle.page_values.specs.Seen.{seen};
ghost use Rattle.page_values.specs.Texts.{is_text};
ghost use Rattle.page_values.specs.Written.{IsNumbered};
ghost use Rattle.page_pure.specs.PureSteps.{IsStepOf};

use crate::answers::made;
use lang_ast::HostStep;
use page_values::{FunNames, MemoryFault, Str, Value, make_text, print};
use std::alloc::Global;

/// `text`: the spelling of a value as a text, RangeError where it would be too heavy.
pub fn spelling(alloc: Global, value: &Value, names: &FunNames) -> Result<HostStep, MemoryFault>
    requires { IsNumbered (length names.now) (seen value.now) }
    ensures { IsStepOf result (text_answer names.now (seen value.now)) }
{
    let mut bytes = Vec::new(alloc);
    print(alloc, value, names, &mut bytes)?;
    made(alloc, make_text(bytes))
}

/// `kind`: the kind of a value by its word.
pub fn kind(alloc: Global, value: &Value) -> Result<HostStep, MemoryFault>
    ensures { IsStepOf result (kind_answer (seen value.now)) }
{
    let text = Str::new(Vec::from_slice(alloc, kind_word(value))?);
    Ok(HostStep::Value(Value::Text(text)))
}

fn kind_word(value: &Value) -> &'static [u8]
    ensures word { result.now ≡ kind_text (seen value.now) }
    ensures text { IsTrue (is_text result.now) }
{
    match value {
        Value::Unit => b"unit",
        Value::Bool(_) => b"bool",
        Value::Int(_) => b"int",
        Value::Text(_) => b"text",
        Value::List(_) => b"list",
        Value::Fun(_) => b"fun",
        Value::Promise(_) => b"promise",
        Value::Signal(_) => b"signal",
        Value::Controller(_) => b"controller",
        Value::Deadline(_) => b"deadline",
        Value::Fault(_, _) => b"fault",
    }
}
