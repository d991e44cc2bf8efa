//! Whether an operation would be answered with a value, and with which, told before it is done.

ghost use Rattle.std.specs.Prelude.{◌≡◌, ◌+◌, ◌≤◌, ◌↔◌, ℕ, max, length, IsTrue, IfSome};
ghost use Rattle.lang_meaning.specs.PureOperations.{length_answer, push_answer};
ghost use Rattle.page_parts.specs.Kinds.{weight, nesting};
ghost use Rattle.lang_ast.specs.Hosts.{seen_lent};
ghost use Rattle.lang_ast.specs.Operations.{count_of};
ghost use Rattle.page_values.specs.Seen.{seen};
ghost use Rattle.page_values.specs.Written.{IsNumbered};
ghost use Rattle.page_pure.specs.ValueAnswers.{IsValue, GivesPurely, AnswersPurely};

use crate::functions::length_of;
use lang_ast::Op;
use page_values::{NESTING_LIMIT, Value, WEIGHT_LIMIT, nesting, weight};

/// Whether an operation on values alone would answer these arguments, as many as it has, with a value. `false` also for operations
/// that this does not decide. It takes no memory and costs one step, whatever the arguments hold.
pub fn gives_value(op: Op, args: &[&Value]) -> bool
    requires { length args.now ≡ count_of op }
    ensures { IsTrue result → GivesPurely op (seen_lent args.now) }
{
    match op {
        Op::KindOf => true,
        Op::Len => has_length(args[0]),
        Op::Push => takes_item(args[0], args[1]),
        _ => false,
    }
}

/// The value with which an operation on values alone answers these arguments, as many as it has. It names no function. `None`
/// also for operations that this does not decide. It takes no memory and costs one step, whatever the arguments hold.
pub fn known_value(op: Op, args: &[&Value]) -> Option<Value>
    requires { length args.now ≡ count_of op }
    ensures answer { IfSome result (λ v. AnswersPurely op (seen_lent args.now) (seen v)) }
    ensures numbered { (count : ℕ) → IfSome result (λ v. IsNumbered count (seen v)) }
{
    match op {
        Op::Len => Some(Value::Int(length_of(args[0])?)),
        _ => None,
    }
}

// Whether `len` answers a value with its length: it is a text or a list.
fn has_length(value: &Value) -> bool
    ensures { IsTrue result ↔ IsValue (length_answer (seen value.now)) }
{
    match value {
        Value::Text(_) | Value::List(_) => true,
        _ => false,
    }
}

// Whether `push` answers with the list and one more item: it is a list, and stays within the limits.
fn takes_item(list: &Value, item: &Value) -> bool
    ensures { IsTrue result ↔ IsValue (push_answer (seen list.now) (seen item.now)) }
{
    match list {
        Value::List(_) => is_light(list, item) && is_flat(list, item),
        _ => false,
    }
}

// Whether a list is light enough with one more item. It keeps what its items weigh.
fn is_light(list: &Value, item: &Value) -> bool
    ensures { IsTrue result ↔ (weight (seen list.now) + weight (seen item.now) ≤ 65536) }
{
    weight(list) <= WEIGHT_LIMIT && weight(item) <= WEIGHT_LIMIT - weight(list)
}

// Whether a list with one more item nests no deeper than it may. It keeps how deep its items nest.
fn is_flat(list: &Value, item: &Value) -> bool
    ensures { IsTrue result ↔ (max (nesting (seen list.now)) (1 + nesting (seen item.now)) ≤ 64) }
{
    nesting(list) <= NESTING_LIMIT && nesting(item) < NESTING_LIMIT
}
