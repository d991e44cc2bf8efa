//! Which combinator it is, and what depends on that alone.

ghost use Rattle.std.specs.Prelude.{◌≡◌, IfOk};
ghost use Rattle.std.specs.Option.{option_map};
ghost use Rattle.page_parts.specs.Promises.{settled_value};
ghost use Rattle.promise_core.specs.Seen.{settled_seen};
ghost use Rattle.page_values.specs.Seen.{seen};
ghost use Rattle.promise_combine.specs.Seen.{kind_seen};
ghost use Rattle.promise_combine.specs.Answers.{brought_by, list_settles, item_by, IsItem};

use page_values::{MemoryFault, Value, ValueFault, copy, make_list};
use promise_core::Settled;
use std::alloc::Global;

/// Which combinator it is.
#[derive(Drop)]
pub enum Kind {
    /// Fulfilled with the list of all values, or rejected by the first rejection (ECMA-262, "Promise.all").
    All,
    /// Fulfilled by the first value, or rejected with the list of all reasons (ECMA-262, "Promise.any").
    Any,
    /// Fulfilled with a list that tells of each element how it was settled (ECMA-262, "Promise.allSettled").
    AllSettled,
    /// Once its one element is fulfilled, settled as this outcome says, and rejected where the element is (ECMA-262,
    /// "Promise.prototype.finally").
    Pass(Settled),
}

// The answer that an outcome brings, whatever else was reported before.
pub(crate) fn brought_by<'a>(kind: &'a Kind, outcome: &'a Settled) -> Option<&'a Settled>
    ensures { option_map (λ settled. settled_seen settled.now) result ≡ brought_by kind.now outcome.now }
{
    match kind {
        Kind::All => match outcome {
            Ok(_) => None,
            Err(_) => Some(outcome),
        },
        Kind::Any => match outcome {
            Ok(_) => Some(outcome),
            Err(_) => None,
        },
        Kind::AllSettled => None,
        Kind::Pass(passed) => match outcome {
            Ok(_) => Some(passed),
            Err(_) => Some(outcome),
        },
    }
}

// How the promise is settled by the list of all outcomes. No list comes of one that passes an outcome on.
pub(crate) fn settled_with(kind: &Kind, list: Value) -> Settled
    ensures { settled_seen result ≡ list_settles (kind_seen kind.now) (seen list) }
{
    match kind {
        Kind::Any => Err(list),
        Kind::All | Kind::AllSettled | Kind::Pass(_) => Ok(list),
    }
}

// What the list of all outcomes holds for one of them: a copy.
pub(crate) fn item_of(alloc: Global, kind: &Kind, outcome: &Settled) -> Result<Value, ValueFault>
    ensures { IsItem result (item_by (kind_seen kind.now) (settled_seen outcome.now)) }
{
    let value = copy(alloc, value_of(outcome))?;
    match kind {
        Kind::AllSettled => make_list(vec![in alloc; Value::Bool(outcome.is_ok()), value]?),
        Kind::All | Kind::Any | Kind::Pass(_) => Ok(value),
    }
}

// The value of a fulfilment, or the reason of a rejection.
fn value_of(outcome: &Settled) -> &Value
    ensures { seen result.now ≡ settled_value (settled_seen outcome.now) }
{
    match outcome {
        Ok(value) => value,
        Err(reason) => reason,
    }
}

// A copy of how a promise is settled.
pub(crate) fn copy_settled(alloc: Global, outcome: &Settled) -> Result<Settled, MemoryFault>
    ensures { IfOk result (λ made. settled_seen made ≡ settled_seen outcome.now) }
{
    Ok(match outcome {
        Ok(value) => Ok(copy(alloc, value)?),
        Err(reason) => Err(copy(alloc, reason)?),
    })
}
