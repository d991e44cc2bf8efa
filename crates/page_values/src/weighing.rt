//! How heavy values are, how deep they nest, and whether they are plain. What is known of the items of a list stands
//! beside them, so that each question costs one step.

ghost use Rattle.std.specs.Prelude.{◌≡◌, ◌≤◌, ◌↔◌, IsSome, IfSome};
ghost use Rattle.page_types.specs.Values.{no_values};
ghost use Rattle.page_parts.specs.Kinds.{weight, all_weights, nesting, greatest_nesting};
ghost use Rattle.page_values.specs.Limits.{AreLight};
ghost use Rattle.page_values.specs.Measured.{AreMeasured, Joins};
ghost use Rattle.page_values.specs.Plain.{is_plain};
ghost use Rattle.page_values.specs.Seen.{seen, seen_all};

use crate::limits::{NESTING_LIMIT, WEIGHT_LIMIT};
use crate::{Items, Value};

/// What is kept of the items of a list: what they weigh together, how deep lists and bound lists nest in them, and
/// whether each is plain.
#[derive(Clone, Copy)]
pub(crate) struct Measure {
    pub(crate) weight: u16,
    pub(crate) nesting: u8,
    pub(crate) plain: bool,
}

impl Measure {
    /// That of no values.
    pub(crate) fn of_none() -> Measure
        ensures { AreMeasured no_values result }
    {
        Measure {
            weight: 0,
            nesting: 0,
            plain: true,
        }
    }

    /// That of these values and one more, and `None` where a list of them would be too heavy.
    pub(crate) fn with(self, item: &Value) -> Option<Measure>
        ensures { Joins result self (weight (seen item.now)) (nesting (seen item.now)) (is_plain (seen item.now)) }
    {
        self.and(weight(item), nesting(item), is_plain(item))
    }

    /// That of all values together.
    pub(crate) fn and_all(self, more: Measure) -> Option<Measure>
        ensures { Joins result self more.weight more.nesting more.plain }
    {
        self.and(more.weight as u64, more.nesting as u64, more.plain)
    }

    fn and(self, weight: u64, nesting: u64, plain: bool) -> Option<Measure>
        ensures { Joins result self weight nesting plain }
    {
        let room = WEIGHT_LIMIT - 1 - self.weight as u64;
        if room < weight || nesting >= NESTING_LIMIT {
            return None;
        }
        Some(Measure {
            weight: self.weight + weight as u16,
            nesting: self.nesting.max(nesting as u8),
            plain: self.plain && plain,
        })
    }
}

/// What is kept of these items, and `None` where a list of them would be too heavy. It costs a step for each item.
pub(crate) fn measure_of(items: &[Value]) -> Option<Measure>
    ensures light { IsSome result ↔ AreLight (seen_all items.now) }
    ensures measured { IfSome result (AreMeasured (seen_all items.now)) }
{
    let mut measure = Measure::of_none();
    for item in items {
        measure = measure.with(item)?;
    }
    Some(measure)
}

/// The weight of a value: 1, the bytes of its text, and the weights of its items or bound arguments. It costs one step.
pub fn weight(value: &Value) -> u64
    ensures { result ≡ weight (seen value.now) }
{
    match value {
        Value::Text(text) | Value::Fault(_, text) => 1 + text.bytes.len() as u64,
        Value::List(items) => 1 + weight_of_all(items),
        Value::Fun(function) => 1 + weight_of_all(&function.bound),
        Value::Unit
        | Value::Bool(_)
        | Value::Int(_)
        | Value::Promise(_)
        | Value::Signal(_)
        | Value::Controller(_)
        | Value::Deadline(_) => 1,
    }
}

/// The weights of all items together.
fn weight_of_all(items: &Items) -> u64
    ensures sum { result ≡ all_weights items.now }
    ensures light { result ≤ 65535 }
{
    items.measure.weight as u64
}

/// How deep lists and bound lists nest in a value. It costs one step.
pub fn nesting(value: &Value) -> u64
    ensures { result ≡ nesting (seen value.now) }
{
    match value {
        Value::List(items) => 1 + greatest_nesting(items),
        Value::Fun(function) => 1 + greatest_nesting(&function.bound),
        Value::Unit
        | Value::Bool(_)
        | Value::Int(_)
        | Value::Text(_)
        | Value::Promise(_)
        | Value::Signal(_)
        | Value::Controller(_)
        | Value::Deadline(_)
        | Value::Fault(_, _) => 0,
    }
}

/// How deep lists nest in the items.
fn greatest_nesting(items: &Items) -> u64
    ensures greatest { result ≡ greatest_nesting items.now }
    ensures light { result ≤ 63 }
{
    items.measure.nesting as u64
}

/// Whether a value is neither a function, a promise, a signal nor a controller, and holds none at any depth.
fn is_plain(value: &Value) -> bool
    ensures { result ≡ is_plain (seen value.now) }
{
    match value {
        Value::List(items) => items.is_plain(),
        Value::Fun(_) | Value::Promise(_) | Value::Signal(_) | Value::Controller(_) => false,
        Value::Unit
        | Value::Bool(_)
        | Value::Int(_)
        | Value::Text(_)
        | Value::Deadline(_)
        | Value::Fault(_, _) => true,
    }
}
