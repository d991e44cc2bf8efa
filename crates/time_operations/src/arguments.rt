//! Numbers as arguments and as answers.

ghost use Rattle.std.specs.Prelude.{◌≡◌, IfSome, pos};
ghost use Rattle.page_types.specs.Values.{IntValue};
ghost use Rattle.page_parts.specs.Words as model;
ghost use Rattle.page_model.specs.Operations.{int_within};
ghost use Rattle.page_values.specs.Seen.{seen};

use page_values::Value;

/// The longest delay, in milliseconds, and the longest span of `busy`, in microseconds.
pub(crate) const LONGEST: i64 = 1_000_000_000;

/// The number, or 0 for a negative one.
pub(crate) fn not_below_zero(n: i64) -> u64
    ensures { result ≡ model.not_below_zero n }
{
    if n < 0 { 0 } else { n.unsigned_abs() }
}

/// Whether a number is from `low` to `high`.
pub(crate) fn is_within(low: i64, high: i64, n: i64) -> bool
    ensures { result ≡ int_within low high n }
{
    low <= n && n <= high
}

/// A number as a value.
pub(crate) fn number(n: u32) -> Value
    ensures { seen result ≡ IntValue (pos n) }
{
    Value::Int(i64::from(n))
}

/// A number as a value, where it is below 2^63.
pub(crate) fn long_number(n: u64) -> Option<Value>
    ensures { IfSome result (λ value. seen value ≡ IntValue (pos n)) }
{
    match i64::try_from(n) {
        Ok(n) => Some(Value::Int(n)),
        Err(_) => None,
    }
}
