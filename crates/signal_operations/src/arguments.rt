//! What the arguments of these operations are, by their kinds.

ghost use Rattle.std.specs.Prelude.{◌≡◌, ◌≤◌, map, IfErr, IfSome};
ghost use Rattle.std.specs.Option.{option_map};
ghost use Rattle.page_parts.specs.Words as words;
ghost use Rattle.page_parts.specs.Words.{same_bytes};
ghost use Rattle.page_values.specs.Seen.{seen};
ghost use Rattle.page_events.specs.Seen.{seen_target};
ghost use Rattle.page_model.specs.Operations as model;
ghost use Rattle.trace_text.specs.declared.lines.NoLine.TheVariants.{OutOfMemory};
ghost use Rattle.signal_operations.specs.Arguments.{FindsNumbers};

use page_signals::{Priority, Target};
use page_values::{FaultName, Str, Value, as_int, as_list, as_signal, as_text, fault, is_unit};
use std::alloc::Global;
use trace_text::NoLine;

/// The priority that a text names, none for any other value. Takes no memory.
pub fn priority_in(value: &Value) -> Option<Priority>
    ensures { result ≡ model.priority_in (seen value.now) }
{
    let Some(text) = as_text(value) else {
        return None;
    };
    if is_word(text, b"background") {
        Some(Priority::Background)
    } else if is_word(text, b"user-visible") {
        Some(Priority::UserVisible)
    } else if is_word(text, b"user-blocking") {
        Some(Priority::UserBlocking)
    } else {
        None
    }
}

/// A priority, or unit for none; none for any other value. Takes no memory.
pub(crate) fn priority_or_unit(value: &Value) -> Option<Option<Priority>>
    ensures { result ≡ model.priority_or_unit (seen value.now) }
{
    if is_unit(value) {
        return Some(None);
    }
    match priority_in(value) {
        Some(priority) => Some(Some(priority)),
        None => None,
    }
}

/// Whole milliseconds from 0 to 1,000,000,000, none for any other value. Takes no memory.
pub(crate) fn delay_in(value: &Value) -> Option<u64>
    ensures delay { result ≡ model.delay_in (seen value.now) }
    ensures most { IfSome result (λ ms. ms ≤ 1000000000) }
{
    let Some(n) = as_int(value) else {
        return None;
    };
    if int_within(0, 1_000_000_000, n) {
        Some(not_below_zero(n))
    } else {
        None
    }
}

/// The number, or 0 for a negative one. Takes no memory.
pub(crate) fn not_below_zero(n: i64) -> u64
    ensures { result ≡ words.not_below_zero n }
{
    if n < 0 { 0 } else { n.unsigned_abs() }
}

/// Whether an integer is one from `low` to `high`. Takes no memory.
pub(crate) fn int_within(low: i64, high: i64, n: i64) -> bool
    ensures { result ≡ model.int_within low high n }
{
    low <= n && n <= high
}

/// The numbers of the signals in a list, none for any other value. The one error is want of memory.
pub(crate) fn signals_in(alloc: Global, value: &Value) -> Result<Option<Vec<u32>>, NoLine>
    ensures numbers { FindsNumbers result (model.signals_in (seen value.now)) }
    ensures memory { IfErr result (λ why. why ≡ OutOfMemory) }
{
    match as_list(value) {
        Some(items) => all_signals(alloc, items.items()),
        None => Ok(None),
    }
}

// The numbers of these values, none where one is no signal.
fn all_signals(alloc: Global, values: &[Value]) -> Result<Option<Vec<u32>>, NoLine>
    ensures numbers { FindsNumbers result (model.all_signals (map seen values.now)) }
    ensures memory { IfErr result (λ why. why ≡ OutOfMemory) }
{
    let mut numbers = Vec::new(alloc);
    for value in values {
        let Some(s) = as_signal(value) else {
            return Ok(None);
        };
        numbers.push(s)?;
    }
    Ok(Some(numbers))
}

/// A signal, or unit for none; none for any other value. Takes no memory.
pub(crate) fn signal_or_unit(value: &Value) -> Option<Option<u32>>
    ensures { result ≡ model.signal_or_unit (seen value.now) }
{
    match value {
        Value::Unit => Some(None),
        Value::Signal(s) => Some(Some(*s)),
        _ => None,
    }
}

/// The window for unit, or a signal; none for any other value. Takes no memory.
pub(crate) fn target_in(value: &Value) -> Option<Target>
    ensures { option_map seen_target result ≡ model.target_in (seen value.now) }
{
    match value {
        Value::Unit => Some(Target::Window),
        Value::Signal(s) => Some(Target::Signal(*s)),
        _ => None,
    }
}

/// The reason of an abort: a new AbortError where none is given. Takes no memory.
pub fn reason_given(alloc: Global, reason: Value) -> Value
    ensures { seen result ≡ model.reason_given (seen reason) }
{
    match reason {
        Value::Unit => fault(alloc, FaultName::AbortError),
        reason => reason,
    }
}

// Whether a text is this word.
fn is_word(text: &Str, word: &[u8]) -> bool
    ensures { result ≡ same_bytes text.now word.now }
{
    text.bytes() == word
}
