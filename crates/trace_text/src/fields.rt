//! The fields of a line of a trace.

ghost use Rattle.std.specs.Prelude.{◌≡◌, ◌≤◌, ◌^◌, IfSome, IfOk};
ghost use Rattle.std.specs.Option.{option_map};
ghost use Rattle.trace_text.specs.LineReading.{number_in as number_of, negative as negated, count_at, int_at, source_at, kind_at, priority_at, end_at, how_at, form_at, queue_at, queued_at, IsValueRead};
ghost use Rattle.trace_text.specs.EventSeen.{queue_seen, queued_seen};

use crate::spellings::is_spelling;
use crate::word_tables::{end_among, kind_among, priority_among, source_among};
use crate::{Printed, PrioName, QueueName, Queued, RegKind};
use page_base::{Cursor, End, Source, behind, is_word};
use std::alloc::{AllocError, Global};

// The number of at most this size whose canonical decimal the text is.
#[tactic(auto, unfolding(crate::specs::LineReading::number_in))]
fn number_in(text: &[u8], most: u64) -> Option<u64>
    ensures number { result ≡ number_of most text.now }
    ensures within { IfSome result (λ number. number ≤ most) }
{
    let mut cursor = Cursor::new(text);
    let number = cursor.read_u64(most)?;
    if cursor.rest().is_empty() {
        Some(number)
    } else {
        None
    }
}

/// A number, in its canonical decimal.
#[tactic(auto, unfolding(crate::specs::LineReading::count_at))]
pub(crate) fn read_count(text: &[u8]) -> Option<u64>
    ensures { result ≡ count_at text.now }
{
    number_in(text, u64::MAX)
}

/// An integer. `-` stands only before a number that is not 0.
#[tactic(auto, unfolding(crate::specs::LineReading::int_at))]
pub(crate) fn read_int(text: &[u8]) -> Option<i64>
    ensures { result ≡ int_at text.now }
{
    if let Some(digits) = behind(text, b"-") {
        let size = number_in(digits, 1 << 63)?;
        return negative(size);
    }
    let size = number_in(text, i64::MAX as u64)?;
    Some(size as i64)
}

// The least number has no positive one beside it.
fn negative(size: u64) -> Option<i64>
    requires { size ≤ 2 ^ 63 }
    ensures { result ≡ negated size }
{
    if size == 0 {
        None
    } else {
        Some(-1 - ((size - 1) as i64))
    }
}

/// The source of a turn's task, or `none`.
#[tactic(auto, unfolding(crate::specs::LineReading::source_at))]
pub(crate) fn read_source(word: &[u8]) -> Option<Option<Source>>
    ensures { result ≡ source_at word.now }
{
    source_among(
        word,
        &[
            None,
            Some(Source::User),
            Some(Source::Net),
            Some(Source::Dom),
            Some(Source::Timer),
            Some(Source::Render),
            Some(Source::Sched),
            Some(Source::Idle),
        ],
    )
}

/// What a registration is for.
#[tactic(auto, unfolding(crate::specs::LineReading::kind_at))]
pub(crate) fn read_kind(word: &[u8]) -> Option<RegKind>
    ensures { result ≡ kind_at word.now }
{
    kind_among(
        word,
        &[
            RegKind::Timeout,
            RegKind::Interval,
            RegKind::Frame,
            RegKind::Idle,
            RegKind::Post,
            RegKind::Yield,
            RegKind::Host,
            RegKind::Listener,
            RegKind::Then,
            RegKind::Micro,
            RegKind::Signal,
        ],
    )
}

/// A priority.
#[tactic(auto, unfolding(crate::specs::LineReading::priority_at))]
pub(crate) fn read_priority(word: &[u8]) -> Option<PrioName>
    ensures { result ≡ priority_at word.now }
{
    priority_among(
        word,
        &[
            PrioName::Background,
            PrioName::UserVisible,
            PrioName::UserBlocking,
        ],
    )
}

/// Why a run ended.
#[tactic(auto, unfolding(crate::specs::LineReading::end_at))]
pub(crate) fn read_end(word: &[u8]) -> Option<End>
    ensures { result ≡ end_at word.now }
{
    end_among(word, &[End::Done, End::Fuel, End::Clock])
}

/// `ok`, or `err`.
#[tactic(auto, unfolding(crate::specs::LineReading::how_at))]
pub(crate) fn read_how(word: &[u8]) -> Option<bool>
    ensures { result ≡ how_at word.now }
{
    if is_word(word, b"ok") {
        return Some(true);
    }
    if is_word(word, b"err") {
        return Some(false);
    }
    None
}

/// `cont` for a continuation, or `task`.
#[tactic(auto, unfolding(crate::specs::LineReading::form_at))]
pub(crate) fn read_form(word: &[u8]) -> Option<bool>
    ensures { result ≡ form_at word.now }
{
    if is_word(word, b"cont") {
        return Some(true);
    }
    if is_word(word, b"task") {
        return Some(false);
    }
    None
}

/// The queue of a scheduler task: a priority, or `s` and the number of a signal.
#[tactic(auto, unfolding(crate::specs::LineReading::queue_at))]
pub(crate) fn read_queue(word: &[u8]) -> Option<QueueName>
    ensures { option_map queue_seen result ≡ queue_at word.now }
{
    if let Some(digits) = behind(word, b"s") {
        return Some(QueueName::Signal(read_count(digits)?));
    }
    Some(QueueName::Fixed(read_priority(word)?))
}

/// What a queued job does.
#[tactic(auto, unfolding(crate::specs::LineReading::queued_at))]
pub(crate) fn read_queued(text: &[u8]) -> Option<Queued>
    ensures { option_map queued_seen result ≡ queued_at text.now }
{
    if let Some(digits) = behind(text, b"micro ") {
        return Some(Queued::Micro(read_count(digits)?));
    }
    if let Some(digits) = behind(text, b"react ") {
        return Some(Queued::React(read_count(digits)?));
    }
    if let Some(digits) = behind(text, b"adopt ") {
        return Some(Queued::Adopt(read_count(digits)?));
    }
    None
}

/// A value, where the bytes are the spelling of one.
pub(crate) fn read_value(alloc: Global, bytes: &[u8]) -> Result<Option<Printed>, AllocError>
    ensures { IfOk result (λ value. IsValueRead bytes.now value) }
{
    if !is_spelling(bytes) {
        return Ok(None);
    }
    Ok(Some(Printed::new(bytes.to_vec(alloc)?)))
}
