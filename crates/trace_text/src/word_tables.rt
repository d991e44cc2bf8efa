//! Which of some words a text is.

ghost use Rattle.std.specs.Prelude.{◌≡◌, find};
ghost use Rattle.page_parts.specs.Spelling.{priority_text};
ghost use Rattle.page_parts.specs.TraceText.{source_text, end_text, kind_text};
ghost use Rattle.page_base.specs.Fields.{is_word as same_word};

use crate::words::{end_word, kind_word, priority_word, source_word};
use crate::{PrioName, RegKind};
use page_base::{End, Source, is_word};

/// The source of this word among some.
pub(crate) fn source_among(word: &[u8], sources: &[Option<Source>]) -> Option<Option<Source>>
    ensures { result ≡ find (λ source. same_word (source_text source) word.now) sources.now }
{
    let mut rest = sources;
    while let Some((source, more)) = rest.split_first() {
        if is_word(word, source_word(*source)) {
            return Some(*source);
        }
        rest = more;
    }
    None
}

/// The kind of this word among some.
pub(crate) fn kind_among(word: &[u8], kinds: &[RegKind]) -> Option<RegKind>
    ensures { result ≡ find (λ kind. same_word (kind_text kind) word.now) kinds.now }
{
    let mut rest = kinds;
    while let Some((kind, more)) = rest.split_first() {
        if is_word(word, kind_word(*kind)) {
            return Some(*kind);
        }
        rest = more;
    }
    None
}

/// The priority of this word among some.
pub(crate) fn priority_among(word: &[u8], priorities: &[PrioName]) -> Option<PrioName>
    ensures { result ≡ find (λ priority. same_word (priority_text priority) word.now) priorities.now }
{
    let mut rest = priorities;
    while let Some((priority, more)) = rest.split_first() {
        if is_word(word, priority_word(*priority)) {
            return Some(*priority);
        }
        rest = more;
    }
    None
}

/// The end of this word among some.
pub(crate) fn end_among(word: &[u8], ends: &[End]) -> Option<End>
    ensures { result ≡ find (λ end. same_word (end_text end) word.now) ends.now }
{
    let mut rest = ends;
    while let Some((end, more)) = rest.split_first() {
        if is_word(word, end_word(*end)) {
            return Some(*end);
        }
        rest = more;
    }
    None
}
