//! Words in a row.

ghost use Rattle.std.specs.Prelude.{◌≡◌, Some, IfOk};
ghost use Rattle.std.specs.List.{list_any, list_all};
ghost use Rattle.std.specs.Option.{option_map};
ghost use Rattle.page_parts.specs.Setup.{Rank};
ghost use Rattle.page_parts.specs.Sources.{default_list, same_source, source_number};
ghost use Rattle.page_parts.specs.TraceText.{source_text};
ghost use Rattle.loop_policy.specs.Policies.{policy_of, lists_each};
ghost use Rattle.page_base.specs.Fields.{where_true};
ghost use Rattle.arrivals_text.specs.Fields.{late_at, rank_at, fair_at, policy_at, source_among as among, sources_at};

use crate::fields::number_in;
use loop_policy::Policy;
use page_base::{Source, behind, cut_at, is_word};
use std::alloc::{AllocError, Global};

/// The latenesses of a `late` line.
pub(crate) fn read_late(alloc: Global, text: &[u8]) -> Result<Option<Vec<u64>>, AllocError>
    ensures { IfOk result (λ late. option_map (λ list. list.items) late ≡ late_at text.now) }
{
    let mut late = Vec::new(alloc);
    let mut rest = text;
    while let Some((word, after)) = cut_at(rest, b' ') {
        let Some(lateness) = number_in(word, 0, 1_000_000) else {
            return Ok(None);
        };
        late.push(lateness)?;
        rest = after;
    }
    let Some(lateness) = number_in(rest, 0, 1_000_000) else {
        return Ok(None);
    };
    late.push(lateness)?;
    Ok(Some(late))
}

/// The policy of a `policy` line.
#[tactic(auto, unfolding(crate::specs::Fields::policy_at))]
pub(crate) fn read_policy(alloc: Global, text: &[u8]) -> Result<Option<Policy>, AllocError>
    ensures { IfOk result (λ policy. option_map policy_of policy ≡ policy_at text.now) }
{
    if is_word(text, b"fifo") {
        return Ok(Some(Policy::Fifo));
    }
    if let Some(rest) = behind(text, b"fair ") {
        return Ok(read_fair(rest));
    }
    if let Some(rest) = behind(text, b"rank ") {
        return read_rank(alloc, rest);
    }
    Ok(None)
}

#[tactic(auto, unfolding(crate::specs::Fields::fair_at))]
fn read_fair(text: &[u8]) -> Option<Policy>
    ensures { option_map policy_of result ≡ fair_at text.now }
{
    match number_in(text, 1, 1000) {
        Some(most) => Some(Policy::Fair(most as u32)),
        None => None,
    }
}

#[tactic(auto, unfolding(crate::specs::Fields::rank_at))]
fn read_rank(alloc: Global, text: &[u8]) -> Result<Option<Policy>, AllocError>
    ensures { IfOk result (λ policy. option_map policy_of policy ≡ rank_at text.now) }
{
    let Some(sources) = read_sources(alloc, text)? else {
        return Ok(None);
    };
    Ok(rank(&sources))
}

// The sources of a list of words.
fn read_sources(alloc: Global, text: &[u8]) -> Result<Option<Vec<Source>>, AllocError>
    ensures { IfOk result (λ sources. option_map (λ list. list.items) sources ≡ sources_at text.now) }
{
    let mut sources = Vec::new(alloc);
    let mut rest = text;
    while let Some((word, after)) = cut_at(rest, b' ') {
        let Some(source) = source_among(word, &EACH_SOURCE) else {
            return Ok(None);
        };
        sources.push(source)?;
        rest = after;
    }
    let Some(source) = source_among(rest, &EACH_SOURCE) else {
        return Ok(None);
    };
    sources.push(source)?;
    Ok(Some(sources))
}

const EACH_SOURCE: [Source; 7] = [
    Source::User,
    Source::Render,
    Source::Sched,
    Source::Timer,
    Source::Net,
    Source::Dom,
    Source::Idle,
];

// A rank, where each source is listed once.
fn rank(sources: &[Source]) -> Option<Policy>
    ensures { option_map policy_of result ≡ where_true (lists_each sources.now) (Rank sources.now) }
{
    let [a, b, c, d, e, f, g] = sources else {
        return None;
    };
    if lists_all(sources) {
        Some(Policy::Rank([*a, *b, *c, *d, *e, *f, *g]))
    } else {
        None
    }
}

fn lists_all(sources: &[Source]) -> bool
    ensures { result ≡ list_all (λ source. list_any (same_source source) sources.now) default_list }
{
    lists(sources, Source::User)
        && lists(sources, Source::Render)
        && lists(sources, Source::Sched)
        && lists(sources, Source::Timer)
        && lists(sources, Source::Net)
        && lists(sources, Source::Dom)
        && lists(sources, Source::Idle)
}

fn lists(sources: &[Source], source: Source) -> bool
    ensures { result ≡ list_any (same_source source) sources.now }
{
    let mut rest = sources;
    while let Some((first, more)) = rest.split_first() {
        if number_of(source) == number_of(*first) {
            return true;
        }
        rest = more;
    }
    false
}

fn number_of(source: Source) -> u32
    ensures { result ≡ source_number source }
{
    match source {
        Source::User => 0,
        Source::Render => 1,
        Source::Sched => 2,
        Source::Timer => 3,
        Source::Net => 4,
        Source::Dom => 5,
        Source::Idle => 6,
    }
}

/// The source of this word among some.
#[tactic(auto, unfolding(crate::specs::Fields::source_among))]
pub(crate) fn source_among(word: &[u8], sources: &[Source]) -> Option<Source>
    ensures { result ≡ among sources.now word.now }
{
    let mut rest = sources;
    while let Some((source, more)) = rest.split_first() {
        if is_word(word, word_of(*source)) {
            return Some(*source);
        }
        rest = more;
    }
    None
}

fn word_of(source: Source) -> &'static [u8]
    ensures { result.now ≡ source_text (Some source) }
{
    match source {
        Source::User => b"user",
        Source::Render => b"render",
        Source::Sched => b"sched",
        Source::Timer => b"timer",
        Source::Net => b"net",
        Source::Dom => b"dom",
        Source::Idle => b"idle",
    }
}
