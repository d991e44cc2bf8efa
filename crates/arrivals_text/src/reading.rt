//! The arrivals file.

ghost use Rattle.std.specs.Prelude.{◌≡◌, ◌<◌, ◌∷◌, [], length, Some, None, Ok, Err, IfOk, OnOk, MatchOption};
ghost use Rattle.std.specs.Option.{option_map};
ghost use Rattle.page_parts.specs.Setup.{IsSetup};
ghost use Rattle.arrivals_text.specs.Fields.{arrival_at, latency_at};
ghost use Rattle.arrivals_text.specs.Arrivals.{HostLine, line_at, amount_at, detail_at, outside_at, lines_of, says_something as says, place_of as placed, SetsUp, IsBadLine, default_settings, settings_after, BeginsWith};
ghost use Rattle.arrivals_text.specs.Reading.{step, goes, settled, draft_of, Gives, IsWithin, is_start as starts, TakesLine};
ghost use Rattle.arrivals_text.specs.SeenParts.{arrival_of};
ghost use Rattle.arrivals_text.specs.Seen.{settings_of, line_of};
ghost use Rattle.arrivals_text.specs.declared.place.Place.TheVariants as place;
ghost use Rattle.arrivals_text.specs.declared.fault.BadLine.{BadLine as BadLineSeen};
ghost use Rattle.arrivals_text.specs.declared.fault.PageFault.TheVariants as fault;

use crate::draft::Draft;
use crate::fields::{is_name, number_in};
use crate::line::Line;
use crate::lists::{read_late, read_policy, source_among};
use crate::order::may_follow;
use crate::place::Place;
use crate::values::read_value;
use crate::{Arrival, BadLine, PageFault, PageSetup};
use loop_policy::Policy;
use page_base::{Micros, Source, behind, cut_at, is_word};
use page_values::Str;
use std::alloc::{AllocError, Global};

/// The setup of an arrivals file.
///
/// `BadLine` comes exactly where the file sets up no run. It has the first line that is refused in its place, counted
/// from 1: with the lines up to it no file that sets up a run can begin. Where the first line is missing at the end of
/// the file, it is the line after the last.
pub fn read_page(alloc: Global, bytes: &[u8]) -> Result<PageSetup, PageFault>
    ensures setup { IfOk result (λ setup. SetsUp bytes.now (settings_of setup)) }
    ensures valid { IfOk result (λ setup. IsSetup (settings_of setup).setup) }
    ensures bad { (line : BadLineSeen) → result ≡ Err (fault.Is line) → IsBadLine (lines_of bytes.now) line.line }
{
    match read_lines(alloc, bytes) {
        Ok(draft) => Ok(finish(draft)),
        Err(fault) => Err(fault),
    }
}

fn finish(draft: Draft) -> PageSetup
    requires { IsWithin (draft_of draft) }
    ensures { settings_of result ≡ draft_of draft }
{
    PageSetup {
        form: draft.form,
        trace: draft.trace,
        policy: draft.policy,
        fuel: draft.fuel,
        until: Micros(draft.until),
        refresh: draft.refresh,
        late: draft.late,
        room: draft.room,
        hosts: draft.hosts,
        arrivals: draft.arrivals,
    }
}

// All lines, one after another.
fn read_lines(alloc: Global, bytes: &[u8]) -> Result<Draft, PageFault>
    ensures { Gives result (settled 0 default_settings (goes place.Start (lines_of bytes.now))) }
{
    let mut draft = new_draft(alloc);
    let mut last = Place::Start;
    let mut number = 0;
    let mut rest = bytes;
    while let Some((line, after)) = first_line(rest) {
        number += 1;
        let Some(next) = take_line(alloc, &mut draft, last, line)? else {
            return Err(PageFault::Is(BadLine { line: number }));
        };
        last = next;
        rest = after;
    }
    if is_start(last) {
        return Err(PageFault::Is(BadLine { line: number + 1 }));
    }
    Ok(draft)
}

fn is_start(place: Place) -> bool
    ensures { result ≡ starts place }
{
    match place {
        Place::Start => true,
        _ => false,
    }
}

fn new_draft(alloc: Global) -> Draft
    ensures { draft_of result ≡ default_settings }
{
    Draft {
        form: 1,
        trace: 1,
        policy: Policy::Rank([
            Source::User,
            Source::Render,
            Source::Sched,
            Source::Timer,
            Source::Net,
            Source::Dom,
            Source::Idle,
        ]),
        fuel: 1_000_000,
        until: 10_000_000,
        refresh: 60,
        late: Vec::new(alloc),
        room: 0,
        hosts: Vec::new(alloc),
        arrivals: Vec::new(alloc),
    }
}

// The first line, without its line feed, and what follows it.
fn first_line(bytes: &[u8]) -> Option<(&[u8], &[u8])>
    ensures lines { MatchOption result (lines_of bytes.now ≡ []) (λ line. BeginsWith bytes.now line.0.now line.1.now) }
    ensures none { MatchOption result (bytes.now ≡ []) (λ line. length line.1.now < length bytes.now) }
{
    if bytes.is_empty() {
        return None;
    }
    match cut_at(bytes, b'\n') {
        Some((line, after)) => Some((line, after)),
        None => Some((bytes, &[])),
    }
}

fn says_something(text: &[u8]) -> bool
    ensures { result ≡ says text.now }
{
    match text.split_first() {
        Some((first, _)) => *first != b'#',
        None => false,
    }
}

// Takes a line, and answers the place of the last one then. None where it is refused.
#[tactic(auto, unfolding(crate::specs::Reading::step))]
fn take_line(
    alloc: Global,
    draft: &mut Draft,
    last: Place,
    text: &[u8],
) -> Result<Option<Place>, AllocError>
    ensures { IfOk result (λ next. TakesLine last text.now draft.old next draft.new) }
{
    if !says_something(text) {
        return Ok(Some(last));
    }
    let Some(line) = read_line(alloc, text)? else {
        return Ok(None);
    };
    let next = place_of(&line);
    if !may_follow(last, next) {
        return Ok(None);
    }
    set(draft, line)?;
    Ok(Some(next))
}

fn place_of(line: &Line) -> Place
    ensures { result ≡ placed (line_of line.now) }
{
    match line {
        Line::Page(_) => Place::Page,
        Line::Trace => Place::Trace,
        Line::Policy(_) => Place::Policy,
        Line::Fuel(_) => Place::Fuel,
        Line::Until(_) => Place::Until,
        Line::Refresh(_) => Place::Refresh,
        Line::Late(_) => Place::Late,
        Line::Room(_) => Place::Room,
        Line::Host(closure, _) => Place::Host(*closure),
        Line::At(arrival) => Place::At(arrival.at.0),
    }
}

fn set(draft: &mut Draft, line: Line) -> Result<(), AllocError>
    ensures { OnOk result (draft_of draft.new ≡ settings_after (draft_of draft.old) (line_of line ∷ [])) }
{
    match line {
        Line::Page(form) => draft.form = form,
        Line::Trace => draft.trace = 2,
        Line::Policy(policy) => draft.policy = policy,
        Line::Fuel(fuel) => draft.fuel = fuel,
        Line::Until(until) => draft.until = until,
        Line::Refresh(refresh) => draft.refresh = refresh,
        Line::Late(late) => draft.late = late,
        Line::Room(room) => draft.room = room,
        Line::Host(closure, latency) => draft.hosts.push((closure, latency))?,
        Line::At(arrival) => draft.arrivals.push(arrival)?,
    }
    Ok(())
}

// The line that these bytes spell.
#[tactic(auto, unfolding(crate::specs::Arrivals::line_at))]
fn read_line(alloc: Global, text: &[u8]) -> Result<Option<Line>, AllocError>
    ensures { IfOk result (λ line. option_map line_of line ≡ line_at text.now) }
{
    if let Some(rest) = behind(text, b"page ") {
        return Ok(number_in(rest, 1, 2).map(|form| Line::Page(form as u32)));
    }
    if is_word(text, b"trace 2") {
        return Ok(Some(Line::Trace));
    }
    if let Some(rest) = behind(text, b"policy ") {
        return match read_policy(alloc, rest)? {
            Some(policy) => Ok(Some(Line::Policy(policy))),
            None => Ok(None),
        };
    }
    read_amount(alloc, text)
}

// The line that these bytes spell, of those on how long a run goes on and those below.
fn read_amount(alloc: Global, text: &[u8]) -> Result<Option<Line>, AllocError>
    ensures { IfOk result (λ line. option_map line_of line ≡ amount_at text.now) }
{
    if let Some(rest) = behind(text, b"fuel ") {
        return Ok(number_in(rest, 1, 10_000_000).map(Line::Fuel));
    }
    if let Some(rest) = behind(text, b"until ") {
        return Ok(number_in(rest, 1, 1_000_000_000_000).map(Line::Until));
    }
    read_detail(alloc, text)
}

// The line that these bytes spell, of those on how exact a run is and those below.
fn read_detail(alloc: Global, text: &[u8]) -> Result<Option<Line>, AllocError>
    ensures { IfOk result (λ line. option_map line_of line ≡ detail_at text.now) }
{
    if let Some(rest) = behind(text, b"refresh ") {
        return Ok(number_in(rest, 1, 240).map(|rate| Line::Refresh(rate as u32)));
    }
    if let Some(rest) = behind(text, b"late ") {
        return match read_late(alloc, rest)? {
            Some(late) => Ok(Some(Line::Late(late))),
            None => Ok(None),
        };
    }
    if let Some(rest) = behind(text, b"room ") {
        return Ok(number_in(rest, 0, 1_000_000).map(|room| Line::Room(room as usize)));
    }
    read_outside(alloc, text)
}

// The line that these bytes spell, of those on what comes from outside the page.
fn read_outside(alloc: Global, text: &[u8]) -> Result<Option<Line>, AllocError>
    ensures { IfOk result (λ line. option_map line_of line ≡ outside_at text.now) }
{
    if let Some(rest) = behind(text, b"host ") {
        return Ok(read_latency(rest));
    }
    if let Some(rest) = behind(text, b"at ") {
        return match read_arrival(alloc, rest)? {
            Some(arrival) => Ok(Some(Line::At(arrival))),
            None => Ok(None),
        };
    }
    Ok(None)
}

#[tactic(auto, unfolding(crate::specs::Fields::latency_at))]
fn read_latency(text: &[u8]) -> Option<Line>
    ensures { option_map line_of result ≡ option_map HostLine (latency_at text.now) }
{
    let (word, rest) = cut_at(text, b' ')?;
    let closure = number_in(word, 0, 4095)?;
    let latency = number_in(rest, 0, 1_000_000_000)?;
    Some(Line::Host(closure as u32, latency))
}

#[tactic(auto, unfolding(crate::specs::Fields::arrival_at))]
fn read_arrival(alloc: Global, text: &[u8]) -> Result<Option<Arrival>, AllocError>
    ensures { IfOk result (λ arrival. option_map arrival_of arrival ≡ arrival_at text.now) }
{
    let Some((word, rest)) = cut_at(text, b' ') else {
        return Ok(None);
    };
    let Some(at) = number_in(word, 0, 1_000_000_000_000) else {
        return Ok(None);
    };
    let Some((word, rest)) = cut_at(rest, b' ') else {
        return Ok(None);
    };
    let Some(source) = source_among(word, &[Source::User, Source::Net, Source::Dom]) else {
        return Ok(None);
    };
    let Some((name, rest)) = cut_at(rest, b' ') else {
        return Ok(None);
    };
    if !is_name(name) {
        return Ok(None);
    }
    let Some(value) = read_value(alloc, rest)? else {
        return Ok(None);
    };
    Ok(Some(Arrival {
        at: Micros(at),
        source,
        name: Str::new(name.to_vec(alloc)?),
        value,
    }))
}
