//! The calls of a trace.

ghost use Rattle.std.specs.Prelude.{◌≡◌, map, IfOk, OnOk, All, ◌==◌};
ghost use Rattle.std.specs.BTreeMap.{get};
ghost use Rattle.std.specs.Ordering.{nat_cmp};
ghost use Rattle.trace_text.specs.EventSeen.{event_seen, stamped_seen};
ghost use Rattle.trace_export.specs.Calls.{called as called_by, NotesKind, call_word_of, name_of};
ghost use Rattle.trace_export.specs.Export.{IsSpan, spans_of};
ghost use Rattle.trace_export.specs.Seen.{span_seen};

use crate::CallSpan;
use crate::ends::call_ends;
use page_values::{Str, print_number};
use std::alloc::{AllocError, Global};
use std::collections::BTreeMap;
use trace_text::{Event, Events, RegKind, kind_word};

/// The calls of a trace, in the order of their `call` lines.
///
/// A `ret` or `throw` line ends the innermost open call; a call that is still open at the `end` line ends at that line's time. The name is
/// `script 1` for registration 1. For another one it is the kind of its last `reg` line before the call, or `unknown` where there
/// is none, and the number. It takes time in proportion to the trace, up to a logarithm of the number of registrations.
pub fn calls(alloc: Global, trace: &Events) -> Result<Vec<CallSpan>, AllocError>
    ensures calls { IfOk result (λ calls. map span_seen calls.items ≡ spans_of (map stamped_seen trace.now.events)) }
    ensures spans { IfOk result (λ calls. All IsSpan (map span_seen calls.items)) }
{
    let mut ends = call_ends(alloc, trace.items())?;
    let mut kinds = BTreeMap::new(alloc);
    let mut calls = Vec::new(alloc);
    let mut rest = trace.items();
    while let Some((e, after)) = rest.split_first() {
        if let Some(registration) = called(&e.event) {
            let Some(end) = ends.pop_front() else {
                unreachable!();
            };
            calls.push(CallSpan {
                name: call_name(alloc, registration, kinds.get(&registration).copied())?,
                begin: e.time,
                end,
            })?;
        }
        note_kind(&mut kinds, &e.event)?;
        rest = after;
    }
    Ok(calls)
}

/// The registration that is called. Takes no memory.
pub fn called(event: &Event) -> Option<u64>
    ensures { result ≡ called_by (event_seen event.now) }
{
    match event {
        Event::Call { r } => Some(*r),
        _ => None,
    }
}

// Notes what a registration is for, where the event tells it.
fn note_kind(kinds: &mut BTreeMap<u64, RegKind>, event: &Event) -> Result<(), AllocError>
    ensures { OnOk result (NotesKind (event_seen event.now) (get nat_cmp kinds.old) (get nat_cmp kinds.new)) }
{
    match event {
        Event::Reg { r, kind, .. } => {
            kinds.insert(*r, *kind)?;
        }
        _ => {}
    }
    Ok(())
}

// The name of a registration's calls.
fn call_name(alloc: Global, registration: u64, kind: Option<RegKind>) -> Result<Str, AllocError>
    ensures { IfOk result (λ name. name ≡ name_of registration kind) }
{
    let mut name = Vec::new(alloc);
    name.extend_from_slice(call_word(registration, kind))?;
    name.push(b' ')?;
    print_number(registration, &mut name)?;
    Ok(Str::new(name))
}

fn call_word(registration: u64, kind: Option<RegKind>) -> &'static [u8]
    ensures { result.now ≡ call_word_of registration kind }
{
    match kind {
        _ if registration == 1 => b"script",
        None => b"unknown",
        Some(kind) => kind_word(kind),
    }
}
