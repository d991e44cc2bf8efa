//! A whole trace.

ghost use Rattle.std.specs.Prelude.{◌≡◌, ◌+◌, ◌^◌, ◌<◌, ◌++◌, length, map, option_map, IfOk, Err};
ghost use Rattle.page_parts.specs.TraceText.{head_text};
ghost use Rattle.trace_text.specs.EventSeen.{event_seen, stamped_seen};
ghost use Rattle.trace_text.specs.Trace.{IsForm, IsTrace, IsBadLine, IsBadBehindHead, is_end as ends};
ghost use Rattle.trace_text.specs.LineReading.{IsHeadRead};
ghost use Rattle.trace_text.specs.declared.fault.BadLine.{BadLine as BadLineSeen};
ghost use Rattle.trace_text.specs.declared.fault.TraceFault.TheVariants as fault;

use crate::line_reading::read_line;
use crate::{BadLine, Event, Events, Stamped, TraceFault};
use page_base::{behind, cut_at};
use std::alloc::Global;

/// The events of a trace.
///
/// The first line is `trace 1` in form 1, and `trace 2` in form 2. In form 2 a `reg` line has one more field, the
/// registration by which it was made. Every other is a time, one space, the word of an event and its fields, one space before
/// each, and ends with a line feed, the last one too. Numbers are canonical decimals below 2^64, and values are spelled as
/// they are printed, nested at most 64 deep, of whatever weight. Times never fall, and the last line, and no other, is an
/// `end` line.
///
/// `Is` comes exactly where the bytes are no trace. It has the first line that is not spelled so in its place, counted from
/// 1; where the `end` line is missing, that is the line after the last. Whether the lines are those of a run is not asked.
/// `OutOfMemory` comes where memory ran out.
pub fn read_trace(alloc: Global, bytes: &[u8]) -> Result<Events, TraceFault>
    ensures trace { IfOk result (λ trace. IsTrace trace.form bytes.now (map stamped_seen trace.events)) }
    ensures bad { (line : BadLineSeen) → result ≡ Err (fault.Is line) → IsBadLine bytes.now line.line }
{
    let Some((form, text)) = read_head(bytes) else {
        return Err(TraceFault::Is(BadLine { line: 1 }));
    };
    match read_lines(alloc, form, text) {
        Ok(items) => Ok(Events::new(form, items)),
        Err(fault) => Err(fault),
    }
}

/// The form of the head with which a trace begins, and what stands behind it. None where the bytes begin with no head. Takes
/// no memory.
#[tactic(auto, using(crate::proofs::TracesRead::first_head_read, crate::proofs::TracesRead::second_head_read, crate::proofs::TracesRead::no_head_read))]
pub fn read_head(bytes: &[u8]) -> Option<(u32, &[u8])>
    ensures { IsHeadRead bytes.now (option_map (λ head. (head.0, head.1.now)) result) }
{
    if let Some(text) = behind(bytes, b"trace 1\n") {
        return Some((1, text));
    }
    if let Some(text) = behind(bytes, b"trace 2\n") {
        return Some((2, text));
    }
    None
}

// The events of the lines behind the head.
fn read_lines(alloc: Global, form: u32, text: &[u8]) -> Result<Vec<Stamped>, TraceFault>
    requires { IsForm form }
    ensures trace { IfOk result (λ items. IsTrace form (head_text form ++ text.now) (map stamped_seen items.items)) }
    ensures bad { (line : BadLineSeen) → result ≡ Err (fault.Is line) → IsBadBehindHead form text.now line.line }
{
    let mut items = Vec::new(alloc);
    let mut last = 0;
    let mut ended = false;
    let mut rest = text;
    while let Some((line, after)) = cut_at(rest, b'\n') {
        let Some(next) = read_line(alloc, form, line)? else {
            return Err(bad_line(&items));
        };
        if ended || next.time.0 < last {
            return Err(bad_line(&items));
        }
        last = next.time.0;
        ended = is_end(&next.event);
        items.push(next)?;
        rest = after;
    }
    if !ended || !rest.is_empty() {
        return Err(bad_line(&items));
    }
    Ok(items)
}

// The line behind the head and the lines of these events.
fn bad_line(good: &[Stamped]) -> TraceFault
    requires { length good.now + 2 < 2 ^ 64 }
    ensures { (line : BadLineSeen) → result ≡ fault.Is line → line.line ≡ length (map stamped_seen good.now) + 2 }
{
    TraceFault::Is(BadLine {
        line: good.len() + 2,
    })
}

fn is_end(event: &Event) -> bool
    ensures { result ≡ ends (event_seen event.now) }
{
    match event {
        Event::End(_) => true,
        _ => false,
    }
}
