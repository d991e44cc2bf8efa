//! The choices that stand in the bytes of a trace.

ghost use Rattle.std.specs.Prelude.{◌≡◌, ◌+◌, ◌<◌, ◌^◌, ◌++◌, ℕ, IfOk, Err};
ghost use Rattle.page_parts.specs.TraceText.{head_text};
ghost use Rattle.trace_text.specs.EventSeen.{event_seen};
ghost use Rattle.trace_text.specs.Trace.{IsForm, IsBadLine, IsBadBehindHead, is_end as ends};
ghost use Rattle.trace_text.specs.declared.fault.BadLine.{BadLine as BadLineSeen};
ghost use Rattle.trace_text.specs.declared.fault.TraceFault.TheVariants as fault;
ghost use Rattle.trace_check.specs.Scanned.{AreChoicesIn};

use crate::collecting::TraceChoices;
use page_base::cut_at;
use std::alloc::Global;
use trace_text::{BadLine, Event, TraceFault, read_head, read_line};

/// The choices that stand in the trace that some bytes spell, found in one pass that keeps no event. `Is` comes exactly where the bytes
/// are no trace, with the first line that is refused in its place. Want of memory is the one other error. It takes the memory of the
/// choices, and of one value at a time.
pub fn text_choices(alloc: Global, bytes: &[u8]) -> Result<TraceChoices, TraceFault>
    ensures found { IfOk result (λ choices. (form : ℕ) × AreChoicesIn form bytes.now choices) }
    ensures bad { (line : BadLineSeen) → result ≡ Err (fault.Is line) → IsBadLine bytes.now line.line }
{
    let Some((form, text)) = read_head(bytes) else {
        return Err(TraceFault::Is(BadLine { line: 1 }));
    };
    choices_behind(alloc, form, text)
}

/// The choices that stand in the lines behind the head of a trace of this form.
pub(crate) fn choices_behind(
    alloc: Global,
    form: u32,
    text: &[u8],
) -> Result<TraceChoices, TraceFault>
    requires { IsForm form }
    ensures found { IfOk result (AreChoicesIn form (head_text form ++ text.now)) }
    ensures bad { (line : BadLineSeen) → result ≡ Err (fault.Is line) → IsBadBehindHead form text.now line.line }
{
    let mut choices = TraceChoices::new(alloc);
    let mut lines = 0;
    let mut last = 0;
    let mut ended = false;
    let mut rest = text;
    while let Some((line, after)) = cut_at(rest, b'\n') {
        let Some(next) = read_line(alloc, form, line)? else {
            return Err(bad_line(lines));
        };
        if ended || next.time.0 < last {
            return Err(bad_line(lines));
        }
        lines += 1;
        last = next.time.0;
        ended = is_end(&next.event);
        choices.take(next)?;
        rest = after;
    }
    if !ended || !rest.is_empty() {
        return Err(bad_line(lines));
    }
    Ok(choices)
}

/// The line behind the head and so many lines.
fn bad_line(good: usize) -> TraceFault
    requires { good + 2 < 2 ^ 64 }
    ensures { (line : BadLineSeen) → result ≡ fault.Is line → line.line ≡ good + 2 }
{
    TraceFault::Is(BadLine { line: good + 2 })
}

fn is_end(event: &Event) -> bool
    ensures { result ≡ ends (event_seen event.now) }
{
    match event {
        Event::End(_) => true,
        _ => false,
    }
}
