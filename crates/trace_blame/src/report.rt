//! The text about long turns.

ghost use Rattle.std.specs.Prelude.{◌≡◌, ◌++◌, map, IfOk};
ghost use Rattle.page_parts.specs.TraceText.{field, number_field};
ghost use Rattle.trace_text.specs.EventSeen.{stamped_seen};
ghost use Rattle.trace_blame.specs.Blame.{turn_text, turns_text, total_text, blame_text};
ghost use Rattle.trace_blame.specs.Seen.{turn_seen};

use crate::{LongTurn, long_turns};
use page_values::print_number;
use std::alloc::{AllocError, Global};
use trace_text::{Events, source_word};

/// What made turns long: for each long turn of a trace, as [`long_turns`] gives them, the line `long N SOURCE START LENGTH R` with
/// its number, its task's source, when it begins and how long it is, in microseconds, and the registration of the longest of its
/// outermost calls, the first among equals, 0 where there is none. Then the line `total K` with their number. It takes time in
/// proportion to the trace.
pub fn blame(alloc: Global, trace: &Events) -> Result<Vec<u8>, AllocError>
    ensures { IfOk result (λ text. text.items ≡ blame_text (map stamped_seen trace.now.events)) }
{
    let turns = long_turns(alloc, trace)?;
    let mut text = Vec::new(alloc);
    write_turns(&turns, &mut text)?;
    write_total(turns.len() as u64, &mut text)?;
    Ok(text)
}

// On an error of what follows, some of the text may have been appended.

fn write_turns(turns: &[LongTurn], into: &mut Vec<u8>) -> Result<(), AllocError>
    ensures { IfOk result (λ _. into.new.items ≡ into.old.items ++ turns_text (map turn_seen turns.now)) }
{
    let mut rest = turns;
    while let Some((turn, after)) = rest.split_first() {
        write_turn(turn, into)?;
        rest = after;
    }
    Ok(())
}

fn write_turn(turn: &LongTurn, into: &mut Vec<u8>) -> Result<(), AllocError>
    ensures { IfOk result (λ _. into.new.items ≡ into.old.items ++ turn_text (turn_seen turn.now)) }
{
    into.extend_from_slice(b"long")?;
    write_number(turn.number, into)?;
    write_field(source_word(turn.source), into)?;
    write_number(turn.begin.0, into)?;
    write_number(turn.length.0, into)?;
    write_number(turn.blamed, into)?;
    into.push(b'\n')?;
    Ok(())
}

fn write_total(total: u64, into: &mut Vec<u8>) -> Result<(), AllocError>
    ensures { IfOk result (λ _. into.new.items ≡ into.old.items ++ total_text total) }
{
    into.extend_from_slice(b"total")?;
    write_number(total, into)?;
    into.push(b'\n')?;
    Ok(())
}

fn write_field(text: &[u8], into: &mut Vec<u8>) -> Result<(), AllocError>
    ensures { IfOk result (λ _. into.new.items ≡ into.old.items ++ field text.now) }
{
    into.push(b' ')?;
    into.extend_from_slice(text)
}

fn write_number(n: u64, into: &mut Vec<u8>) -> Result<(), AllocError>
    ensures { IfOk result (λ _. into.new.items ≡ into.old.items ++ number_field n) }
{
    into.push(b' ')?;
    print_number(n, into)
}
