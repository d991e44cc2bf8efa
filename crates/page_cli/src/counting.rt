//! The five lines of a summary.

ghost use Rattle.std.specs.Prelude.{◌≡◌, ◌++◌, Some, IfOk};
ghost use Rattle.page_parts.specs.TraceText.{end_text};
ghost use Rattle.trace_text.specs.Summaries.{summarised};
ghost use Rattle.page_cli.specs.Counted.{count_line, end_line, counts_text};

use page_base::End;
use page_values::print_number;
use std::alloc::{AllocError, Global};
use trace_text::Summary;

/// The lines `turns N`, `calls N`, `drops N` and `settles N` of a summary, and `end X`, where X is `done`, `fuel` or `clock`.
pub(crate) fn counts_text(alloc: Global, summary: Summary) -> Result<Vec<u8>, AllocError>
    ensures { IfOk result (λ text. text.items ≡ counts_text (summarised summary)) }
{
    let mut text = Vec::new(alloc);
    write_count(b"turns", summary.turns, &mut text)?;
    write_count(b"calls", summary.calls, &mut text)?;
    write_count(b"drops", summary.drops, &mut text)?;
    write_count(b"settles", summary.settles, &mut text)?;
    write_end(summary.end, &mut text)?;
    Ok(text)
}

// On an error of what follows, some of the line may have been appended.

fn write_count(word: &[u8], n: u64, into: &mut Vec<u8>) -> Result<(), AllocError>
    ensures { IfOk result (λ _. into.new.items ≡ into.old.items ++ count_line word.now n) }
{
    into.extend_from_slice(word)?;
    into.push(b' ')?;
    print_number(n, into)?;
    into.push(b'\n')?;
    Ok(())
}

fn write_end(end: End, into: &mut Vec<u8>) -> Result<(), AllocError>
    ensures { IfOk result (λ _. into.new.items ≡ into.old.items ++ end_line (Some end)) }
{
    into.extend_from_slice(b"end ")?;
    into.extend_from_slice(end_word(end))?;
    into.push(b'\n')?;
    Ok(())
}

fn end_word(end: End) -> &'static [u8]
    ensures { result.now ≡ end_text end }
{
    match end {
        End::Done => b"done",
        End::Fuel => b"fuel",
        End::Clock => b"clock",
    }
}
