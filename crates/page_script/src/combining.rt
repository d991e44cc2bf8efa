//! A combinator of a page, and what it is told.

ghost use Rattle.std.specs.Prelude.{◌≡◌, IfOk, OnOk, IsTrue};
ghost use Rattle.promise_combine.specs.Seen.{report_of};
ghost use Rattle.page_script.specs.Leading.{combining_in, MayReport, IsNotedAt};
ghost use Rattle.page_script.specs.Calls.{Brings};

use crate::combiner::Combining;
use page_notices::Settled;
use page_values::MemoryFault;

// What the answer of a combinator settles, and the answer, where there is one.
#[derive(Drop)]
pub(crate) struct Answered {
    pub(crate) result: u32,
    pub(crate) answer: Option<Settled>,
}

// Whether the element of a combinator at a place may report.
pub(crate) fn may_report(combinators: &[Combining], number: u32, place: u32) -> bool
    ensures { IsTrue result → MayReport number place combinators.now }
{
    let Some(index) = number.checked_sub(1) else {
        return false;
    };
    match combinators.get(index as usize) {
        Some(combining) => combining.combine.may_report(place),
        None => false,
    }
}

// Notes what the element of a combinator at a place was settled with.
pub(crate) fn note_report(
    combinators: &mut Vec<Combining>,
    number: u32,
    place: u32,
    how: Settled,
) -> Result<Answered, MemoryFault>
    requires { MayReport number place combinators.old.items }
    ensures result { IfOk result (λ a. a.result ≡ (combining_in combinators.old.items number).result) }
    ensures answer { IfOk result (Brings place how (combining_in combinators.old.items number)) }
    ensures noted { OnOk result (IsNotedAt number (report_of place how) combinators.old.items combinators.new.items) }
{
    let c = &mut combinators[number as usize - 1];
    let answer = c.combine.report(place, how)?;
    Ok(Answered {
        result: c.result,
        answer,
    })
}
