//! The clock of a page, which only `busy` moves while the script runs.

ghost use Rattle.page_model.specs.Operations as model;
ghost use Rattle.page_values.specs.Seen.{seen};
ghost use Rattle.page_answers.specs.Serving.{Serves};
ghost use Rattle.time_operations.specs.Rows.{now_given};

use crate::arguments::{LONGEST, is_within, long_number};
use lang_ast::HostStep;
use page_answers::{give, give_unit, throw};
use page_base::Micros;
use page_hosts::HostPort;
use page_state::PageState;
use page_values::{FaultName, Value, as_int};
use std::sync::ledger::Ledger;
use trace_text::{Lines, NoLine};

/// `now`: the time in microseconds.
pub fn now<P: HostPort, M: Ledger, L: Lines>(
    page: &PageState<P, M>,
    lines: &L,
) -> Result<HostStep, NoLine>
    ensures { Serves L.Lines page.now lines.now now_given result page.now lines.now }
{
    let _unused = lines;
    match long_number(page.now().0) {
        Some(now) => Ok(give(now)),
        None => Err(NoLine::OutOfMemory),
    }
}

/// `busy`: so many microseconds pass, from 0 to 1,000,000,000. The machine takes its unit of fuel before.
pub fn busy<P: HostPort, M: Ledger, L: Lines>(
    page: &mut PageState<P, M>,
    span: Value,
    lines: &L,
) -> Result<HostStep, NoLine>
    ensures { Serves L.Lines page.old lines.now (model.busy (seen span)) result page.new lines.now }
{
    let _unused = lines;
    let Some(span) = as_int(&span) else {
        return Ok(throw(page.alloc(), FaultName::TypeError));
    };
    if !is_within(0, LONGEST, span) {
        return Ok(throw(page.alloc(), FaultName::RangeError));
    }
    let Some(time) = page.now().0.checked_add(span.unsigned_abs()) else {
        return Err(NoLine::OutOfMemory);
    };
    page.at_time(Micros(time));
    Ok(give_unit())
}
