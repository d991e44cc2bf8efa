//! `race` (ECMA-262, "Promise.race").

ghost use Rattle.page_values.specs.Seen.{seen};
ghost use Rattle.page_model.specs.Operations as model;
ghost use Rattle.page_answers.specs.Serving.{Serves};

use crate::combinators::promises_for_all;
use lang_ast::HostStep;
use page_answers::{are_promises_left, give, list_of, reject_fault, throw};
use page_hosts::HostPort;
use page_state::PageState;
use page_values::{FaultName, Value};
use std::sync::ledger::Ledger;
use trace_text::{Lines, NoLine};

/// `race`: gives a promise that follows the first item that is settled. Gives a promise that is rejected with TypeError where the
/// argument is no list, and throws RangeError where the promises that it takes are not left.
///
/// It costs what the items weigh.
pub fn race<P: HostPort, M: Ledger, L: Lines>(
    page: &mut PageState<P, M>,
    argument: Value,
    lines: &mut L,
) -> Result<HostStep, NoLine>
    ensures { Serves L.Lines page.old lines.old (model.raced (seen argument)) result page.new lines.new }
{
    let Some(list) = list_of(argument) else {
        return reject_fault(page, FaultName::TypeError, lines);
    };
    let items = list.items();
    let needed = 1 + promises_for_all(items);
    if !are_promises_left(page, needed) {
        return Ok(throw(page.alloc(), FaultName::RangeError));
    }
    let promise = page.race_made(items, lines)?;
    Ok(give(Value::Promise(promise)))
}
