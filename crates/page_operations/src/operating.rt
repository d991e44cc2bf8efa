//! What an operation that calls nothing back answers.

ghost use Rattle.page_answers.specs.Serving.{Serves};
ghost use Rattle.page_operations.specs.Plain.{plain_of};

use crate::promises::of_promises;
use lang_ast::{HostStep, Op};
use page_answers::first;
use page_hosts::HostPort;
use page_state::PageState;
use page_values::Value;
use promise_operations::log;
use std::sync::ledger::Ledger;
use trace_text::{Lines, NoLine};

/// The answer of an operation that calls nothing back, with its lines. An operation that calls back, or one on values alone, has no
/// answer here, only an error.
pub(crate) fn operate<P: HostPort, M: Ledger, L: Lines>(
    page: &mut PageState<P, M>,
    op: Op,
    args: Vec<Value>,
    lines: &mut L,
) -> Result<HostStep, NoLine>
    ensures { Serves L.Lines page.old lines.old (plain_of op args.items) result page.new lines.new }
{
    match op {
        Op::Log => log(page, first(args), lines),
        _ => of_promises(page, op, args, lines),
    }
}
