//! The operations of promises, by their names.

ghost use Rattle.std.specs.Prelude.{[]};
ghost use Rattle.page_types.specs.declared.Op.TheVariants.{MakePromise};
ghost use Rattle.page_answers.specs.Serving.{Serves};
ghost use Rattle.page_operations.specs.Plain.{plain_of, plain_operation};

use crate::times::of_time;
use lang_ast::{HostStep, Op};
use page_answers::{first, first_three, first_two};
use page_hosts::HostPort;
use page_state::PageState;
use page_values::Value;
use promise_operations::{
    all, all_settled, any, finally, make_promise, queue_microtask, race, reject, rejected, resolve,
    resolved, then,
};
use std::sync::ledger::Ledger;
use trace_text::{Lines, NoLine};

/// What an operation of promises answers, or one of those that come after them here. One that calls back has no answer, only an error.
pub(crate) fn of_promises<P: HostPort, M: Ledger, L: Lines>(
    page: &mut PageState<P, M>,
    op: Op,
    args: Vec<Value>,
    lines: &mut L,
) -> Result<HostStep, NoLine>
    ensures { Serves L.Lines page.old lines.old (plain_of op args.items) result page.new lines.new }
{
    match op {
        Op::QueueMicrotask => queue_microtask(page, first(args), lines),
        Op::MakePromise => promise(page, lines),
        Op::ResolveOp => {
            let (promise, value) = first_two(args);
            resolve(page, promise, value, lines)
        }
        Op::RejectOp => {
            let (promise, reason) = first_two(args);
            reject(page, promise, reason, lines)
        }
        Op::Resolved => resolved(page, first(args), lines),
        Op::Rejected => rejected(page, first(args), lines),
        Op::Then => {
            let (promise, fulfilled, rejected) = first_three(args);
            then(page, promise, fulfilled, rejected, lines)
        }
        Op::FinallyOp => {
            let (promise, handler) = first_two(args);
            finally(page, promise, handler, lines)
        }
        Op::AllOp => all(page, first(args), lines),
        Op::RaceOp => race(page, first(args), lines),
        Op::AnyOp => any(page, first(args), lines),
        Op::AllSettled => all_settled(page, first(args), lines),
        _ => of_time(page, op, args, lines),
    }
}

// `promise`, which writes none of these lines.
fn promise<P: HostPort, M: Ledger, L: Lines>(
    page: &mut PageState<P, M>,
    _lines: &L,
) -> Result<HostStep, NoLine>
    ensures { Serves L.Lines page.old _lines.now (plain_operation MakePromise []) result page.new _lines.now }
{
    make_promise::<P, M, L>(page)
}
