//! `host`: what a script asks a closure of its host. Ours

ghost use Rattle.page_model.specs.Operations as model;
ghost use Rattle.page_answers.specs.Serving.{Serves};
ghost use Rattle.signal_operations.specs.Asking.{AcceptsHost};
ghost use Rattle.signal_operations.specs.OfValues.{host_of};

use crate::arguments::signal_or_unit;
use crate::queueing::host_queued;
use crate::refusing::reject_aborted;
use lang_ast::HostStep;
use page_answers::{are_both_left, give, reject_fault, throw};
use page_hosts::HostPort;
use page_state::PageState;
use page_values::{FaultName, Value, as_int};
use std::sync::ledger::Ledger;
use trace_text::{Lines, NoLine};

/// `host`: a closure, by its number from 0, is asked on a number, with a signal or unit. It answers a promise, which is rejected with
/// TypeError where an argument is of another kind, with RangeError where there is no such closure or it does not take the number, with
/// NotAllowedError where it was asked before, and with the reason of the signal where that is aborted. RangeError is thrown where no
/// number is left.
pub fn host<P: HostPort, M: Ledger, L: Lines>(
    page: &mut PageState<P, M>,
    closure: Value,
    number: Value,
    signal: Value,
    lines: &mut L,
) -> Result<HostStep, NoLine>
    ensures { Serves L.Lines page.old lines.old (host_of closure number signal) result page.new lines.new }
{
    let Some(k) = as_int(&closure) else {
        return reject_fault(page, FaultName::TypeError, lines);
    };
    let Some(x) = as_int(&number) else {
        return reject_fault(page, FaultName::TypeError, lines);
    };
    let Some(signal) = signal_or_unit(&signal) else {
        return reject_fault(page, FaultName::TypeError, lines);
    };
    host_asked(page, k, x, signal, lines)
}

// The same with arguments of the right kinds.
fn host_asked<P: HostPort, M: Ledger, L: Lines>(
    page: &mut PageState<P, M>,
    k: i64,
    x: i64,
    signal: Option<u32>,
    lines: &mut L,
) -> Result<HostStep, NoLine>
    ensures { Serves L.Lines page.old lines.old (model.host_asked k x signal) result page.new lines.new }
{
    if !page.takes(k, x) {
        return reject_fault(page, FaultName::RangeError, lines);
    }
    let Ok(k) = u32::try_from(k) else {
        return Err(NoLine::OutOfMemory);
    };
    host_accepted(page, k, x, signal, lines)
}

// The same of closure `k`, which takes the number.
fn host_accepted<P: HostPort, M: Ledger, L: Lines>(
    page: &mut PageState<P, M>,
    k: u32,
    x: i64,
    signal: Option<u32>,
    lines: &mut L,
) -> Result<HostStep, NoLine>
    ensures { AcceptsHost L.Lines page.old lines.old k x signal result page.new lines.new }
{
    if !page.is_fresh(k) {
        return reject_fault(page, FaultName::NotAllowedError, lines);
    }
    if page.is_aborted_source(signal) {
        return reject_aborted(page, signal, lines);
    }
    if !are_both_left(page) {
        return Ok(throw(page.alloc(), FaultName::RangeError));
    }
    host_queued(page, k, x, signal, lines)?;
    Ok(give(Value::Promise(page.promises_made())))
}
