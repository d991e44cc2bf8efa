//! Promises that a script makes and settles (ECMA-262, "Promise Objects").

ghost use Rattle.page_values.specs.Seen.{seen};
ghost use Rattle.page_model.specs.Operations as model;
ghost use Rattle.page_answers.specs.Serving.{Serves, ServesSilently};
ghost use Rattle.promise_operations.specs.OfValues.{promise_told, reject_of, rejected_of, resolve_of, settle_of};

use lang_ast::HostStep;
use page_answers::{give, give_settled, give_unit, is_promise_left, reject_with, throw};
use page_hosts::HostPort;
use page_script::Settled;
use page_state::PageState;
use page_values::{FaultName, Value, as_promise};
use std::sync::ledger::Ledger;
use trace_text::{Lines, NoLine};

/// `promise`: gives a new pending promise that the script may settle. Writes no line. Throws RangeError where no promise is left.
pub fn make_promise<P: HostPort, M: Ledger, L: Lines>(
    page: &mut PageState<P, M>,
) -> Result<HostStep, NoLine>
    ensures { ServesSilently L.Lines page.old promise_told result page.new }
{
    if !is_promise_left(page) {
        return Ok(throw(page.alloc(), FaultName::RangeError));
    }
    let promise = page.script_promise()?;
    Ok(give(Value::Promise(promise)))
}

/// `resolve`: resolves a promise with a value, with its lines. Throws TypeError where it is no promise that the script made by
/// `promise`.
pub fn resolve<P: HostPort, M: Ledger, L: Lines>(
    page: &mut PageState<P, M>,
    promise: Value,
    value: Value,
    lines: &mut L,
) -> Result<HostStep, NoLine>
    ensures { Serves L.Lines page.old lines.old (resolve_of promise value) result page.new lines.new }
{
    settle_own(page, &promise, Ok(value), lines)
}

/// `reject`: rejects a promise with a reason, with its lines. Throws TypeError where it is no promise that the script made by
/// `promise`.
pub fn reject<P: HostPort, M: Ledger, L: Lines>(
    page: &mut PageState<P, M>,
    promise: Value,
    reason: Value,
    lines: &mut L,
) -> Result<HostStep, NoLine>
    ensures { Serves L.Lines page.old lines.old (reject_of promise reason) result page.new lines.new }
{
    settle_own(page, &promise, Err(reason), lines)
}

/// `resolved`: gives a promise as it is, and for any other value a new promise that is resolved with it. Throws RangeError where
/// it takes one and no promise is left.
pub fn resolved<P: HostPort, M: Ledger, L: Lines>(
    page: &mut PageState<P, M>,
    value: Value,
    lines: &mut L,
) -> Result<HostStep, NoLine>
    ensures { Serves L.Lines page.old lines.old (model.resolved_value (seen value)) result page.new lines.new }
{
    if as_promise(&value).is_some() {
        return Ok(give(value));
    }
    give_settled(page, Ok(value), lines)
}

/// `rejected`: gives a new promise that is rejected with a reason. Throws RangeError where no promise is left.
pub fn rejected<P: HostPort, M: Ledger, L: Lines>(
    page: &mut PageState<P, M>,
    reason: Value,
    lines: &mut L,
) -> Result<HostStep, NoLine>
    ensures { Serves L.Lines page.old lines.old (rejected_of reason) result page.new lines.new }
{
    reject_with(page, reason, lines)
}

// Settles a promise that the script made.
fn settle_own<P: HostPort, M: Ledger, L: Lines>(
    page: &mut PageState<P, M>,
    promise: &Value,
    how: Settled,
    lines: &mut L,
) -> Result<HostStep, NoLine>
    ensures { Serves L.Lines page.old lines.old (settle_of promise.now how) result page.new lines.new }
{
    let Some(number) = as_promise(promise) else {
        return Ok(throw(page.alloc(), FaultName::TypeError));
    };
    if number == 0 {
        return Err(NoLine::OutOfMemory);
    }
    if !page.is_script_promise(number) {
        return Ok(throw(page.alloc(), FaultName::TypeError));
    }
    page.settle(number, how, lines)?;
    Ok(give_unit())
}
