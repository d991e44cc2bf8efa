//! Handlers of promises (ECMA-262, "Promise.prototype.then" and "Promise.prototype.finally").

ghost use Rattle.page_answers.specs.Serving.{Serves};
ghost use Rattle.promise_operations.specs.OfValues.{finally_of, then_of};

use lang_ast::HostStep;
use page_answers::{are_both_left, give, reject_fault, throw};
use page_hosts::HostPort;
use page_state::PageState;
use page_values::{FaultName, Value, as_promise};
use std::sync::ledger::Ledger;
use trace_text::{Lines, NoLine};

/// `then`: gives the derived promise of a promise with these handlers, with its lines. A handler that is no function is absent.
/// Throws TypeError where the first argument is no promise, and RangeError where no promise or no registration is left.
pub fn then<P: HostPort, M: Ledger, L: Lines>(
    page: &mut PageState<P, M>,
    promise: Value,
    fulfilled: Value,
    rejected: Value,
    lines: &mut L,
) -> Result<HostStep, NoLine>
    ensures { Serves L.Lines page.old lines.old (then_of promise fulfilled rejected) result page.new lines.new }
{
    let Some(number) = as_promise(&promise) else {
        return Ok(throw(page.alloc(), FaultName::TypeError));
    };
    if !are_both_left(page) {
        return Ok(throw(page.alloc(), FaultName::RangeError));
    }
    let derived = page.then_made(number, fulfilled, rejected, lines)?;
    Ok(give(Value::Promise(derived)))
}

/// `finally`: gives the derived promise of a promise with this handler, with its lines. A handler that is no function is absent.
/// Gives a promise that is rejected with TypeError where the first argument is no promise, and throws RangeError where no promise
/// or no registration is left.
pub fn finally<P: HostPort, M: Ledger, L: Lines>(
    page: &mut PageState<P, M>,
    promise: Value,
    handler: Value,
    lines: &mut L,
) -> Result<HostStep, NoLine>
    ensures { Serves L.Lines page.old lines.old (finally_of promise handler) result page.new lines.new }
{
    let Some(number) = as_promise(&promise) else {
        return reject_fault(page, FaultName::TypeError, lines);
    };
    if !are_both_left(page) {
        return Ok(throw(page.alloc(), FaultName::RangeError));
    }
    let into = page.finally_made(number, handler, lines)?;
    Ok(give(Value::Promise(into)))
}
