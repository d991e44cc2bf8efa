//! Listeners (DOM, "Interface EventTarget").

ghost use Rattle.page_answers.specs.Serving.{Serves};
ghost use Rattle.signal_operations.specs.OfValues.{listen_of, unlisten_of};

use crate::arguments::target_in;
use lang_ast::HostStep;
use page_answers::{function_of, give, give_unit, is_registration_left, throw};
use page_hosts::HostPort;
use page_state::PageState;
use page_values::{FaultName, Value, as_int, as_text};
use std::sync::ledger::Ledger;
use trace_text::{Lines, NoLine};

/// `listen`: a function listens to the events of this name at the window, for unit, or at a signal. It answers the number of the
/// registration. TypeError for arguments of another kind, RangeError where no registration is left.
pub fn listen<P: HostPort, M: Ledger, L: Lines>(
    page: &mut PageState<P, M>,
    target: Value,
    name: Value,
    callback: Value,
    lines: &mut L,
) -> Result<HostStep, NoLine>
    ensures { Serves L.Lines page.old lines.old (listen_of target name callback) result page.new lines.new }
{
    let Some(target) = target_in(&target) else {
        return Ok(throw(page.alloc(), FaultName::TypeError));
    };
    let Some(name) = as_text(&name) else {
        return Ok(throw(page.alloc(), FaultName::TypeError));
    };
    let Some(callback) = function_of(callback) else {
        return Ok(throw(page.alloc(), FaultName::TypeError));
    };
    if !is_registration_left(page) {
        return Ok(throw(page.alloc(), FaultName::RangeError));
    }
    let r = page.listener_added(target, name, callback, lines)?;
    Ok(give(Value::Int(r as i64)))
}

/// `unlisten`: the listener whose registration is this number is removed, with its line. A number that is no listener's does nothing.
/// TypeError for what is no integer.
pub fn unlisten<P: HostPort, M: Ledger, L: Lines>(
    page: &mut PageState<P, M>,
    registration: Value,
    lines: &mut L,
) -> Result<HostStep, NoLine>
    ensures { Serves L.Lines page.old lines.old (unlisten_of registration) result page.new lines.new }
{
    let Some(number) = as_int(&registration) else {
        return Ok(throw(page.alloc(), FaultName::TypeError));
    };
    if number < 0 {
        return Ok(give_unit());
    }
    page.listener_removed(number.unsigned_abs(), lines)?;
    Ok(give_unit())
}
