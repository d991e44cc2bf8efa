//! `postMessage` (HTML, "Cross-document messaging").

ghost use Rattle.std.specs.Prelude.{◌≡◌};
ghost use Rattle.page_parts.specs.Kinds as kinds;
ghost use Rattle.page_model.specs.Operations as model;
ghost use Rattle.page_model.specs.Operations.{post_message};
ghost use Rattle.page_values.specs.Seen.{seen};
ghost use Rattle.page_answers.specs.Serving.{Serves};
ghost use Rattle.time_operations.specs.Rows.{may_post};

use crate::arguments::is_within;
use lang_ast::HostStep;
use page_answers::{give_unit, throw};
use page_hosts::HostPort;
use page_state::PageState;
use page_values::{FaultName, Items, Value, as_int, nesting, weight};
use std::sync::ledger::Ledger;
use trace_text::{Lines, NoLine};

/// `postMessage`: a value goes to a port, which is a number from 1 to 64, with its line. A value may be sent that holds no function,
/// promise, signal, controller or deadline.
pub fn post_message<P: HostPort, M: Ledger, L: Lines>(
    page: &mut PageState<P, M>,
    port: Value,
    value: Value,
    lines: &mut L,
) -> Result<HostStep, NoLine>
    ensures { Serves L.Lines page.old lines.old (post_message (seen port) (seen value)) result page.new lines.new }
{
    let Some(port) = port_of(&port) else {
        return Ok(throw(page.alloc(), FaultName::TypeError));
    };
    if !is_sendable(&value) {
        return Ok(throw(page.alloc(), FaultName::TypeError));
    }
    if !is_light(&value) {
        return Ok(throw(page.alloc(), FaultName::RangeError));
    }
    page.posted(port, value, lines)?;
    Ok(give_unit())
}

// The port that a value is.
fn port_of(value: &Value) -> Option<u32>
    ensures { result ≡ model.port_in (seen value.now) }
{
    let n = as_int(value)?;
    if is_within(1, 64, n) {
        Some(n as u32)
    } else {
        None
    }
}

// Whether the list of a port and this value is within the limits of values.
fn is_light(value: &Value) -> bool
    ensures { result ≡ may_post (seen value.now) }
{
    weight(value) <= 65_534 && nesting(value) <= 63
}

// Whether a value holds no function, promise, signal, controller or deadline at any depth.
#[cycle(sendable)]
fn is_sendable(value: &Value) -> bool
    ensures { result ≡ kinds.is_sendable (seen value.now) }
{
    match value {
        Value::List(items) => are_sendable(items),
        Value::Unit | Value::Bool(_) | Value::Int(_) | Value::Text(_) | Value::Fault(_, _) => true,
        Value::Fun(_)
        | Value::Promise(_)
        | Value::Signal(_)
        | Value::Controller(_)
        | Value::Deadline(_) => false,
    }
}

// The same of all items.
#[cycle(sendable)]
fn are_sendable(items: &Items) -> bool
    ensures { result ≡ kinds.are_sendable items.now }
{
    for value in items.items() {
        if !is_sendable(value) {
            return false;
        }
    }
    true
}
