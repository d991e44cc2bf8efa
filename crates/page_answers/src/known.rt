//! Whether the promises, signals and controllers that arguments name were made.

ghost use Rattle.std.specs.Prelude.{◌≡◌, map};
ghost use Rattle.lang_meaning.specs.HostSteps.{is_busy};
ghost use Rattle.lang_ast.specs.Hosts.{seen_lent};
ghost use Rattle.page_values.specs.Seen.{seen};
ghost use Rattle.page_model.specs.Operations as model;
ghost use Rattle.page_state.specs.PageActs.{read_by};

use lang_ast::Op;
use page_hosts::HostPort;
use page_state::PageState;
use page_values::{Items, Value};
use std::sync::ledger::Ledger;

/// Whether an operation may look at its arguments: none of them holds a promise, a signal or a controller that was never made.
/// `busy` asks for no such thing. Takes no memory, and costs at most the weight of the arguments; a list that is plain costs one step.
pub fn may_operate<P: HostPort, M: Ledger>(page: &PageState<P, M>, op: Op, args: &[Value]) -> bool
    ensures { result ≡ read_by (λ p. model.may_operate p op (map seen args.now)) page.now }
{
    is_busy(op) || all_known(page.promises_made(), page.signals_made(), args)
}

/// The same of arguments that are lent.
pub fn may_operate_lent<P: HostPort, M: Ledger>(
    page: &PageState<P, M>,
    op: Op,
    args: &[&Value],
) -> bool
    ensures { result ≡ read_by (λ p. model.may_operate p op (seen_lent args.now)) page.now }
{
    is_busy(op) || each_known(page.promises_made(), page.signals_made(), args)
}

fn is_busy(op: Op) -> bool
    ensures { result ≡ is_busy op }
{
    matches!(op, Op::Busy)
}

// The same of arguments, where so many promises and signals were made.
fn all_known(promises: u32, signals: u32, args: &[Value]) -> bool
    ensures { result ≡ model.all_known promises signals (map seen args.now) }
{
    for value in args {
        if !is_known(promises, signals, value) {
            return false;
        }
    }
    true
}

// The same of arguments that are lent.
fn each_known(promises: u32, signals: u32, args: &[&Value]) -> bool
    ensures { result ≡ model.all_known promises signals (seen_lent args.now) }
{
    for value in args {
        if !is_known(promises, signals, *value) {
            return false;
        }
    }
    true
}

// Whether each promise, signal and controller in a value was made.
#[cycle(known)]
fn is_known(promises: u32, signals: u32, value: &Value) -> bool
    ensures { result ≡ model.is_known promises signals (seen value.now) }
{
    match value {
        Value::List(items) => are_known(promises, signals, items),
        Value::Fun(function) => are_known(promises, signals, &function.bound),
        Value::Promise(n) => was_given(promises, *n),
        Value::Signal(n) | Value::Controller(n) => was_given(signals, *n),
        Value::Unit
        | Value::Bool(_)
        | Value::Int(_)
        | Value::Text(_)
        | Value::Deadline(_)
        | Value::Fault(_, _) => true,
    }
}

// The same of all items.
#[cycle(known)]
fn are_known(promises: u32, signals: u32, items: &Items) -> bool
    ensures { result ≡ model.are_known promises signals items.now }
{
    if items.is_plain() {
        return true;
    }
    for value in items.items() {
        if !is_known(promises, signals, value) {
            return false;
        }
    }
    true
}

// Whether a number was given out, where so many were, counted from 1.
fn was_given(last: u32, number: u32) -> bool
    ensures { result ≡ model.was_given last number }
{
    0 < number && number <= last
}
