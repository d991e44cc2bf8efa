//! `all`, `any` and `allSettled` (ECMA-262, "Promise.all", "Promise.any" and "Promise.allSettled").

ghost use Rattle.std.specs.Prelude.{◌≡◌, ◌≤◌, ℕ, length, map};
ghost use Rattle.page_parts.specs.Combinators.{All, AnyOf, AllSettled};
ghost use Rattle.page_values.specs.Seen.{seen};
ghost use Rattle.promise_combine.specs.Seen.{kind_seen};
ghost use Rattle.promise_combine.specs.Reports.{HasCount};
ghost use Rattle.page_model.specs.PageCombinators as made;
ghost use Rattle.page_model.specs.Operations as model;
ghost use Rattle.page_answers.specs.Serving.{Serves};
ghost use Rattle.promise_operations.specs.OfValues.{combined_of};

use lang_ast::HostStep;
use page_answers::{are_promises_left, give, list_of, reject_fault, throw};
use page_hosts::HostPort;
use page_script::Kind;
use page_state::PageState;
use page_values::{FaultName, Value, as_promise};
use std::sync::ledger::Ledger;
use trace_text::{Lines, NoLine};

/// `all`: gives a promise that is fulfilled with the list of all values, or rejected as the first item is that is rejected. Gives
/// a promise that is rejected with TypeError where the argument is no list, and throws RangeError where the promises that it takes
/// are not left.
///
/// It costs what the items weigh.
pub fn all<P: HostPort, M: Ledger, L: Lines>(
    page: &mut PageState<P, M>,
    items: Value,
    lines: &mut L,
) -> Result<HostStep, NoLine>
    ensures { Serves L.Lines page.old lines.old (model.combined All (seen items)) result page.new lines.new }
{
    combined(page, Kind::All, items, lines)
}

/// `any`: gives a promise that is fulfilled as the first item is that is fulfilled, or rejected where all are. The errors and the
/// cost are those of [`all`].
pub fn any<P: HostPort, M: Ledger, L: Lines>(
    page: &mut PageState<P, M>,
    items: Value,
    lines: &mut L,
) -> Result<HostStep, NoLine>
    ensures { Serves L.Lines page.old lines.old (model.combined AnyOf (seen items)) result page.new lines.new }
{
    combined(page, Kind::Any, items, lines)
}

/// `allSettled`: gives a promise that is fulfilled with the list of all outcomes. The errors and the cost are those of [`all`].
pub fn all_settled<P: HostPort, M: Ledger, L: Lines>(
    page: &mut PageState<P, M>,
    items: Value,
    lines: &mut L,
) -> Result<HostStep, NoLine>
    ensures { Serves L.Lines page.old lines.old (model.combined AllSettled (seen items)) result page.new lines.new }
{
    combined(page, Kind::AllSettled, items, lines)
}

// A combinator of this kind, which takes any number of items.
fn combined<P: HostPort, M: Ledger, L: Lines>(
    page: &mut PageState<P, M>,
    kind: Kind,
    argument: Value,
    lines: &mut L,
) -> Result<HostStep, NoLine>
    requires { (n : ℕ) → HasCount (kind_seen kind) n }
    ensures { Serves L.Lines page.old lines.old (combined_of kind argument) result page.new lines.new }
{
    let Some(list) = list_of(argument) else {
        return reject_fault(page, FaultName::TypeError, lines);
    };
    let items = list.items();
    let needed = 1 + promises_for_all(items) + items.len() as u64;
    if !are_promises_left(page, needed) {
        return Ok(throw(page.alloc(), FaultName::RangeError));
    }
    let promise = page.all_made(kind, items, lines)?;
    Ok(give(Value::Promise(promise)))
}

// How many promises are made for items: one for each that is none.
pub(crate) fn promises_for_all(items: &[Value]) -> u64
    ensures count { result ≡ model.promises_for_all (map seen items.now) }
    ensures few { result ≤ length items.now }
{
    let mut count = 0;
    for value in items {
        count += promises_for(value);
    }
    count
}

// How many promises are made for an item.
fn promises_for(value: &Value) -> u64
    ensures count { result ≡ made.promises_for (seen value.now) }
    ensures few { result ≤ 1 }
{
    match as_promise(value) {
        Some(_) => 0,
        None => 1,
    }
}
