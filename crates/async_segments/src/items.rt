//! Writes the items of a script.

ghost use Rattle.std.specs.Prelude.{◌≡◌, ◌≤◌, ◌<◌, ◌+◌, ◌∷◌, [], ℕ, IfOk, IfErr, Some, None, length};
ghost use Rattle.lang_meaning.specs.Evaluation.{functions_of};
ghost use Rattle.lang_ast.specs.Seen.{seen_item, seen_tree};
ghost use Rattle.lang_parse.specs.Grammar.{item_spelling};
ghost use Rattle.async_segments.specs.declared.fault.ExpandFault.TheVariants.{OutOfMemory};
ghost use Rattle.async_segments.specs.Script.{IsNotAsync, IsSmall};
ghost use Rattle.async_segments.specs.Items.{seen_fn, marked_fn, WritesBehind, RefusesBehind, RefusesNext, WritesItems, RefusesItems};
ghost use Rattle.async_segments.specs.Items.{WritesMarked};
ghost use Rattle.async_segments.specs.Written.{Adds};
ghost use Rattle.async_segments.specs.OfCode.{WritesItem, StepsOn, RefusesStep};

use crate::awaits::mark_at;
use crate::fault::{ExpandFault, NotAsync};
use crate::heads::write_head;
use crate::locals::locals_of;
use crate::segments::write_async;
use crate::statements::{write_block, write_stmt};
use crate::written::Written;
use lang_ast::{Function, Item, Tree};
use std::alloc::{AllocError, Global};

/// How many bytes the name of an async function may have.
pub const MOST_NAME_BYTES: usize = 50;

/// How many local names an async function may have.
pub const MOST_LOCALS: usize = 6;

/// How many functions a script may have.
pub const MOST_FUNCTIONS: usize = 4096;

fn write_function(
    alloc: Global,
    function: &Function,
    into: &mut Vec<Written>,
) -> Result<(), AllocError>
    ensures { IfOk result (λ _. Adds into.old.items into.new.items (item_spelling (seen_fn function.now))) }
{
    write_head(alloc, function, into)?;
    write_block(alloc, &function.body, false, into)
}

/// An item with no mark. It answers how many functions it is.
fn write_plain(alloc: Global, item: &Item, into: &mut Vec<Written>) -> Result<usize, AllocError>
    ensures written { IfOk result (λ _. Adds into.old.items into.new.items (item_spelling (seen_item item.now))) }
    ensures count { IfOk result (λ n. n ≡ length (functions_of (seen_item item.now ∷ []))) }
{
    match item {
        Item::Fn(function) => {
            write_function(alloc, function, into)?;
            Ok(1)
        }
        Item::Stmt(stmt) => {
            write_stmt(alloc, stmt, false, into)?;
            Ok(0)
        }
    }
}

/// An async function. It answers how many awaits it has; the functions that it becomes are three more.
fn write_marked_function(
    alloc: Global,
    function: &Function,
    into: &mut Vec<Written>,
) -> Result<usize, ExpandFault>
    ensures written { IfOk result (λ n. WritesMarked function.now into.old.items into.new.items (n + 3)) }
    ensures refused { IfErr result (λ e. IsNotAsync e → (at : ℕ) → IsSmall (marked_fn at function.now) → ⊥) }
{
    if function.name.name.bytes().len() > MOST_NAME_BYTES {
        return Err(ExpandFault::Is(NotAsync));
    }
    let locals = locals_of(alloc, &function.parameters, &function.body)?;
    if locals.len() > MOST_LOCALS {
        return Err(ExpandFault::Is(NotAsync));
    }
    Ok(write_async(alloc, function, &locals, into)?)
}

/// The item behind the mark of an async function. It answers how many awaits it has.
fn write_marked(alloc: Global, item: &Item, into: &mut Vec<Written>) -> Result<usize, ExpandFault>
    ensures written { IfOk result (λ n. WritesBehind (seen_item item.now) into.old.items into.new.items (n + 3)) }
    ensures refused { IfErr result (λ e. IsNotAsync e → RefusesBehind (seen_item item.now)) }
{
    match item {
        Item::Fn(function) => write_marked_function(alloc, function, into),
        Item::Stmt(_) => Err(ExpandFault::Is(NotAsync)),
    }
}

/// An item behind a mark. It answers that no mark stands behind it, and how many functions the item becomes, in two parts.
fn write_behind_mark(
    alloc: Global,
    item: &Item,
    into: &mut Vec<Written>,
) -> Result<(Option<usize>, usize, usize), ExpandFault>
    ensures written { IfOk result (λ r. (at : ℕ) → WritesItem (Some at) item.now r.0 into.old into.new (r.1 + r.2)) }
    ensures part { IfOk result (λ r. r.2 ≤ 3) }
    ensures refused { IfErr result (λ e. IsNotAsync e → RefusesBehind (seen_item item.now)) }
{
    match write_marked(alloc, item, into) {
        Ok(awaits) => Ok((None, awaits, 3)),
        Err(fault) => Err(fault),
    }
}

/// An item behind no mark. It answers the mark that it is, or how many functions it is, in two parts.
fn write_unmarked(
    alloc: Global,
    item: &Item,
    into: &mut Vec<Written>,
) -> Result<(Option<usize>, usize, usize), ExpandFault>
    ensures written { IfOk result (λ r. WritesItem None item.now r.0 into.old into.new (r.1 + r.2)) }
    ensures part { IfOk result (λ r. r.2 ≤ 3) }
    ensures memory { IfErr result (λ e. e ≡ OutOfMemory) }
{
    match mark_at(item) {
        Some(at) => Ok((Some(at), 0, 0)),
        None => {
            let functions = write_plain(alloc, item, into)?;
            Ok((None, functions, 0))
        }
    }
}

/// An item behind a mark, or behind none. It answers the mark behind it, and how many functions the item becomes.
fn write_next(
    alloc: Global,
    item: &Item,
    pending: Option<usize>,
    into: &mut Vec<Written>,
) -> Result<(Option<usize>, usize, usize), ExpandFault>
    ensures written { IfOk result (λ r. WritesItem pending item.now r.0 into.old into.new (r.1 + r.2)) }
    ensures part { IfOk result (λ r. r.2 ≤ 3) }
    ensures refused { IfErr result (λ e. IsNotAsync e → RefusesNext pending (seen_item item.now)) }
{
    match pending {
        Some(_) => write_behind_mark(alloc, item, into),
        None => write_unmarked(alloc, item, into),
    }
}

/// The mark and all functions, if these are not too many.
fn counted(
    mark: Option<usize>,
    functions: usize,
    more: usize,
    part: usize,
) -> Result<(Option<usize>, usize), ExpandFault>
    requires few { functions ≤ 4096 }
    requires part { part ≤ 3 }
    ensures mark { IfOk result (λ r. r.0 ≡ mark) }
    ensures all { IfOk result (λ r. r.1 ≡ functions + (more + part)) }
    ensures few { IfOk result (λ r. r.1 ≤ 4096) }
    ensures many { IfErr result (λ e. 4096 < functions + (more + part)) }
{
    if more > MOST_FUNCTIONS - functions {
        return Err(ExpandFault::Is(NotAsync));
    }
    let all = functions + more + part;
    if all > MOST_FUNCTIONS {
        return Err(ExpandFault::Is(NotAsync));
    }
    Ok((mark, all))
}

/// An item behind a mark, or behind none, and behind so many functions. It answers the mark behind it, and how many
/// functions there are with it.
fn write_item(
    alloc: Global,
    item: &Item,
    pending: Option<usize>,
    functions: usize,
    into: &mut Vec<Written>,
) -> Result<(Option<usize>, usize), ExpandFault>
    requires { functions ≤ 4096 }
    ensures written { IfOk result (StepsOn item.now pending into.old into.new functions) }
    ensures few { IfOk result (λ r. r.1 ≤ 4096) }
    ensures refused { IfErr result (λ e. IsNotAsync e → RefusesStep item.now pending into.old functions) }
{
    match write_next(alloc, item, pending, into) {
        Ok(next) => counted(next.0, functions, next.1, next.2),
        Err(fault) => Err(fault),
    }
}

/// These tokens, if no mark stands behind the last item.
fn closed(pending: Option<usize>, written: Vec<Written>) -> Result<Vec<Written>, ExpandFault>
    ensures kept { IfOk result (λ w. w.items ≡ written.items) }
    ensures none { IfOk result (λ w. pending ≡ None) }
    ensures mark { IfErr result (λ e. (at : ℕ) × (pending ≡ Some at)) }
{
    match pending {
        Some(_) => Err(ExpandFault::Is(NotAsync)),
        None => Ok(written),
    }
}

/// The tokens of the plain script.
pub(crate) fn write_items(alloc: Global, tree: &Tree) -> Result<Vec<Written>, ExpandFault>
    ensures written { IfOk result (λ w. WritesItems (seen_tree tree.now) w.items) }
    ensures refused { IfErr result (λ e. IsNotAsync e → RefusesItems (seen_tree tree.now)) }
{
    let mut written = Vec::new(alloc);
    let mut functions = 0;
    let mut pending = None;
    for item in &tree.items {
        match write_item(alloc, item, pending, functions, &mut written) {
            Ok(next) => {
                pending = next.0;
                functions = next.1;
            }
            Err(fault) => return Err(fault),
        }
    }
    closed(pending, written)
}
