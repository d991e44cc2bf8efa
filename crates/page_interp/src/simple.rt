//! Calls that are done at once: of functions that change no variable but their own, ask the host for
//! nothing, have no loop and return.

ghost use Rattle.std.specs.Prelude.{◌≡◌, ◌<◌, ◌≤◌, true, false, None, IfSome, IfNone, length};
ghost use Rattle.page_values.specs.Seen.{seen};
ghost use Rattle.lang_meaning.specs.Evaluation.{sum_answer, product_answer};
ghost use Rattle.lang_meaning.specs.OpNames.{op_named};
ghost use Rattle.page_interp.specs.Direct.{HasValue};
ghost use Rattle.page_interp.specs.Frames.{IsAnswer};
ghost use Rattle.page_interp.specs.StackClauses.{AreFound, BlockBrings, BlockLeaves, CallComes, CallReturns, ReturnsValue, Sets, TermsCome, ValueComes, FactorsBring, NamesFunction};
ghost use Rattle.page_interp.specs.declared.stack.Focus.TheVariants as focus;

use crate::at_once::{first_values, passes, truth};
use crate::code::Code;
use crate::direct::direct_value;
use crate::exit::Store;
use crate::expressions::come;
use crate::opening::OPEN_CALLS;
use crate::operators::{add, multiply};
use crate::stack::{Current, Focus};
use crate::variables::{find, locals_for, set_own};
use lang_ast::{Expr, Host, Named, ProductSign, Stmt, SumSign};
use page_values::Value;
use std::alloc::Global;

/// How deep calls and the parts of expressions may nest that are done at once.
const LEVELS: u32 = 64;

/// The same where there is no call.
pub const NO_CALLS: u32 = 0;

/// The value of an expression, where it is found at once and there is memory for it.
fn found_value(code: &Code, store: &Store, current: &Current, expr: &Expr) -> Option<Value>
    ensures { IfSome result (λ v. HasValue code.now store.now current.now expr.now (seen v)) }
{
    match direct_value(code, store, current, expr) {
        Ok(found) => found,
        Err(_) => None,
    }
}

/// The value of an expression that is found at once, or of a call, a sum or a product of such. Where
/// there is none, units of fuel may be gone.
#[cycle(calls)]
fn value<'c, H: Host>(
    code: &'c Code,
    store: &mut Store,
    current: &Current<'c>,
    expr: &'c Expr,
    levels: u32,
) -> Option<Value>
    ensures comes { IfSome result (λ v. ValueComes H.rules code.now expr.now
        store.old current.now v store.new) }
    ensures globals { store.new.globals ≡ store.old.globals }
    ensures fuel { store.new.fuel ≤ store.old.fuel }
{
    if let Some(value) = found_value(code, store, current, expr) {
        return Some(value);
    }
    if levels == 0 {
        return None;
    }
    match expr {
        Expr::Call(name, args) => {
            let function = simple_callee(code, current, name)?;
            call::<H>(code, store, current, function, args, levels - 1)
        }
        Expr::Paren(inner) => value::<H>(code, store, current, inner, levels - 1),
        Expr::Sum(first, terms) => {
            let sum = value::<H>(code, store, current, first, levels - 1)?;
            sum_on::<H>(code, store, current, sum, terms, levels - 1)
        }
        Expr::Product(first, factors) => {
            let product = value::<H>(code, store, current, first, levels - 1)?;
            product_on::<H>(code, store, current, product, factors, levels - 1)
        }
        _ => None,
    }
}

/// The sum with a term, or the difference.
fn added<S: Drop>(alloc: Global, sign: SumSign, sum: Value, term: Value) -> Option<Value>
    ensures { IfSome result (λ v. IsAnswer (focus.Value v)
        (sum_answer sign (seen sum) (seen term))) }
{
    let total = come(add::<S>(alloc, sign, &sum, &term));
    drop(sum);
    drop(term);
    match total {
        Ok(Focus::Value(value)) => Some(value),
        _ => None,
    }
}

/// The product with a factor, the quotient or the remainder.
fn multiplied<S: Drop>(
    alloc: Global,
    sign: ProductSign,
    product: Value,
    factor: Value,
) -> Option<Value>
    ensures { IfSome result (λ v. IsAnswer (focus.Value v)
        (product_answer sign (seen product) (seen factor))) }
{
    let total = come(multiply::<S>(alloc, sign, &product, &factor));
    drop(product);
    drop(factor);
    match total {
        Ok(Focus::Value(value)) => Some(value),
        _ => None,
    }
}

/// The sum so far with the further terms.
#[cycle(calls)]
fn sum_on<'c, H: Host>(
    code: &'c Code,
    store: &mut Store,
    current: &Current<'c>,
    first: Value,
    terms: &'c [(SumSign, Expr)],
    levels: u32,
) -> Option<Value>
    ensures comes { IfSome result (λ v. TermsCome H.rules code.now terms.now
        store.old current.now first v store.new) }
    ensures globals { store.new.globals ≡ store.old.globals }
    ensures fuel { store.new.fuel ≤ store.old.fuel }
{
    let mut sum = first;
    let mut rest = terms;
    'terms: while let Some((term, more)) = rest.split_first() {
        let next = value::<H>(code, store, current, &term.1, levels)?;
        sum = added::<H::Stop>(code.alloc(), term.0, sum, next)?;
        rest = more;
    }
    Some(sum)
}

/// The product so far with the further factors.
#[cycle(calls)]
fn product_on<'c, H: Host>(
    code: &'c Code,
    store: &mut Store,
    current: &Current<'c>,
    first: Value,
    factors: &'c [(ProductSign, Expr)],
    levels: u32,
) -> Option<Value>
    ensures comes { IfSome result (FactorsBring H.rules code.now factors.now
        store.old current.now first store.new) }
    ensures globals { store.new.globals ≡ store.old.globals }
    ensures fuel { store.new.fuel ≤ store.old.fuel }
{
    let mut product = first;
    let mut rest = factors;
    'factors: while let Some((factor, more)) = rest.split_first() {
        let next = value::<H>(code, store, current, &factor.1, levels)?;
        product = multiplied::<H::Stop>(code.alloc(), factor.0, product, next)?;
        rest = more;
    }
    Some(product)
}

/// Gives a variable of the innermost call the value of an expression, where it has a variable of
/// this name and the value is found. Where not, nothing has changed.
#[cycle(calls)]
fn takes_own<'c, H: Host>(
    code: &'c Code,
    store: &mut Store,
    current: &mut Current<'c>,
    name: &Named,
    expr: &'c Expr,
    levels: u32,
) -> bool
    ensures done { result ≡ true → Sets H.rules code.now name.now expr.now
        store.old current.old store.new current.new }
    ensures same_store { result ≡ false → store.new ≡ store.old }
    ensures same_variables { result ≡ false → current.new ≡ current.old }
    ensures globals { store.new.globals ≡ store.old.globals }
    ensures fuel { store.new.fuel ≤ store.old.fuel }
{
    let before = store.fuel;
    if let Some(value) = value::<H>(code, store, current, expr, levels) {
        if set_own(code, current.names, &mut current.locals, name, value) {
            return true;
        }
    }
    store.fuel = before;
    false
}

/// Does the first statement of some where all of it is done at once and it changes no variable but
/// the call's own. Gives the statements after it.
#[cycle(calls)]
fn first_own<'c, H: Host>(
    code: &'c Code,
    store: &mut Store,
    current: &mut Current<'c>,
    stmts: &'c [Stmt],
    levels: u32,
) -> Option<&'c [Stmt]>
    ensures done { IfSome result (BlockLeaves H.rules code.now
        store.old current.old stmts.now store.new current.new) }
    ensures shorter { IfSome result (λ rest. length rest.now < length stmts.now) }
    ensures same_store { IfNone result (store.new ≡ store.old) }
    ensures same_variables { IfNone result (current.new ≡ current.old) }
    ensures globals { store.new.globals ≡ store.old.globals }
    ensures fuel { store.new.fuel ≤ store.old.fuel }
{
    let (stmt, rest) = stmts.split_first()?;
    let done = match stmt {
        Stmt::Var(name, expr) => takes_own::<H>(code, store, current, name, expr, levels),
        Stmt::Assign(name, expr) => takes_own::<H>(code, store, current, name, expr, levels),
        Stmt::If(test, _, others, last) => passes(code, store, current, test, others, last),
        _ => false,
    };
    if done { Some(rest) } else { None }
}

/// Does the first statements of some while each is done at once and changes no variable but the
/// call's own. Gives the statements that are left.
#[cycle(calls)]
fn own_done<'c, H: Host>(
    code: &'c Code,
    store: &mut Store,
    current: &mut Current<'c>,
    stmts: &'c [Stmt],
    levels: u32,
) -> &'c [Stmt]
    ensures brings { BlockBrings H.rules code.now store.old current.old stmts.now
        store.new current.new result.now }
    ensures globals { store.new.globals ≡ store.old.globals }
    ensures fuel { store.new.fuel ≤ store.old.fuel }
{
    let mut rest = stmts;
    'done: while let Some(more) = first_own::<H>(code, store, current, rest, levels) {
        rest = more;
    }
    rest
}

/// What some statements return: the first of them is a `return`, or a condition that is found at
/// once and holds and whose block begins so. Where they return nothing, units may be gone.
#[cycle(calls)]
pub fn returned<'c, H: Host>(
    code: &'c Code,
    store: &mut Store,
    current: &Current<'c>,
    stmts: &'c [Stmt],
    levels: u32,
) -> Option<Value>
    ensures returns { IfSome result (λ v. ReturnsValue H.rules code.now
        store.old current.now stmts.now v store.new) }
    ensures globals { store.new.globals ≡ store.old.globals }
    ensures fuel { store.new.fuel ≤ store.old.fuel }
{
    let mut inner = stmts;
    'sides: while let Some((stmt, _)) = inner.split_first() {
        match stmt {
            Stmt::Return(given) => match given {
                Some(expr) => return value::<H>(code, store, current, expr, levels),
                None => return None,
            },
            Stmt::If(test, block, _, _) => match truth(code, store, current, test) {
                Some(true) => inner = block,
                _ => return None,
            },
            _ => return None,
        }
    }
    None
}

/// The values of the arguments of a call, where each is found at once.
fn found_args<'c, H: Host>(
    code: &Code,
    store: &Store,
    current: &Current,
    exprs: &'c [Expr],
) -> Option<Vec<Value>>
    ensures { IfSome result (AreFound H.rules code.now store.now current.now exprs.now) }
{
    let mut values = Vec::new(code.alloc());
    match first_values::<H>(code, store, current, &mut values, exprs) {
        Ok(rest) if rest.is_empty() => Some(values),
        _ => None,
    }
}

/// The function that a name stands for where it is no operation and no variable, whatever the global
/// variables hold, and which is likely simple.
fn simple_callee(code: &Code, current: &Current, name: &Named) -> Option<u32>
    ensures operation { IfSome result (λ _. op_named name.now.name ≡ None) }
    ensures function { IfSome result (NamesFunction code.now current.now name.now) }
{
    let near = code.likely_place(name);
    let number = code.simple(&name.name, near)?;
    if find(current.names, &current.locals, &name.name, near).is_some() {
        return None;
    }
    Some(number)
}

/// What a function returns that is called with these arguments, a unit less being left. Where it
/// returns nothing at once, units may be gone.
#[cycle(calls)]
fn returned_by<'c, H: Host>(
    code: &'c Code,
    less: &mut Store,
    current: &Current<'c>,
    function: u32,
    args: Vec<Value>,
    levels: u32,
) -> Option<Value>
    requires room { current.now.depth < 256 }
    ensures returns { IfSome result (λ v. CallReturns H.rules code.now function args
        less.old current.now v less.new) }
    ensures globals { less.new.globals ≡ less.old.globals }
    ensures fuel { less.new.fuel ≤ less.old.fuel }
{
    let called = code.function(function)?;
    let names = code.locals_of(function);
    let Ok(locals) = locals_for(called.parameters.len(), names, args) else {
        return None;
    };
    let mut inner = Current {
        names,
        locals,
        depth: current.depth + 1,
    };
    let rest = own_done::<H>(code, less, &mut inner, &called.body, levels);
    returned::<H>(code, less, &inner, rest, levels)
}

/// The value of a call of a function by its number, where the arguments are found at once. Where it
/// is not found, units may be gone.
#[cycle(calls)]
fn call<'c, H: Host>(
    code: &'c Code,
    store: &mut Store,
    current: &Current<'c>,
    function: u32,
    args: &'c [Expr],
    levels: u32,
) -> Option<Value>
    ensures comes { IfSome result (λ v. CallComes H.rules code.now function args.now
        store.old current.now v store.new) }
    ensures globals { store.new.globals ≡ store.old.globals }
    ensures fuel { store.new.fuel ≤ store.old.fuel }
{
    if store.fuel == 0 || current.depth >= OPEN_CALLS {
        return None;
    }
    let args = found_args::<H>(code, store, current, args)?;
    store.fuel -= 1;
    returned_by::<H>(code, store, current, function, args, levels)
}

/// The value of a call that is done at once: of a simple function whose arguments are found at once.
/// Where it is not, nothing has changed; where its arguments are found, the function is no longer
/// taken for a simple one.
pub fn call_value<'c, H: Host>(
    code: &'c Code,
    store: &mut Store,
    current: &Current<'c>,
    expr: &'c Expr,
) -> Option<Value>
    ensures comes { IfSome result (λ v. ValueComes H.rules code.now expr.now
        store.old current.now v store.new) }
    ensures not { IfNone result (store.new ≡ store.old) }
    ensures globals { store.new.globals ≡ store.old.globals }
    ensures fuel { store.new.fuel ≤ store.old.fuel }
{
    let Expr::Call(name, args) = expr else {
        return None;
    };
    let function = simple_callee(code, current, name)?;
    let before = store.fuel;
    let value = call::<H>(code, store, current, function, args, LEVELS);
    if value.is_none() {
        store.fuel = before;
        // It is the body's fault where the arguments are found.
        if found_args::<H>(code, store, current, args).is_some() {
            code.doubt(function);
        }
    }
    value
}
