//! A value that comes back to what waits for it.

ghost use Rattle.std.specs.Prelude.{◌≡◌, IfOk, IfErr};
ghost use Rattle.page_values.specs.Seen.{seen};
ghost use Rattle.lang_meaning.specs.Evaluation.{compare_answer, unary_answer};
ghost use Rattle.page_interp.specs.Frames.{IsAnswer};
ghost use Rattle.page_interp.specs.StackClauses.{Takes, IsSide, RowTakes};
ghost use Rattle.page_interp.specs.declared.exit.Exit.TheVariants as exit;
ghost use Rattle.page_interp.specs.declared.stack.Waiting.TheVariants as waiting;

use crate::exit::Exit;
use crate::expressions::come;
use crate::operators::{add, compare, item_at, multiply, negate};
use crate::stack::{Focus, Frame, Purpose, Waiting, push, wait};
use crate::values::append;
use lang_ast::{CompareSign, Expr, Host, ProductSign, Stmt, SumSign, UnarySign};
use page_values::{FaultName, Value, as_bool, fault};
use std::alloc::Global;

/// An operand of `||`.
fn into_or<'c, H: Host>(
    alloc: Global,
    stack: &mut Vec<Frame<'c>>,
    value: Value,
    rest: &'c [Expr],
) -> Result<Focus<'c>, Exit<H::Stop>>
    ensures ok { IfOk result (Takes H.rules value (waiting.Or rest.entry) stack.old stack.new) }
    ensures err { IfErr result (λ x. x ≡ exit.OutOfMemory) }
{
    let told = as_bool(&value);
    drop(value);
    match told {
        Some(true) => Ok(Focus::Value(Value::Bool(true))),
        Some(false) => match rest.split_first() {
            Some((next, rest)) => wait(stack, Waiting::Or(rest), next),
            None => Ok(Focus::Value(Value::Bool(false))),
        },
        None => Ok(Focus::Throw(fault(alloc, FaultName::TypeError))),
    }
}

/// An operand of `&&`.
fn into_and<'c, H: Host>(
    alloc: Global,
    stack: &mut Vec<Frame<'c>>,
    value: Value,
    rest: &'c [Expr],
) -> Result<Focus<'c>, Exit<H::Stop>>
    ensures ok { IfOk result (Takes H.rules value (waiting.And rest.entry)
        stack.old stack.new) }
    ensures err { IfErr result (λ x. x ≡ exit.OutOfMemory) }
{
    let told = as_bool(&value);
    drop(value);
    match told {
        Some(true) => match rest.split_first() {
            Some((next, rest)) => wait(stack, Waiting::And(rest), next),
            None => Ok(Focus::Value(Value::Bool(true))),
        },
        Some(false) => Ok(Focus::Value(Value::Bool(false))),
        None => Ok(Focus::Throw(fault(alloc, FaultName::TypeError))),
    }
}

/// The sum so far.
fn into_terms<'c, H: Host>(
    stack: &mut Vec<Frame<'c>>,
    value: Value,
    terms: &'c [(SumSign, Expr)],
) -> Result<Focus<'c>, Exit<H::Stop>>
    ensures ok { IfOk result (Takes H.rules value (waiting.Terms terms.entry) stack.old stack.new) }
    ensures err { IfErr result (λ x. x ≡ exit.OutOfMemory) }
{
    match terms.split_first() {
        Some((term, rest)) => wait(stack, Waiting::Term(value, term.0, rest), &term.1),
        None => Ok(Focus::Value(value)),
    }
}

/// A term of a sum.
fn into_term<'c, H: Host>(
    alloc: Global,
    stack: &mut Vec<Frame<'c>>,
    value: Value,
    sum: Value,
    sign: SumSign,
    rest: &'c [(SumSign, Expr)],
) -> Result<Focus<'c>, Exit<H::Stop>>
    ensures ok { IfOk result (Takes H.rules value (waiting.Term sum sign rest.entry)
        stack.old stack.new) }
    ensures err { IfErr result (λ x. x ≡ exit.OutOfMemory) }
{
    push(stack, Frame::Wait(Waiting::Terms(rest)))?;
    come(add(alloc, sign, &sum, &value))
}

/// The product so far.
fn into_factors<'c, H: Host>(
    stack: &mut Vec<Frame<'c>>,
    value: Value,
    factors: &'c [(ProductSign, Expr)],
) -> Result<Focus<'c>, Exit<H::Stop>>
    ensures ok { IfOk result (Takes H.rules value (waiting.Factors factors.entry)
        stack.old stack.new) }
    ensures err { IfErr result (λ x. x ≡ exit.OutOfMemory) }
{
    match factors.split_first() {
        Some((factor, rest)) => wait(stack, Waiting::Factor(value, factor.0, rest), &factor.1),
        None => Ok(Focus::Value(value)),
    }
}

/// A factor of a product.
fn into_factor<'c, H: Host>(
    alloc: Global,
    stack: &mut Vec<Frame<'c>>,
    value: Value,
    product: Value,
    sign: ProductSign,
    rest: &'c [(ProductSign, Expr)],
) -> Result<Focus<'c>, Exit<H::Stop>>
    ensures ok { IfOk result (Takes H.rules value (waiting.Factor product sign rest.entry)
        stack.old stack.new) }
    ensures err { IfErr result (λ x. x ≡ exit.OutOfMemory) }
{
    push(stack, Frame::Wait(Waiting::Factors(rest)))?;
    come(multiply(alloc, sign, &product, &value))
}

/// The value whose items are wanted.
fn into_places<'c, H: Host>(
    stack: &mut Vec<Frame<'c>>,
    value: Value,
    places: &'c [Expr],
) -> Result<Focus<'c>, Exit<H::Stop>>
    ensures ok { IfOk result (Takes H.rules value (waiting.Places places.entry)
        stack.old stack.new) }
    ensures err { IfErr result (λ x. x ≡ exit.OutOfMemory) }
{
    match places.split_first() {
        Some((place, rest)) => wait(stack, Waiting::Place(value, rest), place),
        None => Ok(Focus::Value(value)),
    }
}

/// A place of an item.
fn into_place<'c, H: Host>(
    alloc: Global,
    stack: &mut Vec<Frame<'c>>,
    value: Value,
    list: Value,
    rest: &'c [Expr],
) -> Result<Focus<'c>, Exit<H::Stop>>
    ensures ok { IfOk result (Takes H.rules value (waiting.Place list rest.entry)
        stack.old stack.new) }
    ensures err { IfErr result (λ x. x ≡ exit.OutOfMemory) }
{
    push(stack, Frame::Wait(Waiting::Places(rest)))?;
    come(item_at(alloc, &list, &value))
}

/// The value of an `if`'s condition: its block is next, or what comes after `else`.
fn into_if<'c>(
    alloc: Global,
    value: Value,
    block: &'c [Stmt],
    others: &'c [(Expr, Vec<Stmt>)],
    last: &'c Option<Vec<Stmt>>,
) -> Focus<'c>
    ensures { IsSide value block.entry others.entry last.entry result }
{
    let told = as_bool(&value);
    drop(value);
    match told {
        Some(true) => Focus::Block(block),
        Some(false) => Focus::Others(others, last),
        None => Focus::Throw(fault(alloc, FaultName::TypeError)),
    }
}

/// A value of a row.
fn into_row<'c, H: Host>(
    value: Value,
    purpose: Purpose,
    mut values: Vec<Value>,
    rest: &'c [Expr],
) -> Result<Focus<'c>, Exit<H::Stop>>
    ensures ok { IfOk result (RowTakes H.rules purpose values rest.entry value) }
    ensures err { IfErr result (λ x. x ≡ exit.OutOfMemory) }
{
    append(&mut values, value)?;
    Ok(Focus::Row(purpose, values, rest))
}

/// The right side of a comparison.
fn into_right<'c, S: Drop>(
    alloc: Global,
    value: Value,
    sign: CompareSign,
    left: Value,
) -> Result<Focus<'c>, Exit<S>>
    ensures ok { IfOk result (λ f. IsAnswer f (compare_answer sign (seen left) (seen value))) }
    ensures err { IfErr result (λ x. x ≡ exit.OutOfMemory) }
{
    come(compare(alloc, sign, &left, &value))
}

/// The operand of a sign in front.
fn into_unary<'c, S: Drop>(
    alloc: Global,
    value: Value,
    sign: UnarySign,
) -> Result<Focus<'c>, Exit<S>>
    ensures ok { IfOk result (λ f. IsAnswer f (unary_answer sign (seen value))) }
    ensures err { IfErr result (λ x. x ≡ exit.OutOfMemory) }
{
    come(negate(alloc, sign, &value))
}

/// What is next in place of a value that is not needed.
fn instead<'c>(value: Value, next: Focus<'c>) -> Focus<'c>
    ensures { result ≡ next.entry }
{
    drop(value);
    next
}

/// A value comes back to what waits for it.
pub fn receive<'c, H: Host>(
    alloc: Global,
    stack: &mut Vec<Frame<'c>>,
    waiting: Waiting<'c>,
    value: Value,
) -> Result<Focus<'c>, Exit<H::Stop>>
    ensures ok { IfOk result (Takes H.rules value waiting.entry stack.old stack.new) }
    ensures err { IfErr result (λ x. x ≡ exit.OutOfMemory) }
{
    match waiting {
        Waiting::Or(rest) => into_or::<H>(alloc, stack, value, rest),
        Waiting::And(rest) => into_and::<H>(alloc, stack, value, rest),
        Waiting::Left(sign, right) => wait(stack, Waiting::Right(sign, value), right),
        Waiting::Right(sign, left) => into_right(alloc, value, sign, left),
        Waiting::Terms(terms) => into_terms::<H>(stack, value, terms),
        Waiting::Term(sum, sign, rest) => into_term::<H>(alloc, stack, value, sum, sign, rest),
        Waiting::Factors(factors) => into_factors::<H>(stack, value, factors),
        Waiting::Factor(x, sign, rest) => into_factor::<H>(alloc, stack, value, x, sign, rest),
        Waiting::Unary(sign) => into_unary(alloc, value, sign),
        Waiting::Places(places) => into_places::<H>(stack, value, places),
        Waiting::Place(list, rest) => into_place::<H>(alloc, stack, value, list, rest),
        Waiting::Row(purpose, values, rest) => into_row::<H>(value, purpose, values, rest),
        Waiting::Ignore => Ok(instead(value, Focus::Value(Value::Unit))),
        Waiting::If(block, others, last) => Ok(into_if(alloc, value, block, others, last)),
        Waiting::Return => Ok(Focus::Return(value)),
        Waiting::Throw => Ok(Focus::Throw(value)),
        Waiting::Stmts(rest) => Ok(instead(value, Focus::Block(rest))),
        Waiting::Items(rest) => Ok(instead(value, Focus::Items(rest))),
    }
}
