//! Steps from an expression, and from expressions in a row.

ghost use Rattle.std.specs.Prelude.{◌≡◌, ◌≤◌, IfOk, IfErr};
ghost use Rattle.page_interp.specs.Answers.{Answers};
ghost use Rattle.page_interp.specs.Frames.{IsAnswer};
ghost use Rattle.page_interp.specs.StackClauses.{MovesOn, CallLeads, ExprLeads, IsCallBy};
ghost use Rattle.page_interp.specs.Runs.{value_left};
ghost use Rattle.lang_meaning.specs.Evaluation.{Answer};
ghost use Rattle.page_interp.specs.declared.exit.Exit.TheVariants as exit;
ghost use Rattle.page_interp.specs.declared.stack.Focus.TheVariants as focus;

use crate::at_once::next_in_row;
use crate::code::Code;
use crate::direct::direct_value;
use crate::exit::{Exit, Store};
use crate::simple::call_value;
use crate::stack::{Current, Focus, Frame, Purpose, Waiting, wait};
use crate::values::{list, text};
use crate::variables::{name_value, named};
use lang_ast::{Expr, Host, Named};
use page_values::{MemoryFault, Value};
use std::alloc::Global;

/// What an operator answers is next.
pub fn come<'c, S: Drop>(done: Result<Value, Exit<S>>) -> Result<Focus<'c>, Exit<S>>
    ensures ok { IfOk result (λ f. (r : Answer) → Answers (value_left done) r → IsAnswer f r) }
    ensures err { IfErr result (λ x.
        (r : Answer) → Answers (value_left done) r → x ≡ exit.OutOfMemory) }
{
    match done {
        Ok(v) => Ok(Focus::Value(v)),
        Err(Exit::Throw(v)) => Ok(Focus::Throw(v)),
        Err(Exit::Return(v)) => Ok(Focus::Return(v)),
        Err(Exit::Fuel) => Err(Exit::Fuel),
        Err(Exit::Host(stop)) => Err(Exit::Host(stop)),
        Err(Exit::OutOfMemory) => Err(Exit::OutOfMemory),
    }
}

/// From an expression. One that calls nothing has its value at once, where it is simple enough, and
/// so has a call that is done at once.
pub fn from_expr<'c, H: Host>(
    code: &'c Code,
    store: &mut Store,
    current: &Current<'c>,
    stack: &mut Vec<Frame<'c>>,
    expr: &'c Expr,
) -> Result<Focus<'c>, Exit<H::Stop>>
    ensures ok { ExprLeads result H.rules code.now expr.entry
        store.old current.now stack.old store.new stack.new }
    ensures err { IfErr result (λ x. x ≡ exit.OutOfMemory) }
    ensures same { IfErr result (λ _. store.new ≡ store.old) }
    ensures globals { store.new.globals ≡ store.old.globals }
    ensures fuel { store.new.fuel ≤ store.old.fuel }
{
    if let Some(value) = call_value::<H>(code, store, current, expr) {
        return Ok(Focus::Value(value));
    }
    match direct_value(code, store, current, expr) {
        Ok(Some(value)) => Ok(Focus::Value(value)),
        Ok(None) => by_parts::<H>(code, store, current, stack, expr),
        Err(_) => Err(Exit::OutOfMemory),
    }
}

/// From an expression, to the first of its parts.
fn by_parts<'c, H: Host>(
    code: &Code,
    store: &Store,
    current: &Current,
    stack: &mut Vec<Frame<'c>>,
    expr: &'c Expr,
) -> Result<Focus<'c>, Exit<H::Stop>>
    ensures ok { ExprLeads result H.rules code.now expr.entry
        store.now current.now stack.old store.now stack.new }
    ensures err { IfErr result (λ x. x ≡ exit.OutOfMemory) }
{
    match expr {
        Expr::Or(first, rest) => wait(stack, Waiting::Or(rest), first),
        Expr::And(first, rest) => wait(stack, Waiting::And(rest), first),
        Expr::Compare(left, sign, right) => wait(stack, Waiting::Left(*sign, right), left),
        Expr::Sum(first, parts) => wait(stack, Waiting::Terms(parts), first),
        Expr::Product(first, parts) => wait(stack, Waiting::Factors(parts), first),
        Expr::Unary(sign, operand) => wait(stack, Waiting::Unary(*sign), operand),
        Expr::Post(first, places) => wait(stack, Waiting::Places(places), first),
        Expr::Number(n) => Ok(Focus::Value(Value::Int(*n))),
        Expr::Text(t) => come(text(code.alloc(), t)),
        Expr::True => Ok(Focus::Value(Value::Bool(true))),
        Expr::False => Ok(Focus::Value(Value::Bool(false))),
        Expr::Unit => Ok(Focus::Value(Value::Unit)),
        Expr::Name(x) => come(name_value(code, store, current.names, &current.locals, x)),
        Expr::Call(x, args) => from_call::<H>(code, store, current, stack, x, args),
        Expr::Paren(inner) => Ok(Focus::Expr(inner)),
        Expr::List(items) => {
            let values = Vec::new(code.alloc());
            next_in_row::<H>(code, store, current, stack, Purpose::List, values, items)
        }
    }
}

/// What the arguments of a call by name are for: an operation, or a call of the value that the name
/// has before them.
fn purpose_of(
    code: &Code,
    store: &Store,
    current: &Current,
    name: &Named,
) -> Result<Purpose, MemoryFault>
    ensures { IfOk result (IsCallBy code.now store.now current.now name.now) }
{
    match code.operation(&name.name) {
        Some(op) => Ok(Purpose::Ask(op)),
        None => Ok(Purpose::Call(named(code, store, current.names, &current.locals, name)?)),
    }
}

/// From a call by name, to its arguments.
fn from_call<'c, H: Host>(
    code: &Code,
    store: &Store,
    current: &Current,
    stack: &mut Vec<Frame<'c>>,
    name: &Named,
    args: &'c [Expr],
) -> Result<Focus<'c>, Exit<H::Stop>>
    ensures ok { IfOk result (CallLeads H.rules code.now name.now args.now store.now current.now
        stack.old stack.new) }
    ensures err { IfErr result (λ x. x ≡ exit.OutOfMemory) }
{
    match purpose_of(code, store, current, name) {
        Ok(purpose) => {
            let values = Vec::new(code.alloc());
            next_in_row::<H>(code, store, current, stack, purpose, values, args)
        }
        Err(_) => Err(Exit::OutOfMemory),
    }
}

/// From expressions in a row.
pub fn from_row<'c, H: Host>(
    alloc: Global,
    stack: &mut Vec<Frame<'c>>,
    purpose: Purpose,
    values: Vec<Value>,
    exprs: &'c [Expr],
) -> Result<Focus<'c>, Exit<H::Stop>>
    ensures ok { IfOk result (MovesOn H.rules (focus.Row purpose values exprs.entry)
        stack.old stack.new) }
    ensures err { IfErr result (λ x. x ≡ exit.OutOfMemory) }
{
    match exprs.split_first() {
        Some((expr, rest)) => wait(stack, Waiting::Row(purpose, values, rest), expr),
        None => match purpose {
            Purpose::List => come(list(alloc, values)),
            Purpose::Ask(op) => Ok(Focus::Ask(op, values)),
            Purpose::Call(callee) => Ok(Focus::Call(callee, values)),
        },
    }
}
