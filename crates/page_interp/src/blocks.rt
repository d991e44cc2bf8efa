//! From the statements of a block. What calls nothing is done at once, with no frame of its own.

ghost use Rattle.std.specs.Prelude.{◌≡◌, ◌<◌, ◌≤◌, true, false, IfOk, IfErr, IfSome, IfNone, length};
ghost use Rattle.page_values.specs.declared.Value.{Value};
ghost use Rattle.page_interp.specs.Running.{LeadsBefore, LeadsTo};
ghost use Rattle.page_interp.specs.StackClauses.{MovesBefore, BlockBrings, BlockLeaves, Sets, ValueComes, ElseMoves, TakesBranch, ReturnLeads};
ghost use Rattle.page_interp.specs.declared.exit.Exit.TheVariants as exit;
ghost use Rattle.page_interp.specs.declared.stack.Focus.TheVariants as focus;

use crate::at_once::{passes, set};
use crate::code::Code;
use crate::direct::{direct_int, direct_other, direct_value};
use crate::exit::{Exit, Store};
use crate::expressions::from_expr;
use crate::simple::{NO_CALLS, call_value, returned};
use crate::stack::{Current, Focus, Frame, Running, Waiting, push, wait, within};
use crate::statements::from_stmt;
use lang_ast::{Expr, Host, Named, Stmt};
use page_values::{FaultName, Value, as_bool, fault};
use std::alloc::Global;

/// Gives a variable the value of an expression, where it is found at once.
fn takes<'c, H: Host>(
    code: &'c Code,
    store: &mut Store,
    current: &mut Current<'c>,
    name: &Named,
    expr: &'c Expr,
) -> bool
    ensures done { result ≡ true → Sets H.rules code.now name.now expr.now
        store.old current.old store.new current.new }
    ensures same_store { result ≡ false → store.new ≡ store.old }
    ensures same_variables { result ≡ false → current.new ≡ current.old }
    ensures fuel { store.new.fuel ≤ store.old.fuel }
{
    if let Some(n) = direct_int(code, store, current, expr) {
        set(code, store, current, name, Value::Int(n));
        return true;
    }
    match direct_other(code, store, current, expr) {
        Ok(Some(value)) => {
            set(code, store, current, name, value);
            true
        }
        Ok(None) => takes_call::<H>(code, store, current, name, expr),
        // No memory for the value: the steps from this statement find that too.
        Err(_) => false,
    }
}

/// Gives a variable the value of a call that is done at once.
fn takes_call<'c, H: Host>(
    code: &'c Code,
    store: &mut Store,
    current: &mut Current<'c>,
    name: &Named,
    expr: &'c Expr,
) -> bool
    ensures done { result ≡ true → Sets H.rules code.now name.now expr.now
        store.old current.old store.new current.new }
    ensures same_store { result ≡ false → store.new ≡ store.old }
    ensures same_variables { result ≡ false → current.new ≡ current.old }
    ensures fuel { store.new.fuel ≤ store.old.fuel }
{
    match call_value::<H>(code, store, current, expr) {
        Some(value) => {
            set(code, store, current, name, value);
            true
        }
        None => false,
    }
}

/// Does a call at once whose value is not needed.
fn calls<'c, H: Host>(
    code: &'c Code,
    store: &mut Store,
    current: &Current<'c>,
    expr: &'c Expr,
) -> bool
    ensures done { result ≡ true → (v : Value) × ValueComes H.rules code.now expr.now
        store.old current.now v store.new }
    ensures same_store { result ≡ false → store.new ≡ store.old }
    ensures fuel { store.new.fuel ≤ store.old.fuel }
{
    match call_value::<H>(code, store, current, expr) {
        Some(value) => {
            drop(value);
            true
        }
        None => false,
    }
}

/// Does the first statement of some where all of it is done at once, and gives those after it.
fn first_done<'c, H: Host>(
    code: &'c Code,
    store: &mut Store,
    current: &mut Current<'c>,
    stmts: &'c [Stmt],
) -> Option<&'c [Stmt]>
    ensures done { IfSome result (BlockLeaves H.rules code.now
        store.old current.old stmts.now store.new current.new) }
    ensures shorter { IfSome result (λ rest. length rest.now < length stmts.now) }
    ensures same_store { IfNone result (store.new ≡ store.old) }
    ensures same_variables { IfNone result (current.new ≡ current.old) }
    ensures fuel { store.new.fuel ≤ store.old.fuel }
{
    let (stmt, rest) = stmts.split_first()?;
    let done = match stmt {
        Stmt::Var(name, expr) => takes::<H>(code, store, current, name, expr),
        Stmt::Assign(name, expr) => takes::<H>(code, store, current, name, expr),
        Stmt::If(test, _, others, last) => passes(code, store, current, test, others, last),
        Stmt::Expr(expr) => calls::<H>(code, store, current, expr),
        _ => false,
    };
    if done { Some(rest) } else { None }
}

/// A statement of which no part is done at once: the statements after it wait for its end.
fn later<'c, H: Host>(
    stack: &mut Vec<Frame<'c>>,
    stmt: &'c Stmt,
    rest: &'c [Stmt],
) -> Result<Focus<'c>, Exit<H::Stop>>
    ensures ok { IfOk result (MovesBefore H.rules rest.entry (focus.Stmt stmt.entry)
        stack.old stack.new) }
    ensures err { IfErr result (λ x. x ≡ exit.OutOfMemory) }
{
    push(stack, Frame::Wait(Waiting::Stmts(rest)))?;
    from_stmt::<H>(stack, stmt)
}

/// The `else` side of a condition, and then the statements after it.
fn into_else<'c, H: Host>(
    stack: &mut Vec<Frame<'c>>,
    others: &'c [(Expr, Vec<Stmt>)],
    last: &'c Option<Vec<Stmt>>,
    rest: &'c [Stmt],
) -> Result<Focus<'c>, Exit<H::Stop>>
    ensures ok { IfOk result (ElseMoves H.rules rest.entry others.entry last.entry
        stack.old stack.new) }
    ensures err { IfErr result (λ x. x ≡ exit.OutOfMemory) }
{
    match others.split_first() {
        Some((other, more)) => {
            push(stack, Frame::Wait(Waiting::Stmts(rest)))?;
            wait(stack, Waiting::If(&other.1, more, last), &other.0)
        }
        None => match last {
            Some(block) => within(
                stack,
                Frame::Wait(Waiting::Stmts(rest)),
                Focus::Block(block),
            ),
            None => Ok(Focus::Block(rest)),
        },
    }
}

/// One side of a condition or the other, by its value, and then the statements after it.
fn into_branch<'c, H: Host>(
    alloc: Global,
    stack: &mut Vec<Frame<'c>>,
    value: Value,
    block: &'c [Stmt],
    others: &'c [(Expr, Vec<Stmt>)],
    last: &'c Option<Vec<Stmt>>,
    rest: &'c [Stmt],
) -> Result<Focus<'c>, Exit<H::Stop>>
    ensures ok { TakesBranch result H.rules block.entry others.entry last.entry rest.entry
        value stack.old stack.new }
    ensures err { IfErr result (λ x. x ≡ exit.OutOfMemory) }
{
    match as_bool(&value) {
        Some(true) => within(
            stack,
            Frame::Wait(Waiting::Stmts(rest)),
            Focus::Block(block),
        ),
        Some(false) => into_else::<H>(stack, others, last, rest),
        None => {
            let thrown = Focus::Throw(fault(alloc, FaultName::TypeError));
            within(stack, Frame::Wait(Waiting::Stmts(rest)), thrown)
        }
    }
}

/// The value of a `return`. No statement after it waits.
fn into_return<'c, H: Host>(
    code: &Code,
    store: &Store,
    current: &Current,
    stack: &mut Vec<Frame<'c>>,
    expr: &'c Expr,
) -> Result<Focus<'c>, Exit<H::Stop>>
    ensures ok { IfOk result (ReturnLeads H.rules code.now expr.now
        store.now current.now stack.old stack.new) }
    ensures err { IfErr result (λ x. x ≡ exit.OutOfMemory) }
{
    match direct_value(code, store, current, expr) {
        Ok(Some(value)) => Ok(Focus::Return(value)),
        Ok(None) => wait(stack, Waiting::Return, expr),
        Err(_) => Err(Exit::OutOfMemory),
    }
}

/// From the first statement of some, where these come after it.
fn from_first<'c, H: Host>(
    code: &'c Code,
    run: &mut Running<'c>,
    stmt: &'c Stmt,
    rest: &'c [Stmt],
) -> Result<Focus<'c>, Exit<H::Stop>>
    ensures ok { IfOk result (LeadsBefore H.rules code.now rest.entry (focus.Stmt stmt.entry)
        run.old run.new) }
    ensures err { IfErr result (λ x. x ≡ exit.OutOfMemory) }
    ensures same { IfErr result (λ _. run.new.store ≡ run.old.store) }
{
    match stmt {
        Stmt::Expr(expr) => {
            push(&mut run.stack, Frame::Wait(Waiting::Stmts(rest)))?;
            from_expr::<H>(code, &mut run.store, &run.current, &mut run.stack, expr)
        }
        Stmt::If(test, block, others, last) => {
            match direct_value(code, &run.store, &run.current, test) {
                Ok(Some(value)) => {
                    let stack = &mut run.stack;
                    into_branch::<H>(code.alloc(), stack, value, block, others, last, rest)
                }
                Ok(None) => later::<H>(&mut run.stack, stmt, rest),
                Err(_) => Err(Exit::OutOfMemory),
            }
        }
        Stmt::Return(value) => match value {
            Some(expr) => { into_return::<H>(code, &run.store, &run.current, &mut run.stack, expr) }
            None => later::<H>(&mut run.stack, stmt, rest),
        },
        _ => later::<H>(&mut run.stack, stmt, rest),
    }
}

/// From the statements of a block of which the first one gives no variable a value at once.
pub fn from_block<'c, H: Host>(
    code: &'c Code,
    run: &mut Running<'c>,
    stmts: &'c [Stmt],
) -> Result<Focus<'c>, Exit<H::Stop>>
    ensures ok { IfOk result (LeadsTo H.rules code.now (focus.Block stmts.entry) run.old run.new) }
    ensures err { IfErr result (λ x. x ≡ exit.OutOfMemory) }
    ensures same { IfErr result (λ _. run.new.store ≡ run.old.store) }
{
    match stmts.split_first() {
        Some((stmt, rest)) => from_first::<H>(code, run, stmt, rest),
        None => Ok(Focus::Value(Value::Unit)),
    }
}

/// Does the first statements of some while each only gives a variable a value that is found at
/// once, or is passed over, and gives the statements that are left.
pub fn assigned<'c, H: Host>(
    code: &'c Code,
    store: &mut Store,
    current: &mut Current<'c>,
    stmts: &'c [Stmt],
) -> &'c [Stmt]
    ensures brings { BlockBrings H.rules code.now store.old current.old stmts.now
        store.new current.new result.now }
    ensures no_longer { length result.now ≤ length stmts.now }
    ensures fuel { store.new.fuel ≤ store.old.fuel }
{
    let mut rest = stmts;
    'done: while let Some(more) = first_done::<H>(code, store, current, rest) {
        rest = more;
    }
    rest
}

/// From the statements of a block of which the first one is not done at once. What a `return` gives is
/// found at once, where it can be.
pub fn from_rest<'c, H: Host>(
    code: &'c Code,
    run: &mut Running<'c>,
    rest: &'c [Stmt],
) -> Result<Focus<'c>, Exit<H::Stop>>
    ensures ok { IfOk result (LeadsTo H.rules code.now (focus.Block rest.entry) run.old run.new) }
    ensures err { IfErr result (λ x. x ≡ exit.OutOfMemory) }
    ensures same { IfErr result (λ _. run.new.store ≡ run.old.store) }
{
    let before = run.store.fuel;
    match returned::<H>(code, &mut run.store, &run.current, rest, NO_CALLS) {
        Some(value) => Ok(Focus::Return(value)),
        None => {
            run.store.fuel = before;
            from_block::<H>(code, run, rest)
        }
    }
}
