//! Statements that are an operation which the host is sure to answer with a value: they are done with
//! no frame, and a variable that takes the answer hands its value over.

ghost use Rattle.std.specs.Prelude.{◌≡◌, ◌<◌, ◌≤◌, false, true, map, length, IfOk, IfErr, IfSome, IfNone, IsTrue};
ghost use Rattle.page_values.specs.Seen.{seen};
ghost use Rattle.lang_ast.specs.Hosts.{GivesValue};
ghost use Rattle.lang_ast.specs.Operations.{count_of};
ghost use Rattle.lang_ast.specs.Steps.{AllNumbered};
ghost use Rattle.lang_meaning.specs.HostSteps.{is_busy};
ghost use Rattle.page_interp.specs.Asked.{IsAnswered, ArePair, ExprStands, IsKnown, RefusesAsk, IsPlainCall, IsPlainLook, IsBesideOwn, FindsByAsk, DoneByAsk, StopsInExpr, IsSureOfOwn};
ghost use Rattle.page_interp.specs.Running.{AllAsk, AtBlock, AtExpr, FirstAsks, SetsByAsk, StopsAtExpr, StopsInBlock};

use crate::at_once::{first_values, set};
use crate::blocks::assigned;
use crate::code::Code;
use crate::direct::{direct_held, direct_value, variable};
use crate::exit::{Exit, Store};
use crate::operations::may_be_known;
use crate::stack::{Current, Running};
use crate::variables::take;
use lang_ast::{Expr, Host, HostStep, Named, Op, Stmt};
use page_values::{MemoryFault, Value};
use std::alloc::Global;

/// Whether the host is sure to answer an operation with a value. It is not asked for more than two
/// arguments.
fn gives_value<H: Host>(host: &H, op: Op, args: &Vec<Value>) -> bool
    requires { length args.now.items ≡ count_of op }
    ensures { IsTrue result → GivesValue H.rules op (map seen args.now.items) (H.now host.now) }
{
    match args.len() {
        1 => host.gives_value(op, &[&args[0]]),
        2 => host.gives_value(op, &[&args[0], &args[1]]),
        _ => false,
    }
}

/// The answer of the host to an operation that it is sure to answer with a value.
fn answer<H: Host>(host: &mut H, op: Op, args: Vec<Value>) -> Result<Value, H::Stop>
    requires gives { GivesValue H.rules op (map seen args.items) (H.now host.old) }
    requires count { length args.items ≡ count_of op }
    requires numbered { AllNumbered (H.now host.old).functions (map seen args.items) }
    requires plain { is_busy op ≡ false }
    ensures ok { IfOk result (IsAnswered H.rules op (map seen args.items)
        (H.now host.old) (H.now host.new)) }
    ensures err { IfErr result (RefusesAsk H.leaves op (map seen args.items)
        (H.now host.old) (H.now host.new)) }
{
    match host.op(op, args) {
        Ok(HostStep::Value(value)) => Ok(value),
        Ok(_) => unreachable!(),
        Err(stop) => Err(stop),
    }
}

/// The operation and the arguments of a call by name, where a host may know that it answers it with a
/// value and the arguments are all found at once.
fn plain_call<'c, H: Host>(
    code: &'c Code,
    store: &Store,
    current: &Current<'c>,
    name: &Named,
    args: &'c [Expr],
) -> Option<(Op, Vec<Value>)>
    ensures { IfSome result (IsPlainCall H.rules code.now store.now current.now
        name.now args.now) }
{
    let op = code.operation(&name.name)?;
    if !may_be_known(op) {
        return None;
    }
    let mut values = Vec::new(code.alloc());
    match first_values::<H>(code, store, current, &mut values, args) {
        Ok(rest) if rest.is_empty() => Some((op, values)),
        _ => {
            drop(values);
            None
        }
    }
}

/// The operation and the argument of a call by name with one argument that a variable or an item
/// holds, where a host may know the answer.
fn looked_at<'a>(
    code: &'a Code,
    store: &'a Store,
    current: &'a Current,
    name: &Named,
    args: &[Expr],
) -> Option<(Op, &'a Value)>
    ensures { IfSome result (IsPlainLook code.now store.now current.now
        name.now args.now) }
{
    let (only, more) = args.split_first()?;
    if !more.is_empty() {
        return None;
    }
    let op = code.operation(&name.name)?;
    if !may_be_known(op) {
        return None;
    }
    let held = direct_held(code, store, current, only)?;
    Some((op, held))
}

/// The value of an operation that the host knows by a look at what a variable or an item holds.
pub fn known<'x, H: Host>(
    code: &'x Code,
    host: &H,
    store: &'x Store,
    current: &'x Current,
    expr: &'x Expr,
) -> Option<Value>
    requires { ExprStands H.rules H.leaves code.now (H.now host.now) store.now current.now expr.now }
    ensures { IfSome result (IsKnown H.rules H.leaves code.now expr.now
        store.now current.now (H.now host.now)) }
{
    let Expr::Call(name, args) = expr else {
        return None;
    };
    let (op, held) = looked_at(code, store, current, name, args)?;
    host.known_value(op, &[held])
}

/// The value of an operation that the host is sure to answer with one, where its arguments are found
/// at once. The host is asked for no other expression.
fn value<'c, H: Host>(
    code: &'c Code,
    host: &mut H,
    store: &Store,
    current: &Current<'c>,
    expr: &'c Expr,
) -> Result<Option<Value>, Exit<H::Stop>>
    requires { ExprStands H.rules H.leaves code.now (H.now host.old) store.now current.now expr.now }
    ensures some { FindsByAsk H.rules H.leaves H.now code.now expr.now
        store.now current.now host.old result host.new }
    ensures none { IfOk result (λ o. IfNone o (host.new ≡ host.old)) }
    ensures stops { StopsInExpr result H.rules H.leaves H.now code.now expr.now
        store.now current.now host.old host.new }
{
    if let Some(value) = known(&*code, &*host, store, current, expr) {
        return Ok(Some(value));
    }
    let Expr::Call(name, args) = expr else {
        return Ok(None);
    };
    let Some((op, values)) = plain_call::<H>(code, store, current, name, args) else {
        return Ok(None);
    };
    if !gives_value(host, op, &values) {
        drop(values);
        return Ok(None);
    }
    match answer(host, op, values) {
        Ok(value) => Ok(Some(value)),
        Err(stop) => Err(Exit::Host(stop)),
    }
}

/// Asks the host for an operation whose value is not needed.
fn asks<'c, H: Host>(
    code: &'c Code,
    host: &mut H,
    store: &Store,
    current: &Current<'c>,
    expr: &'c Expr,
) -> Result<bool, Exit<H::Stop>>
    requires { ExprStands H.rules H.leaves code.now (H.now host.old) store.now current.now expr.now }
    ensures done { DoneByAsk H.rules H.leaves H.now code.now expr.now
        store.now current.now host.old result host.new }
    ensures not { IfOk result (λ done. done ≡ false → host.new ≡ host.old) }
    ensures stops { StopsInExpr result H.rules H.leaves H.now code.now expr.now
        store.now current.now host.old host.new }
{
    match value(code, host, store, current, expr) {
        Ok(Some(value)) => {
            drop(value);
            Ok(true)
        }
        Ok(None) => Ok(false),
        Err(exit) => Err(exit),
    }
}

/// The operation and the second argument of a call by name with two arguments, of which the first is
/// the variable of this name itself.
fn beside_own<'c>(
    code: &'c Code,
    store: &Store,
    current: &Current<'c>,
    target: &Named,
    name: &Named,
    args: &'c [Expr],
) -> Option<(Op, Value)>
    ensures { IfSome result (IsBesideOwn code.now store.now current.now
        target.now name.now args.now) }
{
    let (first, others) = args.split_first()?;
    let Expr::Name(own) = first else {
        return None;
    };
    let (second, more) = others.split_first()?;
    if own.name.bytes() != target.name.bytes() || !more.is_empty() {
        return None;
    }
    let op = code.operation(&name.name)?;
    if !may_be_known(op) {
        return None;
    }
    match direct_value(code, store, current, second) {
        Ok(Some(value)) => Some((op, value)),
        _ => None,
    }
}

/// Two values in a row.
fn pair(alloc: Global, first: Value, second: Value) -> Result<Vec<Value>, MemoryFault>
    ensures { IfOk result (ArePair first second) }
{
    let mut values = Vec::new(alloc);
    values.push(first)?;
    values.push(second)?;
    Ok(values)
}

/// Whether the host is sure to answer with a value where the first argument is what a variable holds.
fn gives_for_own<'x, H: Host>(
    code: &'x Code,
    host: &H,
    store: &'x Store,
    current: &'x Current,
    own: &Named,
    op: Op,
    second: &'x Value,
) -> bool
    requires { count_of op ≡ 2 }
    ensures { IsSureOfOwn result H.rules code.now store.now current.now own.now op second.now
        (H.now host.now) }
{
    match variable(code, store, current, own) {
        Some(first) => host.gives_value(op, &[first, second]),
        None => false,
    }
}

/// Gives a variable the answer to an operation of which its own value is the first of two arguments.
/// The value is handed over and not copied, since the host is sure to answer.
fn takes_own<'c, H: Host>(
    code: &'c Code,
    host: &mut H,
    run: &mut Running<'c>,
    target: &Named,
    expr: &'c Expr,
) -> Result<bool, Exit<H::Stop>>
    requires { AtExpr H.Host code.now host.old run.old expr.now }
    ensures done { SetsByAsk H.Host code.now target.now expr.now result
        host.old run.old host.new run.new }
    ensures host { IfOk result (λ done. done ≡ false → host.new ≡ host.old) }
    ensures run { IfOk result (λ done. done ≡ false → run.new ≡ run.old) }
    ensures stack { run.new.stack ≡ run.old.stack }
    ensures fuel { run.new.store.fuel ≡ run.old.store.fuel }
    ensures stops { StopsAtExpr H.Host code.now expr.now result host.old run.old host.new run.new }
{
    let Expr::Call(name, args) = expr else {
        return Ok(false);
    };
    let Some((op, second)) = beside_own(code, &run.store, &run.current, target, name, args) else {
        return Ok(false);
    };
    if !gives_for_own(&*code, host, &run.store, &run.current, target, op, &second) {
        drop(second);
        return Ok(false);
    }
    let names = run.current.names;
    let Some(own) = take(code, &mut run.store, names, &mut run.current.locals, target) else {
        drop(second);
        return Ok(false);
    };
    let values = match pair(code.alloc(), own, second) {
        Ok(values) => values,
        Err(_) => return Err(Exit::OutOfMemory),
    };
    match answer(host, op, values) {
        Ok(value) => {
            set(code, &mut run.store, &mut run.current, target, value);
            Ok(true)
        }
        Err(stop) => Err(Exit::Host(stop)),
    }
}

/// Gives a variable the answer to an operation that the host is sure to answer with a value.
fn takes_answer<'c, H: Host>(
    code: &'c Code,
    host: &mut H,
    run: &mut Running<'c>,
    target: &Named,
    expr: &'c Expr,
) -> Result<bool, Exit<H::Stop>>
    requires { AtExpr H.Host code.now host.old run.old expr.now }
    ensures done { SetsByAsk H.Host code.now target.now expr.now result
        host.old run.old host.new run.new }
    ensures host { IfOk result (λ done. done ≡ false → host.new ≡ host.old) }
    ensures run { IfOk result (λ done. done ≡ false → run.new ≡ run.old) }
    ensures stack { run.new.stack ≡ run.old.stack }
    ensures fuel { run.new.store.fuel ≡ run.old.store.fuel }
    ensures stops { StopsAtExpr H.Host code.now expr.now result host.old run.old host.new run.new }
{
    match takes_own(code, host, run, target, expr) {
        Ok(true) => return Ok(true),
        Ok(false) => {}
        Err(exit) => return Err(exit),
    }
    match value(code, host, &run.store, &run.current, expr) {
        Ok(Some(value)) => {
            set(code, &mut run.store, &mut run.current, target, value);
            Ok(true)
        }
        Ok(None) => Ok(false),
        Err(exit) => Err(exit),
    }
}

/// Does the first statement of some where it is an operation that the host is sure to answer with a
/// value. Gives the statements after it.
fn first_asked<'c, H: Host>(
    code: &'c Code,
    host: &mut H,
    run: &mut Running<'c>,
    stmts: &'c [Stmt],
) -> Result<Option<&'c [Stmt]>, Exit<H::Stop>>
    requires { AtBlock H.Host code.now host.old run.old stmts.now }
    ensures some { FirstAsks H.Host code.now stmts.now result host.old run.old host.new run.new }
    ensures shorter { IfOk result (λ o. IfSome o (λ rest. length rest.now < length stmts.now)) }
    ensures host { IfOk result (λ o. IfNone o (host.new ≡ host.old)) }
    ensures run { IfOk result (λ o. IfNone o (run.new ≡ run.old)) }
    ensures stack { run.new.stack ≡ run.old.stack }
    ensures fuel { run.new.store.fuel ≡ run.old.store.fuel }
    ensures stops { StopsInBlock H.Host code.now stmts.now result host.old run.old host.new run.new }
{
    let Some((stmt, rest)) = stmts.split_first() else {
        return Ok(None);
    };
    let done = match stmt {
        Stmt::Var(name, expr) => takes_answer(code, host, run, name, expr),
        Stmt::Assign(name, expr) => takes_answer(code, host, run, name, expr),
        Stmt::Expr(expr) => asks(code, host, &run.store, &run.current, expr),
        _ => Ok(false),
    };
    match done {
        Ok(true) => Ok(Some(rest)),
        Ok(false) => Ok(None),
        Err(exit) => Err(exit),
    }
}

/// Does the first statements of some, of which the first is not done at once, while each is such an
/// operation or is done at once. Gives the statements that are left.
pub fn asked<'c, H: Host>(
    code: &'c Code,
    host: &mut H,
    run: &mut Running<'c>,
    stmts: &'c [Stmt],
) -> Result<&'c [Stmt], Exit<H::Stop>>
    requires { AtBlock H.Host code.now host.old run.old stmts.now }
    ensures ok { AllAsk H.Host code.now stmts.now result host.old run.old host.new run.new }
    ensures stack { run.new.stack ≡ run.old.stack }
    ensures fuel { run.new.store.fuel ≤ run.old.store.fuel }
    ensures stops { StopsInBlock H.Host code.now stmts.now result host.old run.old host.new run.new }
{
    let mut rest = stmts;
    'asked: loop {
        match first_asked(code, host, run, rest) {
            Ok(Some(more)) => {
                rest = assigned::<H>(code, &mut run.store, &mut run.current, more);
            }
            Ok(None) => return Ok(rest),
            Err(exit) => return Err(exit),
        }
    }
}
