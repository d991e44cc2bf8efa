//! The steps of a run, until the outermost call ends.

ghost use Rattle.std.specs.Prelude.{◌≡◌, [], ◌+◌, ◌<◌, ◌≤◌, IfOk, IfErr};
ghost use Rattle.std.specs.Option.{option_map};
ghost use Rattle.page_values.specs.Seen.{seen};
ghost use Rattle.page_interp.specs.Clauses.{count_in, CanCall};
ghost use Rattle.page_interp.specs.Frames.{IsWant, IsCallable, AreSeenNumbered};
ghost use Rattle.page_interp.specs.Running.{LeadsTo, RunBegins, RunEnds, RunsAt, StepsOn};
ghost use Rattle.page_interp.specs.StackClauses.{RunsCall};
ghost use Rattle.page_interp.specs.declared.exit.Exit.TheVariants as exit;
ghost use Rattle.page_interp.specs.declared.stack.Focus.TheVariants as focus;

use crate::answered::known;
use crate::asking::{ask, resume};
use crate::at_once::{into_test, next_in_row, set};
use crate::code::Code;
use crate::exit::{Exit, Store, no_store};
use crate::expressions::from_expr;
use crate::names::Names;
use crate::opening::{callable, callee_body, callee_locals, callee_names, open};
use crate::receiving::receive;
use crate::stack::{Current, Focus, Frame, Running, Waiting, pop};
use crate::statements::{from_items, from_others, from_stmt};
use crate::turns::{from_stmts, next_turn};
use crate::values::{ended, joined};
use lang_ast::{Host, Outcome};
use page_values::{Value, fault};

/// A call ends: the variables of its caller are the innermost ones again.
fn close<'c>(current: &mut Current<'c>, names: &'c Names, locals: Vec<Value>)
    requires { 0 < current.old.depth }
    ensures names { current.new.names ≡ names.entry }
    ensures locals { current.new.locals ≡ locals }
    ensures depth { current.new.depth + 1 ≡ current.old.depth }
{
    current.names = names;
    current.locals = locals;
    current.depth -= 1;
}

/// A call of what a name stood for.
fn call<'c, H: Host>(
    code: &'c Code,
    run: &mut Running<'c>,
    callee: Option<Value>,
    args: Vec<Value>,
) -> Result<Focus<'c>, Exit<H::Stop>>
    ensures ok { IfOk result (LeadsTo H.rules code.now (focus.Call callee args) run.old run.new) }
    ensures err { IfErr result (IsWant run.old.store.fuel) }
    ensures called { IfErr result (λ _. IsCallable run.old.current.depth (option_map seen callee)) }
    ensures globals { run.new.store.globals ≡ run.old.store.globals }
    ensures fuel { run.new.store.fuel ≤ run.old.store.fuel }
{
    match callable(run.current.depth, callee) {
        Ok(called) => {
            let all = match joined(called.bound, args) {
                Ok(all) => all,
                Err(_) => return Err(Exit::OutOfMemory),
            };
            open::<H>(code, run, called.function, all)
        }
        Err(name) => Ok(Focus::Throw(fault(code.alloc(), name))),
    }
}

/// A value comes back to the frame on top.
fn from_value<'c, H: Host>(
    code: &'c Code,
    host: &mut H,
    run: &mut Running<'c>,
    value: Value,
) -> Result<Focus<'c>, Exit<H::Stop>>
    requires stood { RunsAt H.Host code.now host.old run.old (focus.Value value) }
    ensures { StepsOn H.Host code.now (focus.Value value) result host.old run.old host.new run.new }
{
    match pop(&mut run.stack) {
        None => {
            drop(value);
            Err(Exit::Return(Value::Unit))
        }
        Some(Frame::Wait(Waiting::Stmts(rest))) => {
            drop(value);
            from_stmts(code, host, run, rest)
        }
        Some(Frame::Wait(waiting)) => receive::<H>(code.alloc(), &mut run.stack, waiting, value),
        Some(Frame::Assign(name)) => {
            set(code, &mut run.store, &mut run.current, name, value);
            Ok(Focus::Value(Value::Unit))
        }
        Some(Frame::Test(test, block)) => {
            let next = into_test::<H>(code, run, &value, test, block);
            drop(value);
            next
        }
        Some(Frame::Turn(test, block)) => {
            drop(value);
            next_turn(code, host, run, test, block)
        }
        Some(Frame::Try(_, _)) => Ok(Focus::Value(value)),
        Some(Frame::Open(names, locals)) => {
            drop(value);
            close(&mut run.current, names, locals);
            Ok(Focus::Value(Value::Unit))
        }
        Some(Frame::Host(ticket)) => resume(code, host, run, ticket, Outcome::Value(value)),
    }
}

/// A throw unwinds the frame on top, where no `try` catches it.
fn from_throw<'c, H: Host>(
    code: &'c Code,
    host: &mut H,
    run: &mut Running<'c>,
    value: Value,
) -> Result<Focus<'c>, Exit<H::Stop>>
    requires stood { RunsAt H.Host code.now host.old run.old (focus.Throw value) }
    ensures { StepsOn H.Host code.now (focus.Throw value) result host.old run.old host.new run.new }
{
    match pop(&mut run.stack) {
        None => Err(Exit::Throw(value)),
        Some(Frame::Wait(waiting)) => {
            drop(waiting);
            Ok(Focus::Throw(value))
        }
        Some(Frame::Assign(_)) => Ok(Focus::Throw(value)),
        Some(Frame::Test(_, _)) => Ok(Focus::Throw(value)),
        Some(Frame::Turn(_, _)) => Ok(Focus::Throw(value)),
        Some(Frame::Try(name, handler)) => {
            set(code, &mut run.store, &mut run.current, name, value);
            Ok(Focus::Block(handler))
        }
        Some(Frame::Open(names, locals)) => {
            close(&mut run.current, names, locals);
            Ok(Focus::Throw(value))
        }
        Some(Frame::Host(ticket)) => resume(code, host, run, ticket, Outcome::Throw(value)),
    }
}

/// A value returns from the innermost call.
fn from_return<'c, H: Host>(
    code: &'c Code,
    host: &mut H,
    run: &mut Running<'c>,
    value: Value,
) -> Result<Focus<'c>, Exit<H::Stop>>
    requires stood { RunsAt H.Host code.now host.old run.old (focus.Return value) }
    ensures { StepsOn H.Host code.now (focus.Return value) result host.old run.old host.new run.new }
{
    match pop(&mut run.stack) {
        None => Err(Exit::Return(value)),
        Some(Frame::Wait(waiting)) => {
            drop(waiting);
            Ok(Focus::Return(value))
        }
        Some(Frame::Assign(_)) => Ok(Focus::Return(value)),
        Some(Frame::Test(_, _)) => Ok(Focus::Return(value)),
        Some(Frame::Turn(_, _)) => Ok(Focus::Return(value)),
        Some(Frame::Try(_, _)) => Ok(Focus::Return(value)),
        Some(Frame::Open(names, locals)) => {
            close(&mut run.current, names, locals);
            Ok(Focus::Value(value))
        }
        Some(Frame::Host(ticket)) => resume(code, host, run, ticket, Outcome::Value(value)),
    }
}

/// One step. An `Err` tells how the outermost call ends.
fn step<'c, H: Host>(
    code: &'c Code,
    host: &mut H,
    run: &mut Running<'c>,
    focus: Focus<'c>,
) -> Result<Focus<'c>, Exit<H::Stop>>
    requires stood { RunsAt H.Host code.now host.old run.old focus }
    ensures { StepsOn H.Host code.now focus.entry result host.old run.old host.new run.new }
{
    match focus {
        Focus::Expr(expr) => match known(&*code, &*host, &run.store, &run.current, expr) {
            Some(value) => Ok(Focus::Value(value)),
            None => { from_expr::<H>(code, &mut run.store, &run.current, &mut run.stack, expr) }
        },
        Focus::Row(purpose, values, exprs) => {
            let stack = &mut run.stack;
            next_in_row::<H>(
                code,
                &run.store,
                &run.current,
                stack,
                purpose,
                values,
                exprs,
            )
        }
        Focus::Stmt(stmt) => from_stmt::<H>(&mut run.stack, stmt),
        Focus::Block(stmts) => from_stmts(code, host, run, stmts),
        Focus::Items(items) => from_items::<H>(&mut run.stack, items),
        Focus::Others(others, last) => from_others::<H>(&mut run.stack, others, last),
        Focus::Ask(op, args) => ask(code, host, run, op, args),
        Focus::Call(callee, args) => call::<H>(code, run, callee, args),
        Focus::Value(value) => from_value(code, host, run, value),
        Focus::Throw(value) => from_throw(code, host, run, value),
        Focus::Return(value) => from_return(code, host, run, value),
    }
}

/// All steps of a call whose body is next, where nothing waits for its end: how it ends.
fn run_on<'c, H: Host>(
    code: &'c Code,
    host: &mut H,
    run: &mut Running<'c>,
    first: Focus<'c>,
) -> Exit<H::Stop>
    requires stood { RunBegins H.Host code.now host.old run.old first }
    requires alone { run.old.stack.items ≡ [] }
    ensures { RunEnds H.Host code.now first.entry host.old run.old result host.new run.new }
{
    let mut focus = first;
    'steps: loop {
        focus = match step(code, host, run, focus) {
            Ok(next) => next,
            Err(exit) => return exit,
        };
    }
}

/// A call of a function by its number, with all its arguments, where no call is open.
pub fn run_function<H: Host>(
    code: &Code,
    host: &mut H,
    store: &mut Store,
    function: u32,
    args: Vec<Value>,
) -> Result<Value, Exit<H::Stop>>
    requires ready { CanCall H.rules H.leaves code.now (H.now host.old) store.old }
    requires args { AreSeenNumbered (count_in code.now) args }
    ensures { RunsCall H.rules H.leaves H.now code.now function args
        host.old store.old result host.new store.new }
{
    if store.fuel == 0 {
        return Err(Exit::Fuel);
    }
    let locals = match callee_locals(code, function, args) {
        Ok(locals) => locals,
        Err(_) => return Err(Exit::OutOfMemory),
    };
    store.fuel -= 1;
    let current = Current {
        names: callee_names(code, function),
        locals,
        depth: 1,
    };
    let body = callee_body(code, function);
    let mut run = Running {
        store: std::mem::replace(store, no_store(code.alloc())),
        current,
        stack: Vec::new(code.alloc()),
    };
    let exit = run_on(code, host, &mut run, body);
    *store = run.store;
    ended(Err(exit))
}
