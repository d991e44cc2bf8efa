//! Calls: what may be called, and how a call opens and closes.

ghost use Rattle.std.specs.Prelude.{◌≡◌, ◌<◌, ◌≤◌, Some, IfOk, IfErr};
ghost use Rattle.std.specs.Option.{option_map};
ghost use Rattle.page_values.specs.Seen.{seen, seen_func};
ghost use Rattle.lang_ast.specs.Calls.{CallsFit};
ghost use Rattle.lang_ast.specs.Names.{in_block};
ghost use Rattle.page_interp.specs.CodeNames.{function_at};
ghost use Rattle.page_interp.specs.Frames.{IsWant, IsUncalled, IsBody, call_names};
ghost use Rattle.page_interp.specs.Runs.{func_of};
ghost use Rattle.page_interp.specs.Running.{OpensOn};
ghost use Rattle.page_interp.specs.StackClauses.{body_at, AreCallLocals};

use crate::code::Code;
use crate::exit::Exit;
use crate::names::Names;
use crate::stack::{Focus, Frame, Running, push};
use crate::values::{callee, joined};
use crate::variables::locals_for;
use lang_ast::Host;
use page_values::{FaultName, Func, MemoryFault, Value};

/// How many calls may be open at once.
pub const OPEN_CALLS: u64 = 256;

/// The function that a value is, where it can be called with so many open calls.
pub fn callable(depth: u64, value: Option<Value>) -> Result<Func, FaultName>
    ensures ok { IfOk result (λ f. func_of (option_map seen value) ≡ Some (seen_func f)) }
    ensures room { IfOk result (λ _. depth < 256) }
    ensures err { IfErr result (IsUncalled depth (func_of (option_map seen value))) }
{
    let Some(function) = callee(value) else {
        return Err(FaultName::TypeError);
    };
    if depth >= OPEN_CALLS {
        return Err(FaultName::RangeError);
    }
    Ok(function)
}

/// The names of the variables of a function, or of the script's own body.
pub fn callee_names<'c>(code: &'c Code, function: u32) -> &'c Names
    ensures { result.now ≡ call_names (function_at code.now function) }
{
    match code.function(function) {
        Some(_) => code.locals_of(function),
        None => code.no_names(),
    }
}

/// The values of its variables where it is called with these arguments.
pub fn callee_locals(
    code: &Code,
    function: u32,
    args: Vec<Value>,
) -> Result<Vec<Value>, MemoryFault>
    ensures { IfOk result (AreCallLocals (function_at code.now function) args) }
{
    match code.function(function) {
        Some(called) => locals_for(called.parameters.len(), code.locals_of(function), args),
        None => Ok(Vec::new(code.alloc())),
    }
}

/// Its body.
pub fn callee_body<'c>(code: &'c Code, function: u32) -> Focus<'c>
    ensures body { IsBody (body_at code.now function) result }
    ensures fits { CallsFit (in_block (body_at code.now function)) }
{
    match code.function(function) {
        Some(called) => Focus::Block(&called.body),
        None => Focus::Items(code.items()),
    }
}

/// A call opens, where fewer than 256 are open: the body is next, with a unit less.
pub fn open<'c, H: Host>(
    code: &'c Code,
    run: &mut Running<'c>,
    function: u32,
    args: Vec<Value>,
) -> Result<Focus<'c>, Exit<H::Stop>>
    requires room { run.old.current.depth < 256 }
    ensures ok { IfOk result (OpensOn H.rules code.now function args run.old run.new) }
    ensures err { IfErr result (IsWant run.old.store.fuel) }
    ensures globals { run.new.store.globals ≡ run.old.store.globals }
    ensures fuel { run.new.store.fuel ≤ run.old.store.fuel }
{
    if run.store.fuel == 0 {
        return Err(Exit::Fuel);
    }
    let names = callee_names(code, function);
    let locals = match callee_locals(code, function, args) {
        Ok(locals) => locals,
        Err(_) => return Err(Exit::OutOfMemory),
    };
    let caller = std::mem::replace(&mut run.current.locals, locals);
    push(&mut run.stack, Frame::Open(run.current.names, caller))?;
    run.current.names = names;
    run.current.depth += 1;
    run.store.fuel -= 1;
    Ok(callee_body(code, function))
}
