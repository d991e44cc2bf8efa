//! Writes the functions that an async function becomes.

ghost use Rattle.std.specs.Prelude.{◌≡◌, ◌<◌, ◌+◌, ◌^◌, IfOk, length, map};
ghost use Rattle.page_types.specs.Tree.{AssignStmt};
ghost use Rattle.lang_meaning.specs.Evaluation.{functions_of};
ghost use Rattle.lang_ast.specs.Seen.{seen_name, seen_exprs, seen_stmt, seen_block};
ghost use Rattle.lang_parse.specs.Grammar.{names_behind, stmt_spelling, stmts_spelling, item_spelling, script_spelling};
ghost use Rattle.async_segments.specs.Names.{new_name, segment_name, rejecting_name};
ghost use Rattle.async_segments.specs.Expanded.{awaited_value, store, rejecting_fn};
ghost use Rattle.async_segments.specs.Encoded.{operand_from, await_in, cut};
ghost use Rattle.async_segments.specs.Awaits.{seen_form};
ghost use Rattle.async_segments.specs.Segments.{segment_head, begin_symbols, end_symbols, last_end_symbols, bind_symbols, bind_end_symbols};
ghost use Rattle.async_segments.specs.Segments.{rejection_symbols, promise_symbols, promise_returned_symbols, resolved_symbols};
ghost use Rattle.async_segments.specs.Segments.{unit_behind, next_count};
ghost use Rattle.async_segments.specs.Written.{Adds, names_of, Writes};
ghost use Rattle.async_segments.specs.OfCode.{parameter_names, parameters_behind, first_call_of, starting_of, wait_of, await_of, step_of};
ghost use Rattle.async_segments.specs.OfCode.{segments_of, async_fns_of};

use crate::awaits::{Await, Form, await_in};
use crate::expressions::write_joined;
use crate::heads::write_head;
use crate::locals::has_parameter;
use crate::statements::{write_call_end, write_resolve, write_return, write_stmt};
use crate::written::{Written, name, own_name, sign, word};
use lang_ast::{Expr, Function, Named, Stmt};
use page_values::print_number;
use std::alloc::{AllocError, Global};

/// f__k
fn segment_name(alloc: Global, function: &[u8], k: usize) -> Result<Vec<u8>, AllocError>
    ensures { IfOk result (λ x. x.items ≡ segment_name function.now k) }
{
    let mut name = function.to_vec(alloc)?;
    name.extend_from_slice(b"__")?;
    print_number(k as u64, &mut name)?;
    Ok(name)
}

/// f__r
fn rejecting_name(alloc: Global, function: &[u8]) -> Result<Vec<u8>, AllocError>
    ensures { IfOk result (λ x. x.items ≡ rejecting_name function.now) }
{
    let mut name = function.to_vec(alloc)?;
    name.extend_from_slice(b"__r")?;
    Ok(name)
}

/// Names, each behind a comma.
fn write_names_behind(
    alloc: Global,
    names: &Vec<Vec<u8>>,
    into: &mut Vec<Written>,
) -> Result<(), AllocError>
    ensures { Writes result into.old into.new (names_behind (map new_name (names_of names.now.items))) }
{
    for spelling in names {
        sign(alloc, b",", into)?;
        name(alloc, spelling, into)?;
    }
    Ok(())
}

/// { var p__ = promise();
fn write_promise(alloc: Global, into: &mut Vec<Written>) -> Result<(), AllocError>
    ensures { IfOk result (λ _. Adds into.old.items into.new.items (promise_symbols)) }
{
    sign(alloc, b"{", into)?;
    word(alloc, b"var", into)?;
    name(alloc, b"p__", into)?;
    sign(alloc, b"=", into)?;
    name(alloc, b"promise", into)?;
    sign(alloc, b"(", into)?;
    write_call_end(alloc, into)
}

/// return p__; }
fn write_promise_returned(alloc: Global, into: &mut Vec<Written>) -> Result<(), AllocError>
    ensures { IfOk result (λ _. Adds into.old.items into.new.items (promise_returned_symbols)) }
{
    word(alloc, b"return", into)?;
    name(alloc, b"p__", into)?;
    sign(alloc, b";", into)?;
    sign(alloc, b"}", into)
}

/// The parameters, each behind a comma.
fn write_parameters_behind(
    alloc: Global,
    parameters: &Vec<Named>,
    into: &mut Vec<Written>,
) -> Result<(), AllocError>
    ensures { Writes result into.old into.new (parameters_behind parameters.now.items) }
{
    for parameter in parameters {
        sign(alloc, b",", into)?;
        name(alloc, parameter.name.bytes(), into)?;
    }
    Ok(())
}

/// A comma and unit for a local name that is no parameter.
fn write_unit(
    alloc: Global,
    parameters: &Vec<Named>,
    local: &[u8],
    into: &mut Vec<Written>,
) -> Result<(), AllocError>
    ensures { Writes result into.old into.new (unit_behind (parameter_names parameters.now.items) local.now) }
{
    if has_parameter(parameters, local) {
        return Ok(());
    }
    sign(alloc, b",", into)?;
    word(alloc, b"unit", into)
}

/// f__0(p__, A);
fn write_first_call(
    alloc: Global,
    function: &Function,
    locals: &Vec<Vec<u8>>,
    into: &mut Vec<Written>,
) -> Result<(), AllocError>
    ensures { Writes result into.old into.new (first_call_of function.now locals.now.items) }
{
    let first = segment_name(alloc, function.name.name.bytes(), 0)?;
    name(alloc, &first, into)?;
    sign(alloc, b"(", into)?;
    name(alloc, b"p__", into)?;
    write_parameters_behind(alloc, &function.parameters, into)?;
    for local in locals {
        write_unit(alloc, &function.parameters, local, into)?;
    }
    write_call_end(alloc, into)
}

/// fn f(P) { var p__ = promise(); f__0(p__, A); return p__; }
fn write_starting(
    alloc: Global,
    function: &Function,
    locals: &Vec<Vec<u8>>,
    into: &mut Vec<Written>,
) -> Result<(), AllocError>
    ensures { Writes result into.old into.new (starting_of function.now locals.now.items) }
{
    write_head(alloc, function, into)?;
    write_promise(alloc, into)?;
    write_first_call(alloc, function, locals, into)?;
    write_promise_returned(alloc, into)
}

/// fn f__r(p__, r__) { reject(p__, r__); }
fn write_rejecting(
    alloc: Global,
    function: &[u8],
    into: &mut Vec<Written>,
) -> Result<(), AllocError>
    ensures { IfOk result (λ _. Adds into.old.items into.new.items (item_spelling (rejecting_fn function.now))) }
{
    let rejecting = rejecting_name(alloc, function)?;
    word(alloc, b"fn", into)?;
    name(alloc, &rejecting, into)?;
    sign(alloc, b"(", into)?;
    name(alloc, b"p__", into)?;
    sign(alloc, b",", into)?;
    name(alloc, b"r__", into)?;
    sign(alloc, b")", into)?;
    write_rejection(alloc, b"r__", into)
}

/// { reject(p__, x); }
fn write_rejection(alloc: Global, reason: &[u8], into: &mut Vec<Written>) -> Result<(), AllocError>
    ensures { IfOk result (λ _. Adds into.old.items into.new.items (rejection_symbols reason.now)) }
{
    sign(alloc, b"{", into)?;
    name(alloc, b"reject", into)?;
    sign(alloc, b"(", into)?;
    name(alloc, b"p__", into)?;
    sign(alloc, b",", into)?;
    name(alloc, reason, into)?;
    write_call_end(alloc, into)?;
    sign(alloc, b"}", into)
}

/// fn f__k(p__, L
fn write_segment_head(
    alloc: Global,
    function: &[u8],
    k: usize,
    locals: &Vec<Vec<u8>>,
    into: &mut Vec<Written>,
) -> Result<(), AllocError>
    ensures { Writes result into.old into.new (segment_head function.now k (names_of locals.now.items)) }
{
    let segment = segment_name(alloc, function, k)?;
    word(alloc, b"fn", into)?;
    name(alloc, &segment, into)?;
    sign(alloc, b"(", into)?;
    name(alloc, b"p__", into)?;
    write_names_behind(alloc, locals, into)
}

/// ) { try {
fn write_begin(alloc: Global, into: &mut Vec<Written>) -> Result<(), AllocError>
    ensures { IfOk result (λ _. Adds into.old.items into.new.items (begin_symbols)) }
{
    sign(alloc, b")", into)?;
    sign(alloc, b"{", into)?;
    word(alloc, b"try", into)?;
    sign(alloc, b"{", into)
}

/// } catch (e__) { reject(p__, e__); } }
fn write_end(alloc: Global, into: &mut Vec<Written>) -> Result<(), AllocError>
    ensures { IfOk result (λ _. Adds into.old.items into.new.items (end_symbols)) }
{
    sign(alloc, b"}", into)?;
    word(alloc, b"catch", into)?;
    sign(alloc, b"(", into)?;
    name(alloc, b"e__", into)?;
    sign(alloc, b")", into)?;
    write_rejection(alloc, b"e__", into)?;
    sign(alloc, b"}", into)
}

/// resolve(p__, unit); } catch (e__) { reject(p__, e__); } }
fn write_last_end(alloc: Global, into: &mut Vec<Written>) -> Result<(), AllocError>
    ensures { IfOk result (λ _. Adds into.old.items into.new.items (last_end_symbols)) }
{
    write_resolve(alloc, into)?;
    word(alloc, b"unit", into)?;
    write_call_end(alloc, into)?;
    write_end(alloc, into)
}

/// bind(f__k, [p__
fn write_bind(alloc: Global, bound: &[u8], into: &mut Vec<Written>) -> Result<(), AllocError>
    ensures { IfOk result (λ _. Adds into.old.items into.new.items (bind_symbols bound.now)) }
{
    name(alloc, b"bind", into)?;
    sign(alloc, b"(", into)?;
    name(alloc, bound, into)?;
    sign(alloc, b",", into)?;
    sign(alloc, b"[", into)?;
    name(alloc, b"p__", into)
}

/// ])
fn write_bind_end(alloc: Global, into: &mut Vec<Written>) -> Result<(), AllocError>
    ensures { IfOk result (λ _. Adds into.old.items into.new.items (bind_end_symbols)) }
{
    sign(alloc, b"]", into)?;
    sign(alloc, b")", into)
}

/// then(resolved(E),
fn write_resolved(
    alloc: Global,
    operands: &Vec<Expr>,
    into: &mut Vec<Written>,
) -> Result<(), AllocError>
    requires { 0 < length operands.now.items }
    ensures { Writes result into.old into.new (resolved_symbols (operand_from (seen_exprs operands.now.items))) }
{
    name(alloc, b"then", into)?;
    sign(alloc, b"(", into)?;
    name(alloc, b"resolved", into)?;
    sign(alloc, b"(", into)?;
    write_joined(alloc, b"||", operands, into)?;
    sign(alloc, b")", into)?;
    sign(alloc, b",", into)
}

/// then(resolved(E), bind(f__k, [p__, L]), bind(f__r, [p__]));
fn write_wait(
    alloc: Global,
    function: &[u8],
    k: usize,
    locals: &Vec<Vec<u8>>,
    operands: &Vec<Expr>,
    into: &mut Vec<Written>,
) -> Result<(), AllocError>
    requires { 0 < length operands.now.items }
    ensures { Writes result into.old into.new (wait_of function.now locals.now.items k operands.now.items) }
{
    let segment = segment_name(alloc, function, k)?;
    let rejecting = rejecting_name(alloc, function)?;
    write_resolved(alloc, operands, into)?;
    write_bind(alloc, &segment, into)?;
    write_names_behind(alloc, locals, into)?;
    write_bind_end(alloc, into)?;
    sign(alloc, b",", into)?;
    write_bind(alloc, &rejecting, into)?;
    write_bind_end(alloc, into)?;
    write_call_end(alloc, into)
}

/// x = v__;
fn write_stored(alloc: Global, x: &Named, into: &mut Vec<Written>) -> Result<(), AllocError>
    ensures { Writes result into.old into.new (stmt_spelling (AssignStmt (seen_name x.now) awaited_value)) }
{
    own_name(alloc, x, into)?;
    sign(alloc, b"=", into)?;
    name(alloc, b"v__", into)?;
    sign(alloc, b";", into)
}

/// What is done with the value that was awaited.
fn write_store(alloc: Global, form: &Form<'_>, into: &mut Vec<Written>) -> Result<(), AllocError>
    ensures { IfOk result (λ _. Adds into.old.items into.new.items (stmts_spelling (store (seen_form form.now)))) }
{
    match form {
        Form::Alone => Ok(()),
        Form::Declared(x) => write_stored(alloc, x, into),
        Form::Stored(x) => write_stored(alloc, x, into),
        Form::Returned => {
            write_resolve(alloc, into)?;
            name(alloc, b"v__", into)?;
            write_call_end(alloc, into)?;
            write_return(alloc, into)
        }
    }
}

/// The end of a segment at an await, and the head of the one with number k, up to what is done with the value.
fn write_await(
    alloc: Global,
    function: &[u8],
    k: usize,
    locals: &Vec<Vec<u8>>,
    found: &Await<'_>,
    into: &mut Vec<Written>,
) -> Result<(), AllocError>
    requires { 0 < length found.now.operands.now.items }
    ensures { Writes result into.old into.new (await_of function.now locals.now.items k found.now) }
{
    write_wait(alloc, function, k, locals, found.operands, into)?;
    write_end(alloc, into)?;
    write_segment_head(alloc, function, k, locals, into)?;
    sign(alloc, b",", into)?;
    name(alloc, b"v__", into)?;
    write_begin(alloc, into)?;
    write_store(alloc, &found.form, into)
}

/// A statement of the function, behind so many awaits. It answers how many awaits there are with it.
fn write_step(
    alloc: Global,
    function: &[u8],
    awaits: usize,
    locals: &Vec<Vec<u8>>,
    stmt: &Stmt,
    into: &mut Vec<Written>,
) -> Result<usize, AllocError>
    requires { awaits + 1 < 2 ^ 64 }
    ensures written { Writes result into.old into.new (step_of function.now locals.now.items awaits stmt.now) }
    ensures count { IfOk result (λ n. n ≡ next_count awaits (await_in (seen_stmt stmt.now))) }
{
    match await_in(stmt) {
        Some(found) => {
            write_await(alloc, function, awaits + 1, locals, &found, into)?;
            Ok(awaits + 1)
        }
        None => {
            write_stmt(alloc, stmt, true, into)?;
            Ok(awaits)
        }
    }
}

/// The segments of a function. It answers how many awaits there are.
fn write_segments(
    alloc: Global,
    function: &[u8],
    locals: &Vec<Vec<u8>>,
    body: &Vec<Stmt>,
    into: &mut Vec<Written>,
) -> Result<usize, AllocError>
    ensures written { Writes result into.old into.new (segments_of function.now locals.now.items body.now.items) }
    ensures count { IfOk result (λ n. n ≡ length (cut (seen_block body.now.items)).others) }
{
    write_segment_head(alloc, function, 0, locals, into)?;
    write_begin(alloc, into)?;
    let mut awaits = 0;
    for stmt in body {
        awaits = write_step(alloc, function, awaits, locals, stmt, into)?;
    }
    write_last_end(alloc, into)?;
    Ok(awaits)
}

/// The functions that an async function becomes. It answers how many awaits there are, three fewer.
pub(crate) fn write_async(
    alloc: Global,
    function: &Function,
    locals: &Vec<Vec<u8>>,
    into: &mut Vec<Written>,
) -> Result<usize, AllocError>
    ensures written { Writes result into.old into.new (script_spelling (async_fns_of function.now locals.now.items)) }
    ensures count { IfOk result (λ n. n + 3 ≡ length (functions_of (async_fns_of function.now locals.now.items))) }
{
    write_starting(alloc, function, locals, into)?;
    let awaits = write_segments(
        alloc,
        function.name.name.bytes(),
        locals,
        &function.body,
        into,
    )?;
    write_rejecting(alloc, function.name.name.bytes(), into)?;
    Ok(awaits)
}
