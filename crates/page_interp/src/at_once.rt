//! Steps that are done at once: the arguments of a row and the turns of a loop, where they call
//! nothing.

ghost use Rattle.std.specs.Prelude.{◌≡◌, ◌<◌, ◌≤◌, [], true, false, Some, None, IfOk, IfErr, IfSome};
ghost use Rattle.page_parts.specs.Kinds.{bool_in};
ghost use Rattle.page_values.specs.declared.Value.{Value};
ghost use Rattle.page_values.specs.Seen.{seen};
ghost use Rattle.page_interp.specs.AtOnce.{HasFirst, IsBoolThere};
ghost use Rattle.page_interp.specs.Frames.{IsSet};
ghost use Rattle.page_interp.specs.StackClauses.{RowLeaves, RowGoes, BeginsTurn, ComesToTest};
ghost use Rattle.page_interp.specs.Running.{TestLeads, TestWants};
ghost use Rattle.page_interp.specs.declared.exit.Exit.TheVariants as exit;

use crate::blocks::assigned;
use crate::code::Code;
use crate::direct::{direct_compare, direct_value};
use crate::exit::{Exit, Store};
use crate::expressions::from_row;
use crate::stack::{Current, Focus, Frame, Purpose, Running, push};
use crate::variables::assign;
use lang_ast::{Expr, Host, Named, Stmt};
use page_values::{FaultName, MemoryFault, Value, as_bool, fault};

/// A variable takes a value.
pub fn set<'c>(
    code: &Code,
    store: &mut Store,
    current: &mut Current<'c>,
    name: &Named,
    value: Value,
)
    ensures { IsSet code.now store.old current.old name.now.name value store.new current.new }
{
    assign(code, store, current.names, &mut current.locals, name, value);
}

/// From the value of a loop's condition: its block is next, with a unit less.
pub fn into_test<'c, H: Host>(
    code: &'c Code,
    run: &mut Running<'c>,
    value: &Value,
    test: &'c Expr,
    block: &'c [Stmt],
) -> Result<Focus<'c>, Exit<H::Stop>>
    ensures ok { IfOk result (TestLeads H.rules code.now test.entry block.entry value.now
        run.old run.new) }
    ensures err { TestWants result code.now test.entry block.entry value.now run.old run.new }
    ensures enters { IfErr result (λ _. bool_in (seen value.now) ≡ Some true) }
{
    match as_bool(value) {
        Some(true) => {
            if run.store.fuel == 0 {
                return Err(Exit::Fuel);
            }
            run.store.fuel -= 1;
            push(&mut run.stack, Frame::Turn(test, block))?;
            Ok(Focus::Block(block))
        }
        Some(false) => Ok(Focus::Value(Value::Unit)),
        None => Ok(Focus::Throw(fault(code.alloc(), FaultName::TypeError))),
    }
}

/// The value of the first of some expressions, where it is found at once, and the expressions after
/// it.
fn first_value<'c>(
    code: &Code,
    store: &Store,
    current: &Current,
    exprs: &'c [Expr],
) -> Result<Option<(Value, &'c [Expr])>, MemoryFault>
    ensures { IfOk result (λ o. IfSome o (λ g.
        HasFirst code.now store.now current.now exprs.now g.0 g.1.now)) }
{
    let Some((expr, rest)) = exprs.split_first() else {
        return Ok(None);
    };
    match direct_value(code, store, current, expr)? {
        Some(value) => Ok(Some((value, rest))),
        None => Ok(None),
    }
}

/// Takes the first expressions of some while their values are found at once: puts these behind the
/// values so far, and gives the expressions that are left.
pub fn first_values<'c, H: Host>(
    code: &Code,
    store: &Store,
    current: &Current,
    values: &mut Vec<Value>,
    exprs: &'c [Expr],
) -> Result<&'c [Expr], MemoryFault>
    ensures { IfOk result (RowLeaves H.rules code.now store.now current.now
        values.old exprs.now values.new) }
{
    let mut rest = exprs;
    'taken: while let Some((value, more)) = first_value(code, store, current, rest)? {
        values.push(value)?;
        rest = more;
    }
    Ok(rest)
}

/// From expressions in a row. Those in front whose values are found at once are done in one step.
pub fn next_in_row<'c, H: Host>(
    code: &Code,
    store: &Store,
    current: &Current,
    stack: &mut Vec<Frame<'c>>,
    purpose: Purpose,
    mut values: Vec<Value>,
    exprs: &'c [Expr],
) -> Result<Focus<'c>, Exit<H::Stop>>
    ensures ok { RowGoes result H.rules code.now purpose values exprs.entry
        store.now current.now stack.old stack.new }
    ensures err { IfErr result (λ x. x ≡ exit.OutOfMemory) }
{
    match first_values::<H>(code, store, current, &mut values, exprs) {
        Ok(rest) => from_row::<H>(code.alloc(), stack, purpose, values, rest),
        Err(_) => {
            drop(purpose);
            drop(values);
            Err(Exit::OutOfMemory)
        }
    }
}

/// Does the turns of a loop while its condition is found at once and holds, a unit is left and the
/// block only gives variables values that are found at once. What is left is the rest of the block
/// in the turn that has begun, or the condition where there is no such rest.
pub fn turns_at_once<'c, H: Host>(
    code: &'c Code,
    store: &mut Store,
    current: &mut Current<'c>,
    test: &'c Expr,
    block: &'c [Stmt],
) -> Option<&'c [Stmt]>
    ensures some { BeginsTurn result H.rules code.now test.now block.now
        store.old current.old store.new current.new }
    ensures none { ComesToTest result H.rules code.now test.now block.now
        store.old current.old store.new current.new }
    ensures unit { IfSome result (λ _. store.new.fuel < store.old.fuel) }
    ensures fuel { store.new.fuel ≤ store.old.fuel }
{
    'turns: while store.fuel > 0 {
        let Some(true) = truth(code, store, current, test) else {
            return None;
        };
        store.fuel -= 1;
        let rest = assigned::<H>(code, store, current, block);
        if !rest.is_empty() {
            return Some(rest);
        }
    }
    None
}

/// Whether an expression is true or false, where its value is found at once and is a Bool.
pub fn truth(code: &Code, store: &Store, current: &Current, expr: &Expr) -> Option<bool>
    ensures { IfSome result (IsBoolThere code.now store.now current.now expr.now) }
{
    if let Expr::Compare(left, sign, right) = expr {
        return direct_compare(code, store, current, left, *sign, right);
    }
    match direct_value(code, store, current, expr) {
        Ok(Some(Value::Bool(b))) => Some(b),
        Ok(_) => None,
        // No memory for the value: the steps from this expression find that too.
        Err(_) => None,
    }
}

/// Whether a condition with no `else` side is found at once and does not hold.
pub fn passes(
    code: &Code,
    store: &Store,
    current: &Current,
    test: &Expr,
    others: &[(Expr, Vec<Stmt>)],
    last: &Option<Vec<Stmt>>,
) -> bool
    ensures fails { result ≡ true → IsBoolThere code.now store.now current.now test.now false }
    ensures no_others { result ≡ true → others.now ≡ [] }
    ensures no_else { result ≡ true → last.now ≡ None }
{
    others.is_empty() && last.is_none() && truth(code, store, current, test) == Some(false)
}
