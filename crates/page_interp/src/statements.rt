//! Steps from a statement, and from statements in a row.

ghost use Rattle.std.specs.Prelude.{◌≡◌, IfOk, IfErr, IfSome, IfNone};
ghost use Rattle.page_types.specs.Tree.{no_stmts};
ghost use Rattle.lang_meaning.specs.Evaluation.{own_body};
ghost use Rattle.lang_ast.specs.Seen.{seen_items};
ghost use Rattle.page_interp.specs.StackClauses.{MovesOn, IsFirstAmong};
ghost use Rattle.page_interp.specs.declared.exit.Exit.TheVariants as exit;
ghost use Rattle.page_interp.specs.declared.stack.Focus.TheVariants as focus;

use crate::exit::Exit;
use crate::stack::{Focus, Frame, Waiting, wait, within};
use lang_ast::{Expr, Host, Item, Stmt};
use page_values::Value;

/// From a statement.
pub fn from_stmt<'c, H: Host>(
    stack: &mut Vec<Frame<'c>>,
    stmt: &'c Stmt,
) -> Result<Focus<'c>, Exit<H::Stop>>
    ensures ok { IfOk result (MovesOn H.rules (focus.Stmt stmt.entry) stack.old stack.new) }
    ensures err { IfErr result (λ x. x ≡ exit.OutOfMemory) }
{
    match stmt {
        Stmt::Var(x, e) => within(stack, Frame::Assign(x), Focus::Expr(e)),
        Stmt::Assign(x, e) => within(stack, Frame::Assign(x), Focus::Expr(e)),
        Stmt::Expr(e) => wait(stack, Waiting::Ignore, e),
        Stmt::If(e, block, others, last) => wait(stack, Waiting::If(block, others, last), e),
        Stmt::While(e, block) => within(stack, Frame::Test(e, block), Focus::Expr(e)),
        Stmt::Return(e) => match e {
            None => Ok(Focus::Return(Value::Unit)),
            Some(e) => wait(stack, Waiting::Return, e),
        },
        Stmt::Throw(e) => wait(stack, Waiting::Throw, e),
        Stmt::Try(block, x, handler) => within(stack, Frame::Try(x, handler), Focus::Block(block)),
    }
}

/// From the `else if` parts in a row, and where none is left from the `else` part.
pub fn from_others<'c, H: Host>(
    stack: &mut Vec<Frame<'c>>,
    others: &'c [(Expr, Vec<Stmt>)],
    last: &'c Option<Vec<Stmt>>,
) -> Result<Focus<'c>, Exit<H::Stop>>
    ensures ok { IfOk result (MovesOn H.rules (focus.Others others.entry last.entry)
        stack.old stack.new) }
    ensures err { IfErr result (λ x. x ≡ exit.OutOfMemory) }
{
    match others.split_first() {
        Some((other, rest)) => wait(stack, Waiting::If(&other.1, rest, last), &other.0),
        None => match last {
            Some(block) => Ok(Focus::Block(block)),
            None => Ok(Focus::Value(Value::Unit)),
        },
    }
}

/// The first statement among some items, and the items after it.
fn first_stmt(items: &[Item]) -> Option<(&Stmt, &[Item])>
    ensures some { IfSome result (IsFirstAmong items.now) }
    ensures none { IfNone result (own_body (seen_items items.now) ≡ no_stmts) }
{
    let mut rest = items;
    while let Some((item, more)) = rest.split_first() {
        if let Item::Stmt(stmt) = item {
            return Some((stmt, more));
        }
        rest = more;
    }
    None
}

/// From the statements outside functions.
pub fn from_items<'c, H: Host>(
    stack: &mut Vec<Frame<'c>>,
    items: &'c [Item],
) -> Result<Focus<'c>, Exit<H::Stop>>
    ensures ok { IfOk result (MovesOn H.rules (focus.Items items.entry) stack.old stack.new) }
    ensures err { IfErr result (λ x. x ≡ exit.OutOfMemory) }
{
    match first_stmt(items) {
        Some((stmt, rest)) => within(stack, Frame::Wait(Waiting::Items(rest)), Focus::Stmt(stmt)),
        None => Ok(Focus::Value(Value::Unit)),
    }
}
