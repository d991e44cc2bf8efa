//! The frames of a run: what is to be done next, and what waits for its value.

ghost use Rattle.std.specs.Prelude.{◌≡◌, [], IfOk, IfErr, IfSome, IfNone};
ghost use Rattle.page_interp.specs.Frames.{stacked, HasOnTop};
ghost use Rattle.page_interp.specs.declared.exit.Exit.TheVariants as exit;
ghost use Rattle.page_interp.specs.declared.stack.Focus.TheVariants as focus;
ghost use Rattle.page_interp.specs.declared.stack.Frame.TheVariants as frame;

use crate::exit::{Exit, Store};
use crate::names::Names;
use lang_ast::{CompareSign, Expr, Item, Named, Op, ProductSign, Stmt, SumSign, UnarySign};
use page_values::Value;

/// What is to be done next.
#[derive(Drop)]
pub enum Focus<'c> {
    Expr(&'c Expr),
    /// Values in a row: those so far, and the expressions of those that come.
    Row(Purpose, Vec<Value>, &'c [Expr]),
    Stmt(&'c Stmt),
    Block(&'c [Stmt]),
    Items(&'c [Item]),
    /// The conditions after `else if` with their blocks, and the block after `else`.
    Others(&'c [(Expr, Vec<Stmt>)], &'c Option<Vec<Stmt>>),
    /// An operation of the host, with its arguments.
    Ask(Op, Vec<Value>),
    /// A call of what a name stands for, with the given arguments.
    Call(Option<Value>, Vec<Value>),
    Value(Value),
    Throw(Value),
    Return(Value),
}

/// What values in a row are for.
#[derive(Drop)]
pub enum Purpose {
    List,
    Ask(Op),
    Call(Option<Value>),
}

/// What waits for a value and changes nothing else.
#[derive(Drop)]
pub enum Waiting<'c> {
    /// The further operands of `||`.
    Or(&'c [Expr]),
    /// The further operands of `&&`.
    And(&'c [Expr]),
    /// The right side of a comparison.
    Left(CompareSign, &'c Expr),
    /// The value of a comparison's left side.
    Right(CompareSign, Value),
    /// The further terms of a sum.
    Terms(&'c [(SumSign, Expr)]),
    /// The sum so far, the sign of the term that is awaited, and the terms after it.
    Term(Value, SumSign, &'c [(SumSign, Expr)]),
    /// The further factors of a product.
    Factors(&'c [(ProductSign, Expr)]),
    /// The product so far, the sign of the factor that is awaited, and the factors after it.
    Factor(Value, ProductSign, &'c [(ProductSign, Expr)]),
    Unary(UnarySign),
    /// The places in brackets behind a value.
    Places(&'c [Expr]),
    /// The value whose item is wanted, and the places after the one that is awaited.
    Place(Value, &'c [Expr]),
    /// The values so far, and the expressions after the one whose value is awaited.
    Row(Purpose, Vec<Value>, &'c [Expr]),
    /// A statement that is an expression.
    Ignore,
    /// The block of a condition, those after each `else if`, and the block after `else`.
    If(&'c [Stmt], &'c [(Expr, Vec<Stmt>)], &'c Option<Vec<Stmt>>),
    Return,
    Throw,
    /// The further statements of a block.
    Stmts(&'c [Stmt]),
    /// The further items of the script.
    Items(&'c [Item]),
}

/// What waits on the stack.
#[derive(Drop)]
pub enum Frame<'c> {
    Wait(Waiting<'c>),
    Assign(&'c Named),
    /// A `while` that waits for its condition.
    Test(&'c Expr, &'c [Stmt]),
    /// A `while` that waits for the end of its block.
    Turn(&'c Expr, &'c [Stmt]),
    /// The name that `catch` gives, and the block after it.
    Try(&'c Named, &'c [Stmt]),
    /// The end of a call: the variables of its caller.
    Open(&'c Names, Vec<Value>),
    /// The host waits for a callback under this ticket.
    Host(u64),
}

/// The innermost open call: its variables, and how many calls are open.
#[derive(Drop)]
pub struct Current<'c> {
    pub names: &'c Names,
    pub locals: Vec<Value>,
    pub depth: u64,
}

/// Where a run stands, but for what is next: the variables, the units of fuel left, and the frames.
#[derive(Drop)]
pub struct Running<'c> {
    pub store: Store,
    pub current: Current<'c>,
    pub stack: Vec<Frame<'c>>,
}

/// A frame on top.
pub fn push<'c, S: Drop>(stack: &mut Vec<Frame<'c>>, frame: Frame<'c>) -> Result<(), Exit<S>>
    ensures pushed { IfOk result (λ _. HasOnTop stack.new frame.entry stack.old) }
    ensures err { IfErr result (λ x. x ≡ exit.OutOfMemory) }
{
    match stack.push(frame) {
        Ok(()) => Ok(()),
        Err(failed) => {
            drop(failed);
            Err(Exit::OutOfMemory)
        }
    }
}

/// The frame on top, which goes.
pub fn pop<'c>(stack: &mut Vec<Frame<'c>>) -> Option<Frame<'c>>
    ensures some { IfSome result (λ frame. HasOnTop stack.old frame stack.new) }
    ensures none { IfNone result (stacked stack.old.items ≡ []) }
    ensures empty { IfNone result (stacked stack.new.items ≡ []) }
{
    stack.pop()
}

/// The expression is next, and something waits for its value.
pub fn wait<'c, S: Drop>(
    stack: &mut Vec<Frame<'c>>,
    waiting: Waiting<'c>,
    expr: &'c Expr,
) -> Result<Focus<'c>, Exit<S>>
    ensures pushed { IfOk result (λ _. HasOnTop stack.new (frame.Wait waiting.entry) stack.old) }
    ensures next { IfOk result (λ f. f ≡ focus.Expr expr.entry) }
    ensures err { IfErr result (λ x. x ≡ exit.OutOfMemory) }
{
    push(stack, Frame::Wait(waiting))?;
    Ok(Focus::Expr(expr))
}

/// Something else is next, and a frame waits for its end.
pub fn within<'c, S: Drop>(
    stack: &mut Vec<Frame<'c>>,
    frame: Frame<'c>,
    next: Focus<'c>,
) -> Result<Focus<'c>, Exit<S>>
    ensures pushed { IfOk result (λ _. HasOnTop stack.new frame.entry stack.old) }
    ensures next { IfOk result (λ f. f ≡ next.entry) }
    ensures err { IfErr result (λ x. x ≡ exit.OutOfMemory) }
{
    match push(stack, frame) {
        Ok(()) => Ok(next),
        Err(exit) => {
            drop(next);
            Err(exit)
        }
    }
}
