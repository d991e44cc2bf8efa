//! The statements of a block and the turns of a loop, with the operations among them that the host is
//! sure to answer with a value.

ghost use Rattle.std.specs.Prelude.{◌≡◌, IfOk, IfErr};
ghost use Rattle.page_interp.specs.Running.{AtBlock, AtTurn, StepsOn, TurnGoesOn, TurnSteps};
ghost use Rattle.page_interp.specs.Runs.{IsUnsettled};
ghost use Rattle.page_interp.specs.declared.exit.Exit.TheVariants as exit;
ghost use Rattle.page_interp.specs.declared.stack.Focus.TheVariants as focus;

use crate::answered::asked;
use crate::at_once::turns_at_once;
use crate::blocks::{assigned, from_block, from_rest};
use crate::code::Code;
use crate::exit::Exit;
use crate::stack::{Focus, Frame, Running, push, within};
use lang_ast::{Expr, Host, Stmt};

/// From the statements of a block. Those in front that are done with no frame are done in one step
/// with what comes after them.
pub fn from_stmts<'c, H: Host>(
    code: &'c Code,
    host: &mut H,
    run: &mut Running<'c>,
    stmts: &'c [Stmt],
) -> Result<Focus<'c>, Exit<H::Stop>>
    requires { AtBlock H.Host code.now host.old run.old stmts.now }
    ensures steps { StepsOn H.Host code.now (focus.Block stmts.entry) result
        host.old run.old host.new run.new }
    ensures unsettled { IfErr result IsUnsettled }
{
    let first = assigned::<H>(code, &mut run.store, &mut run.current, stmts);
    match asked(code, host, run, first) {
        Ok(rest) => from_rest::<H>(code, run, rest),
        Err(exit) => Err(exit),
    }
}

/// From the rest of the block of a turn, for whose end the loop waits.
fn within_turn<'c, H: Host>(
    code: &'c Code,
    run: &mut Running<'c>,
    test: &'c Expr,
    block: &'c [Stmt],
    rest: &'c [Stmt],
) -> Result<Focus<'c>, Exit<H::Stop>>
    ensures ok { IfOk result (TurnGoesOn H.rules code.now test.entry block.entry rest.entry
        run.old run.new) }
    ensures err { IfErr result (λ x. x ≡ exit.OutOfMemory) }
    ensures same { IfErr result (λ _. run.new.store ≡ run.old.store) }
{
    push(&mut run.stack, Frame::Turn(test, block))?;
    from_block::<H>(code, run, rest)
}

/// A turn of a loop ends: its condition is next. Turns of which all is done with no frame are done in
/// one step with what comes after them.
pub fn next_turn<'c, H: Host>(
    code: &'c Code,
    host: &mut H,
    run: &mut Running<'c>,
    test: &'c Expr,
    block: &'c [Stmt],
) -> Result<Focus<'c>, Exit<H::Stop>>
    requires { AtTurn H.Host code.now host.old run.old test.now block.now }
    ensures { TurnSteps H.Host code.now test.entry block.entry result
        host.old run.old host.new run.new }
{
    'turns: loop {
        let Some(rest) = turns_at_once::<H>(code, &mut run.store, &mut run.current, test, block)
        else {
            return within(&mut run.stack, Frame::Test(test, block), Focus::Expr(test));
        };
        match asked(code, host, run, rest) {
            Ok(left) if left.is_empty() => {}
            Ok(left) => return within_turn::<H>(code, run, test, block, left),
            Err(exit) => return Err(exit),
        }
    }
}
