//! Whether an operation would be answered with a value, and with which, told before it is done.

ghost use Rattle.std.specs.Prelude.{◌≡◌, ℕ, length, IsTrue, IfSome};
ghost use Rattle.lang_ast.specs.Hosts.{seen_lent};
ghost use Rattle.lang_ast.specs.Operations.{count_of};
ghost use Rattle.page_values.specs.Seen.{seen};
ghost use Rattle.page_values.specs.Written.{IsNumbered};
ghost use Rattle.page_operations.specs.Asked.{AnswersValue, AnswersAlone};

use lang_ast::Op;
use page_answers::may_operate_lent;
use page_hosts::HostPort;
use page_state::PageState;
use page_values::Value;
use std::sync::ledger::Ledger;

/// Whether the page would answer an operation with a value: it would neither throw nor call back. `false` also for operations that
/// this does not decide. It takes no memory, and costs at most the weight of the arguments; a list that is plain costs one step.
pub fn gives_value<P: HostPort, M: Ledger>(page: &PageState<P, M>, op: Op, args: &[&Value]) -> bool
    requires { length args.now ≡ count_of op }
    ensures { IsTrue result → AnswersValue op (seen_lent args.now) page.now }
{
    page_pure::gives_value(op, args) && may_operate_lent(page, op, args)
}

/// The value with which the page would answer an operation, where that changes nothing of the page and hands no line on. It names
/// no function. `None` also for operations that this does not decide. It takes no memory, and costs at most the weight of the
/// arguments; a list that is plain costs one step.
pub fn known_value<P: HostPort, M: Ledger>(
    page: &PageState<P, M>,
    op: Op,
    args: &[&Value],
) -> Option<Value>
    requires { length args.now ≡ count_of op }
    ensures answer { IfSome result (λ v. AnswersAlone op (seen_lent args.now) (seen v) page.now) }
    ensures numbered { (count : ℕ) → IfSome result (λ v. IsNumbered count (seen v)) }
{
    let value = page_pure::known_value(op, args)?;
    if !may_operate_lent(page, op, args) {
        return None;
    }
    Some(value)
}
