//! What a page answers to an operation, and after a callback.

ghost use Rattle.std.specs.Prelude.{◌≡◌, IfOk, IsTrue, length, map};
ghost use Rattle.lang_ast.specs.Hosts.{ask_end, ask_op};
ghost use Rattle.lang_ast.specs.Operations.{count_of};
ghost use Rattle.lang_ast.specs.Steps.{AllNumbered, EndIsNumbered, StepIsNumbered, seen_outcome, seen_step};
ghost use Rattle.page_values.specs.Seen.{seen};
ghost use Rattle.page_model.specs.Operations as model;
ghost use Rattle.trace_text.specs.Given.{Seen};
ghost use Rattle.page_state.specs.PageActs.{at};
ghost use Rattle.page_state.specs.Standing.{page_of};
ghost use Rattle.page_operations.specs.Asked.{Asked, Replies, functions_of};
ghost use Rattle.page_operations.specs.Plain.{is_plain, IsSameOrWants};

use crate::folding::{abort, is_numbered, set_priority};
use crate::operating::operate;
use lang_ast::{HostStep, Op, Outcome};
use page_answers::{first_two, may_operate, throw};
use page_hosts::HostPort;
use page_state::PageState;
use page_values::{FaultName, Value};
use promise_operations::pure_operation;
use std::sync::ledger::Ledger;
use trace_text::{Lines, NoLine};

/// The answer of an operation to these arguments, as many as it has, with its lines: a value, a throw, or the first callback of an
/// abort or of a priority change.
pub fn answer<P: HostPort, L: Lines, M: Ledger>(
    page: &mut PageState<P, M>,
    op: Op,
    args: Vec<Value>,
    lines: &mut L,
) -> Result<HostStep, NoLine>
    requires count { length args.items ≡ count_of op }
    requires numbered { AllNumbered (functions_of page.old) (map seen args.items) }
    ensures asked { Replies L.Lines page.old lines.old (ask_op op args) result page.new lines.new }
    ensures numbered { IfOk result (λ step. StepIsNumbered (functions_of page.old) (seen_step step)) }
{
    if !may_operate(page, op, &args) {
        return Ok(throw(page.alloc(), FaultName::TypeError));
    }
    match op {
        Op::TextOf
        | Op::KindOf
        | Op::Len
        | Op::Push
        | Op::Bind
        | Op::MakeFault
        | Op::FaultNameOf
        | Op::FaultTextOf
        | Op::DidTimeout => answer_purely::<P, L, M>(page, op, args),
        _ => {
            let done = answer_known(page, op, args, lines);
            where_numbered(page, done)
        }
    }
}

// The answer of an operation on values alone, where the arguments name nothing that was never made. It names only functions that the
// arguments name, so it is not looked through.
fn answer_purely<P: HostPort, L: Lines, M: Ledger>(
    page: &PageState<P, M>,
    op: Op,
    args: Vec<Value>,
) -> Result<HostStep, NoLine>
    requires plain { IsTrue (is_plain op) }
    requires known { IsTrue (model.may_operate (page_of page.now) op (map seen args.items)) }
    requires count { length args.items ≡ count_of op }
    requires numbered { AllNumbered (functions_of page.now) (map seen args.items) }
    ensures asked { (s : Seen L.Told) → Asked L.keeping (at page.now s) (ask_op op args) result (at page.now s) }
    ensures numbered { IfOk result (λ step. StepIsNumbered (functions_of page.now) (seen_step step)) }
{
    pure_operation::<P, M, L>(page, op, args)
}

// The answer of any other operation, where the arguments name nothing that was never made.
fn answer_known<P: HostPort, L: Lines, M: Ledger>(
    page: &mut PageState<P, M>,
    op: Op,
    args: Vec<Value>,
    lines: &mut L,
) -> Result<HostStep, NoLine>
    requires known { IsTrue (model.may_operate (page_of page.old) op (map seen args.items)) }
    ensures { Replies L.Lines page.old lines.old (ask_op op args) result page.new lines.new }
{
    match op {
        Op::AbortOp => {
            let (controller, reason) = first_two(args);
            abort(page, &controller, reason, lines)
        }
        Op::SetPriority => {
            let (controller, priority) = first_two(args);
            set_priority(page, &controller, &priority, lines)
        }
        _ => answer_plainly(page, op, args, lines),
    }
}

// The answer of an operation that calls nothing back.
fn answer_plainly<P: HostPort, L: Lines, M: Ledger>(
    page: &mut PageState<P, M>,
    op: Op,
    args: Vec<Value>,
    lines: &mut L,
) -> Result<HostStep, NoLine>
    requires plain { IsTrue (is_plain op) }
    requires known { IsTrue (model.may_operate (page_of page.old) op (map seen args.items)) }
    ensures { Replies L.Lines page.old lines.old (ask_op op args) result page.new lines.new }
{
    operate(page, op, args, lines)
}

// An answer, where each function that it names has a name here. Else memory is wanting, which no run comes to. It costs at most the
// weight of the answer.
fn where_numbered<P: HostPort, M: Ledger>(
    page: &PageState<P, M>,
    done: Result<HostStep, NoLine>,
) -> Result<HostStep, NoLine>
    ensures same { IsSameOrWants done result }
    ensures numbered { IfOk result (λ step. StepIsNumbered (functions_of page.now) (seen_step step)) }
{
    let step = match done {
        Ok(step) => step,
        Err(why) => return Err(why),
    };
    if !is_numbered(page, &step) {
        return Err(NoLine::OutOfMemory);
    }
    Ok(step)
}

/// The innermost open abort or priority change goes on after its callback, to the next one or to its end, with the lines.
pub fn go_on<P: HostPort, L: Lines, M: Ledger>(
    page: &mut PageState<P, M>,
    ticket: u64,
    outcome: Outcome,
    lines: &mut L,
) -> Result<HostStep, NoLine>
    requires numbered { EndIsNumbered (functions_of page.old) (seen_outcome outcome) }
    ensures asked { Replies L.Lines page.old lines.old (ask_end ticket outcome) result page.new lines.new }
    ensures numbered { IfOk result (λ step. StepIsNumbered (functions_of page.old) (seen_step step)) }
{
    let done = page.resume_innermost(outcome, lines);
    where_numbered(page, done)
}
