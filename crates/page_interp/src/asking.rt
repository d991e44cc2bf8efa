//! Operations of the host, with the callbacks that it asks for.

ghost use Rattle.std.specs.Prelude.{◌≡◌, ℕ, List, ◌+◌, ◌≤◌, IfErr, length};
ghost use Rattle.lang_ast.specs.Operations.{count_of};
ghost use Rattle.lang_ast.specs.Steps.{EndIsNumbered, room_taken, seen_outcome, seen_step};
ghost use Rattle.lang_meaning.specs.HostSteps.{is_busy};
ghost use Rattle.page_interp.specs.Clauses.{script, count_in};
ghost use Rattle.page_interp.specs.Frames.{Holds, AreSeenNumbered};
ghost use Rattle.page_interp.specs.Runs.{IsUnsettled};
ghost use Rattle.page_interp.specs.Running.{resting, AnswerLeaves, AskLeaves, Resumes, RunsAt, StandsAnswered, StepsOn};
ghost use Rattle.page_interp.specs.StackClauses.{IsReadyAt, IsStanding, WaitsUnder};
ghost use Rattle.page_interp.specs.declared.stack.Focus.TheVariants as focus;

use crate::code::Code;
use crate::exit::Exit;
use crate::opening::{callable, open};
use crate::stack::{Focus, Frame, Running, push};
use crate::values::joined;
use lang_ast::{Host, HostStep, Op, Outcome, is_busy};
use page_values::{Value, fault};

/// What the host answered: its value or throw is next, or the body of a callback. A callback that
/// throws before its call opens is answered at once.
fn answer<'c, H: Host>(
    code: &'c Code,
    host: &mut H,
    run: &mut Running<'c>,
    first: HostStep,
) -> Result<Focus<'c>, Exit<H::Stop>>
    requires answering { StandsAnswered H.Host code.now host.old run.old first }
    ensures unsettled { IfErr result IsUnsettled }
    ensures leaves { AnswerLeaves H.Host code.now (seen_step first) result
        host.old run.old host.new run.new }
{
    let mut step = first;
    loop {
        match step {
            HostStep::Value(v) => return Ok(Focus::Value(v)),
            HostStep::Throw(v) => return Ok(Focus::Throw(v)),
            HostStep::Invoke {
                callback,
                args,
                ticket,
            } => match callable(run.current.depth, Some(callback)) {
                Ok(called) => {
                    push(&mut run.stack, Frame::Host(ticket))?;
                    let all = joined(called.bound, args)?;
                    return open::<H>(code, run, called.function, all);
                }
                Err(name) => {
                    let thrown = Outcome::Throw(fault(code.alloc(), name));
                    step = match host.resume(ticket, thrown) {
                        Ok(next) => next,
                        Err(stop) => return Err(Exit::Host(stop)),
                    };
                }
            },
        }
    }
}

/// The host goes on after a callback.
pub fn resume<'c, H: Host>(
    code: &'c Code,
    host: &mut H,
    run: &mut Running<'c>,
    ticket: u64,
    outcome: Outcome,
) -> Result<Focus<'c>, Exit<H::Stop>>
    requires holds { Holds (script code.now) (resting run.old) }
    requires ready { IsReadyAt H.rules H.leaves code.now (H.now host.old) (resting run.old) }
    requires tickets { (ts : List ℕ) × WaitsUnder ticket (H.now host.old) run.old.stack ts }
    requires numbered { EndIsNumbered (count_in code.now) (seen_outcome outcome) }
    ensures unsettled { IfErr result IsUnsettled }
    ensures leaves { Resumes H.Host code.now ticket (seen_outcome outcome) result
        host.old run.old host.new run.new }
{
    match host.resume(ticket, outcome) {
        Ok(step) => answer(code, host, run, step),
        Err(stop) => Err(Exit::Host(stop)),
    }
}

/// The host is asked for an operation.
fn ask_host<'c, H: Host>(
    code: &'c Code,
    host: &mut H,
    run: &mut Running<'c>,
    op: Op,
    args: Vec<Value>,
) -> Result<Focus<'c>, Exit<H::Stop>>
    requires stood { IsStanding H.rules H.leaves code.now (H.now host.old) (resting run.old) }
    requires count { length args.items ≡ count_of op }
    requires args { AreSeenNumbered (count_in code.now) args }
    requires room { run.old.store.fuel + room_taken (is_busy op) ≤ (H.now host.old).room }
    ensures unsettled { IfErr result IsUnsettled }
    ensures leaves { AskLeaves H.Host code.now op args result host.old run.old host.new run.new }
{
    match host.op(op, args) {
        Ok(step) => answer(code, host, run, step),
        Err(stop) => Err(Exit::Host(stop)),
    }
}

/// An operation. A unit of fuel is taken for `busy` before the host is asked.
pub fn ask<'c, H: Host>(
    code: &'c Code,
    host: &mut H,
    run: &mut Running<'c>,
    op: Op,
    args: Vec<Value>,
) -> Result<Focus<'c>, Exit<H::Stop>>
    requires stood { RunsAt H.Host code.now host.old run.old (focus.Ask op args) }
    ensures { StepsOn H.Host code.now (focus.Ask op args) result host.old run.old host.new run.new }
{
    if is_busy(op) {
        if run.store.fuel == 0 {
            return Err(Exit::Fuel);
        }
        run.store.fuel -= 1;
        return ask_host(code, host, run, op, args);
    }
    ask_host(code, host, run, op, args)
}
