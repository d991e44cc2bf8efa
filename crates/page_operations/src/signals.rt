//! The operations of signals, listeners, scheduler tasks and host closures, by their names.

ghost use Rattle.page_answers.specs.Serving.{Serves};
ghost use Rattle.page_operations.specs.Plain.{plain_of};

use lang_ast::{HostStep, Op};
use page_answers::{first, first_four, first_three, first_two};
use page_hosts::HostPort;
use page_state::PageState;
use page_values::Value;
use signal_operations::{
    aborted, aborted_signal, any_signal, controller, host, listen, post_task, priority, reason,
    signal, task_any, task_controller, timeout_signal, unlisten, yield_task,
};
use std::sync::ledger::Ledger;
use trace_text::{Lines, NoLine};

/// What an operation of signals, listeners, scheduler tasks or host closures answers. Any other has no answer here, only an error.
pub(crate) fn of_signals<P: HostPort, M: Ledger, L: Lines>(
    page: &mut PageState<P, M>,
    op: Op,
    args: Vec<Value>,
    lines: &mut L,
) -> Result<HostStep, NoLine>
    ensures { Serves L.Lines page.old lines.old (plain_of op args.items) result page.new lines.new }
{
    match op {
        Op::MakeController => controller(page, lines),
        Op::MakeTaskController => task_controller(page, first(args), lines),
        Op::SignalOf => signal(page, first(args), lines),
        Op::AbortedSignal => aborted_signal(page, first(args), lines),
        Op::AnySignal => any_signal(page, first(args), lines),
        Op::TaskAny => {
            let (list, priority) = first_two(args);
            task_any(page, list, priority, lines)
        }
        Op::TimeoutSignal => timeout_signal(page, first(args), lines),
        Op::Aborted => aborted(page, first(args), lines),
        Op::ReasonOf => reason(page, first(args), lines),
        Op::PriorityOf => priority(page, first(args), lines),
        Op::Listen => {
            let (target, name, callback) = first_three(args);
            listen(page, target, name, callback, lines)
        }
        Op::Unlisten => unlisten(page, first(args), lines),
        Op::PostTask => {
            let (callback, priority, signal, ms) = first_four(args);
            post_task(page, callback, priority, signal, ms, lines)
        }
        Op::YieldTask => yield_task(page, lines),
        Op::HostOp => {
            let (closure, number, signal) = first_three(args);
            host(page, closure, number, signal, lines)
        }
        _ => Err(NoLine::OutOfMemory),
    }
}
