//! The operations of time and messages, by their names.

ghost use Rattle.page_answers.specs.Serving.{Serves};
ghost use Rattle.page_operations.specs.Plain.{plain_of};

use crate::signals::of_signals;
use lang_ast::{HostStep, Op};
use page_answers::{first, first_two};
use page_hosts::HostPort;
use page_state::PageState;
use page_values::Value;
use std::sync::ledger::Ledger;
use time_operations::{
    busy, cancel_frame, cancel_idle, clear_timer, now, post_message, request_frame, request_idle,
    set_interval, set_timeout, time_remaining,
};
use trace_text::{Lines, NoLine};

/// What an operation of time, or a message, answers, or one of signals. One that calls back has no answer, only an error.
pub(crate) fn of_time<P: HostPort, M: Ledger, L: Lines>(
    page: &mut PageState<P, M>,
    op: Op,
    args: Vec<Value>,
    lines: &mut L,
) -> Result<HostStep, NoLine>
    ensures { Serves L.Lines page.old lines.old (plain_of op args.items) result page.new lines.new }
{
    match op {
        Op::NowOp => now(page, lines),
        Op::Busy => busy(page, first(args), lines),
        Op::SetTimeout => {
            let (callback, delay) = first_two(args);
            set_timeout(page, callback, delay, lines)
        }
        Op::SetInterval => {
            let (callback, delay) = first_two(args);
            set_interval(page, callback, delay, lines)
        }
        Op::ClearTimeout | Op::ClearInterval => clear_timer(page, first(args), lines),
        Op::RequestFrame => request_frame(page, first(args), lines),
        Op::CancelFrame => cancel_frame(page, first(args), lines),
        Op::RequestIdle => {
            let (callback, timeout) = first_two(args);
            request_idle(page, callback, timeout, lines)
        }
        Op::CancelIdle => cancel_idle(page, first(args), lines),
        Op::TimeRemaining => time_remaining(page, first(args), lines),
        Op::PostMessage => {
            let (port, value) = first_two(args);
            post_message(page, port, value, lines)
        }
        _ => of_signals(page, op, args, lines),
    }
}
