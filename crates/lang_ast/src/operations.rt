//! The operations, their names and how many arguments each has.

ghost use Rattle.std.specs.Prelude.{◌≡◌};
ghost use Rattle.lang_meaning.specs.OpNames.{op_in, op_named};
ghost use Rattle.lang_meaning.specs.HostSteps.{is_busy};
ghost use Rattle.lang_ast.specs.Operations.{op_rows, count_of};

use page_types::Op;
use page_values::{Str, is_word};

/// Whether the machine takes a unit of fuel before it asks the host.
pub fn is_busy(op: Op) -> bool
    ensures { result ≡ is_busy op }
{
    match op {
        Op::Busy => true,
        _ => false,
    }
}

/// How many arguments an operation has.
pub fn argument_count(op: Op) -> usize
    ensures { result ≡ count_of op }
{
    match op {
        Op::NowOp | Op::MakePromise | Op::YieldTask | Op::MakeController => 0,
        Op::Log
        | Op::TextOf
        | Op::KindOf
        | Op::Len
        | Op::MakeFault
        | Op::FaultNameOf
        | Op::FaultTextOf
        | Op::Busy
        | Op::QueueMicrotask
        | Op::Resolved
        | Op::Rejected
        | Op::ClearTimeout
        | Op::ClearInterval
        | Op::RequestFrame
        | Op::CancelFrame
        | Op::CancelIdle
        | Op::DidTimeout
        | Op::TimeRemaining
        | Op::MakeTaskController
        | Op::SignalOf
        | Op::AbortedSignal
        | Op::AnySignal
        | Op::TimeoutSignal
        | Op::Aborted
        | Op::ReasonOf
        | Op::PriorityOf
        | Op::Unlisten
        | Op::AllOp
        | Op::RaceOp
        | Op::AnyOp
        | Op::AllSettled => 1,
        Op::Push
        | Op::Bind
        | Op::ResolveOp
        | Op::RejectOp
        | Op::SetTimeout
        | Op::SetInterval
        | Op::RequestIdle
        | Op::AbortOp
        | Op::SetPriority
        | Op::TaskAny
        | Op::PostMessage
        | Op::FinallyOp => 2,
        Op::Then | Op::Listen | Op::HostOp => 3,
        Op::PostTask => 4,
    }
}

/// The operation with this name.
pub fn operation_named(name: &Str) -> Option<Op>
    ensures { result ≡ op_named name.now }
{
    let table: [(&[u8], Op); 51] = [
        (b"log", Op::Log),
        (b"text", Op::TextOf),
        (b"kind", Op::KindOf),
        (b"len", Op::Len),
        (b"push", Op::Push),
        (b"bind", Op::Bind),
        (b"fault", Op::MakeFault),
        (b"faultName", Op::FaultNameOf),
        (b"faultText", Op::FaultTextOf),
        (b"now", Op::NowOp),
        (b"busy", Op::Busy),
        (b"queueMicrotask", Op::QueueMicrotask),
        (b"promise", Op::MakePromise),
        (b"resolve", Op::ResolveOp),
        (b"reject", Op::RejectOp),
        (b"resolved", Op::Resolved),
        (b"rejected", Op::Rejected),
        (b"then", Op::Then),
        (b"setTimeout", Op::SetTimeout),
        (b"setInterval", Op::SetInterval),
        (b"clearTimeout", Op::ClearTimeout),
        (b"clearInterval", Op::ClearInterval),
        (b"requestAnimationFrame", Op::RequestFrame),
        (b"cancelAnimationFrame", Op::CancelFrame),
        (b"requestIdleCallback", Op::RequestIdle),
        (b"cancelIdleCallback", Op::CancelIdle),
        (b"didTimeout", Op::DidTimeout),
        (b"timeRemaining", Op::TimeRemaining),
        (b"postTask", Op::PostTask),
        (b"yieldTask", Op::YieldTask),
        (b"controller", Op::MakeController),
        (b"taskController", Op::MakeTaskController),
        (b"signal", Op::SignalOf),
        (b"abort", Op::AbortOp),
        (b"setPriority", Op::SetPriority),
        (b"abortedSignal", Op::AbortedSignal),
        (b"anySignal", Op::AnySignal),
        (b"taskAny", Op::TaskAny),
        (b"timeoutSignal", Op::TimeoutSignal),
        (b"aborted", Op::Aborted),
        (b"reason", Op::ReasonOf),
        (b"priority", Op::PriorityOf),
        (b"listen", Op::Listen),
        (b"unlisten", Op::Unlisten),
        (b"host", Op::HostOp),
        (b"postMessage", Op::PostMessage),
        (b"all", Op::AllOp),
        (b"race", Op::RaceOp),
        (b"any", Op::AnyOp),
        (b"allSettled", Op::AllSettled),
        (b"finally", Op::FinallyOp),
    ];
    operation_in(&table, name)
}

/// The operation of the first row with this name.
fn operation_in(table: &[(&[u8], Op)], name: &Str) -> Option<Op>
    ensures { result ≡ op_in (op_rows table.now) name.now }
{
    for row in table {
        if is_word(name, row.0) {
            return Some(row.1);
        }
    }
    None
}
