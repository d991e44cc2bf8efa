//! The events of a run.

use crate::{Printed, PrioName, RegKind};
use page_base::{End, Micros, Source};

/// What a queued job does: call a microtask's registration, react to a promise, or let a promise follow another.
#[derive(Clone, Copy, PartialEq, Eq, Debug)]
pub enum Queued {
    Micro(u64),
    React(u64),
    Adopt(u64),
}

/// A queue of scheduler tasks: that of a fixed priority, or that of a signal.
#[derive(Clone, Copy, PartialEq, Eq, Debug)]
pub enum QueueName {
    Fixed(PrioName),
    Signal(u64),
}

/// What happens in a run. Each event has one line in a trace. Registrations, jobs, promises, signals, scheduler tasks
/// and host closures stand by their numbers.
#[derive(Drop)]
pub enum Event {
    /// Turn `n` begins with a task of this source, or with none.
    Turn {
        n: u64,
        source: Option<Source>,
    },
    /// The callback of a registration is called.
    Call {
        r: u64,
    },
    /// The callback returned.
    Ret,
    /// The callback threw.
    Throw {
        v: Printed,
    },
    /// A value that was thrown is reported.
    Report {
        v: Printed,
    },
    /// A script logs a value.
    Log {
        v: Printed,
    },
    /// A registration is made. `by` is the registration of the innermost open call; a trace of form 2 tells it, and one
    /// of form 1 does not.
    Reg {
        r: u64,
        kind: RegKind,
        by: Option<u64>,
    },
    /// A registration is due at a time; `level` is the nesting level of a timer, and 0 for what is no timer.
    Arm {
        r: u64,
        due: Micros,
        level: u64,
    },
    /// A registration is due.
    Due {
        r: u64,
    },
    /// A registration is dropped.
    Drop {
        r: u64,
    },
    /// A job is queued.
    Job {
        j: u64,
        what: Queued,
    },
    /// A job runs.
    Run {
        j: u64,
    },
    /// A promise is fulfilled where `ok` holds, and else rejected.
    Settle {
        p: u64,
        ok: bool,
        v: Printed,
    },
    /// An idle period starts, with this deadline.
    Period {
        d: Micros,
    },
    /// Idle callbacks are invoked, with this deadline.
    Idle {
        d: Micros,
    },
    /// A frame of this time begins.
    Frame {
        t: Micros,
    },
    /// A scheduler task is queued, as a continuation where `cont` holds; `n` is the task's number.
    Enq {
        r: u64,
        queue: QueueName,
        cont: bool,
        n: u64,
    },
    /// A signal's priority changes.
    Prio {
        s: u64,
        p: PrioName,
    },
    /// A signal is aborted.
    Abort {
        s: u64,
    },
    /// The run waits until this time, or longer.
    Wait {
        t: Micros,
    },
    /// A host closure is called with a number, and answers with a number, as a value or as a fault.
    Host {
        k: u64,
        x: i64,
        answer: Result<i64, i64>,
    },
    /// A promise was rejected and nothing handles it.
    Unhandled {
        p: u64,
    },
    /// Something handles a promise that was told as unhandled.
    Handled {
        p: u64,
    },
    /// A value is sent to a port.
    Send {
        n: u64,
        v: Printed,
    },
    /// The run ends.
    End(End),
}

/// What happens, and when.
#[derive(Drop)]
pub struct Stamped {
    pub time: Micros,
    pub event: Event,
}
