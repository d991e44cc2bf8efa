//! The plain data of a page: values, the syntax tree, operations and events.
//!
//! Enums whose variants have no parts are Rust's own and stand here. Values, the tree and the events are families of
//! the definitions in `specs/`, which the contracts of every crate cite.
#![tactic(auto)]

/// The name of a fault: a kind of ECMA-262's error objects or of Web IDL's `DOMException`.
#[derive(Clone, Copy, PartialEq, Eq, Debug)]
pub enum FaultName {
    Error,
    TypeError,
    RangeError,
    AbortError,
    TimeoutError,
    NotAllowedError,
}

/// An operation that a script may call by its name.
#[derive(Clone, Copy, PartialEq, Eq, Debug)]
pub enum Op {
    Log,
    TextOf,
    KindOf,
    Len,
    Push,
    Bind,
    MakeFault,
    FaultNameOf,
    FaultTextOf,
    NowOp,
    Busy,
    QueueMicrotask,
    MakePromise,
    ResolveOp,
    RejectOp,
    Resolved,
    Rejected,
    Then,
    SetTimeout,
    SetInterval,
    ClearTimeout,
    ClearInterval,
    RequestFrame,
    CancelFrame,
    RequestIdle,
    CancelIdle,
    DidTimeout,
    TimeRemaining,
    PostTask,
    YieldTask,
    MakeController,
    MakeTaskController,
    SignalOf,
    AbortOp,
    SetPriority,
    AbortedSignal,
    AnySignal,
    TaskAny,
    TimeoutSignal,
    Aborted,
    ReasonOf,
    PriorityOf,
    Listen,
    Unlisten,
    HostOp,
    PostMessage,
    AllOp,
    RaceOp,
    AnyOp,
    AllSettled,
    FinallyOp,
}

/// The sign between two terms of a sum.
#[derive(Clone, Copy, PartialEq, Eq, Debug)]
pub enum SumSign {
    Plus,
    Minus,
}

/// The sign between two factors of a product.
#[derive(Clone, Copy, PartialEq, Eq, Debug)]
pub enum ProductSign {
    Times,
    Divide,
    Remainder,
}

/// The sign of a comparison.
#[derive(Clone, Copy, PartialEq, Eq, Debug)]
pub enum CompareSign {
    Equals,
    Differs,
    Less,
    AtMost,
    Greater,
    AtLeast,
}

/// The sign before an operand.
#[derive(Clone, Copy, PartialEq, Eq, Debug)]
pub enum UnarySign {
    Negative,
    Not,
}

/// A task source (HTML, "Task sources"). `Sched` stands for all queues of the scheduler.
#[derive(Clone, Copy, PartialEq, Eq, Debug)]
pub enum Source {
    User,
    Net,
    Dom,
    Timer,
    Render,
    Sched,
    Idle,
}

/// Why a run ended: nothing is left to do, the fuel is spent, or the time is up.
#[derive(Clone, Copy, PartialEq, Eq, Debug)]
pub enum End {
    Done,
    Fuel,
    Clock,
}

/// What a registration is for: each callback that a script hands in has a number of its own.
#[derive(Clone, Copy, PartialEq, Eq, Debug)]
pub enum RegKind {
    Timeout,
    Interval,
    Frame,
    Idle,
    Post,
    Yield,
    Host,
    Listener,
    Then,
    Micro,
    Signal,
}

/// The priority of a scheduler task (Prioritized Task Scheduling, "The Scheduler Interface").
#[derive(Clone, Copy, PartialEq, Eq, Debug)]
pub enum Priority {
    Background,
    UserVisible,
    UserBlocking,
}

/// By which relation a host closure answers a number.
#[derive(Clone, Copy, PartialEq, Eq, Debug)]
pub enum HostKind {
    Square,
    Double,
    Negate,
    Fail,
    Any,
}

/// How far a host closure has come. Each is fired or dropped at most once.
#[derive(Clone, Copy, PartialEq, Eq, Debug)]
pub enum HostMark {
    Live,
    Queued,
    Fired,
    Dropped,
}
