/// What is called many times.
#[derive(Clone, Copy, PartialEq, Eq)]
pub(crate) enum Kind {
    /// Timers that are completed and cleared in order.
    TimersCompleted,
    /// Intervals that are initialised again.
    IntervalsAgain,
    /// Frame callbacks that are taken one after another.
    FramesTaken,
    /// Idle callbacks that are taken by timeout in order.
    IdleTimedOut,
    /// Dispatches at one of the signals, each of which has one listener.
    SignalsDispatched,
    /// Listeners that are removed and added again.
    ListenersAgain,
    /// Aborts of one of the signals, each of which has one abort algorithm.
    SignalsAborted,
    /// Room that is made for signals with a priority.
    SchedulerRoom,
    /// Scheduler tasks that are enqueued, each by a signal of its own.
    SchedulerEnqueued,
    /// Scheduler tasks that are taken, each by a signal of its own.
    SchedulerTaken,
    /// Priorities of signals that change, each with a task.
    SchedulerMoved,
}

/// Every kind.
pub(crate) const ALL: [Kind; 11] = [
    Kind::TimersCompleted,
    Kind::IntervalsAgain,
    Kind::FramesTaken,
    Kind::IdleTimedOut,
    Kind::SignalsDispatched,
    Kind::ListenersAgain,
    Kind::SignalsAborted,
    Kind::SchedulerRoom,
    Kind::SchedulerEnqueued,
    Kind::SchedulerTaken,
    Kind::SchedulerMoved,
];

impl Kind {
    /// Its name on the command line.
    pub fn name(self) -> &'static str {
        match self {
            Kind::TimersCompleted => "timers-completed",
            Kind::IntervalsAgain => "intervals-again",
            Kind::FramesTaken => "frames-taken",
            Kind::IdleTimedOut => "idle-timed-out",
            Kind::SignalsDispatched => "signals-dispatched",
            Kind::ListenersAgain => "listeners-again",
            Kind::SignalsAborted => "signals-aborted",
            Kind::SchedulerRoom => "scheduler-room",
            Kind::SchedulerEnqueued => "scheduler-enqueued",
            Kind::SchedulerTaken => "scheduler-taken",
            Kind::SchedulerMoved => "scheduler-moved",
        }
    }
}
