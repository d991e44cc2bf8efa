//! What the task of a timer and that of a host closure have with them.

/// The task of a timer of `setTimeout` or `setInterval` (HTML, "Timers").
#[derive(Clone, Copy, Debug, PartialEq, Eq)]
pub struct TimerTask {
    pub registration: u32,
    /// The id that `setTimeout` or `setInterval` answered.
    pub id: u32,
    /// The unique handle that the id had when the timer was set.
    pub handle: u64,
    /// The nesting level of the task.
    pub level: u32,
    pub repeats: bool,
    /// In milliseconds, as the script gave it.
    pub timeout: i64,
}

/// The task that hands on what a host closure answers to a number.
#[derive(Clone, Copy, Debug, PartialEq, Eq)]
pub struct HostTask {
    pub registration: u32,
    /// The number of the closure, counted from 0.
    pub closure: u32,
    /// What the closure was asked on.
    pub number: i64,
}
