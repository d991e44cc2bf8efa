//! Where a line may stand.

/// The place that a file has come to: its start, or that of its last line.
#[derive(Clone, Copy, Debug, PartialEq, Eq)]
pub(crate) enum Place {
    Start,
    Page,
    Trace,
    Policy,
    Fuel,
    Until,
    Refresh,
    Late,
    Room,
    /// With the number of the closure.
    Host(u32),
    /// With the time of the arrival in microseconds.
    At(u64),
}
