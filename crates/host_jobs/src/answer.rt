/// What a table answers when a closure is to be fired.
#[derive(Clone, Copy, PartialEq, Eq, Debug)]
pub enum Fired {
    /// The closure's own answer.
    Answer(Result<i64, i64>),
    /// The closure was fired or dropped before.
    Used,
    /// There is no closure of this number.
    Unknown,
    /// The closure is live and does not take this number.
    OutOfRange,
}

/// There is no answer to take.
#[derive(Clone, Copy, PartialEq, Eq, Debug)]
pub struct NoHost;

/// An answer that closure `k` once gave on the number `x`.
#[derive(Clone, Copy, PartialEq, Eq, Debug)]
pub struct Recorded {
    pub k: u32,
    pub x: i64,
    pub answer: Result<i64, i64>,
}
