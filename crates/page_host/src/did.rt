//! How work that a page does by itself ends.

/// How much of it was done.
#[derive(Clone, Copy, Debug, PartialEq, Eq)]
pub enum Did {
    /// All of it.
    Finished,
    /// A unit of fuel was needed, and none was left.
    Fuel,
}
