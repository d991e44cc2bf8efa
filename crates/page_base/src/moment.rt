/// Microseconds: a moment, counted from the start of a run, or a span of time.
#[derive(Clone, Copy, PartialEq, Eq, PartialOrd, Ord, Debug)]
pub struct Micros(pub u64);
