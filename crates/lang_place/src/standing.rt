//! Where a token stands.

/// Where a token stands, as far as functions and the names of global variables go.
#[derive(Clone, Copy, Debug, PartialEq, Eq)]
pub enum Standing {
    /// Outside functions.
    Outside,
    /// Outside functions, where a name is that of a global variable.
    Naming,
    /// Behind `catch` outside functions.
    Catching,
    /// In the head of a function, behind so many names.
    Head(usize),
    /// In the block of a function.
    Inside,
}
