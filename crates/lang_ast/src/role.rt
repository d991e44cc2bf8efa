//! What a name stands for where it stands.

/// As what a name stands in a script.
#[derive(Clone, Copy, PartialEq, Eq, Debug)]
pub enum Role {
    /// The name of a function, behind `fn`.
    Function,
    /// A parameter of a function.
    Parameter,
    /// The name of a variable, behind `var`.
    Variable,
    /// The name that `catch` gives to what was thrown.
    Caught,
    /// An expression of its own: what the name stands for is read.
    Read,
    /// A name that is assigned a value.
    Assigned,
    /// A name that is called with so many arguments.
    Called(usize),
}
