//! What may come next in a script.

/// What ends an expression.
#[derive(Clone, Copy, Debug, PartialEq, Eq)]
pub enum Closer {
    /// `)`
    Bracket,
    /// `]`
    Square,
    /// `;`
    Semicolon,
    /// Further arguments, and `)`.
    Argument,
    /// Further items of a list, and `]`.
    Item,
}

/// Where a statement stands.
#[derive(Clone, Copy, Debug, PartialEq, Eq)]
pub enum Within {
    Script,
    Block,
}

/// A part of a script that is still to come, as far as it is not read.
#[derive(Clone, Copy, Debug, PartialEq, Eq)]
pub enum Expected {
    /// Items up to the end of a script, or statements and the brace that closes their block.
    Statements(Within),
    /// The same, behind an `if` that may go on with `else`.
    Else(Within),
    Block,
    /// From a function's name on.
    Function,
    /// From the bracket before a function's parameters on.
    ParameterList,
    /// From the first parameter on, or from the bracket that closes none.
    Parameters,
    /// From behind a parameter on.
    MoreParameters,
    /// From the parameter behind a comma on.
    Parameter,
    /// From the name behind `var` on.
    Variable,
    /// From `=` on.
    Assigned,
    /// An expression in brackets.
    Condition,
    /// From behind `return` on.
    Returned,
    /// From `catch` on.
    Catch,
    /// From behind `catch` on.
    CatchList,
    /// From the name of a `catch` on.
    CatchName,
    /// From behind the name of a `catch` on.
    CatchEnd,
    /// An operand of an expression, what else the expression has, and what ends it.
    Operand {
        /// Whether a sign stands before the operand.
        is_signed: bool,
        /// Whether the expression compares already.
        is_compared: bool,
        closer: Closer,
    },
    /// What an expression has behind an operand, and what ends it.
    Operator {
        is_compared: bool,
        closer: Closer,
    },
    /// Arguments and `)`.
    Arguments,
    /// The items of a list and `]`.
    Items,
}

/// What may come next.
#[derive(Clone, Copy, Debug, PartialEq, Eq)]
pub enum Next {
    /// Nothing more of this part.
    Done,
    Part(Expected),
    /// What stands behind the name that begins a statement.
    BehindFirstName,
    /// What stands behind a name in an expression.
    BehindName { is_compared: bool, closer: Closer },
    /// What stands behind `else`.
    BehindElse(Within),
}

/// What is still to come behind a token that was read.
#[derive(Clone, Copy, Debug, PartialEq, Eq)]
pub struct Taken {
    pub next: Next,
    /// What comes behind it.
    pub then: Option<Expected>,
    /// What comes behind that.
    pub last: Option<Expected>,
}
