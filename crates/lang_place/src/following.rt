//! What may follow a token, from what may come before it.
ghost use Rattle.std.specs.Prelude.{List, ◌∷◌, [], ◌≡◌, false};
ghost use Rattle.lang_place.specs.Expecting.{Follows, FollowsIn, closer_forms, behind_value, within_forms, branches, forms};
ghost use Rattle.lang_place.specs.Expecting.{to_come, IsToCome};
ghost use Rattle.lang_place.specs.declared.expected.Expected.TheVariants as expected;
ghost use Rattle.lang_place.specs.declared.expected.Next.TheVariants as next;

use crate::expected::{Closer, Expected, Next, Taken, Within};
use crate::terminal::Terminal;

macro_rules! taken {
    ($next:expr) => {
        Some(Taken {
            next: $next,
            then: None,
            last: None,
        })
    };
    ($next:expr, $then:expr) => {
        Some(Taken {
            next: $next,
            then: Some($then),
            last: None,
        })
    };
    ($next:expr, $then:expr, $last:expr) => {
        Some(Taken {
            next: $next,
            then: Some($then),
            last: Some($last),
        })
    };
}

/// An expression from its first operand on.
macro_rules! expr {
    ($closer:expr) => {
        Expected::Operand {
            is_signed: false,
            is_compared: false,
            closer: $closer,
        }
    };
}

/// The operand behind an operator.
macro_rules! operand {
    ($is_compared:expr, $closer:expr) => {
        Next::Part(Expected::Operand {
            is_signed: false,
            is_compared: $is_compared,
            closer: $closer,
        })
    };
}

/// Behind an expression that may end.
fn after_expression(closer: Closer, terminal: Terminal) -> Option<Taken>
    ensures { FollowsIn (closer_forms closer) terminal result }
{
    match closer {
        Closer::Bracket => match terminal {
            Terminal::CloseRound => taken!(Next::Done),
            _ => None,
        },
        Closer::Square => match terminal {
            Terminal::CloseSquare => taken!(Next::Done),
            _ => None,
        },
        Closer::Semicolon => match terminal {
            Terminal::Semicolon => taken!(Next::Done),
            _ => None,
        },
        Closer::Argument => match terminal {
            Terminal::CloseRound => taken!(Next::Done),
            Terminal::Comma => taken!(Next::Part(expr!(Closer::Argument))),
            _ => None,
        },
        Closer::Item => match terminal {
            Terminal::CloseSquare => taken!(Next::Done),
            Terminal::Comma => taken!(Next::Part(expr!(Closer::Item))),
            _ => None,
        },
    }
}

/// Behind an operand of an expression.
fn after_value(is_compared: bool, closer: Closer, terminal: Terminal) -> Option<Taken>
    ensures { FollowsIn (λ fs. behind_value is_compared (closer_forms closer fs)) terminal result }
{
    match terminal {
        Terminal::OpenSquare => taken!(
            Next::Part(expr!(Closer::Square)),
            Expected::Operator {
                is_compared,
                closer,
            }
        ),
        Terminal::Times => taken!(operand!(is_compared, closer)),
        Terminal::Plus => taken!(operand!(is_compared, closer)),
        Terminal::Minus => taken!(operand!(is_compared, closer)),
        Terminal::Compare => {
            if is_compared {
                return None;
            }
            taken!(operand!(true, closer))
        }
        Terminal::And => taken!(operand!(false, closer)),
        Terminal::Or => taken!(operand!(false, closer)),
        _ => after_expression(closer, terminal),
    }
}

/// Before an operand of an expression.
fn operand(is_signed: bool, is_compared: bool, closer: Closer, terminal: Terminal) -> Option<Taken>
    ensures { FollowsIn (forms (expected.Operand is_signed is_compared closer)) terminal result }
{
    let behind = Expected::Operator {
        is_compared,
        closer,
    };
    match terminal {
        Terminal::Value => taken!(Next::Part(behind)),
        Terminal::Name => taken!(Next::BehindName {
            is_compared,
            closer,
        }),
        Terminal::OpenRound => taken!(Next::Part(expr!(Closer::Bracket)), behind),
        Terminal::OpenSquare => taken!(Next::Part(Expected::Items), behind),
        Terminal::Minus | Terminal::Not => {
            if is_signed {
                return None;
            }
            taken!(Next::Part(Expected::Operand {
                is_signed: true,
                is_compared,
                closer,
            }))
        }
        _ => None,
    }
}

/// Behind a name in an expression.
fn after_name(is_compared: bool, closer: Closer, terminal: Terminal) -> Option<Taken>
    ensures { Follows (branches (next.BehindName is_compared closer)) terminal result }
{
    match terminal {
        Terminal::OpenRound => taken!(
            Next::Part(Expected::Arguments),
            Expected::Operator {
                is_compared,
                closer,
            }
        ),
        _ => after_value(is_compared, closer, terminal),
    }
}

/// Behind the name that begins a statement.
fn after_first_name(terminal: Terminal) -> Option<Taken>
    ensures { Follows (branches next.BehindFirstName) terminal result }
{
    match terminal {
        Terminal::Assign => taken!(Next::Part(expr!(Closer::Semicolon))),
        _ => after_name(false, Closer::Semicolon, terminal),
    }
}

/// Before a statement, or where there is none any more.
fn statement(within: Within, terminal: Terminal) -> Option<Taken>
    ensures { FollowsIn (within_forms within) terminal result }
{
    let others = Expected::Statements(within);
    let behind = Expected::Operator {
        is_compared: false,
        closer: Closer::Semicolon,
    };
    match terminal {
        Terminal::Var => taken!(Next::Part(Expected::Variable), others),
        Terminal::If => taken!(
            Next::Part(Expected::Condition),
            Expected::Block,
            Expected::Else(within)
        ),
        Terminal::While => taken!(Next::Part(Expected::Condition), Expected::Block, others),
        Terminal::Return => taken!(Next::Part(Expected::Returned), others),
        Terminal::Throw => taken!(Next::Part(expr!(Closer::Semicolon)), others),
        Terminal::Try => taken!(Next::Part(Expected::Block), Expected::Catch, others),
        Terminal::Name => taken!(Next::BehindFirstName, others),
        Terminal::Value => taken!(Next::Part(behind), others),
        Terminal::OpenRound => taken!(Next::Part(expr!(Closer::Bracket)), behind, others),
        Terminal::OpenSquare => taken!(Next::Part(Expected::Items), behind, others),
        Terminal::Minus | Terminal::Not => taken!(
            Next::Part(Expected::Operand {
                is_signed: true,
                is_compared: false,
                closer: Closer::Semicolon,
            }),
            others
        ),
        Terminal::Fn => match within {
            Within::Script => taken!(Next::Part(Expected::Function), others),
            Within::Block => None,
        },
        Terminal::CloseBrace => match within {
            Within::Script => None,
            Within::Block => taken!(Next::Done),
        },
        _ => None,
    }
}

/// Only this terminal, and then this part.
fn only(wanted: Terminal, terminal: Terminal, then: Expected) -> Option<Taken>
    ensures same { terminal ≡ wanted → result ≡ to_come (next.Part then) }
    ensures other { (terminal ≡ wanted → ⊥) → result ≡ None }
{
    if terminal == wanted {
        taken!(Next::Part(then))
    } else {
        None
    }
}

/// Behind what may be empty: what closes it, or an expression.
fn perhaps_expr(close: Terminal, closer: Closer, terminal: Terminal) -> Option<Taken>
    ensures same { terminal ≡ close → result ≡ to_come next.Done }
    ensures other { (terminal ≡ close → ⊥) → FollowsIn (forms (expected.Operand false false closer)) terminal result }
{
    if terminal == close {
        taken!(Next::Done)
    } else {
        operand(false, false, closer, terminal)
    }
}

/// At the front of a part.
fn part(expected: Expected, terminal: Terminal) -> Option<Taken>
    ensures { FollowsIn (forms expected) terminal result }
{
    match expected {
        Expected::Statements(within) => statement(within, terminal),
        Expected::Else(within) => match terminal {
            Terminal::Else => taken!(Next::BehindElse(within)),
            _ => statement(within, terminal),
        },
        Expected::Operand {
            is_signed,
            is_compared,
            closer,
        } => operand(is_signed, is_compared, closer, terminal),
        Expected::Operator {
            is_compared,
            closer,
        } => after_value(is_compared, closer, terminal),
        Expected::Arguments => perhaps_expr(Terminal::CloseRound, Closer::Argument, terminal),
        Expected::Items => perhaps_expr(Terminal::CloseSquare, Closer::Item, terminal),
        Expected::Returned => perhaps_expr(Terminal::Semicolon, Closer::Semicolon, terminal),
        Expected::Parameters => match terminal {
            Terminal::Name => taken!(Next::Part(Expected::MoreParameters)),
            Terminal::CloseRound => taken!(Next::Part(Expected::Block)),
            _ => None,
        },
        Expected::MoreParameters => match terminal {
            Terminal::Comma => taken!(Next::Part(Expected::Parameter)),
            Terminal::CloseRound => taken!(Next::Part(Expected::Block)),
            _ => None,
        },
        Expected::Block => only(
            Terminal::OpenBrace,
            terminal,
            Expected::Statements(Within::Block),
        ),
        Expected::Function => only(Terminal::Name, terminal, Expected::ParameterList),
        Expected::ParameterList => only(Terminal::OpenRound, terminal, Expected::Parameters),
        Expected::Parameter => only(Terminal::Name, terminal, Expected::MoreParameters),
        Expected::Variable => only(Terminal::Name, terminal, Expected::Assigned),
        Expected::Assigned => only(Terminal::Assign, terminal, expr!(Closer::Semicolon)),
        Expected::Condition => only(Terminal::OpenRound, terminal, expr!(Closer::Bracket)),
        Expected::Catch => only(Terminal::Catch, terminal, Expected::CatchList),
        Expected::CatchList => only(Terminal::OpenRound, terminal, Expected::CatchName),
        Expected::CatchName => only(Terminal::Name, terminal, Expected::CatchEnd),
        Expected::CatchEnd => only(Terminal::CloseRound, terminal, Expected::Block),
    }
}

/// What is still to come behind this terminal, where it can come next.
pub(crate) fn after(next: Next, terminal: Terminal) -> Option<Taken>
    requires { IsToCome next }
    ensures { Follows (branches next) terminal result }
{
    match next {
        Next::Done => None,
        Next::Part(expected) => part(expected, terminal),
        Next::BehindFirstName => after_first_name(terminal),
        Next::BehindName {
            is_compared,
            closer,
        } => after_name(is_compared, closer, terminal),
        Next::BehindElse(within) => match terminal {
            Terminal::If => taken!(
                Next::Part(Expected::Condition),
                Expected::Block,
                Expected::Else(within)
            ),
            Terminal::OpenBrace => taken!(
                Next::Part(Expected::Statements(Within::Block)),
                Expected::Statements(within)
            ),
            _ => None,
        },
    }
}
