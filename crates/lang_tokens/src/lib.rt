//! The tokens of a script.
//!
//! Between tokens there may be spaces, tabs, carriage returns, line feeds and comments, which begin with `//` and end
//! before the next line feed. Of the tokens that may begin at a byte the longest is taken.
#![tactic(auto)]

pub mod fault;
mod laws;
mod lexing;
mod piece;
pub mod token;

pub use fault::{BadByte, TokensFault};
pub use laws::{bad_byte_is_first, bad_byte_stays, tokens_are_read};
pub use lexing::tokens;
pub use token::{Token, TokenKind, Tokens};
