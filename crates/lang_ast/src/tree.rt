//! The tree of a script, as its grammar gives it.
//!
//! An expression has one variant for each level of the grammar and one for each branch of the lowest level. A level
//! without its optional parts is its one operand. The fields of a variant are the parts of its branch, in order.

ghost use Rattle.std.specs.Prelude.{IsTrue};
ghost use Rattle.page_values.specs.Names.{is_name};

use page_types::{CompareSign, ProductSign, SumSign, UnarySign};
use page_values::Str;

/// A name, and the byte of the script at which it stands. It is a letter or `_`, then letters, digits and `_`, at most
/// 64 bytes in all.
#[derive(Drop)]
pub struct Named {
    pub name: Str,
    pub at: usize,
    pub ghost spelled: { IsTrue (is_name name) },
}

/// An expression.
#[derive(Drop)]
pub enum Expr {
    /// Operands with `||` between them.
    Or(Box<Expr>, Vec<Expr>),
    /// Operands with `&&` between them.
    And(Box<Expr>, Vec<Expr>),
    Compare(Box<Expr>, CompareSign, Box<Expr>),
    /// The first term, and the further ones with the sign before each.
    Sum(Box<Expr>, Vec<(SumSign, Expr)>),
    /// The first factor, and the further ones with the sign before each.
    Product(Box<Expr>, Vec<(ProductSign, Expr)>),
    Unary(UnarySign, Box<Expr>),
    /// A value, and the places in brackets behind it.
    Post(Box<Expr>, Vec<Expr>),
    Number(i64),
    Text(Str),
    True,
    False,
    Unit,
    Name(Named),
    Call(Named, Vec<Expr>),
    /// An expression in brackets.
    Paren(Box<Expr>),
    List(Vec<Expr>),
}

/// A statement.
#[derive(Drop)]
pub enum Stmt {
    Var(Named, Expr),
    Assign(Named, Expr),
    Expr(Expr),
    /// The condition and its block, those after each `else if`, and the block after `else`.
    If(Expr, Vec<Stmt>, Vec<(Expr, Vec<Stmt>)>, Option<Vec<Stmt>>),
    While(Expr, Vec<Stmt>),
    Return(Option<Expr>),
    Throw(Expr),
    /// The block, the name that `catch` gives to what was thrown, and the block after it.
    Try(Vec<Stmt>, Named, Vec<Stmt>),
}

/// A function of a script: its name, its parameters and its block.
#[derive(Drop)]
pub struct Function {
    pub name: Named,
    pub parameters: Vec<Named>,
    pub body: Vec<Stmt>,
}

/// An item of a script: a function, or a statement outside functions.
#[derive(Drop)]
pub enum Item {
    Fn(Function),
    Stmt(Stmt),
}

/// A script's tree: its items, in the order of the text.
#[derive(Drop)]
pub struct Tree {
    pub items: Vec<Item>,
}
