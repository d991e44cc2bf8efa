//! Reading an operator from the front.

ghost use Rattle.std.specs.Prelude.{◌≡◌, ◌∷◌, List, IfSome, IsNone};
ghost use Rattle.page_types.specs.declared.SumSign.{SumSign as Addition};
ghost use Rattle.page_types.specs.declared.UnarySign.{UnarySign as Prefix};
ghost use Rattle.lang_parse.specs.Symbols.{Symbol, symbols_of};
ghost use Rattle.lang_parse.specs.Grammar.{compare_sign, sum_sign, product_sign, unary_sign};
ghost use Rattle.lang_parse.specs.Parts.{BeginsWithNone};

use crate::reading::after_sign;
use lang_ast::{CompareSign, ProductSign, SumSign, UnarySign};
use lang_tokens::Token;

/// A comparison, and what follows it.
pub(crate) fn after_compare_sign(tokens: &[Token]) -> Option<(CompareSign, &[Token])>
    ensures found { IfSome result (λ r. symbols_of tokens.now ≡ compare_sign r.0 ∷ symbols_of r.1.now) }
    ensures none { IsNone result → BeginsWithNone compare_sign (symbols_of tokens.now) }
{
    if let Some(rest) = after_sign(tokens, b"==") {
        return Some((CompareSign::Equals, rest));
    }
    if let Some(rest) = after_sign(tokens, b"!=") {
        return Some((CompareSign::Differs, rest));
    }
    if let Some(rest) = after_sign(tokens, b"<") {
        return Some((CompareSign::Less, rest));
    }
    if let Some(rest) = after_sign(tokens, b"<=") {
        return Some((CompareSign::AtMost, rest));
    }
    if let Some(rest) = after_sign(tokens, b">") {
        return Some((CompareSign::Greater, rest));
    }
    let rest = after_sign(tokens, b">=")?;
    Some((CompareSign::AtLeast, rest))
}

/// The sign before a further term, and what follows it.
pub(crate) fn after_sum_sign(tokens: &[Token]) -> Option<(SumSign, &[Token])>
    ensures found { IfSome result (λ r. symbols_of tokens.now ≡ sum_sign r.0 ∷ symbols_of r.1.now) }
    ensures none { IsNone result → (s : Addition) (rest : List Symbol) → symbols_of tokens.now ≡ sum_sign s ∷ rest → ⊥ }
{
    if let Some(rest) = after_sign(tokens, b"+") {
        return Some((SumSign::Plus, rest));
    }
    let rest = after_sign(tokens, b"-")?;
    Some((SumSign::Minus, rest))
}

/// The sign before a further factor, and what follows it.
pub(crate) fn after_product_sign(tokens: &[Token]) -> Option<(ProductSign, &[Token])>
    ensures found { IfSome result (λ r. symbols_of tokens.now ≡ product_sign r.0 ∷ symbols_of r.1.now) }
    ensures none { IsNone result → BeginsWithNone product_sign (symbols_of tokens.now) }
{
    if let Some(rest) = after_sign(tokens, b"*") {
        return Some((ProductSign::Times, rest));
    }
    if let Some(rest) = after_sign(tokens, b"/") {
        return Some((ProductSign::Divide, rest));
    }
    let rest = after_sign(tokens, b"%")?;
    Some((ProductSign::Remainder, rest))
}

/// The sign before an operand, and what follows it.
pub(crate) fn after_unary_sign(tokens: &[Token]) -> Option<(UnarySign, &[Token])>
    ensures found { IfSome result (λ r. symbols_of tokens.now ≡ unary_sign r.0 ∷ symbols_of r.1.now) }
    ensures none { IsNone result → (s : Prefix) (rest : List Symbol) → symbols_of tokens.now ≡ unary_sign s ∷ rest → ⊥ }
{
    if let Some(rest) = after_sign(tokens, b"-") {
        return Some((UnarySign::Negative, rest));
    }
    let rest = after_sign(tokens, b"!")?;
    Some((UnarySign::Not, rest))
}
