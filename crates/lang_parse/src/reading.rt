//! Reading a token from the front.

ghost use Rattle.std.specs.Prelude.{◌≡◌, ◌∷◌, List, IfSome, IsNone, IsTrue, ℤ};
ghost use Rattle.page_values.specs.Texts.{is_text};
ghost use Rattle.lang_tokens.specs.declared.token.TokenKind.TheVariants.{Name};
ghost use Rattle.lang_parse.specs.Symbols.{Symbol, NameAt, WordOf, NumberOf, TextOf, SignOf, symbols_of};
ghost use Rattle.lang_parse.specs.Parts.{BeginsWithNone, BeginsWithNoName};

use lang_tokens::{Token, TokenKind};

/// What follows a sign.
pub(crate) fn after_sign<'a>(tokens: &'a [Token], sign: &[u8]) -> Option<&'a [Token]>
    ensures found { IfSome result (λ rest. symbols_of tokens.now ≡ SignOf sign.now ∷ symbols_of rest.now) }
    ensures none { IsNone result → (rest : List Symbol) → symbols_of tokens.now ≡ SignOf sign.now ∷ rest → ⊥ }
{
    let (first, rest) = tokens.split_first()?;
    match first.kind() {
        TokenKind::Sign if first.content() == sign => Some(rest),
        _ => None,
    }
}

/// A number, and what follows it.
pub(crate) fn after_number(tokens: &[Token]) -> Option<(i64, &[Token])>
    ensures found { IfSome result (λ r. symbols_of tokens.now ≡ NumberOf r.0 ∷ symbols_of r.1.now) }
    ensures none { IsNone result → (n : ℤ) (rest : List Symbol) → symbols_of tokens.now ≡ NumberOf n ∷ rest → ⊥ }
{
    let (first, rest) = tokens.split_first()?;
    match first.kind() {
        TokenKind::Number(n) => Some((n, rest)),
        _ => None,
    }
}

/// The value of a text, and what follows it.
pub(crate) fn after_text(tokens: &[Token]) -> Option<(&[u8], &[Token])>
    ensures found { IfSome result (λ r. symbols_of tokens.now ≡ TextOf r.0.now ∷ symbols_of r.1.now) }
    ensures text { IfSome result (λ r. IsTrue (is_text r.0.now)) }
    ensures none { IsNone result → BeginsWithNone TextOf (symbols_of tokens.now) }
{
    let (first, rest) = tokens.split_first()?;
    match first.kind() {
        TokenKind::Text => Some((first.content(), rest)),
        _ => None,
    }
}

/// What follows a word of the grammar.
pub(crate) fn after_word<'a>(tokens: &'a [Token], word: &[u8]) -> Option<&'a [Token]>
    ensures found { IfSome result (λ rest. symbols_of tokens.now ≡ WordOf word.now ∷ symbols_of rest.now) }
    ensures none { IsNone result → (rest : List Symbol) → symbols_of tokens.now ≡ WordOf word.now ∷ rest → ⊥ }
{
    let (first, rest) = tokens.split_first()?;
    match first.kind() {
        TokenKind::Word if first.content() == word => Some(rest),
        _ => None,
    }
}

/// A name's token, and what follows it.
pub(crate) fn after_name(tokens: &[Token]) -> Option<(&Token, &[Token])>
    ensures found { IfSome result (λ r. symbols_of tokens.now ≡ NameAt r.0.now.content r.0.now.at ∷ symbols_of r.1.now) }
    ensures kind { IfSome result (λ r. r.0.now.kind ≡ Name) }
    ensures none { IsNone result → BeginsWithNoName (symbols_of tokens.now) }
{
    let (first, rest) = tokens.split_first()?;
    match first.kind() {
        TokenKind::Name => Some((first, rest)),
        _ => None,
    }
}
