//! Names, texts and words as parts of a tree.

ghost use Rattle.std.specs.Prelude.{◌≡◌, IfOk, IfSome, IsNone, IsTrue};
ghost use Rattle.page_values.specs.Texts.{is_text};
ghost use Rattle.lang_ast.specs.Seen.{seen_name, seen_expr};
ghost use Rattle.lang_tokens.specs.declared.token.TokenKind.TheVariants.{Name};
ghost use Rattle.lang_parse.specs.Symbols.{symbols_of};
ghost use Rattle.lang_parse.specs.Deciding.{Ends};
ghost use Rattle.lang_parse.specs.Parts.{Reads, Stops, NoLiteral};

use crate::reading::after_word;
use lang_ast::{Expr, Named};
use lang_tokens::Token;
use page_values::Str;
use std::alloc::{AllocError, Global};

/// The text of these bytes.
pub(crate) fn text_of(alloc: Global, bytes: &[u8]) -> Result<Str, AllocError>
    requires { IsTrue (is_text bytes.now) }
    ensures { IfOk result (λ text. text ≡ bytes.now) }
{
    Ok(Str::new(bytes.to_vec(alloc)?))
}

/// The name of a name's token.
pub(crate) fn name_of(alloc: Global, token: &Token) -> Result<Named, AllocError>
    requires { token.now.kind ≡ Name }
    ensures { IfOk result (λ x. seen_name x ≡ record { name = token.now.content; at = token.now.at }) }
{
    let name = text_of(alloc, token.content())?;
    Ok(Named {
        name,
        at: token.at(),
    })
}

/// An expression of one word, and what follows it.
pub(crate) fn after_literal(tokens: &[Token]) -> Option<(Expr, &[Token])>
    ensures found { IfSome result (λ r. Reads 7 (seen_expr r.0) (symbols_of tokens.now) (symbols_of r.1.now)) }
    ensures ends { IfSome result (λ r. Ends (Reads 7) (Stops 7) (symbols_of tokens.now) (symbols_of r.1.now)) }
    ensures none { IsNone result → NoLiteral (symbols_of tokens.now) }
{
    if let Some(rest) = after_word(tokens, b"true") {
        return Some((Expr::True, rest));
    }
    if let Some(rest) = after_word(tokens, b"false") {
        return Some((Expr::False, rest));
    }
    let rest = after_word(tokens, b"unit")?;
    Some((Expr::Unit, rest))
}
