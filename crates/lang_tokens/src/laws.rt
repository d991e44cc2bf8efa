//! What the definition of a script's tokens means, apart from its order of reading.

ghost use Rattle.std.specs.Prelude.{◌≡◌, ℕ, List, Ok, Err};
ghost use Rattle.lang_tokens.specs.Seen.{TokenSeen};
ghost use Rattle.lang_tokens.specs.Meaning.{Reading, NoneGoesOn, GoesOnBefore};
ghost use Rattle.lang_tokens.specs.Tokens.{tokens_of};

/// A law: a script with tokens is these, with blanks and comments between them. Each token is the longest that stands
/// there, and holds what its spelling says.
pub fn tokens_are_read()
    ensures { (bytes : List ℕ) (items : List TokenSeen) → tokens_of bytes ≡ Ok items → Reading 0 bytes items }
{}

/// A law: no script that begins with the bytes up to a bad byte, it too, has tokens.
pub fn bad_byte_stays()
    ensures { (bytes : List ℕ) (at : ℕ) → tokens_of bytes ≡ Err at → NoneGoesOn at bytes }
{}

/// A law: some script that begins with the bytes before a bad byte has tokens. So a bad byte is the first at which no
/// token goes on.
pub fn bad_byte_is_first()
    ensures { (bytes : List ℕ) (at : ℕ) → tokens_of bytes ≡ Err at → GoesOnBefore at bytes }
{}
