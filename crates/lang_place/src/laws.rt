//! A law of what begins a script.

ghost use Rattle.std.specs.Prelude.{List, ◌++◌};
ghost use Rattle.lang_tokens.specs.Seen.{TokenSeen};
ghost use Rattle.lang_place.specs.Place.{BeginsScript};

/// The law that fewer tokens begin a script where more do. So the place of an error is that of the first token with
/// which the tokens begin none.
pub fn fewer_tokens_begin()
    ensures { (before more : List TokenSeen) → BeginsScript (before ++ more) → BeginsScript before }
{}
