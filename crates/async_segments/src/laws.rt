//! What the script with signs in place of `async` and `await` is, and that its marked tree is determined.

ghost use Rattle.std.specs.Prelude.{◌≡◌, ℕ, List, Ok};
ghost use Rattle.lang_tokens.specs.Seen.{TokenSeen};
ghost use Rattle.lang_tokens.specs.Tokens.{tokens_of};
ghost use Rattle.async_segments.specs.Script.{IsMarkedOnce};
ghost use Rattle.async_segments.specs.Encoded.{SignsStand};

/// A law: with signs in place of the two names a script has its other tokens in their places, and for each of the two the
/// name `a__` in its place and a sign.
pub fn signs_stand_for_names()
    ensures { (bytes : List ℕ) (tokens : List TokenSeen) → tokens_of bytes ≡ Ok tokens → SignsStand bytes tokens }
{}

/// A law: a script has one marked tree at most.
pub fn a_script_is_marked_once()
    ensures { (bytes : List ℕ) → IsMarkedOnce bytes }
{}
