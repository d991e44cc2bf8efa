//! How values are told: by a word, and then as a trace has them.

ghost use Rattle.std.specs.Prelude.{◌≡◌, IfOk, length};

use page_values::{FunNames, Str, Value, print};
use std::alloc::{AllocError, Global};
use std::test::Fail;

/// The names of the functions f and h.
pub(crate) fn names(alloc: Global) -> Result<FunNames, AllocError>
    ensures { IfOk result (λ names. length names ≡ 2) }
{
    let f = Str::new(b"f".to_vec(alloc)?);
    let h = Str::new(b"h".to_vec(alloc)?);
    Ok(FunNames::new(vec![in alloc; f, h]?))
}

/// A word, and the spelling of a value behind it.
pub(crate) fn told(alloc: Global, word: &[u8], value: &Value) -> Result<Vec<u8>, Fail> {
    let names = names(alloc)?;
    let mut line = word.to_vec(alloc)?;
    print(alloc, value, &names, &mut line)?;
    Ok(line)
}
