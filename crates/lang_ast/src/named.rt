//! Names.

ghost use Rattle.std.specs.Prelude.{◌≡◌, IsTrue, IsSome, ◌↔◌, IfSome};
ghost use Rattle.page_values.specs.Names.{is_letter, is_name, is_name_byte};
ghost use Rattle.std.specs.List.{list_all};

use crate::tree::Named;
use page_values::Str;

/// How many bytes a name may have behind its first one.
const MORE_BYTES: usize = 63;

impl Named {
    /// This name at this byte. `None` exactly where the text is not spelled as a name. It takes no memory.
    pub fn new(name: Str, at: usize) -> Option<Named>
        ensures some { IsSome result ↔ IsTrue (is_name name) }
        ensures named { IfSome result (λ x. (x.name ≡ name) × (x.at ≡ at)) }
    {
        if is_name(name.bytes()) {
            Some(Named { name, at })
        } else {
            None
        }
    }
}

/// Whether a byte may begin a name.
fn is_letter(byte: u8) -> bool
    ensures { result ≡ is_letter byte }
{
    byte.is_ascii_alphabetic() || byte == b'_'
}

fn is_name_byte(byte: u8) -> bool
    ensures { result ≡ is_name_byte byte }
{
    is_letter(byte) || byte.is_ascii_digit()
}

fn are_name_bytes(bytes: &[u8]) -> bool
    ensures { result ≡ list_all is_name_byte bytes.now }
{
    bytes.iter().all(|byte| is_name_byte(*byte))
}

/// Whether some bytes are spelled as a name.
fn is_name(bytes: &[u8]) -> bool
    ensures { result ≡ is_name bytes.now }
{
    let Some((first, rest)) = bytes.split_first() else {
        return false;
    };
    is_letter(*first) && are_name_bytes(rest) && rest.len() <= MORE_BYTES
}
