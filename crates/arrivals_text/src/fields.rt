//! Numbers and names in a line.

ghost use Rattle.std.specs.Prelude.{◌≡◌, ◌≤◌, IfSome};
ghost use Rattle.std.specs.List.{list_all};
ghost use Rattle.page_values.specs.Names.{is_name as named, is_letter as letter, is_name_byte as name_byte};
ghost use Rattle.arrivals_text.specs.Fields.{number_in as number_of};

use page_base::Cursor;

/// The number that the whole text spells, where it is canonical and within limits.
#[tactic(auto, unfolding(crate::specs::Fields::number_in))]
pub(crate) fn number_in(text: &[u8], low: u64, high: u64) -> Option<u64>
    ensures number { result ≡ number_of low high text.now }
    ensures within { IfSome result (λ number. (low ≤ number) × (number ≤ high)) }
{
    let mut cursor = Cursor::new(text);
    let number = cursor.read_u64(high)?;
    if cursor.rest().is_empty() && low <= number {
        Some(number)
    } else {
        None
    }
}

fn is_letter(byte: u8) -> bool
    ensures { result ≡ letter byte }
{
    byte.is_ascii_alphabetic() || byte == b'_'
}

fn is_name_byte(byte: u8) -> bool
    ensures { result ≡ name_byte byte }
{
    is_letter(byte) || byte.is_ascii_digit()
}

fn are_name_bytes(bytes: &[u8]) -> bool
    ensures { result ≡ list_all name_byte bytes.now }
{
    bytes.iter().all(|byte| is_name_byte(*byte))
}

/// Whether the word is spelled as a name of the script language is.
pub(crate) fn is_name(word: &[u8]) -> bool
    ensures { result ≡ named word.now }
{
    match word.split_first() {
        Some((first, more)) => is_letter(*first) && are_name_bytes(more) && more.len() <= 63,
        None => false,
    }
}
