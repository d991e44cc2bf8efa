//! How a line of text is cut into its fields.

ghost use Rattle.std.specs.Prelude.{◌≡◌, ◌==◌, ◌<◌, length, position, IfSome};
ghost use Rattle.page_base.specs.Fields.{behind as behind_of, is_word as same_word, cut_at as cut};
ghost use Rattle.page_base.specs.Found.{IsFound};

/// What follows a start, where the text begins with it, and None elsewhere. Takes no memory.
#[tactic(auto, unfolding(crate::specs::Fields::behind))]
pub fn behind<'a>(text: &'a [u8], start: &[u8]) -> Option<&'a [u8]>
    ensures { IsFound result (behind_of start.now text.now) (λ rest. rest.now) }
{
    let mut rest = text;
    let mut wanted = start;
    while let Some((first, more)) = wanted.split_first() {
        match rest.split_first() {
            Some((byte, after)) if *byte == *first => rest = after,
            _ => return None,
        }
        wanted = more;
    }
    Some(rest)
}

/// Whether the text is this word. Takes no memory.
#[tactic(auto, unfolding(crate::specs::Fields::is_word))]
pub fn is_word(text: &[u8], word: &[u8]) -> bool
    ensures { result ≡ same_word word.now text.now }
{
    word == text
}

/// What stands before the first byte of this kind, and what stands behind it; None where there is no such byte. Takes no
/// memory.
pub fn cut_at(text: &[u8], byte: u8) -> Option<(&[u8], &[u8])>
    ensures parts { IsFound result (cut byte text.now) (λ parts. (parts.0.now, parts.1.now)) }
    ensures shorter { IfSome result (λ parts. length parts.1.now < length text.now) }
{
    let Some(at) = find(text, byte) else {
        return None;
    };
    Some((&text[..at], &text[at + 1..]))
}

fn find(text: &[u8], byte: u8) -> Option<usize>
    ensures { result ≡ position (λ other. other == byte) text.now }
{
    text.iter().position(|other| *other == byte)
}
