//! How a line of text is cut into its fields.

use crate::rows::expect_met;
use page_base::{behind, cut_at, is_word};

// A text, and what is cut off or found.
#[derive(Clone, Copy)]
enum Cut {
    // a start, and what is behind it
    Start(&'static [u8], Option<&'static [u8]>),
    // the text is the word `fifo` as a whole
    IsFifo(bool),
    // the first field, and the rest of the line
    Fields(Option<(&'static [u8], &'static [u8])>),
}

use Cut::{Fields, IsFifo, Start};

const TEXTS: [(&'static [u8], Cut); 9] = [
    (b"fuel 7", Start(b"fuel ", Some(b"7"))),
    (b"fuel", Start(b"fuel ", None)),
    (b"fuel 7", Start(b"", Some(b"fuel 7"))),
    (b"fifo", IsFifo(true)),
    (b"fifo ", IsFifo(false)),
    (b"fif", IsFifo(false)),
    (b"a bc d", Fields(Some((b"a", b"bc d")))),
    (b" ", Fields(Some((b"", b"")))),
    (b"abc", Fields(None)),
];

fn is_cut(text: &[u8], cut: Cut) -> bool {
    match cut {
        Start(start, rest) => behind(text, start) == rest,
        IsFifo(is_fifo) => is_word(text, b"fifo") == is_fifo,
        Fields(parts) => cut_at(text, b' ') == parts,
    }
}

#[test]
fn a_start_is_cut_off_a_word_is_whole_and_a_line_has_fields(rt: HostRuntime) {
    for (number, (text, cut)) in TEXTS.iter().enumerate() {
        expect_met(&rt, is_cut(*text, *cut), number);
    }
}
