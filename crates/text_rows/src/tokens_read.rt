//! The tokens of scripts.

use crate::rows::expect_met;
use lang_tokens::{BadByte, Token, TokenKind, TokensFault, tokens};
use std::alloc::Global;
use std::test::Fail;

type Wanted = (usize, usize, TokenKind, &'static [u8]);

fn is_wanted(token: Option<&Token>, wanted: &Wanted) -> bool {
    let (at, end, kind, content) = *wanted;
    match token {
        Some(it) => {
            it.at() == at && it.end() == end && it.kind() == kind && it.content() == content
        }
        None => false,
    }
}

// Scripts with their tokens.
const SCRIPTS: [(&'static [u8], &'static [Wanted]); 8] = [
    (
        b"log(1 + 2);",
        &[
            (0, 3, TokenKind::Name, b"log"),
            (3, 4, TokenKind::Sign, b"("),
            (4, 5, TokenKind::Number(1), b"1"),
            (6, 7, TokenKind::Sign, b"+"),
            (8, 9, TokenKind::Number(2), b"2"),
            (9, 10, TokenKind::Sign, b")"),
            (10, 11, TokenKind::Sign, b";"),
        ],
    ),
    (
        b"a==b",
        &[
            (0, 1, TokenKind::Name, b"a"),
            (1, 3, TokenKind::Sign, b"=="),
            (3, 4, TokenKind::Name, b"b"),
        ],
    ),
    (
        b"a\t= =\r\n_b1",
        &[
            (0, 1, TokenKind::Name, b"a"),
            (2, 3, TokenKind::Sign, b"="),
            (4, 5, TokenKind::Sign, b"="),
            (7, 10, TokenKind::Name, b"_b1"),
        ],
    ),
    (b"\"x\\\"y\\n\"", &[(0, 8, TokenKind::Text, b"x\"y\n")]),
    (
        b"unit units",
        &[
            (0, 4, TokenKind::Word, b"unit"),
            (5, 10, TokenKind::Name, b"units"),
        ],
    ),
    (
        b"09223372036854775807",
        &[(
            0,
            20,
            TokenKind::Number(9223372036854775807),
            b"09223372036854775807",
        )],
    ),
    (
        b"8 / 2 // \xFF\n% 3",
        &[
            (0, 1, TokenKind::Number(8), b"8"),
            (2, 3, TokenKind::Sign, b"/"),
            (4, 5, TokenKind::Number(2), b"2"),
            (11, 12, TokenKind::Sign, b"%"),
            (13, 14, TokenKind::Number(3), b"3"),
        ],
    ),
    (b"// c", &[]),
];

fn are_wanted(found: &[Token], wanted: &[Wanted]) -> bool {
    if found.len() != wanted.len() {
        return false;
    }
    for (number, want) in wanted.iter().enumerate() {
        if !is_wanted(found.get(number), want) {
            return false;
        }
    }
    true
}

fn has_tokens(alloc: Global, script: &[u8], wanted: &[Wanted]) -> Result<bool, Fail> {
    let found = tokens(alloc, script)?;
    let are_wanted = found.length() == script.len() && are_wanted(found.items(), wanted);
    drop(found);
    Ok(are_wanted)
}

#[test]
fn scripts_have_their_tokens(rt: HostRuntime) -> Result<(), Fail> {
    for (number, (script, wanted)) in SCRIPTS.iter().enumerate() {
        expect_met(&rt, has_tokens(rt.alloc(), *script, *wanted)?, number);
    }
    Ok(())
}

fn is_bad(alloc: Global, script: &[u8], at: usize) -> bool {
    tokens(alloc, script).err() == Some(TokensFault::Is(BadByte { at }))
}

#[test]
fn bad_bytes_are_told(rt: HostRuntime) {
    const TABLE: [(&[u8], usize); 9] = [
        (b"9223372036854775808", 18),
        (b"\"", 1),
        (b"\"a\n\"", 2),
        (b"\"\\t\"", 2),
        (b"&", 1),
        (b"a & b", 3),
        (b"|", 1),
        (b"a # b", 2),
        (&[b'n'; 66], 64),
    ];
    for (number, (script, at)) in TABLE.iter().enumerate() {
        expect_met(&rt, is_bad(rt.alloc(), *script, *at), number);
    }
}
