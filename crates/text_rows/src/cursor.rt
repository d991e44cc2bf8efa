//! Numbers that a cursor reads, and where it stays.

use crate::rows::expect_met;
use page_base::Cursor;
use std::process::Abort;

enum Step {
    // The greatest number that is taken, and the number that is read.
    Read(u64, Option<u64>),
    // How many bytes are left.
    Left(usize),
}

use Step::{Left, Read};

fn take(cursor: &mut Cursor, step: &Step) -> bool {
    match step {
        Read(most, number) => cursor.read_u64(*most) == *number,
        Left(len) => cursor.rest().len() == *len,
    }
}

fn take_all(rt: &impl Abort, bytes: &[u8], steps: &[Step]) {
    let mut cursor = Cursor::new(bytes);
    for (number, step) in steps.iter().enumerate() {
        expect_met(rt, take(&mut cursor, step), number);
    }
}

#[test]
fn reads_canonical_numbers_and_stays_at_others(rt: HostRuntime) {
    const TABLE: [(&[u8], &[Step]); 5] = [
        (
            b"0,10000000;007",
            &[Read(9, Some(0)), Read(9, None), Left(13)],
        ),
        (
            b"10000000;",
            &[
                Read(9_999_999, None),
                Read(10_000_000, Some(10_000_000)),
                Left(1),
            ],
        ),
        (b"007", &[Read(9, None)]),
        (b"18446744073709551615", &[Read(u64::MAX, Some(u64::MAX))]),
        (b"18446744073709551616", &[Read(u64::MAX, None)]),
    ];
    for (bytes, steps) in TABLE {
        take_all(&rt, bytes, steps);
    }
}
