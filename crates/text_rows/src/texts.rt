//! Texts that are made: of pieces that stand there many times, and those of scripts.

ghost use Rattle.std.specs.Prelude.{IsTrue};
ghost use Rattle.page_values.specs.Texts.{is_text};

use page_values::Str;
use std::alloc::{AllocError, Global};

/// Pieces of a text in a row, and how often each stands there.
pub(crate) type Pieces = &'static [(&'static [u8], usize)];

fn add(bytes: &mut Vec<u8>, piece: &[u8], count: usize) -> Result<(), AllocError> {
    for _ in 0..count {
        bytes.extend_from_slice(piece)?;
    }
    Ok(())
}

/// The pieces in a row.
pub(crate) fn written(alloc: Global, pieces: &[(&[u8], usize)]) -> Result<Vec<u8>, AllocError> {
    let mut bytes = Vec::new(alloc);
    for (piece, count) in pieces {
        add(&mut bytes, *piece, *count)?;
    }
    Ok(bytes)
}

// A variable whose name has four letters, which tell of the number.
fn declare(script: &mut Vec<u8>, n: usize) -> Result<(), AllocError> {
    let letters = b"abcdefghijklmnop";
    script.extend_from_slice(b"var ")?;
    for place in [4096, 256, 16, 1] {
        script.push(letters[n / place % 16])?;
    }
    script.extend_from_slice(b" = 1;")?;
    Ok(())
}

// A script of so many variables with different names, and then so many with the same names again and more.
fn globals(alloc: Global, first: usize, second: usize) -> Result<Vec<u8>, AllocError> {
    let mut script = Vec::new(alloc);
    for n in (0..first).chain(0..second) {
        declare(&mut script, n)?;
    }
    Ok(script)
}

/// A script that is long: pieces in a row, or so many global variables, and then so many with the same names and more.
pub(crate) enum Long {
    Pieces(Pieces),
    Globals(usize, usize),
}

pub(crate) fn long_script(alloc: Global, long: &Long) -> Result<Vec<u8>, AllocError> {
    match long {
        Long::Pieces(pieces) => written(alloc, *pieces),
        Long::Globals(first, second) => globals(alloc, *first, *second),
    }
}

/// The bytes as a text of a script.
pub(crate) fn text_of(alloc: Global, bytes: &[u8]) -> Result<Str, AllocError>
    requires { IsTrue (is_text bytes.now) }
{
    Ok(Str::new(bytes.to_vec(alloc)?))
}
