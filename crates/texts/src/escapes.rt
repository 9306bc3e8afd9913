// Lines with escapes, so that a text of any bytes fits on one line.
ghost use Rattle.std.specs.Prelude.{length};
ghost use Rattle.std.specs.Iterator.{at_most};

use std::alloc::{AllocError, Global};

// No to_digit of char: a capital is no digit here.
fn hex_digit(b: u8) -> u8 {
    match b {
        b'0'..=b'9' => b - b'0',
        b'a'..=b'f' => b - b'a' + 10,
        _ => 0,
    }
}

// The bytes that a part of a line stands for, one after another.
#[derive(Drop)]
struct Bytes<'a> {
    rest: &'a [u8],
}

impl Iterator for Bytes<'_> {
    type Item = u8;

    ghost remaining = { λ s. at_most (length s.rest.now) };

    fn next(&mut self) -> Option<u8> {
        let (byte, rest) = match self.rest {
            [] => return None,
            [b'\\', b'n', rest @ ..] => (b'\n', rest),
            [b'\\', b'r', rest @ ..] => (b'\r', rest),
            [b'\\', b't', rest @ ..] => (b'\t', rest),
            [b'\\', b'x', a, b, rest @ ..] => ((hex_digit(*a) << 4) | hex_digit(*b), rest),
            [b'\\', b, rest @ ..] | [b, rest @ ..] => (*b, rest),
        };
        self.rest = rest;
        Some(byte)
    }
}

// COUNT|TEXT: the text so many times.
fn repeat(out: &mut Vec<u8>, part: &[u8]) -> Result<(), AllocError> {
    let Some(bar) = part.iter().position(|b| *b == b'|') else {
        return Ok(());
    };
    let count = part[..bar].iter().fold(0u32, |n, b| {
        n.saturating_mul(10)
            .saturating_add(u32::from(hex_digit(*b)))
    });
    // No extend: the text may be empty, or one byte, and the count large.
    for _ in 0..count {
        for byte in (Bytes {
            rest: &part[bar + 1..],
        }) {
            out.push(byte)?;
        }
    }
    Ok(())
}

// The bytes that a line stands for.
pub(crate) fn decode(heap: Global, line: &[u8]) -> Result<Vec<u8>, AllocError> {
    let mut out = Vec::new(heap);
    for part in line.split_inclusive(|b| matches!(*b, b'{' | b'}')) {
        match part {
            [repeated @ .., b'}'] => repeat(&mut out, repeated)?,
            [rest @ .., b'{'] | rest => out.extend(Bytes { rest })?,
        }
    }
    Ok(out)
}
