//! The bytes of a text of a case file.
ghost use Rattle.std.specs.Prelude.{◌<◌, IfOk};

use anyhow::{Result, bail, ensure};
use std::alloc::Global;

/// The most bytes that a repetition may come to.
const MOST: usize = 1 << 28;

/// A repetition that is open: how often, and where its bytes begin.
#[derive(Clone, Copy)]
struct Repeat {
    count: usize,
    start: usize,
}

/// The bytes that a text stands for: `\xHH`, `\t`, `\r`, `\n`, `\\`, and `\N{TEXT}` for TEXT N times.
pub(crate) fn bytes_of(alloc: Global, text: &str) -> Result<Vec<u8>> {
    let mut bytes = Vec::new(alloc);
    let mut open = Vec::new(alloc);
    let mut rest = text.as_bytes();
    for _ in 0..text.len() {
        rest = match rest {
            [] => break,
            [b'\\', b'0'..=b'9', ..] => {
                let (count, behind) = count_of(&rest[1..])?;
                let start = bytes.len();
                open.push(Repeat { count, start })?;
                behind
            }
            [b'\\', behind @ ..] => {
                let (byte, behind) = escaped(behind)?;
                bytes.push(byte)?;
                behind
            }
            [b'}', behind @ ..] => {
                match open.pop() {
                    Some(repeat) => add_again(alloc, &mut bytes, repeat)?,
                    None => bytes.push(b'}')?,
                }
                behind
            }
            [byte, behind @ ..] => {
                bytes.push(*byte)?;
                behind
            }
        };
    }
    ensure!(open.is_empty(), "a brace that nothing closes");
    Ok(bytes)
}

// The byte that stands behind a backslash, and what follows.
fn escaped(text: &[u8]) -> Result<(u8, &[u8])> {
    match text {
        [b't', rest @ ..] => Ok((b'\t', rest)),
        [b'r', rest @ ..] => Ok((b'\r', rest)),
        [b'n', rest @ ..] => Ok((b'\n', rest)),
        [b'\\', rest @ ..] => Ok((b'\\', rest)),
        [b'x', high, low, rest @ ..] => Ok((16 * hex_digit(*high)? | hex_digit(*low)?, rest)),
        _ => bail!("a backslash before another sign"),
    }
}

fn hex_digit(digit: u8) -> Result<u8>
    ensures { IfOk result (λ d. d < 16) }
{
    match digit {
        b'0'..=b'9' => Ok(digit - b'0'),
        b'a'..=b'f' => Ok(digit - b'a' + 10),
        b'A'..=b'F' => Ok(digit - b'A' + 10),
        _ => bail!("no hexadecimal digit"),
    }
}

// The number in front of a brace, and what follows the brace.
fn count_of(text: &[u8]) -> Result<(usize, &[u8])> {
    let mut count = 0usize;
    for (place, digit) in text.iter().enumerate() {
        match digit {
            b'0'..=b'9' => {
                let digit = usize::from(*digit - b'0');
                count = count.saturating_mul(10).saturating_add(digit);
            }
            b'{' => return Ok((count, &text[place + 1..])),
            _ => break,
        }
    }
    bail!("a count without a brace")
}

// Adds the bytes of a repetition, which stand there once, as often again as it says.
fn add_again(alloc: Global, bytes: &mut Vec<u8>, repeat: Repeat) -> Result<()> {
    let piece = bytes.get(repeat.start..).unwrap_or_default().to_vec(alloc)?;
    let added = piece.len().saturating_mul(repeat.count);
    ensure!(added <= MOST, "too long a repetition");
    bytes.truncate(repeat.start);
    for _ in 0..repeat.count {
        bytes.extend_from_slice(&piece)?;
    }
    Ok(())
}
