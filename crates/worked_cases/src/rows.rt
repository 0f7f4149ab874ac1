//! Many dump rows of one byte, as `255 rows of -- from 0x1008` says them.
use crate::numbers::number_of;
use anyhow::{Context, Result};
use std::alloc::Global;

// The character of a byte of a row, of which the hexadecimal digits are given, or `--` where it is absent.
fn character_of(digits: &str) -> Result<char> {
    if digits == "--" {
        return Ok(' ');
    }
    let byte = u8::from_str_radix(digits, 16).ok().context("no byte")?;
    Ok(match byte {
        0x20..=0x7e => char::from(byte),
        _ => '.',
    })
}

/// Adds the rows, each of sixteen bytes, that a line names.
pub(crate) fn add_rows(alloc: Global, text: &mut Vec<u8>, line: &str) -> Result<()> {
    let (count, rest) = line.split_once(" rows of ").context("no rows")?;
    let (byte, first) = rest.split_once(" from ").context("no address")?;
    let mut cells = String::new(alloc);
    let mut characters = String::new(alloc);
    for _ in 0..16 {
        cells.push(' ')?;
        cells.push_str(byte)?;
        characters.push(character_of(byte)?)?;
    }
    let first = number_of(first)?;
    for row in 0..number_of(count)? {
        let at = first.saturating_add(row.saturating_mul(16));
        let row = format!(in alloc; "0x{at:016x} {cells}  |{characters}|\n")?;
        text.extend_from_slice(row.as_bytes())?;
    }
    Ok(())
}
