//! The rows of a dump: an address, sixteen bytes in hexadecimal, and the bytes as characters.
ghost use Rattle.std.specs.Prelude.{◌≡◌, ◌+◌, ◌^◌, ◌<◌, ◌≤◌, ◌∷◌, [], ◌++◌, map, length, codes, OnOk, OnErr, IfOk};
ghost use Rattle.std.specs.Io.{StartsWith};
ghost use Rattle.std.specs.List.{flat_map};
ghost use Rattle.hex_text.specs.DumpRow.{hex_digit, hex_digits, address_cell, byte_cell, character, dump_row, dump_text};

use layer_base::Name;
use std::alloc::{AllocError, Global};

fn hex_digit(value: u8) -> u8
    requires { value < 16 }
    ensures { result ≡ hex_digit value }
{
    if value < 10 {
        b'0' + value
    } else {
        b'a' - 10 + value
    }
}

/// Appends the last `digits` hexadecimal digits of a value, in lower case, the most significant first.
/// When out of memory, what stood in the text still stands at its front.
pub fn append_hex(text: &mut Vec<u8>, digits: u32, value: u64) -> Result<(), AllocError>
    requires { digits ≤ 16 }
    ensures ok { OnOk result (text.new.items ≡ text.old.items ++ hex_digits digits value) }
    ensures err { OnErr result (StartsWith text.new.items text.old.items) }
{
    for done in 0..digits {
        let place = digits - 1 - done;
        text.push(hex_digit(((value >> (4 * place)) % 16) as u8))?;
    }
    Ok(())
}

/// Appends an address: `0x` and sixteen digits. When out of memory, what stood in the text still stands at its front.
pub fn append_address(text: &mut Vec<u8>, at: u64) -> Result<(), AllocError>
    ensures ok { OnOk result (text.new.items ≡ text.old.items ++ address_cell at) }
    ensures err { OnErr result (StartsWith text.new.items text.old.items) }
{
    text.extend_from_slice(b"0x")?;
    append_hex(text, 16, at)
}

fn append_cell(text: &mut Vec<u8>, cell: Option<u8>) -> Result<(), AllocError>
    ensures ok { OnOk result (text.new.items ≡ text.old.items ++ byte_cell cell) }
    ensures err { OnErr result (StartsWith text.new.items text.old.items) }
{
    match cell {
        None => Ok(text.extend_from_slice(b"--")?),
        Some(byte) => append_hex(text, 2, u64::from(byte)),
    }
}

fn character(cell: Option<u8>) -> u8
    ensures { result ≡ character cell }
{
    match cell {
        None => b' ',
        Some(byte @ 0x20..=0x7e) => byte,
        Some(_) => b'.',
    }
}

// Appends a row without its newline.
fn append_row(text: &mut Vec<u8>, at: u64, cells: &[Option<u8>]) -> Result<(), AllocError>
    ensures ok { OnOk result (text.new.items ≡ text.old.items ++ dump_row at cells.now) }
    ensures err { OnErr result (StartsWith text.new.items text.old.items) }
{
    append_address(text, at)?;
    text.push(b' ')?;
    append_cells(text, cells)?;
    text.extend_from_slice(b"  |")?;
    append_characters(text, cells)?;
    text.push(b'|')?;
    Ok(())
}

fn append_cells(text: &mut Vec<u8>, cells: &[Option<u8>]) -> Result<(), AllocError>
    ensures ok { OnOk result (text.new.items ≡ text.old.items ++ flat_map (λ cell. codes " " ++ byte_cell cell) cells.now) }
    ensures err { OnErr result (StartsWith text.new.items text.old.items) }
{
    for cell in cells {
        text.push(b' ')?;
        append_cell(text, *cell)?;
    }
    Ok(())
}

fn append_characters(text: &mut Vec<u8>, cells: &[Option<u8>]) -> Result<(), AllocError>
    ensures ok { OnOk result (text.new.items ≡ text.old.items ++ map character cells.now) }
    ensures err { OnErr result (StartsWith text.new.items text.old.items) }
{
    for cell in cells {
        text.push(character(*cell))?;
    }
    Ok(())
}

/// Appends the rows of the bytes from `at` on, each with its newline. When out of memory, what stood in the text still
/// stands at its front.
pub fn append_rows(text: &mut Vec<u8>, at: u64, cells: &[Option<u8>]) -> Result<(), AllocError>
    requires { at + length cells.now ≤ 2 ^ 64 }
    ensures ok { OnOk result (text.new.items ≡ text.old.items ++ dump_text at cells.now) }
    ensures err { OnErr result (StartsWith text.new.items text.old.items) }
{
    let mut start = 0;
    while start < cells.len() {
        let end = cells.len().min(start + 16);
        append_row(text, at + start as u64, &cells[start..end])?;
        text.push(b'\n')?;
        start = end;
    }
    Ok(())
}

/// Returns one row of a dump, without a newline: the address, each byte in two digits or `--` where it is absent, and
/// the bytes as characters.
pub fn dump_row(alloc: Global, at: u64, cells: &[Option<u8>]) -> Result<Name, AllocError>
    requires some { 1 ≤ length cells.now }
    requires few { length cells.now ≤ 16 }
    ensures { IfOk result (λ row. row ≡ dump_row at cells.now) }
{
    let mut text = Vec::with_capacity(alloc, 88)?;
    append_row(&mut text, at, cells)?;
    Ok(Name::from(text))
}
