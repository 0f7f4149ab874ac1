//! Symbols, by name and by address.
ghost use Rattle.std.specs.Prelude.{◌≡◌, ◌++◌, OnOk, IfOk};
ghost use Rattle.std.specs.Option.{option_copied};
ghost use Rattle.symbol_index.specs.Index.{held, by_name, at_or_before};
ghost use Rattle.cell_text.specs.ErrorLine.{no_symbol_text};
ghost use Rattle.symbol_texts.specs.Symbols.{type_or_none, symbol_row, symbol_or_none, near_row, near_or_none};

use cell_text::{append_no_symbol, append_number, append_text, append_type};
use hex_text::append_address;
use isf_reader::TypeRef;
use std::alloc::{AllocError, Global};
use symbol_index::{Entry, Symbols};

fn append_type_or_none(text: &mut Vec<u8>, of: Option<&TypeRef>) -> Result<(), AllocError>
    ensures { OnOk result (text.new.items ≡ text.old.items ++ type_or_none (option_copied of.entry)) }
{
    match of {
        None => Ok(text.push(b'-')?),
        Some(of) => append_type(text, of),
    }
}

#[tactic(auto, unfolding(crate::specs::Symbols::symbol_row))]
fn symbol_row(alloc: Global, symbol: Entry<'_>) -> Result<Vec<u8>, AllocError>
    ensures { IfOk result (λ row. row.items ≡ symbol_row (held symbol.entry)) }
{
    let mut row = Vec::new(alloc);
    append_address(&mut row, symbol.address)?;
    row.push(b'\t')?;
    append_type_or_none(&mut row, symbol.of)?;
    row.push(b'\n')?;
    Ok(row)
}

fn no_symbol_text(alloc: Global, name: &[u8]) -> Result<Vec<u8>, AllocError>
    ensures { IfOk result (λ text. text.items ≡ no_symbol_text name.now) }
{
    let mut text = Vec::new(alloc);
    append_no_symbol(&mut text, name)?;
    Ok(text)
}

/// Returns the row of the symbol of a name: its address, as the symbol file gives it, and its type, or `-` where it has
/// none; and `error: no symbol` with the name where no symbol has it. It is one line with its newline. The entries are
/// those of the ISF schema; docs/texts.md, "symbol NAME", has the form. The only error is out of memory.
pub fn symbol_text(alloc: Global, symbols: &Symbols<'_>, name: &[u8]) -> Result<Vec<u8>, AllocError>
    ensures { IfOk result (λ text. text.items ≡ symbol_or_none name.now (by_name name.now symbols.now)) }
{
    match symbols.by_name(name) {
        Some(symbol) => symbol_row(alloc, symbol),
        None => no_symbol_text(alloc, name),
    }
}

#[tactic(auto, unfolding(crate::specs::Symbols::near_row))]
fn near_row(alloc: Global, number: u64, symbol: Entry<'_>) -> Result<Vec<u8>, AllocError>
    ensures { IfOk result (λ row. row.items ≡ near_row number (held symbol.entry)) }
{
    let mut row = Vec::new(alloc);
    append_address(&mut row, symbol.address)?;
    row.push(b'\t')?;
    append_text(&mut row, symbol.name)?;
    row.extend_from_slice(b"\t+")?;
    append_number(&mut row, number.saturating_sub(symbol.address))?;
    row.push(b'\n')?;
    Ok(row)
}

/// Returns the row of the symbol at the greatest address that is not above a number: its address, its name, and how many
/// bytes the number is behind it, in decimal; ties go to the first name in byte order. Where no symbol is at or below the
/// number it returns `error: no symbol`. It is one line with its newline. Addresses are those of the symbol file;
/// docs/texts.md, "near NUMBER", has the form. The only error is out of memory.
pub fn near_text(alloc: Global, symbols: &Symbols<'_>, number: u64) -> Result<Vec<u8>, AllocError>
    ensures { IfOk result (λ text. text.items ≡ near_or_none number (at_or_before number symbols.now)) }
{
    match symbols.at_or_before(number) {
        Some(symbol) => near_row(alloc, number, symbol),
        None => Vec::from_slice(alloc, b"error: no symbol\n"),
    }
}
