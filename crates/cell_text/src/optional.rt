//! The cells of what may be absent.
ghost use Rattle.std.specs.Prelude.{◌≡◌, ◌++◌, OnOk, OnErr};
ghost use Rattle.std.specs.Io.{StartsWith};
ghost use Rattle.std.specs.Option.{option_copied};
ghost use Rattle.cell_text.specs.OptionalCell.{optional_number_cell, optional_text_cell, optional_address_cell};

use crate::text::append_text;
use crate::value::append_whole;
use hex_text::append_address;
use layer_base::Number;
use std::alloc::AllocError;

/// Appends a number in decimal, with `-` before a negative one, or `-` where there is none. When out of memory, what stood
/// in the text still stands at its front.
pub fn append_optional_number(text: &mut Vec<u8>, number: Option<Number>) -> Result<(), AllocError>
    ensures ok { OnOk result (text.new.items ≡ text.old.items ++ optional_number_cell number) }
    ensures err { OnErr result (StartsWith text.new.items text.old.items) }
{
    match number {
        Some(number) => append_whole(text, number),
        None => Ok(text.push(b'-')?),
    }
}

/// Appends bytes as `append_text` does, or `-` where there are none; an empty text is empty. When out of memory, what stood
/// in the text still stands at its front.
pub fn append_optional_text(text: &mut Vec<u8>, bytes: Option<&[u8]>) -> Result<(), AllocError>
    ensures ok { OnOk result (text.new.items ≡ text.old.items ++ optional_text_cell (option_copied bytes.entry)) }
    ensures err { OnErr result (StartsWith text.new.items text.old.items) }
{
    match bytes {
        Some(bytes) => append_text(text, bytes),
        None => Ok(text.push(b'-')?),
    }
}

/// Appends an address, `0x` and sixteen digits, or `-` where there is none. When out of memory, what stood in the text still
/// stands at its front.
pub fn append_optional_address(text: &mut Vec<u8>, at: Option<u64>) -> Result<(), AllocError>
    ensures ok { OnOk result (text.new.items ≡ text.old.items ++ optional_address_cell at) }
    ensures err { OnErr result (StartsWith text.new.items text.old.items) }
{
    match at {
        Some(at) => append_address(text, at),
        None => Ok(text.push(b'-')?),
    }
}
