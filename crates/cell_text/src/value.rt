//! The texts of values.
ghost use Rattle.std.specs.Prelude.{◌≡◌, ◌++◌, OnOk, OnErr, IfOk};
ghost use Rattle.std.specs.Io.{StartsWith};
ghost use Rattle.std.specs.List.{flat_map};
ghost use Rattle.std.specs.Option.{option_copied};
ghost use Rattle.hex_text.specs.DumpRow.{hex_digits};
ghost use Rattle.cell_text.specs.ValueCell.{number_cell, constant_cell, value_cell};

use crate::number::append_number;
use crate::text::{append_quoted, append_text};
use hex_text::{append_address, append_hex};
use kernel_records::Value;
use layer_base::{Name, Number};
use std::alloc::{AllocError, Global};

/// Appends a number in decimal, with `-` before a negative one. When out of memory, what stood in the text still stands at its
/// front.
pub(crate) fn append_whole(text: &mut Vec<u8>, number: Number) -> Result<(), AllocError>
    ensures ok { OnOk result (text.new.items ≡ text.old.items ++ number_cell number) }
    ensures err { OnErr result (StartsWith text.new.items text.old.items) }
{
    match number {
        Number::Unsigned(number) => append_number(text, number),
        Number::Signed(number) => append_number(text, number),
    }
}

// Appends two digits for each byte.
fn append_digits(text: &mut Vec<u8>, bytes: &[u8]) -> Result<(), AllocError>
    ensures ok { OnOk result (text.new.items ≡ text.old.items ++ flat_map (hex_digits 2) bytes.now) }
    ensures err { OnErr result (StartsWith text.new.items text.old.items) }
{
    for byte in bytes {
        append_hex(text, 2, u64::from(*byte))?;
    }
    Ok(())
}

// Appends a blank and the name of an enum's number, where it has one.
fn append_constant(text: &mut Vec<u8>, name: Option<&Name>) -> Result<(), AllocError>
    ensures ok { OnOk result (text.new.items ≡ text.old.items ++ constant_cell (option_copied name.entry)) }
    ensures err { OnErr result (StartsWith text.new.items text.old.items) }
{
    match name {
        Some(name) => {
            text.push(b' ')?;
            append_text(text, name.items())
        },
        None => Ok(()),
    }
}

/// Appends a value: a number in decimal; `0x` and two digits for each byte of what isn't read as a number, the most
/// significant byte first; a pointer as an address; the number of an enum and, where it has one, a blank and its name; a
/// text as `append_quoted` does; an array as `[N]`; `{}` for a struct, union or class; `void`; `function`; `-` where it
/// is absent and `?` where it is unknown.
/// When out of memory, what stood in the text still stands at its front.
#[tactic(auto, unfolding(crate::specs::ValueCell::value_cell))]
pub fn append_value(text: &mut Vec<u8>, value: &Value) -> Result<(), AllocError>
    ensures ok { OnOk result (text.new.items ≡ text.old.items ++ value_cell value.now) }
    ensures err { OnErr result (StartsWith text.new.items text.old.items) }
{
    match value {
        Value::Number(number) => append_whole(text, *number),
        Value::Raw { bytes } => {
            text.extend_from_slice(b"0x")?;
            append_digits(text, bytes.items())
        },
        Value::Pointer(at) => append_address(text, *at),
        Value::Enum { number, name } => {
            append_whole(text, *number)?;
            append_constant(text, name.as_ref())
        },
        Value::Text(bytes) => append_quoted(text, bytes.items()),
        Value::Array { count } => {
            text.push(b'[')?;
            append_number(text, *count)?;
            text.push(b']')?;
            Ok(())
        },
        Value::Compound => Ok(text.extend_from_slice(b"{}")?),
        Value::Void => Ok(text.extend_from_slice(b"void")?),
        Value::Function => Ok(text.extend_from_slice(b"function")?),
        Value::Absent => Ok(text.extend_from_slice(b"-")?),
        Value::Unknown => Ok(text.extend_from_slice(b"?")?),
    }
}

/// Returns the text of a value, as `append_value` appends it.
pub fn value_cell(alloc: Global, value: &Value) -> Result<Name, AllocError>
    ensures { IfOk result (λ cell. cell ≡ value_cell value.now) }
{
    let mut text = Vec::new(alloc);
    append_value(&mut text, value)?;
    Ok(Name::from(text))
}
