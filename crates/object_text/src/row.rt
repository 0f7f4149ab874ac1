//! The lines of an object.
ghost use Rattle.std.specs.Prelude.{◌≡◌, ◌++◌, OnOk};
ghost use Rattle.object_text.specs.Object.{head_line, row};

use cell_text::{append_number, append_text, append_type, append_value};
use hex_text::append_address;
use isf_reader::TypeRef;
use kernel_records::Value;
use std::alloc::AllocError;

/// Appends the line of an object: its type, address and size.
#[tactic(auto, unfolding(crate::specs::Object::head_line))]
pub(crate) fn append_head(
    text: &mut Vec<u8>,
    of: &TypeRef,
    at: u64,
    size: u64,
) -> Result<(), AllocError>
    ensures { OnOk result (text.new.items ≡ text.old.items ++ head_line of.now at size) }
{
    append_type(text, of)?;
    text.extend_from_slice(b" at ")?;
    append_address(text, at)?;
    text.extend_from_slice(b" size ")?;
    append_number(text, size)?;
    text.push(b'\n')?;
    Ok(())
}

/// Appends a row: an offset, a name, a type and a value.
#[tactic(auto, unfolding(crate::specs::Object::row))]
pub(crate) fn append_row(
    text: &mut Vec<u8>,
    offset: u64,
    name: &[u8],
    of: &TypeRef,
    value: &Value,
) -> Result<(), AllocError>
    ensures { OnOk result (text.new.items ≡ text.old.items ++ row offset name.now of.now value.now) }
{
    append_number(text, offset)?;
    text.push(b'\t')?;
    append_text(text, name)?;
    text.push(b'\t')?;
    append_type(text, of)?;
    text.push(b'\t')?;
    append_value(text, value)?;
    text.push(b'\n')?;
    Ok(())
}
