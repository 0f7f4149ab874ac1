//! The texts of types.
ghost use Rattle.std.specs.Prelude.{◌≡◌, ◌++◌, OnOk, OnErr, IfOk};
ghost use Rattle.std.specs.Io.{StartsWith};
ghost use Rattle.cell_text.specs.TextCell.{text_cell};
ghost use Rattle.cell_text.specs.TypeCell.{type_cell};

use crate::number::append_number;
use crate::text::append_text;
use isf_reader::TypeRef;
use layer_base::Name;
use std::alloc::{AllocError, Global};

// Appends a word and a name.
fn append_named(text: &mut Vec<u8>, word: &[u8], name: &Name) -> Result<(), AllocError>
    ensures ok { OnOk result (text.new.items ≡ text.old.items ++ word.now ++ text_cell name.now) }
    ensures err { OnErr result (StartsWith text.new.items text.old.items) }
{
    text.extend_from_slice(word)?;
    append_text(text, name.items())
}

/// Appends a type: a base type its name; a pointer the type that it points to and `*`; an array the type of its
/// elements and `[N]`; `struct`, `union`, `class` or `enum` and the name; a bit field its type, `:POSITION` and
/// `:LENGTH`; `function`. Names are written as `append_text` does.
/// When out of memory, what stood in the text still stands at its front.
#[tactic(auto, unfolding(crate::specs::TypeCell::type_cell))]
pub fn append_type(text: &mut Vec<u8>, of: &TypeRef) -> Result<(), AllocError>
    ensures ok { OnOk result (text.new.items ≡ text.old.items ++ type_cell of.now) }
    ensures err { OnErr result (StartsWith text.new.items text.old.items) }
{
    match of {
        TypeRef::Base(name) => append_text(text, name.items()),
        TypeRef::Struct(name) => append_named(text, b"struct ", name),
        TypeRef::Union(name) => append_named(text, b"union ", name),
        TypeRef::Class(name) => append_named(text, b"class ", name),
        TypeRef::Enum(name) => append_named(text, b"enum ", name),
        TypeRef::Pointer(of) => {
            append_type(text, of.get())?;
            text.push(b'*')?;
            Ok(())
        },
        TypeRef::Array { count, of } => {
            append_type(text, of.get())?;
            text.push(b'[')?;
            append_number(text, *count)?;
            text.push(b']')?;
            Ok(())
        },
        TypeRef::Bits {
            position,
            length,
            of,
        } => {
            append_type(text, of.get())?;
            text.push(b':')?;
            append_number(text, *position)?;
            text.push(b':')?;
            append_number(text, *length)
        },
        TypeRef::Function => Ok(text.extend_from_slice(b"function")?),
    }
}

/// Returns the text of a type, as `append_type` appends it.
pub fn type_cell(alloc: Global, of: &TypeRef) -> Result<Name, AllocError>
    ensures { IfOk result (λ cell. cell ≡ type_cell of.now) }
{
    let mut text = Vec::new(alloc);
    append_type(&mut text, of)?;
    Ok(Name::from(text))
}
