//! Texts of cells, of a row of a dump and of the line that says why a walk ended.
use anyhow::Result;
use cell_text::{stop_line, text_cell, type_cell, value_cell};
use hex_text::dump_row;
use isf_reader::TypeRef;
use kernel_records::{Stop, Value};
use layer_base::{Name, Number};
use sqlite_items::Boxed;
use std::alloc::{AllocError, Global};

// Prints the text that a call answers.
fn print_text<R: Print + Alloc<A = Global>>(rt: &R, call: &str, text: &Name) -> Result<()> {
    let text = String::from_utf8_lossy(rt.alloc(), text.items())?;
    println!(rt; "{call}: {text}")?;
    Ok(())
}

// The type of an array of three pointers to a struct, with a tab in its name.
fn pointers(alloc: Global) -> Result<TypeRef, AllocError> {
    let of = TypeRef::Struct(Name::of(alloc, b"a\tb")?);
    let of = TypeRef::Pointer(Boxed::new(alloc, of)?);
    Ok(TypeRef::Array {
        count: 3,
        of: Boxed::new(alloc, of)?,
    })
}

// A number below zero that its enum has a name for.
fn low(alloc: Global) -> Result<Value, AllocError> {
    Ok(Value::Enum {
        number: Number::Signed(-3),
        name: Some(Name::of(alloc, b"LOW")?),
    })
}

/// Prints a text of each kind.
pub(crate) fn print_cells<R: Print + Alloc<A = Global>>(rt: &R) -> Result<()> {
    let alloc = rt.alloc();
    print_text(rt, "text_cell", &text_cell(alloc, b"a\"\\\t~\x7f")?)?;
    print_text(rt, "type_cell", &type_cell(alloc, &pointers(alloc)?)?)?;
    print_text(rt, "value_cell", &value_cell(alloc, &low(alloc)?)?)?;
    let stop = Stop::Repeated { at: 0x1000 };
    print_text(rt, "stop_line", &stop_line(alloc, stop)?)?;
    let cells = [Some(b'M'), None, Some(b'\n')];
    print_text(rt, "dump_row", &dump_row(alloc, 0xffe, &cells)?)
}
