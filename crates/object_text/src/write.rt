//! Writing what is printed of an object.
ghost use Rattle.std.specs.Prelude.{◌≤◌, length, Ok};
ghost use Rattle.space_memory.specs.InSpace.{in_space};
ghost use Rattle.space_memory.specs.Writer.{WritesOver};
ghost use Rattle.type_layout.specs.Path.{resolve};
ghost use Rattle.object_text.specs.Object.{text_of_object, text_of_spot, object_text};
ghost use Rattle.object_text.specs.Told.{told};

use crate::fault::fault_line;
use crate::named::named_type;
use crate::object::{Object, name_at, object_at, place_in};
use crate::row::append_head;
use crate::rows::write_rows;
use isf_reader::Table;
use kernel_records::PluginFault;
use layer_base::{Layer, Name, Sink, Space, Steps, write_whole};
use space_memory::Memory;
use std::alloc::Global;
use std::sync::ledger::Ledger;
use type_layout::TypeFault;
use typed_object::View;

// Writes the line of an object, and its rows.
fn write_found<Y: Layer, O: Sink, L: Ledger>(
    alloc: Global,
    table: &Table,
    memory: &mut Memory<Y>,
    object: Object<'_>,
    out: &mut O,
    steps: &mut Steps<L>,
) -> Result<(), PluginFault>
    ensures { WritesOver O.written O.faults out.old out.new memory.old memory.new PluginFault.Device PluginFault.Out result
        (λ memory. text_of_object (in_space memory object.entry.view.space) table.now (Ok (told object.entry))) }
{
    let view = object.view;
    let mut text = Vec::new(alloc);
    append_head(&mut text, view.of, view.at, object.size)?;
    write_whole(out, &text)?;
    write_rows(alloc, table, memory, view, &mut text, out, steps)
}

// Writes what is printed of the object that a path leads to from a view.
fn write_from<Y: Layer, O: Sink, L: Ledger>(
    alloc: Global,
    table: &Table,
    memory: &mut Memory<Y>,
    start: View<'_>,
    path: &[Name],
    out: &mut O,
    steps: &mut Steps<L>,
) -> Result<(), PluginFault>
    requires { length path.now ≤ 256 }
    ensures { WritesOver O.written O.faults out.old out.new memory.old memory.new PluginFault.Device PluginFault.Out result
        (λ memory. text_of_spot (in_space memory start.entry.space) table.now start.entry.at path.now (resolve table.now start.entry.of.now path.now)) }
{
    match place_in(table, start.of, path) {
        Ok(place) => match object_at(table, start, place) {
            Ok(object) => write_found(alloc, table, memory, object, out, steps),
            Err(fault) => Ok(write_whole(out, &fault_line(alloc, b"", fault)?)?),
        },
        Err(refusal) => {
            let name = name_at(path, refusal.index);
            Ok(write_whole(out, &fault_line(alloc, name, refusal.fault)?)?)
        }
    }
}

/// Writes what is printed of the object at an address of a space: of the user type of a name, else of the enum, else of
/// the base type, or of the member of it that a path of names leads to. Where there is no such object, that is the error
/// line of the first fault of these: nothing has the name; a name of the path leads nowhere; the place is above 2^64 - 1;
/// the size of the type at the place is at fault. docs/texts.md, "type SPACE ADDR TYPE", has the form.
///
/// The rows are written one at a time. `Device` comes only where a call on the image failed, and `Out` only where one on
/// the output did; what was written until then is a prefix of the whole.
#[tactic(auto, unfolding(crate::specs::Object::object_text))]
pub fn write_object<Y: Layer, O: Sink, L: Ledger>(
    alloc: Global,
    table: &Table,
    memory: &mut Memory<Y>,
    space: Space,
    at: u64,
    name: &[u8],
    path: &[Name],
    out: &mut O,
    steps: &mut Steps<L>,
) -> Result<(), PluginFault>
    requires { length path.now ≤ 256 }
    ensures { WritesOver O.written O.faults out.old out.new memory.old memory.new PluginFault.Device PluginFault.Out result
        (λ memory. object_text (in_space memory space) table.now at name.now path.now) }
{
    match named_type(alloc, table, name)? {
        Some(of) => {
            let start = View { space, at, of: &of };
            write_from(alloc, table, memory, start, path, out, steps)
        }
        None => Ok(write_whole(out, &fault_line(alloc, b"", TypeFault::NoType)?)?),
    }
}
