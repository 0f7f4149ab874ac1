//! Writing the rows of an object, one after another, each made in the same text.
ghost use Rattle.std.specs.Prelude.{◌≡◌, ◌+◌, IfOk, IfSome, IsErrOf};
ghost use Rattle.std.specs.List.{flat_map};
ghost use Rattle.layer_base.specs.Counts.{HasCause};
ghost use Rattle.layer_base.specs.View.{physical};
ghost use Rattle.space_memory.specs.InSpace.{in_space};
ghost use Rattle.space_memory.specs.State.{IsSameMemory};
ghost use Rattle.space_memory.specs.Writer.{WritesOver};
ghost use Rattle.typed_object.specs.Place.{seen};
ghost use Rattle.typed_object.specs.Value.{value};
ghost use Rattle.object_text.specs.Object.{row_at, field_row, rows};

use crate::object::user_type;
use crate::row::append_row;
use isf_reader::{Field, Table};
use kernel_records::{PluginFault, Value};
use layer_base::{Layer, Sink, Steps, write_whole};
use space_memory::Memory;
use std::alloc::Global;
use std::sync::ledger::Ledger;
use type_layout::Place;
use typed_object::{ValueFault, View};

// The value at a place from a view; one whose address is above 2^64 - 1 is absent.
fn value_at<Y: Layer, L: Ledger>(
    alloc: Global,
    table: &Table,
    memory: &mut Memory<Y>,
    start: View<'_>,
    place: Place<'_>,
    steps: &mut Steps<L>,
) -> Result<Value, ValueFault>
    ensures value { IfSome memory.old.view (λ told. IfOk result (λ v.
        v ≡ value (in_space (physical told) start.entry.space) table.now (start.entry.at + place.entry.offset) place.entry.of.now)) }
    ensures memory { IsSameMemory memory.old memory.new }
    ensures cause { HasCause memory.old.faults memory.new.faults (IsErrOf result ValueFault.Device) }
{
    match start.at_place(place) {
        Ok(view) => view.value(alloc, table, memory, steps),
        Err(_) => Ok(Value::Absent),
    }
}

// Writes the row of a place from a view. It is made in a text, whatever stood there.
fn write_row<Y: Layer, O: Sink, L: Ledger>(
    alloc: Global,
    table: &Table,
    memory: &mut Memory<Y>,
    start: View<'_>,
    name: &[u8],
    place: Place<'_>,
    text: &mut Vec<u8>,
    out: &mut O,
    steps: &mut Steps<L>,
) -> Result<(), PluginFault>
    ensures { WritesOver O.written O.faults out.old out.new memory.old memory.new PluginFault.Device PluginFault.Out result
        (λ memory. row_at (in_space memory start.entry.space) table.now start.entry.at place.entry.offset name.now place.entry.of.now) }
{
    let value = value_at(alloc, table, memory, start, place, steps)?;
    text.clear();
    append_row(text, place.offset, name, place.of, &value)?;
    write_whole(out, text)?;
    Ok(())
}

// Writes a row for each field.
fn write_fields<Y: Layer, O: Sink, L: Ledger>(
    alloc: Global,
    table: &Table,
    memory: &mut Memory<Y>,
    start: View<'_>,
    fields: &[Field],
    text: &mut Vec<u8>,
    out: &mut O,
    steps: &mut Steps<L>,
) -> Result<(), PluginFault>
    ensures { WritesOver O.written O.faults out.old out.new memory.old memory.new PluginFault.Device PluginFault.Out result
        (λ memory. flat_map (field_row (in_space memory start.entry.space) table.now start.entry.at) fields.now) }
{
    for field in fields {
        let place = Place {
            offset: field.offset,
            of: &field.of,
        };
        write_row(
            alloc,
            table,
            memory,
            start,
            field.name.items(),
            place,
            text,
            out,
            steps,
        )?;
    }
    Ok(())
}

/// Writes the rows of an object: of a user type one for each field, of every other type one without a name.
pub(crate) fn write_rows<Y: Layer, O: Sink, L: Ledger>(
    alloc: Global,
    table: &Table,
    memory: &mut Memory<Y>,
    view: View<'_>,
    text: &mut Vec<u8>,
    out: &mut O,
    steps: &mut Steps<L>,
) -> Result<(), PluginFault>
    ensures { WritesOver O.written O.faults out.old out.new memory.old memory.new PluginFault.Device PluginFault.Out result
        (λ memory. rows (in_space memory view.entry.space) table.now (seen view.entry)) }
{
    match user_type(table, view.of) {
        Some(user) => {
            write_fields(
                alloc,
                table,
                memory,
                view,
                user.fields.items(),
                text,
                out,
                steps,
            )
        }
        None => {
            let whole = Place {
                offset: 0,
                of: view.of,
            };
            write_row(alloc, table, memory, view, b"-", whole, text, out, steps)
        }
    }
}
