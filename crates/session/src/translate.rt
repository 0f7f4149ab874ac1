//! The command that tells where an address is in physical memory.
ghost use Rattle.std.specs.Prelude.{◌≡◌, ◌++◌, IfOk, OnOk};
ghost use Rattle.space_memory.specs.Writer.{WritesOver};
ghost use Rattle.session.specs.Command.{physical_cell, translation_row, translate_text};

use crate::place::Place;
use hex_text::append_address;
use kernel_records::PluginFault;
use layer_base::{Layer, Sink, Steps, write_whole};
use space_memory::Memory;
use std::alloc::{AllocError, Global};
use std::sync::ledger::Ledger;

fn append_physical(text: &mut Vec<u8>, to: Option<u64>) -> Result<(), AllocError>
    ensures { OnOk result (text.new.items ≡ text.old.items ++ physical_cell to) }
{
    match to {
        None => Ok(text.push(b'-')?),
        Some(to) => append_address(text, to),
    }
}

#[tactic(auto, unfolding(crate::specs::Command::translation_row))]
fn row_of(alloc: Global, at: u64, to: Option<u64>) -> Result<Vec<u8>, AllocError>
    ensures { IfOk result (λ row. row.items ≡ translation_row at to) }
{
    let mut row = Vec::new(alloc);
    append_address(&mut row, at)?;
    row.push(b'\t')?;
    append_physical(&mut row, to)?;
    row.push(b'\n')?;
    Ok(row)
}

/// Writes the address of a place and where it is in physical memory, which may itself have no byte there.
pub(crate) fn write_translation<Y: Layer, O: Sink, L: Ledger>(
    alloc: Global,
    memory: &mut Memory<Y>,
    place: Place,
    out: &mut O,
    steps: &mut Steps<L>,
) -> Result<(), PluginFault>
    ensures writes { WritesOver O.written O.faults out.old out.new memory.old memory.new PluginFault.Device PluginFault.Out result
        (λ memory. translate_text memory place) }
{
    let to = memory.translate(place.space, place.at, steps)?;
    let row = row_of(alloc, place.at, to)?;
    write_whole(out, &row)?;
    Ok(())
}
