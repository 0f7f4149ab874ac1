//! The row of an area.
ghost use Rattle.std.specs.Prelude.{◌≡◌, ◌++◌, IfOk, IfSome, IsErrOf, OnOk, OnErr};
ghost use Rattle.std.specs.Io.{StartsWith};
ghost use Rattle.layer_base.specs.Counts.{HasCause};
ghost use Rattle.layer_base.specs.View.{physical};
ghost use Rattle.space_memory.specs.State.{IsSameMemory};
ghost use Rattle.typed_object.specs.Ground.{kernel_memory};
ghost use Rattle.map_plugins.specs.Row.{bound_cell, bound_cells, path_cell, area_cells, area_line};

use crate::flags::append_flags;
use cell_text::append_optional_number;
use hex_text::append_address;
use kernel_records::{Area, WalkFault};
use layer_base::{Layer, Number, Steps};
use path_walk::{Paths, append_file_path};
use space_memory::Memory;
use std::alloc::{AllocError, Global};
use std::sync::ledger::Ledger;
use vma_walk::AreaReader;
use walk_text::ObjectRow;

/// What reads the areas and the paths of their files.
#[derive(Clone, Copy)]
pub(crate) struct AreaRow<'t> {
    pub(crate) alloc: Global,
    pub(crate) reader: AreaReader<'t>,
    pub(crate) paths: Paths<'t>,
}

// Appends the low 64 bits of a number as an address.
fn append_bound(text: &mut Vec<u8>, bound: Option<Number>) -> Result<(), AllocError>
    ensures ok { OnOk result (text.new.items ≡ text.old.items ++ bound_cell bound) }
    ensures err { OnErr result (StartsWith text.new.items text.old.items) }
{
    match bound {
        Some(bound) => append_address(text, bound.low_word()),
        None => Ok(text.push(b'-')?),
    }
}

// Appends where an area begins and ends.
fn append_bounds(text: &mut Vec<u8>, area: Area) -> Result<(), AllocError>
    ensures ok { OnOk result (text.new.items ≡ text.old.items ++ bound_cells area) }
    ensures err { OnErr result (StartsWith text.new.items text.old.items) }
{
    append_bound(text, area.start)?;
    text.push(b'\t')?;
    append_bound(text, area.end)
}

// Appends the same, what may be done with the area, and how many pages into its file it begins.
fn append_cells(text: &mut Vec<u8>, area: Area) -> Result<(), AllocError>
    ensures ok { OnOk result (text.new.items ≡ text.old.items ++ area_cells area) }
    ensures err { OnErr result (StartsWith text.new.items text.old.items) }
{
    append_bounds(text, area)?;
    text.push(b'\t')?;
    append_flags(text, area.flags)?;
    text.push(b'\t')?;
    append_optional_number(text, area.pgoff)
}

// Appends the path of an area's file.
fn append_path<Y: Layer, L: Ledger>(
    paths: &Paths<'_>,
    text: &mut Vec<u8>,
    file: Option<u64>,
    memory: &mut Memory<Y>,
    steps: &mut Steps<L>,
) -> Result<(), WalkFault>
    ensures ok { IfSome memory.old.view (λ told. OnOk result (
        text.new.items ≡ text.old.items ++ path_cell (kernel_memory (physical told) paths.now.kernel) paths.now.table.now paths.now.kernel file)) }
    ensures err { OnErr result (StartsWith text.new.items text.old.items) }
    ensures memory { IsSameMemory memory.old memory.new }
    ensures cause { HasCause memory.old.faults memory.new.faults (IsErrOf result WalkFault.Device) }
{
    match file {
        None => Ok(text.extend_from_slice(b"-")?),
        Some(0) => Ok(text.extend_from_slice(b"[anon]")?),
        Some(file) => append_file_path(paths, text, file, memory, steps),
    }
}

// The cell of the path of an area's file.
fn path_cell<Y: Layer, L: Ledger>(
    alloc: Global,
    paths: &Paths<'_>,
    file: Option<u64>,
    memory: &mut Memory<Y>,
    steps: &mut Steps<L>,
) -> Result<Vec<u8>, WalkFault>
    ensures cell { IfSome memory.old.view (λ told. IfOk result (λ cell.
        cell.items ≡ path_cell (kernel_memory (physical told) paths.now.kernel) paths.now.table.now paths.now.kernel file)) }
    ensures memory { IsSameMemory memory.old memory.new }
    ensures cause { HasCause memory.old.faults memory.new.faults (IsErrOf result WalkFault.Device) }
{
    let mut cell = Vec::new(alloc);
    append_path(paths, &mut cell, file, memory, steps)?;
    Ok(cell)
}

// Appends the row of an area with a path.
fn append_area(text: &mut Vec<u8>, area: Area, path: &[u8]) -> Result<(), AllocError>
    ensures ok { OnOk result (text.new.items ≡ text.old.items ++ area_line area path.now) }
    ensures err { OnErr result (StartsWith text.new.items text.old.items) }
{
    append_cells(text, area)?;
    text.push(b'\t')?;
    text.extend_from_slice(path)?;
    text.push(b'\n')?;
    Ok(())
}

impl ObjectRow for AreaRow<'_> {
    ghost use Rattle.space_memory.specs.InSpace.{in_space};
    ghost use Rattle.typed_object.specs.Ground.{kernel_memory};
    ghost use Rattle.vma_walk.specs.Area.{area_at};
    ghost use Rattle.vma_walk.specs.Members.{members_of};
    ghost use Rattle.map_plugins.specs.Row.{area_row};

    ghost row_text = { λ r memory at. area_row (kernel_memory memory r.paths.kernel) r.paths.table.now r.paths.kernel
        (area_at (in_space memory r.reader.objects.space) r.reader.objects.table.now (members_of r.reader) at) };

    fn append_row<Y: Layer, L: Ledger>(
        &self,
        text: &mut Vec<u8>,
        at: u64,
        memory: &mut Memory<Y>,
        steps: &mut Steps<L>,
    ) -> Result<(), WalkFault> {
        let area = self.reader.area_at(at, memory, steps)?;
        let path = path_cell(self.alloc, &self.paths, area.file, memory, steps)?;
        Ok(append_area(text, area, &path)?)
    }
}
