//! The rows of open files.
ghost use Rattle.std.specs.Prelude.{◌≡◌, ℕ, ◌≤◌, List, ◌++◌, decimal, IfSome, IsErrOf, OnOk, OnErr};
ghost use Rattle.std.specs.Io.{StartsWith};
ghost use Rattle.layer_base.specs.AddressSpace.{AddressSpace};
ghost use Rattle.layer_base.specs.Counts.{HasCause};
ghost use Rattle.layer_base.specs.View.{physical};
ghost use Rattle.space_memory.specs.State.{IsSameMemory};
ghost use Rattle.typed_object.specs.Ground.{kernel_memory};
ghost use Rattle.word_table.specs.Kept.{count_left};
ghost use Rattle.file_plugins.specs.Rows.{file_cells, lines_left};

use cell_text::append_number;
use hex_text::append_address;
use kernel_records::WalkFault;
use layer_base::{Layer, Steps};
use path_walk::{Paths, append_file_path};
use space_memory::Memory;
use std::alloc::AllocError;
use std::sync::ledger::Ledger;
use word_table::Slots;

// No further row of the same file is made where the text has so many bytes.
const FULL: usize = 1 << 20;

/// Makes the cells of a file in the place of those that were there.
pub(crate) fn make_cells<Y: Layer, L: Ledger>(
    cells: &mut Vec<u8>,
    paths: &Paths<'_>,
    file: u64,
    memory: &mut Memory<Y>,
    steps: &mut Steps<L>,
) -> Result<(), WalkFault>
    ensures cells { IfSome memory.old.view (λ view. OnOk result (
        cells.new.items ≡ file_cells (kernel_memory (physical view) paths.now.kernel) paths.now.table.now paths.now.kernel file)) }
    ensures memory { IsSameMemory memory.old memory.new }
    ensures cause { HasCause memory.old.faults memory.new.faults (IsErrOf result WalkFault.Device) }
{
    cells.clear();
    cells.extend_from_slice(b"\t")?;
    append_address(cells, file)?;
    cells.extend_from_slice(b"\t")?;
    append_file_path(paths, cells, file, memory, steps)?;
    cells.extend_from_slice(b"\n")?;
    Ok(())
}

/// Appends the row of a descriptor whose file has these cells.
pub(crate) fn append_row(
    text: &mut Vec<u8>,
    descriptor: u64,
    cells: &[u8],
) -> Result<(), AllocError>
    ensures ok { OnOk result (text.new.items ≡ text.old.items ++ (decimal descriptor ++ cells.now)) }
    ensures err { OnErr result (StartsWith text.new.items text.old.items) }
{
    append_number(text, descriptor)?;
    text.extend_from_slice(cells)?;
    Ok(())
}

/// Appends the rows of the next words as long as they are a file with these cells, were read already, and the text has room.
pub(crate) fn append_same(
    text: &mut Vec<u8>,
    slots: &mut Slots,
    file: u64,
    cells: &[u8],
) -> Result<(), AllocError>
    requires { 1 ≤ file }
    ensures lines { (cells_of : ℕ → List ℕ) (memory : AddressSpace) → cells_of file ≡ cells.now → OnOk result (
        text.new.items ++ lines_left cells_of memory slots.new ≡ text.old.items ++ lines_left cells_of memory slots.old) }
    ensures err { OnErr result (StartsWith text.new.items text.old.items) }
    ensures left { count_left slots.new ≤ count_left slots.old }
    ensures space { slots.new.space ≡ slots.old.space }
    ensures table { slots.new.table ≡ slots.old.table }
{
    'same: while text.len() < FULL {
        match slots.next_same(file) {
            Some(slot) => append_row(text, slot.index, cells)?,
            None => return Ok(()),
        }
    }
    Ok(())
}
