//! The path of a file in a row.
ghost use Rattle.std.specs.Prelude.{◌≡◌, ◌++◌, IfSome, IsErrOf, OnOk, OnErr};
ghost use Rattle.std.specs.Io.{StartsWith};
ghost use Rattle.layer_base.specs.Counts.{HasCause};
ghost use Rattle.layer_base.specs.View.{physical};
ghost use Rattle.space_memory.specs.State.{IsSameMemory};
ghost use Rattle.typed_object.specs.Ground.{kernel_memory};
ghost use Rattle.path_walk.specs.Cell.{cell_by, file_path_cell};

use crate::Paths;
use crate::follow::path_text;
use cell_text::append_text;
use kernel_records::WalkFault;
use layer_base::{Layer, Steps};
use space_memory::Memory;
use std::sync::ledger::Ledger;

// Appends the cell of a mount and a dentry.
fn append_path<Y: Layer, L: Ledger>(
    paths: &Paths<'_>,
    text: &mut Vec<u8>,
    mnt: Option<u64>,
    dentry: Option<u64>,
    memory: &mut Memory<Y>,
    steps: &mut Steps<L>,
) -> Result<(), WalkFault>
    ensures ok { IfSome memory.old.view (λ told. OnOk result (
        text.new.items ≡ text.old.items ++ cell_by (kernel_memory (physical told) paths.now.kernel) paths.now.table.now paths.now.kernel mnt dentry)) }
    ensures err { OnErr result (StartsWith text.new.items text.old.items) }
    ensures memory { IsSameMemory memory.old memory.new }
    ensures cause { HasCause memory.old.faults memory.new.faults (IsErrOf result WalkFault.Device) }
{
    let (Some(mnt), Some(dentry)) = (mnt, dentry) else {
        return Ok(text.extend_from_slice(b"-")?);
    };
    let alloc = *text.allocator();
    let path = path_text(alloc, paths, mnt, dentry, memory, steps)?;
    Ok(append_text(text, path.text.items())?)
}

/// Appends the cell of the file at an address of the kernel's space: its path as `path_of` has it, with the bytes of a
/// text as `append_text` writes them, or `-` where the file's mount or dentry is absent. After a failure what stood in the
/// text still stands at its front. `Device` comes only where a call on the image's device failed.
#[tactic(auto, unfolding(crate::specs::Cell::file_path_cell))]
pub fn append_file_path<Y: Layer, L: Ledger>(
    paths: &Paths<'_>,
    text: &mut Vec<u8>,
    file: u64,
    memory: &mut Memory<Y>,
    steps: &mut Steps<L>,
) -> Result<(), WalkFault>
    ensures ok { IfSome memory.old.view (λ told. OnOk result (
        text.new.items ≡ text.old.items ++ file_path_cell (kernel_memory (physical told) paths.now.kernel) paths.now.table.now paths.now.kernel file)) }
    ensures err { OnErr result (StartsWith text.new.items text.old.items) }
    ensures memory { IsSameMemory memory.old memory.new }
    ensures cause { HasCause memory.old.faults memory.new.faults (IsErrOf result WalkFault.Device) }
{
    let mnt = paths.word(paths.places.file_mount, file, memory, steps)?;
    let dentry = paths.word(paths.places.file_dentry, file, memory, steps)?;
    append_path(paths, text, mnt, dentry, memory, steps)
}
