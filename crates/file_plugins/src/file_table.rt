//! Where the open files of a task stand.
ghost use Rattle.std.specs.Prelude.{◌≡◌, IfSome, IsErrOf};
ghost use Rattle.layer_base.specs.Counts.{HasCause};
ghost use Rattle.layer_base.specs.View.{physical};
ghost use Rattle.space_memory.specs.State.{IsSameMemory};
ghost use Rattle.typed_object.specs.Ground.{kernel_memory};
ghost use Rattle.file_plugins.specs.FileTable.{present, led_to, described_by, file_table, Finds};

use kernel_records::{Need, Stop};
use layer_base::{DeviceFailed, Layer, Steps};
use space_memory::Memory;
use std::sync::ledger::Ledger;
use typed_object::{Ground, absent_stop};
use word_table::WordTable;

// How many descriptors are listed at most.
const MOST: u64 = 1_048_576;

/// Why there is no table of open files.
#[derive(Clone, Copy, Debug, PartialEq, Eq)]
pub(crate) enum NoTable {
    /// None is found, and the list of files stops so.
    Stopped(Stop),
    /// A call on the image's device failed.
    Device,
}

impl From<DeviceFailed> for NoTable {
    ghost use Rattle.file_plugins.specs.declared.file_table.NoTable.TheVariants as tables;

    ghost from_gives = { λ _ fault. fault ≡ tables.Device };

    fn from(_: DeviceFailed) -> Self {
        NoTable::Device
    }
}

// The word of a needed member of the object at an address.
fn present<Y: Layer, L: Ledger>(
    ground: Ground<'_, '_>,
    need: Need,
    at: u64,
    memory: &mut Memory<Y>,
    steps: &mut Steps<L>,
) -> Result<u64, NoTable>
    ensures word { IfSome memory.old.view (λ view. Finds (present (kernel_memory (physical view) ground.entry.kernel) ground.entry.table.now need at) result) }
    ensures memory { IsSameMemory memory.old memory.new }
    ensures cause { HasCause memory.old.faults memory.new.faults (IsErrOf result NoTable.Device) }
{
    let member = ground.needed_member(need);
    match ground.objects().word(member, at, memory, steps)? {
        Some(word) => Ok(word),
        None => Err(NoTable::Stopped(absent_stop(member, at))),
    }
}

// The address of the object that a needed member leads to.
fn led_to<Y: Layer, L: Ledger>(
    ground: Ground<'_, '_>,
    need: Need,
    at: u64,
    memory: &mut Memory<Y>,
    steps: &mut Steps<L>,
) -> Result<u64, NoTable>
    ensures address { IfSome memory.old.view (λ view. Finds (led_to (kernel_memory (physical view) ground.entry.kernel) ground.entry.table.now need at) result) }
    ensures memory { IsSameMemory memory.old memory.new }
    ensures cause { HasCause memory.old.faults memory.new.faults (IsErrOf result NoTable.Device) }
{
    let address = present(ground, need, at, memory, steps)?;
    if address == 0 {
        return Err(NoTable::Stopped(Stop::End));
    }
    Ok(address)
}

// The words of the table of descriptors at an address.
fn described_by<Y: Layer, L: Ledger>(
    ground: Ground<'_, '_>,
    fdt: u64,
    memory: &mut Memory<Y>,
    steps: &mut Steps<L>,
) -> Result<WordTable, NoTable>
    ensures table { IfSome memory.old.view (λ view. Finds (described_by (kernel_memory (physical view) ground.entry.kernel) ground.entry.table.now fdt) result) }
    ensures memory { IsSameMemory memory.old memory.new }
    ensures cause { HasCause memory.old.faults memory.new.faults (IsErrOf result NoTable.Device) }
{
    let count = present(ground, Need::FdtableMaxFds, fdt, memory, steps)?;
    let base = present(ground, Need::FdtableFd, fdt, memory, steps)?;
    Ok(WordTable {
        base,
        count,
        limit: MOST,
    })
}

/// The words that are the open files of the task at an address of the kernel's space. It takes no memory.
#[tactic(auto, unfolding(crate::specs::FileTable::file_table))]
pub(crate) fn file_table<Y: Layer, L: Ledger>(
    ground: Ground<'_, '_>,
    task: u64,
    memory: &mut Memory<Y>,
    steps: &mut Steps<L>,
) -> Result<WordTable, NoTable>
    ensures table { IfSome memory.old.view (λ view. Finds (file_table (kernel_memory (physical view) ground.entry.kernel) ground.entry.table.now task) result) }
    ensures memory { IsSameMemory memory.old memory.new }
    ensures cause { HasCause memory.old.faults memory.new.faults (IsErrOf result NoTable.Device) }
{
    let files = led_to(ground, Need::TaskStructFiles, task, memory, steps)?;
    let fdt = led_to(ground, Need::FilesStructFdt, files, memory, steps)?;
    described_by(ground, fdt, memory, steps)
}
