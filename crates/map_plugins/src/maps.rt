//! The command `maps`.
ghost use Rattle.std.specs.Prelude.{◌≡◌, IfOk, IfSome, IsErr};
ghost use Rattle.layer_base.specs.Counts.{HasCause};
ghost use Rattle.layer_base.specs.View.{physical};
ghost use Rattle.space_memory.specs.State.{IsSameMemory};
ghost use Rattle.space_memory.specs.Writer.{WritesOver};
ghost use Rattle.cell_text.specs.ErrorLine.{no_task_text};
ghost use Rattle.map_plugins.specs.Maps.{descriptor, task_text, maps_text};

use crate::areas::write_descriptor;
use cell_text::{append_no_task, missing_line};
use kernel_records::{Need, PluginFault, maps_needs};
use layer_base::{DeviceFailed, Layer, Sink, Steps, write_whole};
use space_memory::Memory;
use std::alloc::{AllocError, Global};
use std::sync::ledger::Ledger;
use task_plugins::task_of_pid;
use typed_object::Ground;

// The memory descriptor of the task at an address.
fn descriptor<Y: Layer, L: Ledger>(
    ground: Ground<'_, '_>,
    task: u64,
    memory: &mut Memory<Y>,
    steps: &mut Steps<L>,
) -> Result<Option<u64>, DeviceFailed>
    ensures word { IfSome memory.old.view (λ told. IfOk result (λ word. word ≡ descriptor (physical told) ground.entry.table.now ground.entry.kernel task)) }
    ensures memory { IsSameMemory memory.old memory.new }
    ensures cause { HasCause memory.old.faults memory.new.faults (IsErr result) }
{
    let mm = ground.needed_member(Need::TaskStructMm);
    ground.objects().word(mm, task, memory, steps)
}

// The line that no task has a PID.
fn no_task_line(alloc: Global, pid: u64) -> Result<Vec<u8>, AllocError>
    ensures { IfOk result (λ line. line.items ≡ no_task_text pid) }
{
    let mut text = Vec::new(alloc);
    append_no_task(&mut text, pid)?;
    Ok(text)
}

// Writes the areas of a task, or the line that no task has the PID.
fn write_task<Y: Layer, O: Sink, L: Ledger>(
    alloc: Global,
    ground: Ground<'_, '_>,
    pid: u64,
    task: Option<u64>,
    memory: &mut Memory<Y>,
    out: &mut O,
    steps: &mut Steps<L>,
) -> Result<(), PluginFault>
    ensures writes { WritesOver O.written O.faults out.old out.new memory.old memory.new PluginFault.Device PluginFault.Out result
        (λ memory. task_text memory ground.entry.table.now ground.entry.kernel pid task) }
{
    match task {
        Some(task) => {
            let mm = descriptor(ground, task, memory, steps)?;
            write_descriptor(alloc, ground, task, mm, memory, out, steps)
        }
        None => Ok(write_whole(out, &no_task_line(alloc, pid)?)?),
    }
}

/// Writes the areas of memory of the first task that has a PID: a line of the columns' names, then for each area where it
/// begins and ends, its flags, how many pages into its file it begins and the path of its file, then why the chain of areas
/// ended. Where the symbol file lacks a name that is needed, the line of the first one is all that is written; where no task
/// has the PID, the line of that is. The flags are `r`, `w` and `x` or `-` by the bits 1, 2 and 4, then `s` by the bit 8,
/// else `p`. The path is `[anon]` where the area has no file. An absent number is `-`, and so is the path where the file, its
/// mount or its dentry is absent. A task whose memory descriptor is at 0 has no areas; one whose descriptor is absent has
/// none either, and its stop names the place of the member `mm`. What was found is written before a failure of the image is
/// answered.
#[tactic(auto, unfolding(crate::specs::Maps::maps_text))]
pub fn write_maps<Y: Layer, O: Sink, L: Ledger>(
    alloc: Global,
    ground: Ground<'_, '_>,
    pid: u64,
    memory: &mut Memory<Y>,
    out: &mut O,
    steps: &mut Steps<L>,
) -> Result<(), PluginFault>
    ensures writes { WritesOver O.written O.faults out.old out.new memory.old memory.new PluginFault.Device PluginFault.Out result
        (λ memory. maps_text memory ground.entry.table.now ground.entry.kernel pid) }
{
    if let Some(need) = ground.first_missing(maps_needs()) {
        let line = missing_line(alloc, need)?;
        write_whole(out, &line)?;
        return Ok(());
    }
    let task = task_of_pid(alloc, ground, pid, memory, steps)?;
    write_task(alloc, ground, pid, task, memory, out, steps)
}
