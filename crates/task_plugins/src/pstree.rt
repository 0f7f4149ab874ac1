//! The command `pstree`.
ghost use Rattle.space_memory.specs.Writer.{WritesOver};
ghost use Rattle.task_plugins.specs.Pstree.{tree_text, pstree_text};
ghost use Rattle.task_plugins.specs.Tasks as lists;

use crate::listed::all_tasks;
use crate::tree::write_tree;
use cell_text::missing_line;
use kernel_records::{PluginFault, task_needs};
use layer_base::{Layer, Sink, Steps, write_whole};
use space_memory::Memory;
use std::alloc::Global;
use std::sync::ledger::Ledger;
use typed_object::Ground;

// Writes the tree of the tasks of a kernel whose symbol file has all names that are needed.
fn write_task_tree<Y: Layer, O: Sink, L: Ledger>(
    alloc: Global,
    ground: Ground<'_, '_>,
    memory: &mut Memory<Y>,
    out: &mut O,
    steps: &mut Steps<L>,
) -> Result<(), PluginFault>
    ensures writes { WritesOver O.written O.faults out.old out.new memory.old memory.new PluginFault.Device PluginFault.Out result
        (λ memory. tree_text (lists.tasks memory ground.entry.table.now ground.entry.kernel) (lists.task_stop memory ground.entry.table.now ground.entry.kernel)) }
{
    let found = all_tasks(alloc, ground, memory, steps)?;
    write_tree(alloc, &found, memory, out, steps)
}

/// Writes the tree of the tasks of a kernel: a line of the columns' names, then a row for each task of the ring, which
/// begins with its depth and goes on as that of `pslist`, then why the ring ended. The parent of a task is the first task
/// whose PID is the task's PPID. A task without one, one that is its own parent, and the first task of a ring of parents
/// have depth 0. Below a task stand those of which it is the parent, in the order of the ring, each with all that is below
/// it. Where the symbol file lacks a name that is needed, the line of the first one is all that is written. All tasks are
/// read before the first is written.
#[tactic(auto, unfolding(crate::specs::Pstree::pstree_text))]
pub fn write_pstree<Y: Layer, O: Sink, L: Ledger>(
    alloc: Global,
    ground: Ground<'_, '_>,
    memory: &mut Memory<Y>,
    out: &mut O,
    steps: &mut Steps<L>,
) -> Result<(), PluginFault>
    ensures writes { WritesOver O.written O.faults out.old out.new memory.old memory.new PluginFault.Device PluginFault.Out result
        (λ memory. pstree_text memory ground.entry.table.now ground.entry.kernel) }
{
    if let Some(need) = ground.first_missing(task_needs()) {
        let line = missing_line(alloc, need)?;
        write_whole(out, &line)?;
        return Ok(());
    }
    write_task_tree(alloc, ground, memory, out, steps)
}
