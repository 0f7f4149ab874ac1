//! The command `pslist`.
ghost use Rattle.std.specs.Prelude.{◌≡◌, codes};
ghost use Rattle.space_memory.specs.Writer.{WritesOver};
ghost use Rattle.task_plugins.specs.Pslist.{list_text, pslist_text};
ghost use Rattle.task_plugins.specs.Tasks.{tasks, task_stop};

use crate::cells::append_task;
use crate::no_lines::NoLines;
use crate::reader::TaskReader;
use crate::ring::task_walk;
use cell_text::missing_line;
use kernel_records::{PluginFault, WalkFault, task_needs};
use layer_base::{Layer, Sink, Steps, write_whole};
use space_memory::Memory;
use std::alloc::Global;
use std::sync::ledger::Ledger;
use typed_object::Ground;
use walk_text::{ObjectRow, write_lines, write_walk};

// The row of a task.
#[derive(Clone, Copy)]
struct TaskRow<'t> {
    alloc: Global,
    reader: TaskReader<'t>,
}

impl ObjectRow for TaskRow<'_> {
    ghost use Rattle.space_memory.specs.InSpace.{in_space};
    ghost use Rattle.task_plugins.specs.Members.{members_of};
    ghost use Rattle.task_plugins.specs.Pslist.{task_row};
    ghost use Rattle.task_plugins.specs.Task.{task_at};

    ghost row_text = { λ r memory at. task_row (task_at (in_space memory r.reader.objects.space) r.reader.objects.table.now (members_of r.reader) at) };

    fn append_row<Y: Layer, L: Ledger>(
        &self,
        text: &mut Vec<u8>,
        at: u64,
        memory: &mut Memory<Y>,
        steps: &mut Steps<L>,
    ) -> Result<(), WalkFault> {
        let task = self.reader.task_at(self.alloc, at, memory, steps)?;
        append_task(text, &task)?;
        Ok(())
    }
}

// The line of the columns' names.
fn head() -> &'static [u8]
    ensures { result.now ≡ codes "OFFSET\tPID\tTID\tPPID\tCOMM\n" }
{
    b"OFFSET\tPID\tTID\tPPID\tCOMM\n"
}

// Writes the tasks of a kernel whose symbol file has all names that are needed.
fn write_tasks<Y: Layer, O: Sink, L: Ledger>(
    alloc: Global,
    ground: Ground<'_, '_>,
    memory: &mut Memory<Y>,
    out: &mut O,
    steps: &mut Steps<L>,
) -> Result<(), PluginFault>
    ensures writes { WritesOver O.written O.faults out.old out.new memory.old memory.new PluginFault.Device PluginFault.Out result
        (λ memory. list_text (tasks memory ground.entry.table.now ground.entry.kernel) (task_stop memory ground.entry.table.now ground.entry.kernel)) }
{
    match task_walk(alloc, ground) {
        Ok(walk) => {
            let reader = TaskReader::of(ground);
            write_walk(
                alloc,
                head(),
                walk,
                &TaskRow { alloc, reader },
                memory,
                out,
                steps,
            )
        },
        Err(stop) => write_lines(alloc, head(), &mut NoLines { stop }, memory, out, steps),
    }
}

/// Writes the tasks of a kernel: a line of the columns' names, then the address, the PID, the TID, the parent's PID and the
/// name of each task of the ring, then why the ring ended. Where the symbol file lacks a name that is needed, the line of
/// the first one is all that is written. What was found is written before a failure of the image is answered.
#[tactic(auto, unfolding(crate::specs::Pslist::pslist_text))]
pub fn write_pslist<Y: Layer, O: Sink, L: Ledger>(
    alloc: Global,
    ground: Ground<'_, '_>,
    memory: &mut Memory<Y>,
    out: &mut O,
    steps: &mut Steps<L>,
) -> Result<(), PluginFault>
    ensures writes { WritesOver O.written O.faults out.old out.new memory.old memory.new PluginFault.Device PluginFault.Out result
        (λ memory. pslist_text memory ground.entry.table.now ground.entry.kernel) }
{
    if let Some(need) = ground.first_missing(task_needs()) {
        let line = missing_line(alloc, need)?;
        write_whole(out, &line)?;
        return Ok(());
    }
    write_tasks(alloc, ground, memory, out, steps)
}
