//! The tasks of a kernel as a list.
ghost use Rattle.std.specs.Prelude.{◌≡◌, map, IfOk, IfSome, IsErrOf};
ghost use Rattle.layer_base.specs.Counts.{HasCause};
ghost use Rattle.layer_base.specs.View.{physical};
ghost use Rattle.kernel_records.specs.Groups.{task_needs};
ghost use Rattle.kernel_records.specs.Missing.{TellsMissing};
ghost use Rattle.list_walk.specs.Objects.{objects, stop_of};
ghost use Rattle.space_memory.specs.InSpace.{in_space};
ghost use Rattle.space_memory.specs.State.{IsSameMemory};
ghost use Rattle.typed_object.specs.Needs.{first_missing};
ghost use Rattle.task_plugins.specs.Members.{members_of};
ghost use Rattle.task_plugins.specs.Task.{task_at};
ghost use Rattle.task_plugins.specs.Tasks as lists;

use crate::reader::TaskReader;
use crate::ring::task_walk;
use kernel_records::{Rows, TaskFault, WalkFault, task_needs};
use layer_base::{Layer, Steps};
use list_walk::{Turn, Walk};
use space_memory::Memory;
use std::alloc::Global;
use std::sync::ledger::Ledger;
use typed_object::Ground;

// Reads the tasks that a walk gives.
fn read_tasks<Y: Layer, L: Ledger>(
    alloc: Global,
    reader: TaskReader<'_>,
    walk: &mut Walk,
    memory: &mut Memory<Y>,
    steps: &mut Steps<L>,
) -> Result<kernel_records::Tasks, WalkFault>
    ensures rows { IfSome memory.old.view (λ view. IfOk result (λ found. found.rows ≡
        map (task_at (in_space (physical view) reader.entry.objects.space) reader.entry.objects.table.now (members_of reader.entry)) (objects (in_space (physical view) walk.old.space) walk.old))) }
    ensures stop { IfSome memory.old.view (λ view. IfOk result (λ found. found.stop ≡ stop_of (in_space (physical view) walk.old.space) walk.old)) }
    ensures memory { IsSameMemory memory.old memory.new }
    ensures cause { HasCause memory.old.faults memory.new.faults (IsErrOf result WalkFault.Device) }
{
    let mut rows = Rows::new(alloc);
    'tasks: loop {
        match walk.advance(memory, steps)? {
            Turn::Object { at } => rows.add(reader.task_at(alloc, at, memory, steps)?)?,
            Turn::Stopped(stop) => return Ok(kernel_records::Tasks { rows, stop }),
        }
    }
}

/// The tasks of a kernel, whatever names its symbol file lacks, and why their ring ended.
#[tactic(auto, unfolding(crate::specs::Tasks::tasks, crate::specs::Tasks::task_stop))]
pub(crate) fn all_tasks<Y: Layer, L: Ledger>(
    alloc: Global,
    ground: Ground<'_, '_>,
    memory: &mut Memory<Y>,
    steps: &mut Steps<L>,
) -> Result<kernel_records::Tasks, WalkFault>
    ensures rows { IfSome memory.old.view (λ view. IfOk result (λ found. found.rows ≡ lists.tasks (physical view) ground.entry.table.now ground.entry.kernel)) }
    ensures stop { IfSome memory.old.view (λ view. IfOk result (λ found. found.stop ≡ lists.task_stop (physical view) ground.entry.table.now ground.entry.kernel)) }
    ensures memory { IsSameMemory memory.old memory.new }
    ensures cause { HasCause memory.old.faults memory.new.faults (IsErrOf result WalkFault.Device) }
{
    match task_walk(alloc, ground) {
        Ok(mut walk) => read_tasks(alloc, TaskReader::of(ground), &mut walk, memory, steps),
        Err(stop) => Ok(kernel_records::Tasks {
            rows: Rows::new(alloc),
            stop,
        }),
    }
}

/// The tasks of a kernel in the order of their ring, and why it ended. The kernel's first task, in which the ring's head
/// stands, is not listed. `Missing` comes exactly where the symbol file lacks a name that is needed, and tells the first
/// one; `Device` comes only where a call on the image failed.
pub fn tasks<Y: Layer, L: Ledger>(
    alloc: Global,
    ground: Ground<'_, '_>,
    memory: &mut Memory<Y>,
    steps: &mut Steps<L>,
) -> Result<kernel_records::Tasks, TaskFault>
    ensures rows { IfSome memory.old.view (λ view. IfOk result (λ found. found.rows ≡ lists.tasks (physical view) ground.entry.table.now ground.entry.kernel)) }
    ensures stop { IfSome memory.old.view (λ view. IfOk result (λ found. found.stop ≡ lists.task_stop (physical view) ground.entry.table.now ground.entry.kernel)) }
    ensures missing { TellsMissing (first_missing ground.entry.table.now task_needs) result }
    ensures memory { IsSameMemory memory.old memory.new }
    ensures cause { HasCause memory.old.faults memory.new.faults (IsErrOf result TaskFault.Device) }
{
    if let Some(need) = ground.first_missing(task_needs()) {
        return Err(TaskFault::Missing { need });
    }
    Ok(all_tasks(alloc, ground, memory, steps)?)
}
