//! The space of a task.
ghost use Rattle.std.specs.Prelude.{◌≡◌, IfOk, IfSome, IsErr, IsErrOf};
ghost use Rattle.layer_base.specs.Counts.{HasCause};
ghost use Rattle.layer_base.specs.View.{physical};
ghost use Rattle.kernel_records.specs.Groups.{space_needs};
ghost use Rattle.kernel_records.specs.Missing.{TellsMissing};
ghost use Rattle.space_memory.specs.State.{IsSameMemory};
ghost use Rattle.typed_object.specs.Needs.{first_missing};
ghost use Rattle.task_plugins.specs.TaskSpace.{root_of, space_from, space_of, space_at, task_space};

use crate::by_pid::task_of_pid;
use kernel_records::{Need, TaskFault, space_needs};
use layer_base::{DeviceFailed, Layer, Space, Steps};
use space_memory::Memory;
use std::alloc::Global;
use std::sync::ledger::Ledger;
use typed_object::Ground;

/// The space of the task of a PID, or why there is none.
#[derive(Clone, Copy, Debug)]
pub enum TaskSpace {
    /// The task has this space.
    Found(Space),
    /// No task has the PID.
    NoTask,
    /// The task has none: its memory descriptor is absent or at 0, or the root of its page tables is absent or unmapped.
    NoSpace,
}

// The physical address of the page tables of a memory descriptor.
fn root_of<Y: Layer, L: Ledger>(
    ground: Ground<'_, '_>,
    mm: u64,
    memory: &mut Memory<Y>,
    steps: &mut Steps<L>,
) -> Result<Option<u64>, DeviceFailed>
    ensures root { IfSome memory.old.view (λ view. IfOk result (λ root. root ≡ root_of (physical view) ground.entry.table.now ground.entry.kernel mm)) }
    ensures memory { IsSameMemory memory.old memory.new }
    ensures cause { HasCause memory.old.faults memory.new.faults (IsErr result) }
{
    let pgd = ground.needed_member(Need::MmStructPgd);
    match ground.objects().word(pgd, mm, memory, steps)? {
        Some(pgd) => memory.translate(ground.space(), pgd, steps),
        None => Ok(None),
    }
}

fn space_from(ground: Ground<'_, '_>, root: Option<u64>) -> TaskSpace
    ensures { result ≡ space_from ground.entry.kernel root }
{
    match root {
        Some(root) => TaskSpace::Found(Space::paged(root, ground.kernel.levels)),
        None => TaskSpace::NoSpace,
    }
}

// The space of a memory descriptor, which may be absent.
fn space_of<Y: Layer, L: Ledger>(
    ground: Ground<'_, '_>,
    mm: Option<u64>,
    memory: &mut Memory<Y>,
    steps: &mut Steps<L>,
) -> Result<TaskSpace, DeviceFailed>
    ensures space { IfSome memory.old.view (λ view. IfOk result (λ found. found ≡ space_of (physical view) ground.entry.table.now ground.entry.kernel mm)) }
    ensures memory { IsSameMemory memory.old memory.new }
    ensures cause { HasCause memory.old.faults memory.new.faults (IsErr result) }
{
    match mm {
        None | Some(0) => Ok(TaskSpace::NoSpace),
        Some(mm) => Ok(space_from(ground, root_of(ground, mm, memory, steps)?)),
    }
}

// The space of the task at an address, if there is a task.
fn space_at<Y: Layer, L: Ledger>(
    ground: Ground<'_, '_>,
    task: Option<u64>,
    memory: &mut Memory<Y>,
    steps: &mut Steps<L>,
) -> Result<TaskSpace, DeviceFailed>
    ensures space { IfSome memory.old.view (λ view. IfOk result (λ found. found ≡ space_at (physical view) ground.entry.table.now ground.entry.kernel task)) }
    ensures memory { IsSameMemory memory.old memory.new }
    ensures cause { HasCause memory.old.faults memory.new.faults (IsErr result) }
{
    let Some(task) = task else {
        return Ok(TaskSpace::NoTask);
    };
    let mm = ground.needed_member(Need::TaskStructMm);
    let mm = ground.objects().word(mm, task, memory, steps)?;
    space_of(ground, mm, memory, steps)
}

/// The space of the first task whose PID is a number. Its root is what the kernel's space maps the `pgd` of the task's
/// memory descriptor to, and it has as many levels as the kernel's. `NoTask` comes exactly where no task has the PID, and
/// `NoSpace` exactly where the task's `mm` is zero or absent, or its `pgd` is absent or mapped to nothing. `Missing` comes
/// exactly where the symbol file lacks a name that is needed, and tells the first one; `Device` comes only where a call on
/// the image failed.
#[tactic(auto, unfolding(crate::specs::TaskSpace::task_space))]
pub fn space_of_task<Y: Layer, L: Ledger>(
    alloc: Global,
    ground: Ground<'_, '_>,
    pid: u64,
    memory: &mut Memory<Y>,
    steps: &mut Steps<L>,
) -> Result<TaskSpace, TaskFault>
    ensures space { IfSome memory.old.view (λ view. IfOk result (λ found. found ≡ task_space (physical view) ground.entry.table.now ground.entry.kernel pid)) }
    ensures missing { TellsMissing (first_missing ground.entry.table.now space_needs) result }
    ensures memory { IsSameMemory memory.old memory.new }
    ensures cause { HasCause memory.old.faults memory.new.faults (IsErrOf result TaskFault.Device) }
{
    if let Some(need) = ground.first_missing(space_needs()) {
        return Err(TaskFault::Missing { need });
    }
    let task = task_of_pid(alloc, ground, pid, memory, steps)?;
    Ok(space_at(ground, task, memory, steps)?)
}
