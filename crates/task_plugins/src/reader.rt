//! Reading tasks.
ghost use Rattle.std.specs.Prelude.{◌≡◌, IfOk, IfSome, IsErr, IsErrOf};
ghost use Rattle.layer_base.specs.Counts.{HasCause};
ghost use Rattle.layer_base.specs.View.{physical};
ghost use Rattle.space_memory.specs.InSpace.{in_space};
ghost use Rattle.space_memory.specs.State.{IsSameMemory};
ghost use Rattle.typed_object.specs.Ground.{kernel_space};
ghost use Rattle.task_plugins.specs.Members.{members_of};
ghost use Rattle.task_plugins.specs.Task.{task_members, parent_pid, task_at};

use kernel_records::{Need, Task, WalkFault};
use layer_base::{DeviceFailed, Layer, Number, Steps};
use space_memory::Memory;
use std::alloc::Global;
use std::sync::ledger::Ledger;
use type_layout::Place;
use typed_object::{Ground, Objects};

/// Reads tasks. The places of their members are looked up once.
#[derive(Clone, Copy)]
pub(crate) struct TaskReader<'t> {
    pub(crate) objects: Objects<'t>,
    pub(crate) tgid: Option<Place<'t>>,
    pub(crate) pid: Option<Place<'t>>,
    pub(crate) parent: Option<Place<'t>>,
    pub(crate) comm: Option<Place<'t>>,
}

impl<'t> TaskReader<'t> {
    /// Looks the members up. It takes no memory.
    pub(crate) fn of(ground: Ground<'_, 't>) -> TaskReader<'t>
        ensures members { members_of result ≡ task_members ground.entry.table.now }
        ensures table { result.objects.table.now ≡ ground.entry.table.now }
        ensures space { result.objects.space ≡ kernel_space ground.entry.kernel }
    {
        TaskReader {
            objects: ground.objects(),
            tgid: ground.needed_member(Need::TaskStructTgid),
            pid: ground.needed_member(Need::TaskStructPid),
            parent: ground.needed_member(Need::TaskStructRealParent),
            comm: ground.needed_member(Need::TaskStructComm),
        }
    }

    // The number of the process of a task's parent.
    fn parent_pid<Y: Layer, L: Ledger>(
        self,
        at: u64,
        memory: &mut Memory<Y>,
        steps: &mut Steps<L>,
    ) -> Result<Option<Number>, DeviceFailed>
        ensures number { IfSome memory.old.view (λ view. IfOk result (λ number.
            number ≡ parent_pid (in_space (physical view) self.entry.objects.space) self.entry.objects.table.now (members_of self.entry) at)) }
        ensures memory { IsSameMemory memory.old memory.new }
        ensures cause { HasCause memory.old.faults memory.new.faults (IsErr result) }
    {
        match self.objects.word(self.parent, at, memory, steps)? {
            Some(parent) => self.objects.number(self.tgid, parent, memory, steps),
            None => Ok(None),
        }
    }

    /// The task at an address. What is absent of it is none. `WalkFault.Device` comes only where a call on the image's
    /// device failed.
    #[tactic(auto, unfolding(crate::specs::Task::task_at))]
    pub(crate) fn task_at<Y: Layer, L: Ledger>(
        self,
        alloc: Global,
        at: u64,
        memory: &mut Memory<Y>,
        steps: &mut Steps<L>,
    ) -> Result<Task, WalkFault>
        ensures task { IfSome memory.old.view (λ view. IfOk result (λ task.
            task ≡ task_at (in_space (physical view) self.entry.objects.space) self.entry.objects.table.now (members_of self.entry) at)) }
        ensures memory { IsSameMemory memory.old memory.new }
        ensures cause { HasCause memory.old.faults memory.new.faults (IsErrOf result WalkFault.Device) }
    {
        Ok(Task {
            at,
            pid: self.objects.number(self.tgid, at, memory, steps)?,
            tid: self.objects.number(self.pid, at, memory, steps)?,
            ppid: self.parent_pid(at, memory, steps)?,
            comm: self.objects.text(alloc, self.comm, at, memory, steps)?,
        })
    }
}
