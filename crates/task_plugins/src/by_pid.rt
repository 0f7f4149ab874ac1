//! The task of a PID.
ghost use Rattle.std.specs.Prelude.{◌≡◌, find, option_map, IfOk, IfSome, IsErr, IsErrOf};
ghost use Rattle.layer_base.specs.Counts.{HasCause};
ghost use Rattle.layer_base.specs.View.{physical};
ghost use Rattle.list_walk.specs.Objects as walks;
ghost use Rattle.space_memory.specs.InSpace.{in_space};
ghost use Rattle.space_memory.specs.State.{IsSameMemory};
ghost use Rattle.type_layout.specs.Member.{spot};
ghost use Rattle.task_plugins.specs.Pid.{is_number, has_pid, task_of_pid};

use crate::ring::task_walk;
use kernel_records::{Need, WalkFault};
use layer_base::{DeviceFailed, Layer, Number, Steps};
use list_walk::{Turn, Walk};
use space_memory::Memory;
use std::alloc::Global;
use std::sync::ledger::Ledger;
use type_layout::Place;
use typed_object::{Ground, Objects};

// Whether a number is present and is a whole number.
fn is_number(n: u64, number: Option<Number>) -> bool
    ensures { result ≡ is_number n number }
{
    match number {
        Some(Number::Unsigned(number)) => number == u128::from(n),
        Some(Number::Signed(number)) => number == i128::from(n),
        None => false,
    }
}

// Whether the task at an address has a PID, which stands at a place in it.
fn has_pid<Y: Layer, L: Ledger>(
    objects: Objects<'_>,
    tgid: Option<Place<'_>>,
    pid: u64,
    at: u64,
    memory: &mut Memory<Y>,
    steps: &mut Steps<L>,
) -> Result<bool, DeviceFailed>
    ensures has { IfSome memory.old.view (λ view. IfOk result (λ has. has ≡ has_pid (in_space (physical view) objects.entry.space) objects.entry.table.now (option_map spot tgid.entry) pid at)) }
    ensures memory { IsSameMemory memory.old memory.new }
    ensures cause { HasCause memory.old.faults memory.new.faults (IsErr result) }
{
    let number = objects.number(tgid, at, memory, steps)?;
    Ok(is_number(pid, number))
}

// The address of the first of the tasks that a walk gives that has a PID.
fn first_with_pid<Y: Layer, L: Ledger>(
    objects: Objects<'_>,
    tgid: Option<Place<'_>>,
    pid: u64,
    walk: &mut Walk,
    memory: &mut Memory<Y>,
    steps: &mut Steps<L>,
) -> Result<Option<u64>, WalkFault>
    ensures task { IfSome memory.old.view (λ view. IfOk result (λ task. task ≡
        find (has_pid (in_space (physical view) objects.entry.space) objects.entry.table.now (option_map spot tgid.entry) pid) (walks.objects (in_space (physical view) walk.old.space) walk.old))) }
    ensures memory { IsSameMemory memory.old memory.new }
    ensures cause { HasCause memory.old.faults memory.new.faults (IsErrOf result WalkFault.Device) }
{
    'tasks: loop {
        match walk.advance(memory, steps)? {
            Turn::Object { at } => {
                if has_pid(objects, tgid, pid, at, memory, steps)? {
                    return Ok(Some(at));
                }
            },
            Turn::Stopped(_) => return Ok(None),
        }
    }
}

/// The address of the first task of a kernel whose PID is a number, or None where no task has it. A member that the symbol
/// file lacks is absent. `Device` comes only where a call on the image failed. No task behind the first is looked at.
#[tactic(auto, unfolding(crate::specs::Pid::task_of_pid))]
pub fn task_of_pid<Y: Layer, L: Ledger>(
    alloc: Global,
    ground: Ground<'_, '_>,
    pid: u64,
    memory: &mut Memory<Y>,
    steps: &mut Steps<L>,
) -> Result<Option<u64>, WalkFault>
    ensures task { IfSome memory.old.view (λ view. IfOk result (λ task. task ≡ task_of_pid (physical view) ground.entry.table.now ground.entry.kernel pid)) }
    ensures memory { IsSameMemory memory.old memory.new }
    ensures cause { HasCause memory.old.faults memory.new.faults (IsErrOf result WalkFault.Device) }
{
    match task_walk(alloc, ground) {
        Ok(mut walk) => {
            let tgid = ground.needed_member(Need::TaskStructTgid);
            first_with_pid(ground.objects(), tgid, pid, &mut walk, memory, steps)
        },
        Err(_) => Ok(None),
    }
}
