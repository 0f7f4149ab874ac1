//! One turn along a path.
ghost use Rattle.std.specs.Prelude.{◌≡◌, IfOk, IfSome, IsErrOf};
ghost use Rattle.layer_base.specs.Counts.{HasCause};
ghost use Rattle.layer_base.specs.View.{physical};
ghost use Rattle.space_memory.specs.State.{IsSameMemory};
ghost use Rattle.typed_object.specs.Ground.{kernel_memory};
ghost use Rattle.path_walk.specs.Turn.{with_name_address, with_parent, past_dentry, with_mount_parent, past_mount, with_root, turn};

use crate::Paths;
use crate::name::{name_stop, read_name};
use kernel_records::{Stop, WalkFault};
use layer_base::{Layer, Name, Steps};
use space_memory::Memory;
use std::alloc::Global;
use std::sync::ledger::Ledger;
use typed_object::absent_stop;

/// Where a turn leads.
#[derive(Debug, Drop)]
pub(crate) enum Turn {
    /// From the root of a mount to where the mount stands.
    Mounted { mount: u64, dentry: u64 },
    /// From a dentry to its parent, with its name.
    Named { name: Name, parent: u64 },
    Stopped(Stop),
}

// With a dentry's name, whose address this is, to its parent.
fn with_name_address<Y: Layer, L: Ledger>(
    alloc: Global,
    paths: &Paths<'_>,
    dentry: u64,
    parent: u64,
    address: Option<u64>,
    memory: &mut Memory<Y>,
    steps: &mut Steps<L>,
) -> Result<Turn, WalkFault>
    ensures turn { IfSome memory.old.view (λ told. IfOk result (λ made.
        made ≡ with_name_address (kernel_memory (physical told) paths.now.kernel) paths.now.table.now dentry parent address)) }
    ensures memory { IsSameMemory memory.old memory.new }
    ensures cause { HasCause memory.old.faults memory.new.faults (IsErrOf result WalkFault.Device) }
{
    let Some(at) = address else {
        return Ok(Turn::Stopped(absent_stop(paths.places.dentry_name, dentry)));
    };
    match read_name(alloc, paths, at, memory, steps)? {
        Ok(name) => Ok(Turn::Named { name, parent }),
        Err(fault) => Ok(Turn::Stopped(name_stop(dentry, fault))),
    }
}

// From a dentry to this parent of it.
fn with_parent<Y: Layer, L: Ledger>(
    alloc: Global,
    paths: &Paths<'_>,
    dentry: u64,
    parent: Option<u64>,
    memory: &mut Memory<Y>,
    steps: &mut Steps<L>,
) -> Result<Turn, WalkFault>
    ensures turn { IfSome memory.old.view (λ told. IfOk result (λ made.
        made ≡ with_parent (kernel_memory (physical told) paths.now.kernel) paths.now.table.now dentry parent)) }
    ensures memory { IsSameMemory memory.old memory.new }
    ensures cause { HasCause memory.old.faults memory.new.faults (IsErrOf result WalkFault.Device) }
{
    let Some(parent) = parent else {
        return Ok(Turn::Stopped(absent_stop(paths.places.dentry_parent, dentry)));
    };
    if parent == dentry {
        return Ok(Turn::Stopped(Stop::End));
    }
    let address = paths.word(paths.places.dentry_name, dentry, memory, steps)?;
    with_name_address(alloc, paths, dentry, parent, address, memory, steps)
}

// From a dentry to its parent.
#[tactic(auto, unfolding(crate::specs::Turn::past_dentry))]
fn past_dentry<Y: Layer, L: Ledger>(
    alloc: Global,
    paths: &Paths<'_>,
    dentry: u64,
    memory: &mut Memory<Y>,
    steps: &mut Steps<L>,
) -> Result<Turn, WalkFault>
    ensures turn { IfSome memory.old.view (λ told. IfOk result (λ made.
        made ≡ past_dentry (kernel_memory (physical told) paths.now.kernel) paths.now.table.now dentry)) }
    ensures memory { IsSameMemory memory.old memory.new }
    ensures cause { HasCause memory.old.faults memory.new.faults (IsErrOf result WalkFault.Device) }
{
    let parent = paths.word(paths.places.dentry_parent, dentry, memory, steps)?;
    with_parent(alloc, paths, dentry, parent, memory, steps)
}

// From a mount to this one, on which it stands.
fn with_mount_parent<Y: Layer, L: Ledger>(
    paths: &Paths<'_>,
    mount: u64,
    parent: Option<u64>,
    memory: &mut Memory<Y>,
    steps: &mut Steps<L>,
) -> Result<Turn, WalkFault>
    ensures turn { IfSome memory.old.view (λ told. IfOk result (λ made.
        made ≡ with_mount_parent (kernel_memory (physical told) paths.now.kernel) paths.now.table.now mount parent)) }
    ensures memory { IsSameMemory memory.old memory.new }
    ensures cause { HasCause memory.old.faults memory.new.faults (IsErrOf result WalkFault.Device) }
{
    let Some(parent) = parent else {
        return Ok(Turn::Stopped(absent_stop(paths.places.mount_parent, mount)));
    };
    if parent == mount {
        return Ok(Turn::Stopped(Stop::Head));
    }
    match paths.word(paths.places.mount_point, mount, memory, steps)? {
        Some(dentry) => Ok(Turn::Mounted {
            mount: parent,
            dentry,
        }),
        None => Ok(Turn::Stopped(absent_stop(paths.places.mount_point, mount))),
    }
}

// From a mount to where it stands.
#[tactic(auto, unfolding(crate::specs::Turn::past_mount))]
fn past_mount<Y: Layer, L: Ledger>(
    paths: &Paths<'_>,
    mount: u64,
    memory: &mut Memory<Y>,
    steps: &mut Steps<L>,
) -> Result<Turn, WalkFault>
    ensures turn { IfSome memory.old.view (λ told. IfOk result (λ made.
        made ≡ past_mount (kernel_memory (physical told) paths.now.kernel) paths.now.table.now mount)) }
    ensures memory { IsSameMemory memory.old memory.new }
    ensures cause { HasCause memory.old.faults memory.new.faults (IsErrOf result WalkFault.Device) }
{
    let parent = paths.word(paths.places.mount_parent, mount, memory, steps)?;
    with_mount_parent(paths, mount, parent, memory, steps)
}

// The turn at a mount that has this root.
fn with_root<Y: Layer, L: Ledger>(
    alloc: Global,
    paths: &Paths<'_>,
    mount: u64,
    dentry: u64,
    root: Option<u64>,
    memory: &mut Memory<Y>,
    steps: &mut Steps<L>,
) -> Result<Turn, WalkFault>
    ensures turn { IfSome memory.old.view (λ told. IfOk result (λ made.
        made ≡ with_root (kernel_memory (physical told) paths.now.kernel) paths.now.table.now mount dentry root)) }
    ensures memory { IsSameMemory memory.old memory.new }
    ensures cause { HasCause memory.old.faults memory.new.faults (IsErrOf result WalkFault.Device) }
{
    match root {
        Some(root) if root == dentry => past_mount(paths, mount, memory, steps),
        Some(_) => past_dentry(alloc, paths, dentry, memory, steps),
        None => Ok(Turn::Stopped(absent_stop(paths.places.mount_root, mount))),
    }
}

/// The turn at a mount and a dentry.
#[tactic(auto, unfolding(crate::specs::Turn::turn))]
pub(crate) fn take_turn<Y: Layer, L: Ledger>(
    alloc: Global,
    paths: &Paths<'_>,
    mount: u64,
    dentry: u64,
    memory: &mut Memory<Y>,
    steps: &mut Steps<L>,
) -> Result<Turn, WalkFault>
    ensures turn { IfSome memory.old.view (λ told. IfOk result (λ made.
        made ≡ turn (kernel_memory (physical told) paths.now.kernel) paths.now.table.now mount dentry)) }
    ensures memory { IsSameMemory memory.old memory.new }
    ensures cause { HasCause memory.old.faults memory.new.faults (IsErrOf result WalkFault.Device) }
{
    let root = paths.word(paths.places.mount_root, mount, memory, steps)?;
    with_root(alloc, paths, mount, dentry, root, memory, steps)
}
