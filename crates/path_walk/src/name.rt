//! The names of dentries.
ghost use Rattle.std.specs.Prelude.{◌≡◌, IfOk, IfSome, IsErrOf};
ghost use Rattle.layer_base.specs.Counts.{HasCause};
ghost use Rattle.layer_base.specs.View.{physical};
ghost use Rattle.space_memory.specs.State.{IsSameMemory};
ghost use Rattle.typed_object.specs.Ground.{kernel_memory};
ghost use Rattle.path_walk.specs.Turn.{name_at, name_stop};

use crate::Paths;
use kernel_records::{Stop, WalkFault};
use layer_base::{Layer, Name, Steps};
use space_memory::Memory;
use std::alloc::Global;
use std::sync::ledger::Ledger;
use typed_object::{ObjectFault, TextFault, read_text};

// How many bytes a name has at most.
const LONGEST_NAME: u64 = 255;

/// The name at an address, or why there is none.
#[tactic(auto, unfolding(crate::specs::Turn::name_at))]
pub(crate) fn read_name<Y: Layer, L: Ledger>(
    alloc: Global,
    paths: &Paths<'_>,
    at: u64,
    memory: &mut Memory<Y>,
    steps: &mut Steps<L>,
) -> Result<Result<Name, ObjectFault>, WalkFault>
    ensures name { IfSome memory.old.view (λ told. IfOk result (λ name.
        name ≡ name_at (kernel_memory (physical told) paths.now.kernel) at)) }
    ensures memory { IsSameMemory memory.old memory.new }
    ensures cause { HasCause memory.old.faults memory.new.faults (IsErrOf result WalkFault.Device) }
{
    match read_text(alloc, memory, paths.space, at, LONGEST_NAME, steps) {
        Ok(name) => Ok(Ok(name)),
        Err(TextFault::Object(ObjectFault::Fault(fault))) => Ok(Err(ObjectFault::Fault(fault))),
        Err(TextFault::Object(ObjectFault::Hole { at })) => Ok(Err(ObjectFault::Hole { at })),
        Err(TextFault::Object(ObjectFault::Device)) => Err(WalkFault::Device),
        Err(TextFault::Memory) => Err(WalkFault::Memory),
    }
}

/// Why a path stops at a dentry whose name isn't whole: at the absent byte, or at the dentry where it is above 2^64 - 1.
pub(crate) fn name_stop(dentry: u64, fault: ObjectFault) -> Stop
    ensures { result ≡ name_stop dentry fault }
{
    match fault {
        ObjectFault::Hole { at } => Stop::Unreadable { at },
        ObjectFault::Fault(_) | ObjectFault::Device => Stop::Outside { at: dentry },
    }
}
