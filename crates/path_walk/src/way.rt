//! A path on its way.
ghost use Rattle.std.specs.Prelude.{◌≡◌, IfOk, IfSome, IsErrOf};
ghost use Rattle.layer_base.specs.Counts.{HasCause};
ghost use Rattle.layer_base.specs.View.{physical};
ghost use Rattle.space_memory.specs.State.{IsSameMemory};
ghost use Rattle.typed_object.specs.Ground.{kernel_memory};
ghost use Rattle.path_walk.specs.Way.{Meets, Passes, Advances};

use crate::Paths;
use crate::turn::{Turn, take_turn};
use kernel_records::{Stop, WalkFault};
use layer_base::{Layer, Name, Steps};
use space_memory::Memory;
use std::alloc::{AllocError, Global};
use std::collections::BTreeSet;
use std::sync::ledger::Ledger;

/// A path on its way from a file to the root: where it stands, what it met before, and the names that it found, the one
/// next to the file first.
#[derive(Debug, Drop)]
pub(crate) struct Way {
    pub(crate) mount: u64,
    pub(crate) dentry: u64,
    pub(crate) met: BTreeSet<(u64, u64)>,
    pub(crate) names: Vec<Name>,
}

// Meets a mount and a dentry; tells whether they are new.
fn meet(met: &mut BTreeSet<(u64, u64)>, mount: u64, dentry: u64) -> Result<bool, AllocError>
    ensures { IfOk result (Meets met.old met.new mount dentry) }
{
    Ok(met.insert((mount, dentry))?)
}

// Goes where a turn leads, or tells why the path ends.
fn pass(way: &mut Way, turn: Turn) -> Result<Option<Stop>, AllocError>
    ensures passes { IfOk result (Passes way.old way.new turn) }
    ensures met { way.new.met ≡ way.old.met }
{
    match turn {
        Turn::Mounted { mount, dentry } => {
            way.mount = mount;
            way.dentry = dentry;
            Ok(None)
        }
        Turn::Named { name, parent } => {
            way.names.push(name)?;
            way.dentry = parent;
            Ok(None)
        }
        Turn::Stopped(stop) => Ok(Some(stop)),
    }
}

/// Makes a turn, or tells why the path ends.
pub(crate) fn step<Y: Layer, L: Ledger>(
    alloc: Global,
    paths: &Paths<'_>,
    way: &mut Way,
    memory: &mut Memory<Y>,
    steps: &mut Steps<L>,
) -> Result<Option<Stop>, WalkFault>
    ensures steps { IfSome memory.old.view (λ told. IfOk result (
        Advances (kernel_memory (physical told) paths.now.kernel) paths.now.table.now way.old way.new)) }
    ensures memory { IsSameMemory memory.old memory.new }
    ensures cause { HasCause memory.old.faults memory.new.faults (IsErrOf result WalkFault.Device) }
{
    if !meet(&mut way.met, way.mount, way.dentry)? {
        return Ok(Some(Stop::Repeated { at: way.dentry }));
    }
    let turn = take_turn(alloc, paths, way.mount, way.dentry, memory, steps)?;
    Ok(pass(way, turn)?)
}
