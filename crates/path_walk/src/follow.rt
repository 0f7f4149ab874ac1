//! Following a path to its end.
ghost use Rattle.std.specs.Prelude.{◌≡◌, [], reverse, IfOk, IfSome, IsErrOf};
ghost use Rattle.layer_base.specs.Counts.{HasCause};
ghost use Rattle.layer_base.specs.View.{physical};
ghost use Rattle.space_memory.specs.State.{IsSameMemory};
ghost use Rattle.typed_object.specs.Ground.{kernel_memory};
ghost use Rattle.path_walk.specs.Path.{follow, followed, path_text};
ghost use Rattle.path_walk.specs.Way.{AreMet, path_left};

use crate::Paths;
use crate::ended::ended;
use crate::special::{special_of, special_text};
use crate::way::{Way, step};
use kernel_records::{PathText, Stop, WalkFault};
use layer_base::{Layer, Steps};
use space_memory::Memory;
use std::alloc::Global;
use std::collections::BTreeSet;
use std::sync::ledger::Ledger;
use typed_object::{Ground, offset_of};

// How many turns a path may take.
const MOST_TURNS: u64 = 4096;

// Follows a path on which no turn was made so far.
fn follow<Y: Layer, L: Ledger>(
    alloc: Global,
    paths: &Paths<'_>,
    mut way: Way,
    memory: &mut Memory<Y>,
    steps: &mut Steps<L>,
) -> Result<PathText, WalkFault>
    requires { AreMet way.met [] }
    ensures path { IfSome memory.old.view (λ told. IfOk result (λ path.
        path ≡ path_left (kernel_memory (physical told) paths.now.kernel) paths.now.table.now 4096 [] way)) }
    ensures memory { IsSameMemory memory.old memory.new }
    ensures cause { HasCause memory.old.faults memory.new.faults (IsErrOf result WalkFault.Device) }
{
    for turns in 0..MOST_TURNS {
        if let Some(stop) = step(alloc, paths, &mut way, memory, steps)? {
            return Ok(ended(alloc, &way.names, stop)?);
        }
    }
    Ok(ended(alloc, &way.names, Stop::Limit { n: MOST_TURNS })?)
}

// The path of a dentry of a mount, of which this is the part that files point to.
#[tactic(auto, unfolding(crate::specs::Path::followed))]
fn followed<Y: Layer, L: Ledger>(
    alloc: Global,
    paths: &Paths<'_>,
    mnt: u64,
    dentry: u64,
    memory: &mut Memory<Y>,
    steps: &mut Steps<L>,
) -> Result<PathText, WalkFault>
    ensures path { IfSome memory.old.view (λ told. IfOk result (λ path.
        path ≡ followed (kernel_memory (physical told) paths.now.kernel) paths.now.table.now mnt dentry)) }
    ensures memory { IsSameMemory memory.old memory.new }
    ensures cause { HasCause memory.old.faults memory.new.faults (IsErrOf result WalkFault.Device) }
{
    let Some(mount) = mnt.checked_sub(offset_of(paths.places.mount_part)) else {
        return Ok(ended(alloc, &[], Stop::Outside { at: mnt })?);
    };
    let way = Way {
        mount,
        dentry,
        met: BTreeSet::new(alloc),
        names: Vec::new(alloc),
    };
    follow(alloc, paths, way, memory, steps)
}

/// The path of a mount and a dentry.
#[tactic(auto, unfolding(crate::specs::Path::path_text))]
pub(crate) fn path_text<Y: Layer, L: Ledger>(
    alloc: Global,
    paths: &Paths<'_>,
    mnt: u64,
    dentry: u64,
    memory: &mut Memory<Y>,
    steps: &mut Steps<L>,
) -> Result<PathText, WalkFault>
    ensures path { IfSome memory.old.view (λ told. IfOk result (λ path.
        path ≡ path_text (kernel_memory (physical told) paths.now.kernel) paths.now.table.now paths.now.kernel mnt dentry)) }
    ensures memory { IsSameMemory memory.old memory.new }
    ensures cause { HasCause memory.old.faults memory.new.faults (IsErrOf result WalkFault.Device) }
{
    match special_of(paths, dentry, memory, steps)? {
        Some(kind) => {
            let text = special_text(alloc, paths, dentry, kind, memory, steps)?;
            Ok(PathText {
                text,
                stop: Stop::Head,
            })
        }
        None => followed(alloc, paths, mnt, dentry, memory, steps),
    }
}

/// The path of a dentry in a mount. Both addresses are those of the kernel's space, and the mount's is that of its part
/// `mnt`, to which files point.
///
/// Where the function that writes the dentry's name is `sockfs_dname`, `pipefs_dname` or `anon_inodefs_dname`, the path is
/// `socket:[I]`, `pipe:[I]` or `anon_inode:NAME`: the number of the dentry's inode, or its name, and `-` where that is
/// absent. The stop is `Head`.
///
/// Any other dentry is followed upwards: to its parent, and from the root of a mount to where the mount stands. A name is
/// the bytes before the first zero byte, at most 255. The path is `/` and the names joined by `/` where the stop is `Head`;
/// with any other stop it is `?/` and the names that were found. The stops are
///
/// - `Head` at the mount that stands on itself;
/// - `End` at a dentry that is its own parent;
/// - `Repeated` at a mount and a dentry that were met before, with the dentry;
/// - `Limit` after 4,096 turns;
/// - `Unreadable` at a member, or a byte of a name, that is absent, with its address;
/// - `Outside` where that address is above 2^64 - 1, with the mount or the dentry, or with `mnt` where the mount would
///   begin below 0.
///
/// A member that the symbol file has not is absent. `Device` comes only where a call on the image's device failed.
pub fn path_of<Y: Layer, L: Ledger>(
    alloc: Global,
    ground: &Ground<'_, '_>,
    mnt: u64,
    dentry: u64,
    memory: &mut Memory<Y>,
    steps: &mut Steps<L>,
) -> Result<PathText, WalkFault>
    ensures path { IfSome memory.old.view (λ told. IfOk result (λ path.
        path ≡ path_text (kernel_memory (physical told) ground.now.kernel) ground.now.table.now ground.now.kernel mnt dentry)) }
    ensures memory { IsSameMemory memory.old memory.new }
    ensures cause { HasCause memory.old.faults memory.new.faults (IsErrOf result WalkFault.Device) }
{
    path_text(alloc, &Paths::of(ground), mnt, dentry, memory, steps)
}
