//! The areas of a memory descriptor as a list.
ghost use Rattle.std.specs.Prelude.{◌≡◌, map, IfOk, IfSome, IsErrOf};
ghost use Rattle.layer_base.specs.Counts.{HasCause};
ghost use Rattle.layer_base.specs.View.{physical};
ghost use Rattle.kernel_records.specs.Groups.{area_needs};
ghost use Rattle.kernel_records.specs.Missing.{TellsMissing};
ghost use Rattle.list_walk.specs.Objects.{objects, stop_of};
ghost use Rattle.space_memory.specs.InSpace.{in_space};
ghost use Rattle.space_memory.specs.State.{IsSameMemory};
ghost use Rattle.typed_object.specs.Needs.{first_missing};
ghost use Rattle.vma_walk.specs.Area.{area_at};
ghost use Rattle.vma_walk.specs.Areas.{areas, area_stop};
ghost use Rattle.vma_walk.specs.Members.{members_of};

use crate::AreaReader;
use crate::chain::area_walk;
use kernel_records::{Areas, Rows, TaskFault, WalkFault, area_needs};
use layer_base::{Layer, Steps};
use list_walk::{Turn, Walk};
use space_memory::Memory;
use std::alloc::Global;
use std::sync::ledger::Ledger;
use typed_object::Ground;

// Reads the areas that a walk gives.
fn read_areas<Y: Layer, L: Ledger>(
    alloc: Global,
    reader: AreaReader<'_>,
    walk: &mut Walk,
    memory: &mut Memory<Y>,
    steps: &mut Steps<L>,
) -> Result<Areas, WalkFault>
    ensures rows { IfSome memory.old.view (λ view. IfOk result (λ areas. areas.rows ≡
        map (area_at (in_space (physical view) reader.entry.objects.space) reader.entry.objects.table.now (members_of reader.entry)) (objects (in_space (physical view) walk.old.space) walk.old))) }
    ensures stop { IfSome memory.old.view (λ view. IfOk result (λ areas. areas.stop ≡ stop_of (in_space (physical view) walk.old.space) walk.old)) }
    ensures memory { IsSameMemory memory.old memory.new }
    ensures cause { HasCause memory.old.faults memory.new.faults (IsErrOf result WalkFault.Device) }
{
    let mut rows = Rows::new(alloc);
    'areas: loop {
        match walk.advance(memory, steps)? {
            Turn::Object { at } => rows.add(reader.area_at(at, memory, steps)?)?,
            Turn::Stopped(stop) => return Ok(Areas { rows, stop }),
        }
    }
}

/// The areas of the memory descriptor at an address of the kernel's space, in the order of their chain from the descriptor's
/// `mmap` through the `vm_next` of each area, and why the chain ended. A descriptor at 0 has no areas, and ends in `End`.
/// `Missing` comes exactly where the symbol file lacks a name that is needed, and tells the first one; `Device` comes only
/// where a call on the image failed.
#[tactic(auto, unfolding(crate::specs::Areas::areas, crate::specs::Areas::area_stop))]
pub fn areas_by_chain<Y: Layer, L: Ledger>(
    alloc: Global,
    ground: Ground<'_, '_>,
    mm: u64,
    memory: &mut Memory<Y>,
    steps: &mut Steps<L>,
) -> Result<Areas, TaskFault>
    ensures rows { IfSome memory.old.view (λ view. IfOk result (λ found. found.rows ≡ areas (physical view) ground.entry.table.now ground.entry.kernel mm)) }
    ensures stop { IfSome memory.old.view (λ view. IfOk result (λ found. found.stop ≡ area_stop (physical view) ground.entry.table.now ground.entry.kernel mm)) }
    ensures missing { TellsMissing (first_missing ground.entry.table.now area_needs) result }
    ensures memory { IsSameMemory memory.old memory.new }
    ensures cause { HasCause memory.old.faults memory.new.faults (IsErrOf result TaskFault.Device) }
{
    if let Some(need) = ground.first_missing(area_needs()) {
        return Err(TaskFault::Missing { need });
    }
    match area_walk(alloc, ground, mm) {
        Ok(mut walk) => Ok(read_areas(alloc, AreaReader::of(ground), &mut walk, memory, steps)?),
        Err(stop) => Ok(Areas {
            rows: Rows::new(alloc),
            stop,
        }),
    }
}
