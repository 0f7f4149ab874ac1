//! The chain of areas.
ghost use Rattle.std.specs.Prelude.{◌≡◌, IfOk};
ghost use Rattle.typed_object.specs.Ground.{kernel_space};
ghost use Rattle.vma_walk.specs.Areas.{walk_from, area_walk};

use kernel_records::{Need, Stop};
use list_walk::{Shape, Walk};
use std::alloc::Global;
use typed_object::{Ground, offset_of};

/// A walk along the areas of the memory descriptor at an address, or why there are none: `End` where the address is 0, and
/// `Outside` with the descriptor's address where its member `mmap` stands above 2^64 - 1. It takes no memory.
#[tactic(auto, unfolding(crate::specs::Areas::area_walk))]
pub fn area_walk(alloc: Global, ground: Ground<'_, '_>, mm: u64) -> Result<Walk, Stop>
    ensures walk { result ≡ area_walk ground.entry.table.now ground.entry.kernel mm }
    ensures space { IfOk result (λ walk. walk.space ≡ kernel_space ground.entry.kernel) }
{
    if mm == 0 {
        return Err(Stop::End);
    }
    let mmap = offset_of(ground.needed_member(Need::MmStructMmap));
    let Some(place) = mm.checked_add(mmap) else {
        return Err(Stop::Outside { at: mm });
    };
    let shape = Shape {
        back: 0,
        next: offset_of(ground.needed_member(Need::VmAreaStructVmNext)),
    };
    Ok(Walk::chain(alloc, ground.space(), place, shape))
}
