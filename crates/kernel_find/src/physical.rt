//! Scans of the whole of physical memory.
ghost use Rattle.std.specs.Prelude.{◌≡◌, ◌≤◌, length, IfOk};
ghost use Rattle.layer_base.specs.AddressSpace.{AddressSpace};
ghost use Rattle.layer_base.specs.declared.space.Space.TheVariants.{Phys};
ghost use Rattle.space_memory.specs.InSpace.{in_space};
ghost use Rattle.chunk_scanner.specs.State.{hits_left, KeepsTrue};
ghost use Rattle.kernel_find.specs.Banner.{all_hits};

use chunk_scanner::Scanner;
use layer_base::Space;
use needle_search::Needles;
use std::alloc::{AllocError, Global};

/// A scanner of all physical addresses.
#[tactic(auto, unfolding(crate::specs::Banner::all_hits))]
pub(crate) fn physical_scanner(
    alloc: Global,
    needles: Needles,
    chunk: usize,
) -> Result<Scanner, AllocError>
    requires some { 1 ≤ length needles }
    requires least { 4096 ≤ chunk }
    requires most { chunk ≤ 16777216 }
    ensures hits { IfOk result (λ scanner. (memory : AddressSpace) → hits_left memory scanner ≡ all_hits (in_space memory Phys) needles) }
    ensures kept { IfOk result (λ scanner. (memory : AddressSpace) → KeepsTrue memory scanner) }
{
    Scanner::new(alloc, Space::Phys, 0, u64::MAX, needles, chunk)
}
