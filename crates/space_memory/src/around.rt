//! The run around an address, from a cache or from the tables.
ghost use Rattle.std.specs.Prelude.{◌≡◌, ◌+◌, ◌-◌, ◌*◌, ◌<◌, ◌≤◌, ◌^◌, true, false, None, IsErr, IfOk, IfSome};
ghost use Rattle.layer_base.specs.Mapped.{Holds};
ghost use Rattle.layer_base.specs.Counts.{HasCause};
ghost use Rattle.layer_base.specs.SameLayer.{IsSameLayer};
ghost use Rattle.layer_base.specs.View.{physical};
ghost use Rattle.intel_paging.specs.Walk.{IsBlock, asks_tables, levels_of};
ghost use Rattle.space_memory.specs.Kept.{IsHeld, IsHeldHole, IsTrueCache, KeepsRuns};
ghost use Rattle.space_memory.specs.Through.{FitsMemory};

use intel_paging::{asks_tables, walk};
use layer_base::{DeviceFailed, Layer, Mapped, Space, Steps};
use run_cache::RunCache;
use std::sync::ledger::Ledger;

/// The run around an address: a kept one, or else what a walk through the tables says, which is kept then. A kept run
/// costs no step and no call of the layer. A run that is found without tables is not kept.
pub(crate) fn run_around<Y: Layer, L: Ledger>(
    phys: &mut Y,
    cache: &mut RunCache,
    space: Space,
    at: u64,
    steps: &mut Steps<L>,
) -> Result<Mapped, DeviceFailed>
    requires { IsTrueCache (Y.view phys.old) cache.old }
    ensures holds { IfOk result (λ run. Holds run at) }
    ensures fits { IfOk result FitsMemory }
    ensures block { IfSome (Y.view phys.old) (λ view. IfOk result (IsBlock (physical view) space)) }
    ensures cache { IsTrueCache (Y.view phys.old) cache.new }
    ensures capacity { cache.new.capacity ≡ cache.old.capacity }
    ensures runs { KeepsRuns space at cache.old cache.new }
    ensures kept { asks_tables space at ≡ true → 0 < cache.old.capacity → IfOk result (λ _. IsHeld space at cache.new) }
    ensures hole { asks_tables space at ≡ true → IsHeldHole space at cache.old → IfOk result (λ run. run.to ≡ None) }
    ensures held { IsHeld space at cache.old → steps.new ≡ steps.old }
    ensures least_steps { steps.old ≤ steps.new }
    ensures most_steps { steps.new ≤ steps.old + levels_of space }
    ensures no_steps { asks_tables space at ≡ false → steps.new ≡ steps.old }
    ensures calls { Y.calls phys.new ≤ Y.calls phys.old + 8 * (steps.new - steps.old) }
    ensures layer { IsSameLayer Y.view Y.kind Y.faults Y.calls phys.old phys.new }
    ensures cause { HasCause (Y.faults phys.old) (Y.faults phys.new) (IsErr result) }
{
    if !asks_tables(space, at) {
        return walk(phys, space, at, steps);
    }
    if let Some(run) = cache.look(space, at) {
        return Ok(run);
    }
    let run = walk(phys, space, at, steps)?;
    cache.keep(space, run);
    Ok(run)
}
