//! Reading a piece of a space through what it is mapped to.
ghost use Rattle.std.specs.Prelude.{◌≡◌, ◌+◌, ◌<◌, ◌≤◌, None, length, IsErr, IfOk, IfSome};
ghost use Rattle.layer_base.specs.Mapped.{Holds};
ghost use Rattle.layer_base.specs.Counts.{HasCause};
ghost use Rattle.layer_base.specs.Run.{IsWithin};
ghost use Rattle.layer_base.specs.SameLayer.{IsSameLayer};
ghost use Rattle.layer_base.specs.View.{physical};
ghost use Rattle.intel_paging.specs.Block.{place_in};
ghost use Rattle.space_memory.specs.Through.{FitsMemory, IsTrueThrough};

use layer_base::{DeviceFailed, Layer, Mapped, Run, room_within};

/// The physical address of an address that the run holds.
pub(crate) fn place_in(run: &Mapped, at: u64) -> Option<u64>
    requires holds { Holds run.now at }
    requires fits { FitsMemory run.now }
    ensures { result ≡ place_in run.now at }
{
    match run.to {
        None => None,
        Some(to) => Some(to + (at - run.first)),
    }
}

/// Says what is at the addresses from `at` on, and nothing of those behind the run's last. It calls the layer once,
/// and not where the run is mapped to nothing.
pub(crate) fn run_in<Y: Layer>(
    phys: &mut Y,
    run: &Mapped,
    at: u64,
    buf: &mut [u8],
) -> Result<Run, DeviceFailed>
    requires some { 0 < length buf.old }
    requires holds { Holds run.now at }
    requires fits { FitsMemory run.now }
    ensures within { IfOk result (IsWithin at (length buf.old)) }
    ensures run { IfSome (Y.view phys.old) (λ view. IfOk result (IsTrueThrough (physical view) run.now at buf.new)) }
    ensures calls { Y.calls phys.new ≤ Y.calls phys.old + 1 }
    ensures no_calls { run.now.to ≡ None → Y.calls phys.new ≡ Y.calls phys.old }
    ensures layer { IsSameLayer Y.view Y.kind Y.faults Y.calls phys.old phys.new }
    ensures cause { HasCause (Y.faults phys.old) (Y.faults phys.new) (IsErr result) }
{
    let Some(place) = place_in(run, at) else {
        return Ok(Run::Absent { last: run.last });
    };
    let more = run.last - at;
    let room = room_within(more, buf.len());
    match phys.run_at(place, &mut buf[..room])? {
        Run::Present { count } => Ok(Run::Present { count }),
        Run::Absent { last } => Ok(Run::Absent {
            last: at + (last - place).min(more),
        }),
    }
}
