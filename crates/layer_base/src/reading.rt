//! How a device is read: as it is, or as ranges of addresses over it.
ghost use Rattle.std.specs.Prelude.{◌≡◌, ℕ, ◌+◌, ◌-◌, ◌^◌, ◌<◌, ◌≤◌, List, length, min, IsErr, IfOk, IfSome};
ghost use Rattle.layer_base.specs.Counts.{HasCause};
ghost use Rattle.layer_base.specs.Reading.{view_of, reach_of, ReachesTo};
ghost use Rattle.layer_base.specs.Ranges.{reach};
ghost use Rattle.layer_base.specs.Run.{IsWithin, IsTrueOf};
ghost use Rattle.layer_base.specs.Stretch.{IsShownFrom};
ghost use Rattle.layer_base.specs.View.{View, physical};
ghost use Rattle.layer_base.specs.View.View.{File, Ranges};

use crate::{Device, DeviceFailed, Run, Segments};

/// How a device is read.
#[derive(Debug, Drop)]
pub enum Reading {
    /// The device's bytes are the memory.
    Raw,
    /// Ranges of addresses stand at places of the device.
    Ranges(Segments),
}

// The addresses from one to `last`: their bytes stand in a row from `place` on, or they have none.
#[derive(Clone, Copy)]
struct Stretch {
    place: Option<u64>,
    last: u64,
}

/// Says what is at the addresses from `at` on, in at most one call of the device.
///
/// A hole of a raw device reaches to the last address of all. A hole of ranges reaches to the last address before the
/// next range begins, or to the last address of all where none does. Where a range shows `at`, the hole ends no later
/// than that range.
pub fn run_of_reading<D: Device>(
    device: &mut D,
    reading: &Reading,
    at: u64,
    buf: &mut [u8],
) -> Result<Run, DeviceFailed>
    requires { 0 < length buf.old }
    ensures within { IfOk result (IsWithin at (length buf.old)) }
    ensures run { IfSome (D.held device.old) (λ held. IfOk result (IsTrueOf (physical (view_of reading.now (File held))) at buf.new)) }
    ensures reach { (held : List ℕ) → IfOk result (ReachesTo (reach_of (view_of reading.now (File held)) at)) }
    ensures same { D.held device.new ≡ D.held device.old }
    ensures cause { HasCause (D.faults device.old) (D.faults device.new) (IsErr result) }
{
    let stretch = stretch_at(reading, at);
    let last = stretch.last;
    let Some(place) = stretch.place else {
        return Ok(Run::Absent { last });
    };
    let room = room_within(last - at, buf.len());
    match device.read_at(place, &mut buf[..room]) {
        Ok(0) => Ok(Run::Absent { last }),
        Ok(count) => Ok(Run::Present { count }),
        Err(_) => Err(DeviceFailed),
    }
}

/// How many bytes of a buffer of `length` serve for an address and `more` after it.
pub fn room_within(more: u64, length: usize) -> usize
    ensures { result ≡ min (more + 1) length }
{
    if more < length as u64 {
        more as usize + 1
    } else {
        length
    }
}

fn stretch_at(reading: &Reading, at: u64) -> Stretch
    ensures within { at ≤ result.last }
    ensures last { (held : List ℕ) → result.last ≡ reach_of (view_of reading.now (File held)) at }
    ensures shown { (below : View) → IsShownFrom (physical (view_of reading.now below)) (physical below) at result }
{
    match reading {
        Reading::Raw => Stretch {
            place: Some(at),
            last: u64::MAX,
        },
        Reading::Ranges(segments) => stretch_in(segments, at),
    }
}

fn stretch_in(segments: &Segments, at: u64) -> Stretch
    ensures within { at ≤ result.last }
    ensures last { result.last ≡ reach segments.now at }
    ensures shown { (below : View) → IsShownFrom (physical (Ranges below segments.now)) (physical below) at result }
{
    let before_next = segments.before_next(at);
    match segments.segment_at(at) {
        None => Stretch {
            place: None,
            last: before_next,
        },
        Some(segment) => Stretch {
            place: segment.place_of(at),
            last: before_next.min(segment.last_address()),
        },
    }
}
