//! The ranges of an image.
ghost use Rattle.std.specs.Prelude.{◌≡◌, ◌≤◌, take, IfSome, IsErrOf};
ghost use Rattle.layer_base.specs.Counts.{HasCause};
ghost use Rattle.layer_base.specs.Present.{present_from};
ghost use Rattle.layer_base.specs.View.{physical};
ghost use Rattle.layer_base.specs.View.View.{File};
ghost use Rattle.layer_base.specs.Why.{AnswersAs};
ghost use Rattle.layer_base.specs.Lime.{lime, ranges_from};

use crate::header::Header;
use crate::read::header_at;
use layer_base::{Device, Rule, Segments, Why};
use std::alloc::Global;

// How many ranges an image may have.
const MOST_RANGES: usize = 65_536;

/// The ranges of a LiME image, read from the device. A range whose bytes pass the end of the device is accepted.
pub fn lime_of<D: Device>(alloc: Global, device: &mut D) -> Result<Segments, Why>
    ensures reading { IfSome (D.held device.old) (λ held. AnswersAs result (lime (physical (File held)))) }
    ensures never_taken { ¬ IsErrOf result Why.Taken }
    ensures same { D.held device.new ≡ D.held device.old }
    ensures cause { HasCause (D.faults device.old) (D.faults device.new) (IsErrOf result Why.Device) }
{
    let Some(header) = header_at(device, 0)? else {
        return Err(Why::NotThis);
    };
    if !header.is_lime() {
        return Err(Why::NotThis);
    }
    ranges_of(alloc, device, header)
}

fn ranges_of<D: Device>(alloc: Global, device: &mut D, header: Header) -> Result<Segments, Why>
    requires { header.place ≡ 0 }
    ensures reading { IfSome (D.held device.old) (λ held. take header.count header.bytes ≡ present_from (physical (File held)) 0 32 → AnswersAs result (ranges_from 65536 (physical (File held)) 0 0)) }
    ensures never_taken { ¬ IsErrOf result Why.Taken }
    ensures same { D.held device.new ≡ D.held device.old }
    ensures cause { HasCause (D.faults device.old) (D.faults device.new) (IsErrOf result Why.Device) }
{
    let mut segments = Segments::new(alloc);
    let mut above = 0;
    let mut next = Some(header);
    for _ in 0..MOST_RANGES {
        let Some(header) = next else {
            return Ok(segments);
        };
        let segment = match header.range(above) {
            Ok(segment) => segment,
            Err(rule) => return Err(header.refusal(rule)),
        };
        segments.add(segment)?;
        above = u128::from(segment.first) + segment.length;
        next = header_at(device, segment.place + segment.length)?;
    }
    match next {
        None => Ok(segments),
        Some(header) => Err(header.refusal(Rule::Many)),
    }
}
