//! Reading headers from a device.
ghost use Rattle.std.specs.Prelude.{◌≡◌, ◌+◌, ◌^◌, ◌-◌, ◌≤◌, min, length, take, IsErr, IfOk, IfSome};
ghost use Rattle.layer_base.specs.Counts.{HasCause};
ghost use Rattle.layer_base.specs.Present.{present_from};
ghost use Rattle.layer_base.specs.View.{physical};
ghost use Rattle.layer_base.specs.View.View.{File};
ghost use Rattle.lime_layer.specs.Header.{bytes_of};

use crate::header::{Header, LENGTH};
use layer_base::{Device, Failed, room_within};

/// The header at a place, in one call of the device where that gives it whole. There is none where no byte is present
/// there.
pub(crate) fn header_at<D: Device>(device: &mut D, place: u128) -> Result<Option<Header>, Failed>
    ensures place { IfOk result (λ header. IfSome header (λ h. h.place ≡ place)) }
    ensures bytes { IfSome (D.held device.old) (λ held. IfOk result (λ header. bytes_of header ≡ present_from (physical (File held)) place 32)) }
    ensures same { D.held device.new ≡ D.held device.old }
    ensures cause { HasCause (D.faults device.old) (D.faults device.new) (IsErr result) }
{
    if place > u128::from(u64::MAX) {
        return Ok(None);
    }
    let place = place as u64;
    let mut bytes = [0; LENGTH];
    let count = fill(device, place, &mut bytes)?;
    if count == 0 {
        return Ok(None);
    }
    Ok(Some(Header {
        place,
        bytes,
        count,
    }))
}

// Puts the bytes from a place on into the front of the buffer, in as many calls as the device wants, and answers how
// many there are: fewer than there is room for only where the bytes end, or the places do.
fn fill<D: Device>(device: &mut D, place: u64, buf: &mut [u8]) -> Result<usize, Failed>
    ensures within { IfOk result (λ n. n ≤ length buf.old) }
    ensures places { IfOk result (λ n. place + n ≤ 2 ^ 64) }
    ensures bytes { IfSome (D.held device.old) (λ held. IfOk result (λ n. take n buf.new ≡ present_from (physical (File held)) place (length buf.old))) }
    ensures same { D.held device.new ≡ D.held device.old }
    ensures cause { HasCause (D.faults device.old) (D.faults device.new) (IsErr result) }
{
    let room = room_within(u64::MAX - place, buf.len());
    let mut done = 0;
    while done < room {
        let n = device.read_at(place + done as u64, &mut buf[done..room])?;
        if n == 0 {
            break;
        }
        done += n;
    }
    Ok(done)
}
