//! Reading numbers from a layer.
ghost use Rattle.std.specs.Prelude.{◌≡◌, ◌+◌, ◌^◌, ◌≤◌, ◌<◌, length, take, None, IsErr, IfOk, IfSome};
ghost use Rattle.layer_base.specs.Counts.{HasCause};
ghost use Rattle.layer_base.specs.Present.{present_from};
ghost use Rattle.layer_base.specs.SameLayer.{IsSameLayer};
ghost use Rattle.layer_base.specs.View.{physical};
ghost use Rattle.intel_paging.specs.Word.{word};

use byteorder::{ByteOrder, LittleEndian};
use layer_base::{DeviceFailed, Layer, Run};

/// The number in the eight bytes from an address on, where none is absent. The bytes are read in one call of the layer
/// where that gives them whole.
pub(crate) fn word_at<Y: Layer>(phys: &mut Y, at: u64) -> Result<Option<u64>, DeviceFailed>
    requires { at + 8 ≤ 2 ^ 64 }
    ensures word { IfSome (Y.view phys.old) (λ view. IfOk result (λ number. number ≡ word (physical view) at)) }
    ensures calls { Y.calls phys.new ≤ Y.calls phys.old + 8 }
    ensures layer { IsSameLayer Y.view Y.kind Y.faults Y.calls phys.old phys.new }
    ensures cause { HasCause (Y.faults phys.old) (Y.faults phys.new) (IsErr result) }
{
    let mut bytes = [0; 8];
    let count = fill(phys, at, &mut bytes)?;
    if count < 8 {
        return Ok(None);
    }
    Ok(Some(LittleEndian::read_u64(&bytes)))
}

// Puts the bytes that are present in a row from an address on into the front of the buffer, and answers how many
// there are.
fn fill<Y: Layer>(phys: &mut Y, at: u64, buf: &mut [u8]) -> Result<usize, DeviceFailed>
    requires { at + length buf.old ≤ 2 ^ 64 }
    ensures within { IfOk result (λ count. count ≤ length buf.old) }
    ensures bytes { IfSome (Y.view phys.old) (λ view. IfOk result (λ count. take count buf.new ≡ present_from (physical view) at (length buf.old))) }
    ensures calls { Y.calls phys.new ≤ Y.calls phys.old + length buf.old }
    ensures layer { IsSameLayer Y.view Y.kind Y.faults Y.calls phys.old phys.new }
    ensures cause { HasCause (Y.faults phys.old) (Y.faults phys.new) (IsErr result) }
{
    let mut done = 0;
    while done < buf.len() {
        let count = present_at(phys, at + done as u64, &mut buf[done..])?;
        if count == 0 {
            break;
        }
        done += count;
    }
    Ok(done)
}

// The bytes from an address on that one call of the layer gives, and how many: none where the first is absent.
fn present_at<Y: Layer>(phys: &mut Y, at: u64, buf: &mut [u8]) -> Result<usize, DeviceFailed>
    requires { 0 < length buf.old }
    ensures within { IfOk result (λ count. count ≤ length buf.old) }
    ensures bytes { IfSome (Y.view phys.old) (λ view. IfOk result (λ count. take count buf.new ≡ present_from (physical view) at count)) }
    ensures end { IfSome (Y.view phys.old) (λ view. IfOk result (λ count. count ≡ 0 → physical view at ≡ None)) }
    ensures calls { Y.calls phys.new ≤ Y.calls phys.old + 1 }
    ensures layer { IsSameLayer Y.view Y.kind Y.faults Y.calls phys.old phys.new }
    ensures cause { HasCause (Y.faults phys.old) (Y.faults phys.new) (IsErr result) }
{
    match phys.run_at(at, buf)? {
        Run::Present { count } => Ok(count),
        Run::Absent { .. } => Ok(0),
    }
}
