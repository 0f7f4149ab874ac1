//! The line of a banner of a Linux kernel.
ghost use Rattle.std.specs.Prelude.{◌≡◌, ◌++◌, ◌≤◌, take, length, IsErr, IfOk, IfSome, OnOk, OnErr};
ghost use Rattle.std.specs.Io.{StartsWith};
ghost use Rattle.layer_base.specs.Counts.{HasCause};
ghost use Rattle.layer_base.specs.Present.{present_from};
ghost use Rattle.layer_base.specs.View.{physical};
ghost use Rattle.layer_base.specs.declared.space.Space.TheVariants.{Phys};
ghost use Rattle.space_memory.specs.InSpace.{in_space};
ghost use Rattle.space_memory.specs.State.{IsSameMemory};
ghost use Rattle.scan_text.specs.Banners.{banner_line, before_end};

use cell_text::append_text;
use hex_text::append_address;
use layer_base::{DeviceFailed, Layer, Space, Steps, room_within};
use memchr::memchr2;
use space_memory::{Got, Memory};
use std::alloc::AllocError;
use std::sync::ledger::Ledger;

/// Reads the bytes that are present in a row from a physical address on into the front of a buffer, and answers how many.
/// After a failure what the buffer holds is open.
pub(crate) fn read_present<Y: Layer, L: Ledger>(
    memory: &mut Memory<Y>,
    at: u64,
    buf: &mut [u8],
    steps: &mut Steps<L>,
) -> Result<usize, DeviceFailed>
    ensures present { IfSome memory.old.view (λ view. IfOk result (λ count.
        take count buf.new ≡ present_from (in_space (physical view) Phys) at (length buf.old))) }
    ensures within { IfOk result (λ count. count ≤ length buf.old) }
    ensures memory { IsSameMemory memory.old memory.new }
    ensures cause { HasCause memory.old.faults memory.new.faults (IsErr result) }
{
    let room = room_within(u64::MAX - at, buf.len());
    match memory.read(Space::Phys, at, &mut buf[..room], steps)? {
        Got::All => Ok(room),
        Got::Hole { at: hole } => Ok((hole - at) as usize),
    }
}

// The bytes before the first zero byte or newline.
fn before_end(bytes: &[u8]) -> &[u8]
    ensures { result.now ≡ before_end bytes.now }
{
    match memchr2(0, b'\n', bytes) {
        Some(place) => &bytes[..place],
        None => bytes,
    }
}

/// Appends the line of a banner at an address, whose first bytes these are. When out of memory, what stood in the text
/// still stands at its front.
pub(crate) fn append_banner(text: &mut Vec<u8>, at: u64, bytes: &[u8]) -> Result<(), AllocError>
    ensures ok { OnOk result (text.new.items ≡ text.old.items ++ banner_line at (before_end bytes.now)) }
    ensures err { OnErr result (StartsWith text.new.items text.old.items) }
{
    append_address(text, at)?;
    text.push(b'\t')?;
    append_text(text, before_end(bytes))?;
    text.push(b'\n')?;
    Ok(())
}
