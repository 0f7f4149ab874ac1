//! Reading as much as a buffer takes.
ghost use Rattle.std.specs.Prelude.{◌≡◌, ◌+◌, ◌^◌, ◌<◌, ◌≤◌, take, drop, length, IsErr, IfOk, IfSome};
ghost use Rattle.layer_base.specs.Counts.{HasCause};
ghost use Rattle.layer_base.specs.View.{physical};
ghost use Rattle.space_memory.specs.InSpace.{in_space};
ghost use Rattle.space_memory.specs.State.{IsSameMemory};
ghost use Rattle.chunk_scanner.specs.Filled.{IsFilledWithin, IsFilledFrom, IsReadWithin};

use layer_base::{DeviceFailed, Layer, Run, Space, Steps, room_within};
use space_memory::Memory;
use std::sync::ledger::Ledger;

/// How many bytes were read, and the last address of the hole behind them, where they end at one.
#[derive(Clone, Copy, Debug)]
pub(crate) struct Filled {
    pub(crate) count: usize,
    pub(crate) hole: Option<u64>,
}

// Fills a buffer with the bytes from an address on, as far as they are present.
fn fill<Y: Layer, L: Ledger>(
    memory: &mut Memory<Y>,
    space: Space,
    at: u64,
    buf: &mut [u8],
    steps: &mut Steps<L>,
) -> Result<Filled, DeviceFailed>
    requires { at + length buf.old ≤ 2 ^ 64 }
    ensures within { IfOk result (IsFilledWithin at (length buf.old)) }
    ensures filled { IfSome memory.old.view (λ view. IfOk result (IsFilledFrom (in_space (physical view) space) at buf.new)) }
    ensures memory { IsSameMemory memory.old memory.new }
    ensures cause { HasCause memory.old.faults memory.new.faults (IsErr result) }
{
    let mut count = 0;
    while count < buf.len() {
        let next = at + count as u64;
        match memory.run_at(space, next, &mut buf[count..], steps)? {
            Run::Present { count: more } => count += more,
            Run::Absent { last } => {
                return Ok(Filled {
                    count,
                    hole: Some(last),
                });
            }
        }
    }
    Ok(Filled { count, hole: None })
}

// The same with the bytes of an address and at most `more` behind it.
fn fill_within<Y: Layer, L: Ledger>(
    memory: &mut Memory<Y>,
    space: Space,
    at: u64,
    more: u64,
    buf: &mut [u8],
    steps: &mut Steps<L>,
) -> Result<Filled, DeviceFailed>
    requires addresses { at + more < 2 ^ 64 }
    requires room { 4096 ≤ length buf.old }
    ensures enough { IfOk result (IsReadWithin at more) }
    ensures count { IfOk result (λ filled. filled.count ≤ length buf.old) }
    ensures filled { IfSome memory.old.view (λ view. IfOk result (IsFilledFrom (in_space (physical view) space) at buf.new)) }
    ensures memory { IsSameMemory memory.old memory.new }
    ensures cause { HasCause memory.old.faults memory.new.faults (IsErr result) }
{
    let room = room_within(more, buf.len());
    fill(memory, space, at, &mut buf[..room], steps)
}

/// Reads from an address on, at most `more` behind it, and puts that behind the first bytes of a buffer, which stay.
pub(crate) fn fill_behind<Y: Layer, L: Ledger>(
    memory: &mut Memory<Y>,
    space: Space,
    at: u64,
    more: u64,
    buf: &mut [u8],
    kept: usize,
    steps: &mut Steps<L>,
) -> Result<Filled, DeviceFailed>
    requires addresses { at + more < 2 ^ 64 }
    requires room { kept + 4096 ≤ length buf.old }
    ensures enough { IfOk result (IsReadWithin at more) }
    ensures count { IfOk result (λ filled. kept + filled.count ≤ length buf.old) }
    ensures front { take kept buf.new ≡ take kept buf.old }
    ensures filled { IfSome memory.old.view (λ view. IfOk result (IsFilledFrom (in_space (physical view) space) at (drop kept buf.new))) }
    ensures memory { IsSameMemory memory.old memory.new }
    ensures cause { HasCause memory.old.faults memory.new.faults (IsErr result) }
{
    fill_within(memory, space, at, more, &mut buf[kept..], steps)
}
