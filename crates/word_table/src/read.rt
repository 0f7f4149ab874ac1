//! Reading words that stand one behind the other.
ghost use Rattle.std.specs.Prelude.{◌≡◌, ℕ, ◌+◌, ◌*◌, ◌^◌, ◌≤◌, Some, length, map, take, IsErr, IfOk, IfSome};
ghost use Rattle.layer_base.specs.AddressSpace.{AddressSpace, bytes_from};
ghost use Rattle.layer_base.specs.Counts.{HasCause};
ghost use Rattle.layer_base.specs.View.{physical};
ghost use Rattle.space_memory.specs.InSpace.{in_space};
ghost use Rattle.space_memory.specs.State.{IsSameMemory};
ghost use Rattle.word_table.specs.Words.{words_from};

use byteorder::{ByteOrder, LittleEndian};
use layer_base::{DeviceFailed, Layer, Space, Steps};
use space_memory::{Got, Memory};
use std::sync::ledger::Ledger;

// How many words are read at once.
const PIECE: usize = 512;

const BYTES: usize = 8 * PIECE;

// Puts the words that bytes are into a buffer.
fn decode(bytes: &[u8], buf: &mut [Option<u64>])
    requires { length bytes.now ≡ 8 * length buf.old }
    ensures { (memory : AddressSpace) (at : ℕ) → bytes_from memory at (length bytes.now) ≡ map Some bytes.now → words_from memory at (length buf.old) ≡ buf.new }
{
    for index in 0..buf.len() {
        let at = 8 * index;
        buf[index] = Some(LittleEndian::read_u64(&bytes[at..at + 8]));
    }
}

/// Reads words from an address on into the front of a buffer of at most 512, and answers how many: at least one, up to and
/// with the first that is absent, or all. A word is the little-endian number of eight bytes, none where one of them is
/// absent. After a failure what the buffer holds is open. It takes no memory.
pub fn read_words<Y: Layer, L: Ledger>(
    memory: &mut Memory<Y>,
    space: Space,
    at: u64,
    buf: &mut [Option<u64>],
    steps: &mut Steps<L>,
) -> Result<usize, DeviceFailed>
    requires some { 1 ≤ length buf.old }
    requires few { length buf.old ≤ 512 }
    requires room { at + 8 * length buf.old ≤ 2 ^ 64 }
    ensures some { IfOk result (λ count. 1 ≤ count) }
    ensures within { IfOk result (λ count. count ≤ length buf.old) }
    ensures words { IfSome memory.old.view (λ view. IfOk result (λ count. take count buf.new ≡ words_from (in_space (physical view) space) at count)) }
    ensures memory { IsSameMemory memory.old memory.new }
    ensures cause { HasCause memory.old.faults memory.new.faults (IsErr result) }
{
    let mut piece = [0; BYTES];
    let bytes = &mut piece[..8 * buf.len()];
    match memory.read(space, at, bytes, steps)? {
        Got::All => {
            decode(bytes, buf);
            Ok(buf.len())
        }
        Got::Hole { at: hole } => {
            let present = ((hole - at) / 8) as usize;
            decode(&bytes[..8 * present], &mut buf[..present]);
            buf[present] = None;
            Ok(present + 1)
        }
    }
}
