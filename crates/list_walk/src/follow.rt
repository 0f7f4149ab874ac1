//! Reading the word that a list goes on with.
ghost use Rattle.std.specs.Prelude.{◌≡◌, ◌+◌, ◌-◌, ◌^◌, ◌<◌, ◌≤◌, IsErr, IfOk, IfSome, IfNone};
ghost use Rattle.layer_base.specs.Counts.{HasCause};
ghost use Rattle.layer_base.specs.View.{physical};
ghost use Rattle.space_memory.specs.InSpace.{in_space};
ghost use Rattle.space_memory.specs.State.{IsSameMemory};
ghost use Rattle.list_walk.specs.Turn.{word_behind};

use kernel_records::Stop;
use layer_base::{DeviceFailed, Layer, Space, Steps};
use space_memory::Memory;
use std::sync::ledger::Ledger;

// The last address at which a word has room.
const LAST_PLACE: u64 = u64::MAX - 7;

// The place so many bytes behind an address, none where a word has no room there.
fn place_behind(at: u64, offset: u64) -> Option<u64>
    ensures some { IfSome result (λ place. (place ≡ at + offset) × (at + offset ≤ 2 ^ 64 - 8)) }
    ensures none { IfNone result (2 ^ 64 - 8 < at + offset) }
{
    let place = at.checked_add(offset)?;
    if place > LAST_PLACE {
        return None;
    }
    Some(place)
}

/// Reads the word so many bytes behind an address, or says why it can't be read. It takes no memory.
pub(crate) fn word_behind<Y: Layer, L: Ledger>(
    memory: &mut Memory<Y>,
    space: Space,
    at: u64,
    offset: u64,
    steps: &mut Steps<L>,
) -> Result<Result<u64, Stop>, DeviceFailed>
    ensures word { IfSome memory.old.view (λ view. IfOk result (λ word. word ≡ word_behind (in_space (physical view) space) at offset)) }
    ensures within { IfOk result (λ word. IfOk word (λ number. at + offset ≤ 2 ^ 64 - 8)) }
    ensures most_steps { steps.new ≤ steps.old + 48 }
    ensures memory { IsSameMemory memory.old memory.new }
    ensures cause { HasCause memory.old.faults memory.new.faults (IsErr result) }
{
    let Some(place) = place_behind(at, offset) else {
        return Ok(Err(Stop::Outside { at }));
    };
    match memory.word(space, place, steps)? {
        Some(word) => Ok(Ok(word)),
        None => Ok(Err(Stop::Unreadable { at })),
    }
}
