//! What an entry of a table says.
ghost use Rattle.std.specs.Prelude.{◌≡◌, ◌≤◌};
ghost use Rattle.intel_paging.specs.Entry.{IsEntryOf, entry_of, is_present, maps_a_block, present_entry};

use layer_base::{block_size, frame_of, page_address};

/// What an entry of a table says.
#[derive(Clone, Copy, Debug, PartialEq, Eq)]
pub(crate) enum Entry {
    /// Nothing is mapped.
    Hole,
    /// A block of physical memory is mapped, from this address on.
    Frame { to: u64 },
    /// The table of the next level down is at this address.
    Table { at: u64 },
}

/// What the number in an entry of a level says, where none of its bytes is absent.
pub(crate) fn entry_of(level: u32, number: Option<u64>) -> Entry
    requires least { 1 ≤ level }
    requires most { level ≤ 5 }
    ensures entry { result ≡ entry_of level number }
    ensures fits { IsEntryOf level result }
{
    match number {
        Some(entry) if is_present(entry) => present_entry(level, entry),
        _ => Entry::Hole,
    }
}

fn is_present(entry: u64) -> bool
    ensures { result ≡ is_present entry }
{
    entry % 2 == 1
}

fn present_entry(level: u32, entry: u64) -> Entry
    requires least { 1 ≤ level }
    requires most { level ≤ 5 }
    ensures entry { result ≡ present_entry level entry }
    ensures fits { IsEntryOf level result }
{
    if maps_a_block(level, entry) {
        Entry::Frame {
            to: frame_of(block_size(level), entry),
        }
    } else {
        Entry::Table {
            at: page_address(entry),
        }
    }
}

fn maps_a_block(level: u32, entry: u64) -> bool
    ensures { result ≡ maps_a_block level entry }
{
    match level {
        1 => true,
        2 | 3 => entry / (1 << 7) % 2 == 1,
        _ => false,
    }
}
