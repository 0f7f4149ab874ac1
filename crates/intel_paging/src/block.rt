//! The blocks that the entries of tables are for.
ghost use Rattle.std.specs.Prelude.{◌≡◌, ◌≤◌, ◌<◌, ◌^◌};
ghost use Rattle.layer_base.specs.Mapped.{block_around, block_size};
ghost use Rattle.intel_paging.specs.Paging.{entry_address};

use layer_base::{Mapped, block_size};

/// The block of an address's entry in a table of a level.
pub fn block_around(level: u32, at: u64, to: Option<u64>) -> Mapped
    requires least { 1 ≤ level }
    requires most { level ≤ 5 }
    ensures { result ≡ block_around (block_size level) at to }
{
    let size = block_size(level);
    let first = at / size * size;
    Mapped {
        first,
        last: first + (size - 1),
        to,
    }
}

/// The place of an address's entry in a table of a level.
pub(crate) fn entry_address(level: u32, table: u64, at: u64) -> u64
    requires least { 1 ≤ level }
    requires most { level ≤ 5 }
    requires table { table < 2 ^ 52 }
    ensures { result ≡ entry_address level table at }
{
    table + 8 * (at / block_size(level) % 512)
}
