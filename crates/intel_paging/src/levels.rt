//! How many levels a space has, and which addresses they map.
ghost use Rattle.std.specs.Prelude.{◌≡◌};
ghost use Rattle.intel_paging.specs.Paging.{count_of, half_size, is_canonical};
ghost use Rattle.intel_paging.specs.Block.{non_canonical};

use layer_base::{Levels, Mapped};

/// How many levels of tables there are.
pub(crate) fn count_of(levels: Levels) -> u32
    ensures { result ≡ count_of levels }
{
    match levels {
        Levels::Four => 4,
        Levels::Five => 5,
    }
}

// Half as many addresses as the tables map.
fn half_size(levels: Levels) -> u64
    ensures { result ≡ half_size levels }
{
    match levels {
        Levels::Four => 1 << 47,
        Levels::Five => 1 << 56,
    }
}

/// Whether the tables map the address.
pub(crate) fn is_canonical(levels: Levels, at: u64) -> bool
    ensures { result ≡ is_canonical levels at }
{
    let half = half_size(levels);
    at < half || at > u64::MAX - half
}

/// The addresses that the tables do not map.
pub(crate) fn non_canonical(levels: Levels) -> Mapped
    ensures { result ≡ non_canonical levels }
{
    let half = half_size(levels);
    Mapped {
        first: half,
        last: u64::MAX - half,
        to: None,
    }
}
