//! What names a run in a cache.
ghost use Rattle.std.specs.Prelude.{◌≡◌, ◌≤◌, true, false};
ghost use Rattle.layer_base.specs.declared.space.Space.TheVariants.{Paged};
ghost use Rattle.run_cache.specs.Cache.{HoldsIn};
ghost use Rattle.run_cache.specs.Key.{are_five, key_of, key_around, kept_held, run_at_key};

use intel_paging::block_around;
use layer_base::{Levels, Mapped, page_address};

/// A run of a space: the bits 51 to 12 of the space's root, whether its tables have five levels, and the run's first and
/// last address.
#[derive(Clone, Copy, Debug, PartialEq, Eq, Hash)]
pub(crate) struct RunKey {
    pub(crate) root: u64,
    pub(crate) five_levels: bool,
    pub(crate) first: u64,
    pub(crate) last: u64,
}

/// A run, and what it is mapped to.
#[derive(Clone, Copy, Debug)]
pub(crate) struct HeldRun {
    pub(crate) key: RunKey,
    pub(crate) to: Option<u64>,
}

fn are_five(levels: Levels) -> bool
    ensures { result ≡ are_five levels }
{
    match levels {
        Levels::Four => false,
        Levels::Five => true,
    }
}

impl RunKey {
    /// The key of a run of the space of a root.
    pub(crate) fn of(root: u64, levels: Levels, first: u64, last: u64) -> RunKey
        ensures { result ≡ key_of root levels first last }
    {
        RunKey {
            root: page_address(root),
            five_levels: are_five(levels),
            first,
            last,
        }
    }

    /// The key of the block of a level around an address.
    pub(crate) fn around(root: u64, levels: Levels, level: u32, at: u64) -> RunKey
        requires least { 1 ≤ level }
        requires most { level ≤ 5 }
        ensures { result ≡ key_around root levels level at }
    {
        let block = block_around(level, at, None);
        RunKey::of(root, levels, block.first, block.last)
    }
}

impl HeldRun {
    /// The run.
    pub(crate) fn run(&self) -> Mapped
        ensures { result ≡ run_at_key self.now.key self.now.to }
    {
        Mapped {
            first: self.key.first,
            last: self.key.last,
            to: self.to,
        }
    }

    /// Whether the run is of the space of a root and holds an address.
    pub(crate) fn holds(&self, root: u64, levels: Levels, at: u64) -> bool
        ensures holds { result ≡ true → HoldsIn (Paged root levels) at (kept_held self.now) }
        ensures misses { result ≡ false → HoldsIn (Paged root levels) at (kept_held self.now) → ⊥ }
    {
        self.key.root == page_address(root)
            && self.key.five_levels == are_five(levels)
            && self.key.first <= at
            && at <= self.key.last
    }
}
