//! Spaces of addresses, and what a piece of one is mapped to.
ghost use Rattle.std.specs.Prelude.{◌≡◌, ◌<◌, ◌≤◌};
ghost use Rattle.layer_base.specs.Mapped.{block_size};
ghost use Rattle.layer_base.specs.Space.{frame_of, page_address};
ghost use Rattle.layer_base.specs.declared.space.Space.TheVariants.{Paged};

/// How many levels of tables a paged space has, after the Intel SDM, volume 3, "Paging".
#[derive(Clone, Copy, Debug, PartialEq, Eq)]
pub enum Levels {
    Four,
    Five,
}

/// A space of addresses. Of a root the bits 51 to 12 alone count, so values that differ in its other bits are one space.
#[derive(Clone, Copy, Debug)]
pub enum Space {
    /// Physical memory.
    Phys,
    /// What the tables from a root on map.
    Paged { root: u64, levels: Levels },
}

/// The addresses from `first` to `last`, themselves included, are mapped to as many physical ones from `to` on, or to
/// none.
#[derive(Clone, Copy, Debug, PartialEq, Eq)]
pub struct Mapped {
    pub first: u64,
    pub last: u64,
    pub to: Option<u64>,
}

// Physical addresses of tables and pages are below this.
const FRAME_END: u64 = 1 << 52;

const PAGE_SIZE: u64 = 1 << 12;

/// How many addresses one entry of a table of a level is for, after the Intel SDM, volume 3, "Paging": 4 KiB at level 1,
/// and 512 times as many at each level above.
pub fn block_size(level: u32) -> u64
    requires least { 1 ≤ level }
    requires most { level ≤ 5 }
    ensures { result ≡ block_size level }
{
    1 << (12 + 9 * (level - 1))
}

/// The physical address of a block of a size in a root or an entry of a table: its bits below bit 52, and zeros where
/// they are within the block.
pub fn frame_of(size: u64, entry: u64) -> u64
    requires { 0 < size }
    ensures { result ≡ frame_of size entry }
{
    entry % FRAME_END / size * size
}

/// The address of a page in a root or an entry of a table: its bits 51 to 12.
pub fn page_address(entry: u64) -> u64
    ensures { result ≡ page_address entry }
{
    frame_of(PAGE_SIZE, entry)
}

impl Space {
    /// The space of a root, whose other bits than 51 to 12 are cleared.
    pub fn paged(root: u64, levels: Levels) -> Space
        ensures { result ≡ Paged (page_address root) levels }
    {
        Space::Paged {
            root: page_address(root),
            levels,
        }
    }
}
