//! What a scan looks for.

use layer_base::Space;
use needle_search::Needles;

/// The needles, how many bytes serve for the longest of them, where they are searched, and how many bytes are read at a
/// time.
#[derive(Drop)]
pub(crate) struct Wanted {
    pub(crate) space: Space,
    pub(crate) last: u64,
    pub(crate) needles: Needles,
    pub(crate) longest: usize,
    pub(crate) chunk: usize,
}
