//! Areas of memory.

use crate::{Rows, Stop};
use layer_base::Number;

/// An area of a process's memory. What is absent in memory is none.
#[derive(Clone, Copy, Debug, PartialEq, Eq)]
pub struct Area {
    /// Its first address.
    pub start: Option<Number>,
    /// The address after its last.
    pub end: Option<Number>,
    /// What may be done with it.
    pub flags: Option<Number>,
    /// How many pages into its file it begins.
    pub pgoff: Option<Number>,
    /// The address of its file, 0 where it has none.
    pub file: Option<u64>,
}

/// A list of areas.
pub type AreaRows = Rows<Area>;

/// The areas that a walk found, and why it ended.
#[derive(Debug, Drop)]
pub struct Areas {
    pub rows: AreaRows,
    pub stop: Stop,
}
