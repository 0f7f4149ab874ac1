//! The shape of a list, and what one turn of a walk over it answers.

use kernel_records::Stop;

/// Where an object and its next word stand, in bytes from its link.
#[derive(Clone, Copy, Debug, PartialEq, Eq)]
pub struct Shape {
    /// The object starts so many bytes before its link.
    pub back: u64,
    /// The next word, a little-endian number of 8 bytes, stands so many bytes after the link.
    pub next: u64,
}

/// What a turn of a walk answers.
#[derive(Clone, Copy, Debug, PartialEq, Eq)]
pub enum Turn {
    /// The address at which the next object starts.
    Object { at: u64 },
    /// There is no further object.
    Stopped(Stop),
}
