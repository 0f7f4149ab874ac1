//! The line that is being read.
ghost use Rattle.std.specs.Prelude.{◌≡◌, ◌≤◌, [], ◌∷◌, ◌++◌, take, length};
ghost use Rattle.session.specs.Limits.{line_room};

use std::marker::Model;

/// How many bytes of a line are kept.
pub(crate) const LINE_ROOM: usize = 4097;

/// The bytes of a line so far, but for those that it has too many.
#[derive(Drop)]
pub(crate) struct LineBuffer {
    bytes: [u8; LINE_ROOM],
    len: usize,
}

impl Model for LineBuffer {
    ghost use Rattle.std.specs.Prelude.{ℕ, ◌≤◌, List, take};
    ghost use Rattle.session.specs.Limits.{line_room};

    ghost Value = { List ℕ };

    ghost view = { λ line. take line.len line.bytes };

    ghost invariant = { λ line. line.len ≤ line_room };
}

impl LineBuffer {
    pub(crate) fn new() -> Self
        ensures { result ≡ [] }
    {
        LineBuffer {
            bytes: [0; LINE_ROOM],
            len: 0,
        }
    }

    pub(crate) fn clear(&mut self)
        ensures { self.new ≡ [] }
    {
        self.len = 0;
    }

    /// Adds a byte, where there is room.
    pub(crate) fn add(&mut self, byte: u8)
        ensures { self.new ≡ take line_room (self.old ++ byte ∷ []) }
    {
        if self.len < LINE_ROOM {
            self.bytes[self.len] = byte;
            self.len += 1;
        }
    }

    pub(crate) fn bytes(&self) -> &[u8]
        ensures { result.now ≡ self.now }
    {
        &self.bytes[..self.len]
    }
}
