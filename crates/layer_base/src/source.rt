//! A source: bytes that are taken one after another.
ghost use Rattle.std.specs.Prelude.{ℕ, ◌≤◌, List, Option, length, IsErr, IfOk};
ghost use Rattle.std.specs.Io.KnownBytes.{ReadConsumes};
ghost use Rattle.layer_base.specs.Counts.{HasCause};

use crate::Failed;

/// Bytes that are taken in their order. A source may give less than it is asked for.
pub trait Source {
    /// The bytes that are left, where the source tells them.
    ghost left: { Self → Option (List ℕ) };

    /// How often a call failed.
    ghost faults: { Self → ℕ };

    /// Takes bytes into the front of the buffer, and answers how many: none only at the end, or where the buffer
    /// is empty. A failed call takes none.
    fn read(&mut self, buf: &mut [u8]) -> Result<usize, Failed>
        ensures within { IfOk result (λ n. n ≤ length buf.old) }
        ensures bytes { ReadConsumes (left self.old) (left self.new) result buf.new }
        ensures cause { HasCause (faults self.old) (faults self.new) (IsErr result) };
}
