//! A sink: bytes that are written one after another.
ghost use Rattle.std.specs.Prelude.{ℕ, ◌<◌, ◌≤◌, List, Option, length, IfOk, IsErrOf};
ghost use Rattle.std.specs.Io.KnownBytes.{WriteAppends};
ghost use Rattle.layer_base.specs.Counts.{HasCause};
ghost use Rattle.layer_base.specs.Known.{Writes};

/// Why a sink refused.
#[derive(Clone, Copy, Debug, PartialEq, Eq)]
pub enum SinkFault {
    /// The call failed.
    Failed,
    /// The sink is out of memory.
    Memory,
}

/// Bytes that are appended. A sink may take less than it is offered.
pub trait Sink {
    /// The bytes written so far, where the sink tells them.
    ghost written: { Self → Option (List ℕ) };

    /// How often a call failed.
    ghost faults: { Self → ℕ };

    /// Appends bytes of the front of the piece, and answers how many: none only where the piece is empty. A
    /// refused call appends none. When `Memory` comes is left open.
    fn write(&mut self, piece: &[u8]) -> Result<usize, SinkFault>
        ensures within { IfOk result (λ n. n ≤ length piece.now) }
        ensures some { IfOk result (λ n. 0 < length piece.now → 0 < n) }
        ensures bytes { WriteAppends (written self.old) (written self.new) result piece.now }
        ensures cause { HasCause (faults self.old) (faults self.new) (IsErrOf result SinkFault.Failed) };
}

/// Appends the whole piece, in as many calls as the sink wants. After a refusal a prefix of it was appended.
pub fn write_whole<O: Sink>(out: &mut O, piece: &[u8]) -> Result<(), SinkFault>
    ensures bytes { Writes (O.written out.old) (O.written out.new) result piece.now }
    ensures cause { HasCause (O.faults out.old) (O.faults out.new) (IsErrOf result SinkFault.Failed) }
{
    let mut rest = piece;
    while !rest.is_empty() {
        let n = out.write(rest)?;
        rest = &rest[n..];
    }
    Ok(())
}
