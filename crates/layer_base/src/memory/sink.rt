//! A sink in memory.
ghost use Rattle.std.specs.Prelude.{◌≡◌, ◌↔◌, ◌-◌, ◌<◌, ◌≤◌, ◌++◌, [], length, take, Some, IsErrOf, IfOk};
ghost use Rattle.std.specs.Io.KnownBytes.{WriteAppends};
ghost use Rattle.layer_base.specs.Counts.{HasCause, next_count};
ghost use Rattle.layer_base.specs.Memory.{taken_of, IsFull};

use crate::{Sink, SinkFault};
use std::alloc::Global;
use std::marker::Model;

/// A sink that keeps in memory what was written. It may have room for so many bytes alone, and fails beyond them.
#[derive(Debug, Drop)]
pub struct MemSink {
    bytes: Vec<u8>,
    room: Option<u64>,
    cut: usize,
    faults: u64,
}

impl Model for MemSink {
    ghost use Rattle.std.specs.Prelude.{◌<◌};
    ghost use Rattle.layer_base.specs.Memory.{Collected};

    ghost Value = { Collected };

    ghost view = { λ s. record { bytes = s.bytes.items; room = s.room; cut = s.cut; faults = s.faults } };

    ghost invariant = { λ s. 0 < s.cut };
}

impl MemSink {
    /// An empty sink. A call takes at most `cut` bytes, and all calls together at most `room`.
    pub fn new(alloc: Global, room: Option<u64>, cut: usize) -> MemSink
        requires { 0 < cut }
        ensures { result ≡ record { bytes = []; room = room; cut = cut; faults = 0 } }
    {
        MemSink {
            bytes: Vec::new(alloc),
            room,
            cut,
            faults: 0,
        }
    }

    /// What was written.
    pub fn bytes(&self) -> &[u8]
        ensures { result.now ≡ self.now.bytes }
    {
        &self.bytes
    }
}

impl Sink for MemSink {
    ghost written = { λ s. Some s.bytes };

    ghost faults = { λ s. s.faults };

    fn write(&mut self, piece: &[u8]) -> Result<usize, SinkFault>
        ensures within { IfOk result (λ n. n ≤ length piece.now) }
        ensures some { IfOk result (λ n. 0 < length piece.now → 0 < n) }
        ensures bytes { WriteAppends (Some self.old.bytes) (Some self.new.bytes) result piece.now }
        ensures cause { HasCause self.old.faults self.new.faults (IsErrOf result SinkFault.Failed) }
        // It takes all that it may, and fails only where it is full.
        ensures taken { IfOk result (λ n. n ≡ taken_of self.old (length piece.now)) }
        ensures full { IsErrOf result SinkFault.Failed ↔ ((0 < length piece.now) × IsFull self.old) }
        ensures ok { IfOk result (λ n. self.new ≡ record self.old { bytes = self.old.bytes ++ take n piece.now }) }
        ensures failed { IsErrOf result SinkFault.Failed → self.new ≡ record self.old { faults = next_count self.old.faults } }
        ensures memory { IsErrOf result SinkFault.Memory → self.new ≡ self.old }
    {
        let room = match self.room {
            Some(room) => room.saturating_sub(self.bytes.len() as u64) as usize,
            None => piece.len(),
        };
        let n = self.cut.min(piece.len()).min(room);
        if n == 0 && !piece.is_empty() {
            self.faults = self.faults.saturating_add(1);
            return Err(SinkFault::Failed);
        }
        match self.bytes.extend_from_slice(&piece[..n]) {
            Ok(()) => Ok(n),
            Err(_) => Err(SinkFault::Memory),
        }
    }
}
