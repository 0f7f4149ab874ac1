//! What a scan has read and not passed yet.
ghost use Rattle.std.specs.Prelude.{◌≡◌, ◌+◌, ◌^◌, ◌<◌, ◌≤◌, [], take, drop, length, vec_len, IsErr, IfOk, IfSome, OnErr};
ghost use Rattle.layer_base.specs.Counts.{HasCause};
ghost use Rattle.layer_base.specs.View.{physical};
ghost use Rattle.space_memory.specs.InSpace.{in_space};
ghost use Rattle.space_memory.specs.State.{IsSameMemory};
ghost use Rattle.chunk_scanner.specs.Filled.{IsHoleBehind, IsReadWithin};
ghost use Rattle.chunk_scanner.specs.Window.{kept_bytes, AreBytesFrom, IsWindow, ReadsOn};

use crate::filled::{Filled, fill_behind};
use layer_base::{DeviceFailed, Layer, Space, Steps};
use space_memory::Memory;
use std::sync::ledger::Ledger;

/// A buffer, and which of its bytes are kept.
#[derive(Drop)]
pub(crate) struct Window {
    pub(crate) buf: Vec<u8>,
    pub(crate) start: usize,
    pub(crate) end: usize,
}

impl Window {
    /// The bytes that are kept.
    pub(crate) fn bytes(&self) -> &[u8]
        requires { IsWindow self.now }
        ensures { result.now ≡ kept_bytes self.now }
    {
        &self.buf[self.start..self.end]
    }

    /// Keeps none.
    pub(crate) fn clear(&mut self)
        requires { IsWindow self.old }
        ensures window { IsWindow self.new }
        ensures room { vec_len self.new.buf ≡ vec_len self.old.buf }
        ensures kept { kept_bytes self.new ≡ [] }
    {
        self.start = 0;
        self.end = 0;
    }

    /// Passes so many bytes, or all that are kept.
    pub(crate) fn pass(&mut self, count: u64)
        requires { IsWindow self.old }
        ensures window { IsWindow self.new }
        ensures room { vec_len self.new.buf ≡ vec_len self.old.buf }
        ensures kept { kept_bytes self.new ≡ drop count (kept_bytes self.old) }
    {
        let kept = self.end - self.start;
        self.start += count.min(kept as u64) as usize;
    }

    // Moves the bytes that are kept to the front of the buffer, and tells how many they are.
    fn to_front(&mut self) -> usize
        requires { IsWindow self.old }
        ensures start { self.new.start ≡ 0 }
        ensures end { self.new.end ≡ result }
        ensures count { result ≡ length (kept_bytes self.old) }
        ensures room { vec_len self.new.buf ≡ vec_len self.old.buf }
        ensures kept { take result self.new.buf.items ≡ kept_bytes self.old }
    {
        let kept = self.end - self.start;
        self.buf.copy_within(self.start..self.end, 0);
        self.start = 0;
        self.end = kept;
        kept
    }

    /// Reads on behind the bytes that are kept from an address on, at most `chunk` of those up to `more` behind it. After a
    /// failure the same are kept.
    pub(crate) fn read_on<Y: Layer, L: Ledger>(
        &mut self,
        memory: &mut Memory<Y>,
        space: Space,
        at: u64,
        more: u64,
        chunk: usize,
        steps: &mut Steps<L>,
    ) -> Result<Filled, DeviceFailed>
        requires window { IsWindow self.old }
        requires chunk { 4096 ≤ chunk }
        requires room { length (kept_bytes self.old) + chunk ≤ vec_len self.old.buf }
        requires left { length (kept_bytes self.old) ≤ more }
        requires addresses { at + more < 2 ^ 64 }
        ensures window { IsWindow self.new }
        ensures room { vec_len self.new.buf ≡ vec_len self.old.buf }
        ensures front { ReadsOn self.old self.new }
        ensures same { OnErr result (kept_bytes self.new ≡ kept_bytes self.old) }
        ensures count { IfOk result (λ filled. length (kept_bytes self.new) ≡ filled.count) }
        ensures enough { IfOk result (IsReadWithin at more) }
        ensures kept { IfSome memory.old.view (λ view. AreBytesFrom (in_space (physical view) space) at (kept_bytes self.old) → AreBytesFrom (in_space (physical view) space) at (kept_bytes self.new)) }
        ensures hole { IfSome memory.old.view (λ view. IfOk result (IsHoleBehind (in_space (physical view) space) at)) }
        ensures memory { IsSameMemory memory.old memory.new }
        ensures cause { HasCause memory.old.faults memory.new.faults (IsErr result) }
    {
        let kept = self.to_front();
        let next = at + kept as u64;
        let behind = (more - kept as u64).min(chunk as u64 - 1);
        let filled = fill_behind(memory, space, next, behind, &mut self.buf, kept, steps)?;
        self.end = kept + filled.count;
        Ok(Filled {
            count: self.end,
            hole: filled.hole,
        })
    }
}
