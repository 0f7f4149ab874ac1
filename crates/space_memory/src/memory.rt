//! A memory: the spaces of an image, read through their tables.
ghost use Rattle.std.specs.Prelude.{◌≡◌, ◌+◌, ◌*◌, ◌^◌, ◌<◌, ◌≤◌, [], true, false, None, length, IsErr, IfOk, IfErr, IfSome};
ghost use Rattle.layer_base.specs.Counts.{HasCause};
ghost use Rattle.layer_base.specs.Run.{IsWithin, IsTrueOf};
ghost use Rattle.layer_base.specs.View.{physical};
ghost use Rattle.intel_paging.specs.Block.{translation};
ghost use Rattle.intel_paging.specs.Walk.{asks_tables, levels_of};
ghost use Rattle.intel_paging.specs.Word.{word};
ghost use Rattle.space_memory.specs.Hole.{IsGot, IsGotWithin};
ghost use Rattle.space_memory.specs.InSpace.{in_space};
ghost use Rattle.space_memory.specs.Kept.{IsHeld, IsHeldHole, KeepsRuns, cache_in};
ghost use Rattle.space_memory.specs.State.{IsSameMemory};

use crate::around::run_around;
use crate::through::{place_in, run_in};
use byteorder::{ByteOrder, LittleEndian};
use layer_base::{DeviceFailed, Layer, Run, Space, Steps};
use run_cache::RunCache;
use std::alloc::Global;
use std::marker::Model;
use std::sync::ledger::Ledger;

/// What a read found.
#[derive(Clone, Copy, Debug, PartialEq, Eq)]
pub enum Got {
    /// All bytes that were asked for.
    All,
    /// The first address without a byte.
    Hole { at: u64 },
}

/// The spaces of an image: its physical memory, and those that tables in it map (Intel SDM, volume 3, "Paging"). What the
/// tables say of an address is kept, as far as the capacity allows, and each kept run is true of the image.
///
/// Every call leaves what the image shows, the kind that it is read as and the capacity as they were, and no call lets a
/// count fall. `DeviceFailed` comes only where a call of the layer failed, whose count of faults then rose; the same call
/// can be made again. Where there is no memory to keep a run, it is read again the next time.
#[derive(Drop)]
pub struct Memory<Y: Layer> {
    phys: Y,
    cache: RunCache,
}

/// There was no memory for a `Memory`. The layer is given back.
#[derive(Drop)]
pub struct NoMemory<Y: Layer> {
    pub phys: Y,
}

impl<Y: Layer> Model for Memory<Y> {
    ghost use Rattle.space_memory.specs.Kept.{IsTrueCache};
    ghost use Rattle.space_memory.specs.State.{MemoryState};
    ghost use Rattle.space_memory.specs.Codes.{state_code};

    ghost Value = { MemoryState };

    ghost coded = { state_code };

    ghost view = { λ m. record { view = Y.view m.phys; kind = Y.kind m.phys; faults = Y.faults m.phys; calls = Y.calls m.phys; capacity = m.cache.capacity; kept = m.cache.kept; last = m.cache.last } };

    ghost invariant = { λ m. IsTrueCache (Y.view m.phys) m.cache };
}

impl<Y: Layer> Memory<Y> {
    /// The memory of an image, with room for so many runs of its spaces, none of which is kept. A refusal gives the layer
    /// back.
    pub fn new(alloc: Global, phys: Y, capacity: usize) -> Result<Memory<Y>, NoMemory<Y>>
        ensures ok { IfOk result (λ memory. memory ≡ record { view = Y.view phys; kind = Y.kind phys; faults = Y.faults phys; calls = Y.calls phys; capacity = capacity; kept = []; last = None }) }
        ensures err { IfErr result (λ refused. refused.phys ≡ phys) }
    {
        match RunCache::new(alloc, capacity) {
            Ok(cache) => Ok(Memory { phys, cache }),
            Err(_) => Err(NoMemory { phys }),
        }
    }

    /// Says what is at the addresses of a space from `at` on: at least one byte, and as many as the page and the layer
    /// give, or a hole. After a failure what the buffer holds is open.
    ///
    /// It takes one step, and one more for each table that is read: none is where a run that holds the address is kept,
    /// and the layer is called once at most then, and not at all where the run is a hole. After an answer the run of a
    /// canonical address of a paged space is kept, where the capacity isn't 0.
    pub fn run_at<L: Ledger>(
        &mut self,
        space: Space,
        at: u64,
        buf: &mut [u8],
        steps: &mut Steps<L>,
    ) -> Result<Run, DeviceFailed>
        requires { 0 < length buf.old }
        ensures within { IfOk result (IsWithin at (length buf.old)) }
        ensures run { IfSome self.old.view (λ view. IfOk result (IsTrueOf (in_space (physical view) space) at buf.new)) }
        ensures some_steps { steps.old < steps.new }
        ensures most_steps { steps.new ≤ steps.old + 1 + levels_of space }
        ensures one_step { asks_tables space at ≡ false → steps.new ≡ steps.old + 1 }
        ensures most_calls { self.new.calls ≤ self.old.calls + 1 + 8 * levels_of space }
        ensures one_call { asks_tables space at ≡ false → self.new.calls ≤ self.old.calls + 1 }
        ensures held_step { IsHeld space at (cache_in self.old) → steps.new ≡ steps.old + 1 }
        ensures held_call { IsHeld space at (cache_in self.old) → self.new.calls ≤ self.old.calls + 1 }
        ensures held_hole { asks_tables space at ≡ true → IsHeldHole space at (cache_in self.old) → self.new.calls ≡ self.old.calls }
        ensures runs { KeepsRuns space at (cache_in self.old) (cache_in self.new) }
        ensures kept { asks_tables space at ≡ true → 0 < self.old.capacity → IfOk result (λ _. IsHeld space at (cache_in self.new)) }
        ensures memory { IsSameMemory self.old self.new }
        ensures cause { HasCause self.old.faults self.new.faults (IsErr result) }
    {
        steps.tick();
        let run = run_around(&mut self.phys, &mut self.cache, space, at, steps)?;
        run_in(&mut self.phys, &run, at, buf)
    }

    /// Fills the buffer with the bytes from `at` on, or says the first address that has none; the bytes before it stand
    /// in the front of the buffer. After a failure what the buffer holds is open. It takes no memory.
    pub fn read<L: Ledger>(
        &mut self,
        space: Space,
        at: u64,
        buf: &mut [u8],
        steps: &mut Steps<L>,
    ) -> Result<Got, DeviceFailed>
        requires { at + length buf.old ≤ 2 ^ 64 }
        ensures got { IfSome self.old.view (λ view. IfOk result (IsGot (in_space (physical view) space) at buf.new)) }
        ensures within { IfOk result (IsGotWithin at (length buf.old)) }
        ensures most_steps { steps.new ≤ steps.old + length buf.old * (1 + levels_of space) }
        ensures most_calls { self.new.calls ≤ self.old.calls + length buf.old * (1 + 8 * levels_of space) }
        ensures memory { IsSameMemory self.old self.new }
        ensures cause { HasCause self.old.faults self.new.faults (IsErr result) }
    {
        let mut done = 0;
        while done < buf.len() {
            let next = at + done as u64;
            match self.run_at(space, next, &mut buf[done..], steps)? {
                Run::Present { count } => done += count,
                Run::Absent { .. } => return Ok(Got::Hole { at: next }),
            }
        }
        Ok(Got::All)
    }

    /// The little-endian number in the eight bytes from `at` on, none where one of them is absent. It takes no memory.
    pub fn word<L: Ledger>(
        &mut self,
        space: Space,
        at: u64,
        steps: &mut Steps<L>,
    ) -> Result<Option<u64>, DeviceFailed>
        requires { at + 8 ≤ 2 ^ 64 }
        ensures word { IfSome self.old.view (λ view. IfOk result (λ number. number ≡ word (in_space (physical view) space) at)) }
        ensures most_steps { steps.new ≤ steps.old + 8 * (1 + levels_of space) }
        ensures most_calls { self.new.calls ≤ self.old.calls + 8 * (1 + 8 * levels_of space) }
        ensures memory { IsSameMemory self.old self.new }
        ensures cause { HasCause self.old.faults self.new.faults (IsErr result) }
    {
        let mut bytes = [0; 8];
        match self.read(space, at, &mut bytes, steps)? {
            Got::All => Ok(Some(LittleEndian::read_u64(&bytes))),
            Got::Hole { .. } => Ok(None),
        }
    }

    /// The physical address of an address of a space, which may itself be absent, or none where nothing is mapped. It
    /// takes one step for each table that is read: none is where a run that holds the address is kept, and the layer is
    /// not called then.
    pub fn translate<L: Ledger>(
        &mut self,
        space: Space,
        at: u64,
        steps: &mut Steps<L>,
    ) -> Result<Option<u64>, DeviceFailed>
        ensures place { IfSome self.old.view (λ view. IfOk result (λ place. place ≡ translation (physical view) space at)) }
        ensures most_steps { steps.new ≤ steps.old + levels_of space }
        ensures most_calls { self.new.calls ≤ self.old.calls + 8 * levels_of space }
        ensures held_steps { IsHeld space at (cache_in self.old) → steps.new ≡ steps.old }
        ensures held_calls { IsHeld space at (cache_in self.old) → self.new.calls ≡ self.old.calls }
        ensures runs { KeepsRuns space at (cache_in self.old) (cache_in self.new) }
        ensures kept { asks_tables space at ≡ true → 0 < self.old.capacity → IfOk result (λ _. IsHeld space at (cache_in self.new)) }
        ensures memory { IsSameMemory self.old self.new }
        ensures cause { HasCause self.old.faults self.new.faults (IsErr result) }
    {
        let run = run_around(&mut self.phys, &mut self.cache, space, at, steps)?;
        Ok(place_in(&run, at))
    }

    /// The image again, as the memory left it.
    pub fn into_layer(self) -> Y
        ensures view { Y.view result ≡ self.view }
        ensures kind { Y.kind result ≡ self.kind }
        ensures faults { Y.faults result ≡ self.faults }
        ensures calls { Y.calls result ≡ self.calls }
    {
        self.phys
    }
}
