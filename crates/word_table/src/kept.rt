//! Words that were read and are given one by one.
ghost use Rattle.std.specs.Prelude.{◌≡◌, ◌*◌, ◌+◌, ◌^◌, ◌≤◌, [], ◌∷◌, true, false, length, Some, IsErr, IfSome, OnOk, OnErr};
ghost use Rattle.layer_base.specs.Counts.{HasCause};
ghost use Rattle.layer_base.specs.View.{physical};
ghost use Rattle.space_memory.specs.InSpace.{in_space};
ghost use Rattle.space_memory.specs.State.{IsSameMemory};
ghost use Rattle.word_table.specs.Kept.{kept_words, IsKept, TakesFirst, IsNotNext};
ghost use Rattle.word_table.specs.Words.{words_from};

use crate::read::read_words;
use layer_base::{DeviceFailed, Layer, Space, Steps};
use space_memory::Memory;
use std::sync::ledger::Ledger;

// How many words are kept at most.
pub(crate) const MOST: u64 = 512;

/// The words from `start` to before `end` were read and weren't given yet.
#[derive(Drop)]
pub(crate) struct Kept {
    pub(crate) words: [Option<u64>; 512],
    pub(crate) start: usize,
    pub(crate) end: usize,
}

impl Kept {
    /// No word is kept.
    pub(crate) fn new() -> Kept
        ensures none { kept_words result ≡ [] }
        ensures kept { IsKept result }
    {
        Kept {
            words: [None; 512],
            start: 0,
            end: 0,
        }
    }

    pub(crate) fn is_empty(&self) -> bool
        requires { IsKept self.now }
        ensures yes { result ≡ true → kept_words self.now ≡ [] }
        ensures no { result ≡ false → 1 ≤ length (kept_words self.now) }
    {
        self.start == self.end
    }

    /// Takes the first word that is kept, or none where none is.
    pub(crate) fn take_first(&mut self) -> Option<Option<u64>>
        requires { IsKept self.old }
        ensures first { TakesFirst (kept_words self.old) (kept_words self.new) result }
        ensures kept { IsKept self.new }
    {
        if self.start == self.end {
            return None;
        }
        let word = self.words[self.start];
        self.start += 1;
        Some(word)
    }

    /// Takes the first word that is kept where it is this one, and tells whether it is.
    pub(crate) fn take_same(&mut self, word: u64) -> bool
        requires { IsKept self.old }
        ensures yes { result ≡ true → kept_words self.old ≡ Some word ∷ kept_words self.new }
        ensures no { result ≡ false → kept_words self.new ≡ kept_words self.old }
        ensures other { result ≡ false → IsNotNext word (kept_words self.old) }
        ensures kept { IsKept self.new }
    {
        if self.start == self.end || self.words[self.start] != Some(word) {
            return false;
        }
        self.start += 1;
        true
    }

    /// Reads words from an address on in the place of those that are kept: at least one, and at most so many. After a
    /// failure none is kept.
    pub(crate) fn refill<Y: Layer, L: Ledger>(
        &mut self,
        memory: &mut Memory<Y>,
        space: Space,
        at: u64,
        most: usize,
        steps: &mut Steps<L>,
    ) -> Result<(), DeviceFailed>
        requires kept { IsKept self.old }
        requires some { 1 ≤ most }
        requires few { most ≤ 512 }
        requires room { at + 8 * most ≤ 2 ^ 64 }
        ensures words { IfSome memory.old.view (λ view. OnOk result (kept_words self.new ≡ words_from (in_space (physical view) space) at (length (kept_words self.new)))) }
        ensures some { OnOk result (1 ≤ length (kept_words self.new)) }
        ensures most { OnOk result (length (kept_words self.new) ≤ most) }
        ensures err { OnErr result (kept_words self.new ≡ []) }
        ensures kept { IsKept self.new }
        ensures memory { IsSameMemory memory.old memory.new }
        ensures cause { HasCause memory.old.faults memory.new.faults (IsErr result) }
    {
        self.start = 0;
        self.end = 0;
        self.end = read_words(memory, space, at, &mut self.words[..most], steps)?;
        Ok(())
    }
}
