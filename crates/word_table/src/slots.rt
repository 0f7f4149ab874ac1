//! The words of a table, one by one.
ghost use Rattle.std.specs.Prelude.{◌≡◌, ◌≤◌, [], ◌∷◌, Some, IsErr, IfOk, IfSome, IfNone, OnOk, OnErr};
ghost use Rattle.layer_base.specs.AddressSpace.{AddressSpace};
ghost use Rattle.layer_base.specs.Counts.{HasCause};
ghost use Rattle.layer_base.specs.View.{physical};
ghost use Rattle.space_memory.specs.InSpace.{in_space};
ghost use Rattle.space_memory.specs.State.{IsSameMemory};
ghost use Rattle.word_table.specs.Kept.{kept_words, left_from, words_left, GivesWord, GivesIndex, IsNotNext, IsSlots};
ghost use Rattle.word_table.specs.Table.{listed, words_of, table_stop};

use crate::WordTable;
use crate::kept::{Kept, MOST};
use kernel_records::Stop;
use layer_base::{DeviceFailed, Layer, Space, Steps};
use space_memory::Memory;
use std::marker::Model;
use std::sync::ledger::Ledger;

/// A word of a table, its index and its address. It is none where a byte of it is absent.
#[derive(Clone, Copy, Debug, PartialEq, Eq)]
pub struct Slot {
    pub index: u64,
    pub at: u64,
    pub word: Option<u64>,
}

/// Gives the words of a table that are listed, one by one. It reads 512 at once.
#[derive(Drop)]
pub struct Slots {
    space: Space,
    table: WordTable,
    index: u64,
    kept: Kept,
}

impl Model for Slots {
    ghost use Rattle.std.specs.Prelude.{◌+◌, ◌≤◌, length};
    ghost use Rattle.word_table.specs.Kept.{SlotsState, IsSlots, kept_words};

    ghost Value = { SlotsState };

    ghost view = { λ s. record { space = s.space; table = s.table; index = s.index; kept = kept_words s.kept } };

    ghost invariant = { λ s. IsSlots s.table s.index s.kept };
}

// Reads further words where none is kept.
fn fill<Y: Layer, L: Ledger>(
    kept: &mut Kept,
    space: Space,
    table: WordTable,
    index: u64,
    memory: &mut Memory<Y>,
    steps: &mut Steps<L>,
) -> Result<(), DeviceFailed>
    requires { IsSlots table index kept.old }
    ensures words { IfSome memory.old.view (λ view. OnOk result
        (left_from (in_space (physical view) space) table index (kept_words kept.new) ≡ left_from (in_space (physical view) space) table index (kept_words kept.old))) }
    ensures more { OnOk result (kept_words kept.new ≡ [] → listed table ≤ index) }
    ensures err { OnErr result (kept_words kept.new ≡ kept_words kept.old) }
    ensures slots { IsSlots table index kept.new }
    ensures memory { IsSameMemory memory.old memory.new }
    ensures cause { HasCause memory.old.faults memory.new.faults (IsErr result) }
{
    let listed = table.listed();
    if index >= listed || !kept.is_empty() {
        return Ok(());
    }
    let at = table.base + 8 * index;
    let most = (listed - index).min(MOST) as usize;
    kept.refill(memory, space, at, most, steps)
}

impl Slots {
    /// All words of a table in a space that are listed. It takes no memory.
    pub fn new(space: Space, table: WordTable) -> Slots
        ensures words { (memory : AddressSpace) → words_left memory result ≡ words_of memory table }
        ensures index { result.index ≡ 0 }
        ensures space { result.space ≡ space }
        ensures table { result.table ≡ table }
    {
        Slots {
            space,
            table,
            index: 0,
            kept: Kept::new(),
        }
    }

    /// Why the table ends behind its words, as `WordTable::stop` says.
    pub fn stop(&self) -> Stop
        ensures { result ≡ table_stop self.now.table }
    {
        self.table.stop()
    }

    /// Gives the next word and its index; None exactly where none is left. After a failure the words left to give are as
    /// before, and the same call can be made again. It takes no memory.
    pub fn next_word<Y: Layer, L: Ledger>(
        &mut self,
        memory: &mut Memory<Y>,
        steps: &mut Steps<L>,
    ) -> Result<Option<Slot>, DeviceFailed>
        ensures words { IfSome memory.old.view (λ view. IfOk result
            (GivesWord (words_left (in_space (physical view) self.old.space) self.old) (words_left (in_space (physical view) self.old.space) self.new))) }
        ensures index { IfOk result (GivesIndex self.old self.new) }
        ensures space { self.new.space ≡ self.old.space }
        ensures table { self.new.table ≡ self.old.table }
        ensures err { OnErr result (self.new ≡ self.old) }
        ensures memory { IsSameMemory memory.old memory.new }
        ensures cause { HasCause memory.old.faults memory.new.faults (IsErr result) }
    {
        fill(
            &mut self.kept,
            self.space,
            self.table,
            self.index,
            memory,
            steps,
        )?;
        let Some(word) = self.kept.take_first() else {
            return Ok(None);
        };
        let index = self.index;
        let at = self.table.base + 8 * index;
        self.index += 1;
        Ok(Some(Slot { index, at, word }))
    }

    /// Gives the next word where it was read already and is this one, else None, and then nothing is given. It reads
    /// nothing and takes no memory.
    pub fn next_same(&mut self, word: u64) -> Option<Slot>
        ensures words { (memory : AddressSpace) → IfSome result (λ slot. words_left memory self.old ≡ Some word ∷ words_left memory self.new) }
        ensures index { GivesIndex self.old self.new result }
        ensures none { IfNone result (self.new ≡ self.old) }
        ensures missed { IfNone result (IsNotNext word self.old.kept) }
        ensures space { self.new.space ≡ self.old.space }
        ensures table { self.new.table ≡ self.old.table }
    {
        if !self.kept.take_same(word) {
            return None;
        }
        let index = self.index;
        let at = self.table.base + 8 * index;
        self.index += 1;
        Some(Slot {
            index,
            at,
            word: Some(word),
        })
    }
}
