//! The lines of open files, one by one.
ghost use Rattle.std.specs.Prelude.{◌≡◌, ℕ, ◌+◌, ◌≤◌, ◌∷◌, ◌++◌, IfOk, IfSome, IsErrOf, OnOk, OnErr};
ghost use Rattle.std.specs.Io.{StartsWith};
ghost use Rattle.layer_base.specs.Counts.{HasCause};
ghost use Rattle.layer_base.specs.View.{physical};
ghost use Rattle.space_memory.specs.State.{IsSameMemory};
ghost use Rattle.walk_text.specs.Added.{AddsLine};
ghost use Rattle.word_table.specs.Kept.{count_left};
ghost use Rattle.word_table.specs.Table.{slot_address};
ghost use Rattle.file_plugins.specs.Lines.{rest_from, rest_of};

use crate::rows::{append_row, append_same, make_cells};
use kernel_records::{Stop, WalkFault};
use layer_base::{Layer, Steps};
use path_walk::Paths;
use space_memory::Memory;
use std::sync::ledger::Ledger;
use walk_text::Lines;
use word_table::{Slot, Slots};

/// The rows of the open files of a task whose words are still to come.
#[derive(Drop)]
pub(crate) struct FileLines<'t> {
    pub(crate) paths: Paths<'t>,
    pub(crate) slots: Slots,
    /// Where the cells of a file are made.
    pub(crate) cells: Vec<u8>,
}

impl FileLines<'_> {
    // Appends the row of a word that is a file, and those of the words behind it that are the same file; 0 is no file.
    fn append_word<Y: Layer, L: Ledger>(
        &mut self,
        text: &mut Vec<u8>,
        descriptor: u64,
        file: u64,
        memory: &mut Memory<Y>,
        steps: &mut Steps<L>,
    ) -> Result<(), WalkFault>
        requires next { self.old.slots.index ≡ descriptor + 1 }
        ensures lines { IfSome memory.old.view (λ view. OnOk result (
            text.new.items ++ rest_of (physical view) self.new ≡ text.old.items ++ rest_from (physical view) self.old descriptor (Some file))) }
        ensures err { OnErr result (StartsWith text.new.items text.old.items) }
        ensures left { count_left self.new.slots ≤ count_left self.old.slots }
        ensures memory { IsSameMemory memory.old memory.new }
        ensures cause { HasCause memory.old.faults memory.new.faults (IsErrOf result WalkFault.Device) }
    {
        if file == 0 {
            return Ok(());
        }
        make_cells(&mut self.cells, &self.paths, file, memory, steps)?;
        append_row(text, descriptor, &self.cells)?;
        append_same(text, &mut self.slots, file, &self.cells)?;
        Ok(())
    }

    // Appends what a word is, whose slot was given last; or answers the stop where it is absent.
    fn append_slot<Y: Layer, L: Ledger>(
        &mut self,
        text: &mut Vec<u8>,
        slot: Slot,
        memory: &mut Memory<Y>,
        steps: &mut Steps<L>,
    ) -> Result<Option<Stop>, WalkFault>
        requires at { slot.at ≡ slot_address self.old.slots.table slot.index }
        requires next { self.old.slots.index ≡ slot.index + 1 }
        ensures line { IfSome memory.old.view (λ view.
            AddsLine (rest_from (physical view) self.old slot.index slot.word) (rest_of (physical view) self.new) text.old.items text.new.items result) }
        ensures same { IfOk result (λ stop. IfSome stop (λ _. text.new.items ≡ text.old.items)) }
        ensures err { OnErr result (StartsWith text.new.items text.old.items) }
        ensures left { count_left self.new.slots ≤ count_left self.old.slots }
        ensures memory { IsSameMemory memory.old memory.new }
        ensures cause { HasCause memory.old.faults memory.new.faults (IsErrOf result WalkFault.Device) }
    {
        match slot.word {
            None => Ok(Some(Stop::Unreadable { at: slot.at })),
            Some(file) => {
                self.append_word(text, slot.index, file, memory, steps)?;
                Ok(None)
            }
        }
    }
}

impl Lines for FileLines<'_> {
    ghost use Rattle.word_table.specs.Kept.{count_left};
    ghost use Rattle.file_plugins.specs.Lines.{rest_of};

    ghost rest = { λ lines memory. rest_of memory lines };

    ghost left = { λ lines. count_left lines.slots };

    fn append_line<Y: Layer, L: Ledger>(
        &mut self,
        text: &mut Vec<u8>,
        memory: &mut Memory<Y>,
        steps: &mut Steps<L>,
    ) -> Result<Option<Stop>, WalkFault> {
        match self.slots.next_word(memory, steps)? {
            Some(slot) => self.append_slot(text, slot, memory, steps),
            None => Ok(Some(self.slots.stop())),
        }
    }
}
