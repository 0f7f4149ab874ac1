//! The command `check_syscall`.
ghost use Rattle.std.specs.Prelude.{◌≡◌, ◌++◌, OnOk, OnErr};
ghost use Rattle.std.specs.Io.{StartsWith};
ghost use Rattle.space_memory.specs.Writer.{WritesOver};
ghost use Rattle.symbol_index.specs.Index.{held};
ghost use Rattle.typed_object.specs.Ground.{kernel_memory};
ghost use Rattle.module_plugins.specs.Syscalls.{handler_name, call_row, call_table, calls_text, check_syscall_text};

use crate::calls::call_table;
use cell_text::{append_number, append_optional_address, append_text, missing_line};
use kernel_records::{Need, PluginFault, Stop, WalkFault, need_text, syscall_needs};
use layer_base::{Layer, Sink, Steps, write_whole};
use space_memory::Memory;
use std::alloc::{AllocError, Global};
use std::sync::ledger::Ledger;
use symbol_index::Entry;
use typed_object::Ground;
use walk_text::{Lines, write_lines};
use word_table::Slots;

// The rows of the system calls that are still to come.
#[derive(Drop)]
struct CallLines<'a, 't> {
    ground: Ground<'a, 't>,
    slots: Slots,
}

// Appends the first name of the symbol that a handler's address is in the symbol file.
fn append_handler_name(
    text: &mut Vec<u8>,
    ground: Ground<'_, '_>,
    handler: Option<u64>,
) -> Result<(), AllocError>
    ensures ok { OnOk result (text.new.items ≡ text.old.items ++ handler_name ground.entry.table.now ground.entry.kernel handler) }
    ensures err { OnErr result (StartsWith text.new.items text.old.items) }
{
    let Some(handler) = handler else {
        return Ok(text.push(b'-')?);
    };
    match ground.symbols.at_address(ground.kernel.unshifted(handler)) {
        Some(symbol) => append_text(text, symbol.name),
        None => Ok(text.extend_from_slice(b"UNKNOWN")?),
    }
}

// Appends the row of a system call.
fn append_call(
    text: &mut Vec<u8>,
    ground: Ground<'_, '_>,
    index: u64,
    handler: Option<u64>,
) -> Result<(), AllocError>
    ensures ok { OnOk result (text.new.items ≡ text.old.items ++ call_row ground.entry.table.now ground.entry.kernel index handler) }
    ensures err { OnErr result (StartsWith text.new.items text.old.items) }
{
    append_number(text, index)?;
    text.push(b'\t')?;
    append_optional_address(text, handler)?;
    text.push(b'\t')?;
    append_handler_name(text, ground, handler)?;
    text.push(b'\n')?;
    Ok(())
}

impl Lines for CallLines<'_, '_> {
    ghost use Rattle.std.specs.Prelude.{◌++◌};
    ghost use Rattle.space_memory.specs.InSpace.{in_space};
    ghost use Rattle.walk_text.specs.Added.{end_line};
    ghost use Rattle.word_table.specs.Kept.{words_left, count_left};
    ghost use Rattle.word_table.specs.Rows.{rows_from};
    ghost use Rattle.word_table.specs.Table.{table_stop};
    ghost use Rattle.module_plugins.specs.Syscalls.{call_row};

    ghost rest = { λ lines memory. rows_from (call_row lines.ground.table.now lines.ground.kernel) lines.slots.index (words_left (in_space memory lines.slots.space) lines.slots) ++ end_line (table_stop lines.slots.table) };

    ghost left = { λ lines. count_left lines.slots };

    fn append_line<Y: Layer, L: Ledger>(
        &mut self,
        text: &mut Vec<u8>,
        memory: &mut Memory<Y>,
        steps: &mut Steps<L>,
    ) -> Result<Option<Stop>, WalkFault> {
        match self.slots.next_word(memory, steps)? {
            Some(slot) => {
                append_call(text, self.ground, slot.index, slot.word)?;
                Ok(None)
            }
            None => Ok(Some(self.slots.stop())),
        }
    }
}

// Writes the system calls of a table.
fn write_calls<Y: Layer, O: Sink, L: Ledger>(
    alloc: Global,
    ground: Ground<'_, '_>,
    symbol: Entry<'_>,
    memory: &mut Memory<Y>,
    out: &mut O,
    steps: &mut Steps<L>,
) -> Result<(), PluginFault>
    ensures writes { WritesOver O.written O.faults out.old out.new memory.old memory.new PluginFault.Device PluginFault.Out result
        (λ memory. calls_text (kernel_memory memory ground.entry.kernel) ground.entry.table.now ground.entry.kernel (call_table ground.entry.table.now ground.entry.kernel (held symbol.entry))) }
{
    let mut lines = CallLines {
        ground,
        slots: Slots::new(ground.space(), call_table(ground, symbol)),
    };
    write_lines(
        alloc,
        b"INDEX\tHANDLER\tSYMBOL\n",
        &mut lines,
        memory,
        out,
        steps,
    )
}

/// Writes the table of system calls at the symbol `sys_call_table`: a line of the columns' names, then the index, the
/// handler's address and the first name of its symbol for each word, then why the table ended. Where the symbol file lacks
/// the symbol, the line of it is all that is written. The table has as many words as its type, an array, has elements, or
/// where that has none, as there are up to the next symbol; at most 4,096 are listed. A handler without a symbol is
/// `UNKNOWN`, and an absent word `-` in both cells. What was found is written before a failure of the image is answered.
#[tactic(auto, unfolding(crate::specs::Syscalls::check_syscall_text))]
pub fn write_check_syscall<Y: Layer, O: Sink, L: Ledger>(
    alloc: Global,
    ground: Ground<'_, '_>,
    memory: &mut Memory<Y>,
    out: &mut O,
    steps: &mut Steps<L>,
) -> Result<(), PluginFault>
    ensures writes { WritesOver O.written O.faults out.old out.new memory.old memory.new PluginFault.Device PluginFault.Out result
        (λ memory. check_syscall_text memory ground.entry.table.now ground.entry.kernel) }
{
    if let Some(need) = ground.first_missing(syscall_needs()) {
        let line = missing_line(alloc, need)?;
        write_whole(out, &line)?;
        return Ok(());
    }
    match ground
        .symbols
        .by_name(need_text(Need::SysCallTable).as_bytes())
    {
        Some(symbol) => write_calls(alloc, ground, symbol, memory, out, steps),
        None => Ok(()),
    }
}
