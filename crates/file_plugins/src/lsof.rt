//! The command `lsof`.
ghost use Rattle.std.specs.Prelude.{◌≡◌, ◌++◌, Ok, IfOk};
ghost use Rattle.cell_text.specs.ErrorLine.{no_task_text};
ghost use Rattle.space_memory.specs.Writer.{WritesOver};
ghost use Rattle.task_plugins.specs.Pid.{task_of_pid};
ghost use Rattle.typed_object.specs.Ground.{kernel_memory};
ghost use Rattle.walk_text.specs.Added.{end_line};
ghost use Rattle.file_plugins.specs.Lsof.{head, table_lines, files_text, text_by, lsof_text};

use crate::file_table::{NoTable, file_table};
use crate::lines::FileLines;
use cell_text::{append_no_task, append_stop_line, missing_line};
use kernel_records::{PluginFault, Stop, lsof_needs};
use layer_base::{Layer, Sink, Steps, write_whole};
use path_walk::Paths;
use space_memory::Memory;
use std::alloc::{AllocError, Global};
use std::sync::ledger::Ledger;
use task_plugins::task_of_pid;
use typed_object::Ground;
use walk_text::write_lines;
use word_table::{Slots, WordTable};

// The names of the columns.
#[tactic(auto, unfolding(crate::specs::Lsof::head))]
fn head() -> &'static [u8]
    ensures { result.now ≡ head }
{
    b"FD\tFILE\tPATH\n"
}

// The text of no files, and why there are none.
fn stop_text(alloc: Global, stop: Stop) -> Result<Vec<u8>, AllocError>
    ensures { IfOk result (λ text. text.items ≡ head ++ end_line stop) }
{
    let mut text = Vec::from_slice(alloc, head())?;
    append_stop_line(&mut text, stop)?;
    text.push(b'\n')?;
    Ok(text)
}

fn no_task_line(alloc: Global, pid: u64) -> Result<Vec<u8>, AllocError>
    ensures { IfOk result (λ line. line.items ≡ no_task_text pid) }
{
    let mut line = Vec::new(alloc);
    append_no_task(&mut line, pid)?;
    Ok(line)
}

// Writes the files whose addresses are the words of a table.
fn write_table<Y: Layer, O: Sink, L: Ledger>(
    alloc: Global,
    ground: Ground<'_, '_>,
    table: WordTable,
    memory: &mut Memory<Y>,
    out: &mut O,
    steps: &mut Steps<L>,
) -> Result<(), PluginFault>
    ensures writes { WritesOver O.written O.faults out.old out.new memory.old memory.new PluginFault.Device PluginFault.Out result
        (λ memory. head ++ table_lines (kernel_memory memory ground.entry.kernel) ground.entry.table.now ground.entry.kernel (Ok table)) }
{
    let mut lines = FileLines {
        paths: Paths::of(&ground),
        slots: Slots::new(ground.space(), table),
        cells: Vec::new(alloc),
    };
    write_lines(alloc, head(), &mut lines, memory, out, steps)
}

// Writes the open files of the task at an address.
fn write_files<Y: Layer, O: Sink, L: Ledger>(
    alloc: Global,
    ground: Ground<'_, '_>,
    task: u64,
    memory: &mut Memory<Y>,
    out: &mut O,
    steps: &mut Steps<L>,
) -> Result<(), PluginFault>
    ensures writes { WritesOver O.written O.faults out.old out.new memory.old memory.new PluginFault.Device PluginFault.Out result
        (λ memory. files_text (kernel_memory memory ground.entry.kernel) ground.entry.table.now ground.entry.kernel task) }
{
    match file_table(ground, task, memory, steps) {
        Ok(table) => write_table(alloc, ground, table, memory, out, steps),
        Err(NoTable::Stopped(stop)) => {
            let text = stop_text(alloc, stop)?;
            write_whole(out, &text)?;
            Ok(())
        }
        Err(NoTable::Device) => Err(PluginFault::Device),
    }
}

// Writes the open files of the task of a PID, or that there is no such task.
fn write_task<Y: Layer, O: Sink, L: Ledger>(
    alloc: Global,
    ground: Ground<'_, '_>,
    pid: u64,
    memory: &mut Memory<Y>,
    out: &mut O,
    steps: &mut Steps<L>,
) -> Result<(), PluginFault>
    ensures writes { WritesOver O.written O.faults out.old out.new memory.old memory.new PluginFault.Device PluginFault.Out result
        (λ memory. text_by (kernel_memory memory ground.entry.kernel) ground.entry.table.now ground.entry.kernel pid (task_of_pid memory ground.entry.table.now ground.entry.kernel pid)) }
{
    match task_of_pid(alloc, ground, pid, memory, steps)? {
        Some(task) => write_files(alloc, ground, task, memory, out, steps),
        None => {
            let line = no_task_line(alloc, pid)?;
            write_whole(out, &line)?;
            Ok(())
        }
    }
}

/// Writes the files that the task of a PID has open: a line of the columns' names, then the descriptor, the address and the
/// path of each file, then why the list ended. Where the symbol file lacks a name that is needed, the line of the first one
/// is all that is written; else `error: no task N` where no task has the PID.
///
/// The words at `fd` of the task's descriptor table are the addresses of its files, `max_fds` of them. A word of 0 is no
/// file and has no row. A task without `files` or `fdt`, which are 0 then, has no rows, and the stop is `End`. The list ends
///
/// - before the first word that is absent, as `Unreadable` with the word's address; where `files`, `fdt`, `max_fds` or `fd`
///   is absent, it has no rows and ends as `Unreadable` with the place of that member, or as `Outside` with the address of
///   its object where the place is above 2^64 - 1;
/// - before the first word that would pass 2^64 - 1, as `Outside` with its address, or where that is above 2^64 - 1, with
///   the address of the word before it;
/// - after 1,048,576 words, as `Limit` where there are more;
/// - else as `End`.
///
/// What was found is written before a failure of the image is answered.
#[tactic(auto, unfolding(crate::specs::Lsof::lsof_text))]
pub fn write_lsof<Y: Layer, O: Sink, L: Ledger>(
    alloc: Global,
    ground: Ground<'_, '_>,
    pid: u64,
    memory: &mut Memory<Y>,
    out: &mut O,
    steps: &mut Steps<L>,
) -> Result<(), PluginFault>
    ensures writes { WritesOver O.written O.faults out.old out.new memory.old memory.new PluginFault.Device PluginFault.Out result
        (λ memory. lsof_text memory ground.entry.table.now ground.entry.kernel pid) }
{
    if let Some(need) = ground.first_missing(lsof_needs()) {
        let line = missing_line(alloc, need)?;
        write_whole(out, &line)?;
        return Ok(());
    }
    write_task(alloc, ground, pid, memory, out, steps)
}
