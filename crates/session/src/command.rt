//! Running one line.
ghost use Rattle.std.specs.Prelude.{◌≡◌, IsErrOf, IfOk, IfSome};
ghost use Rattle.layer_base.specs.Counts.{HasCause};
ghost use Rattle.layer_base.specs.Known.{Writes};
ghost use Rattle.space_memory.specs.State.{IsSameMemory};
ghost use Rattle.space_memory.specs.Writer.{WritesOver};
ghost use Rattle.command_words.specs.Limits.{KeepsLimits};
ghost use Rattle.session.specs.Command.{command_text, with_dump_said, command_said};
ghost use Rattle.session.specs.Evidence.{evidence_at, evidence_in};
ghost use Rattle.session.specs.Kernel.{KeepsKernel};
ghost use Rattle.session.specs.Line.{line_said, is_quit, flow_of};
ghost use Rattle.session.specs.Turn.{flow_after};

use crate::at_place::{dump_at, object_at, read_at, scan_at, translate_at};
use crate::desk::Desk;
use crate::error_line::write_fault;
use crate::kernel::write_kernel;
use crate::kernel_command::{KernelCommand, list_at_kernel};
use crate::status::CommandFault;
use command_words::{Command, LineFault, parse_line};
use kernel_records::PluginFault;
use layer_base::{Layer, Sink, Steps, write_whole};
use scan_text::write_banners;
use std::sync::ledger::Ledger;
use symbol_texts::{layout_text, near_text, symbol_text};

/// Whether a script goes on behind a line.
#[derive(Clone, Copy, Debug, PartialEq, Eq)]
pub(crate) enum Flow {
    NextLine,
    Quit,
}

fn flow_of(command: &Command) -> Flow
    ensures { result ≡ flow_of command.now }
{
    match command {
        Command::Quit => Flow::Quit,
        _ => Flow::NextLine,
    }
}

/// Writes and dumps what a line says, and answers whether the script goes on.
pub(crate) fn run_line<Y: Layer, O: Sink, D: Sink, L: Ledger>(
    desk: &mut Desk<'_, '_, Y>,
    line: &[u8],
    has_dump: bool,
    out: &mut O,
    dump: &mut D,
    steps: &mut Steps<L>,
) -> Result<Flow, CommandFault>
    requires kept { KeepsKernel desk.old.memory.view desk.old.file.table.now desk.old.found }
    ensures text { IfSome desk.old.memory.view (λ view.
        Writes (O.written out.old) (O.written out.new) result (line_said has_dump (evidence_in view desk.old.file.table.now) line.now).text) }
    ensures dumped { IfSome desk.old.memory.view (λ view.
        Writes (D.written dump.old) (D.written dump.new) result (line_said has_dump (evidence_in view desk.old.file.table.now) line.now).dumped) }
    ensures flow { IfOk result (λ flow. flow ≡ flow_after is_quit line.now) }
    ensures memory { IsSameMemory desk.old.memory desk.new.memory }
    ensures kept { KeepsKernel desk.new.memory.view desk.new.file.table.now desk.new.found }
    ensures file { desk.new.file ≡ desk.old.file }
    ensures image { HasCause desk.old.memory.faults desk.new.memory.faults (IsErrOf result CommandFault.Image) }
    ensures out { HasCause (O.faults out.old) (O.faults out.new) (IsErrOf result CommandFault.Out) }
    ensures dump { HasCause (D.faults dump.old) (D.faults dump.new) (IsErrOf result CommandFault.Dump) }
{
    match parse_line(desk.alloc, line) {
        Ok(command) => {
            run_command(desk, &command, has_dump, out, dump, steps)?;
            Ok(flow_of(&command))
        }
        Err(LineFault::Memory) => Err(CommandFault::Memory),
        Err(fault) => {
            write_fault(desk.alloc, fault, out)?;
            Ok(Flow::NextLine)
        }
    }
}

// Writes and dumps what a command says.
#[tactic(auto, using(crate::proofs::Pieces::writes_none))]
fn run_command<Y: Layer, O: Sink, D: Sink, L: Ledger>(
    desk: &mut Desk<'_, '_, Y>,
    command: &Command,
    has_dump: bool,
    out: &mut O,
    dump: &mut D,
    steps: &mut Steps<L>,
) -> Result<(), CommandFault>
    requires limits { KeepsLimits command.now }
    requires kept { KeepsKernel desk.old.memory.view desk.old.file.table.now desk.old.found }
    ensures text { IfSome desk.old.memory.view (λ view.
        Writes (O.written out.old) (O.written out.new) result (command_said has_dump (evidence_in view desk.old.file.table.now) command.now).text) }
    ensures dumped { IfSome desk.old.memory.view (λ view.
        Writes (D.written dump.old) (D.written dump.new) result (command_said has_dump (evidence_in view desk.old.file.table.now) command.now).dumped) }
    ensures memory { IsSameMemory desk.old.memory desk.new.memory }
    ensures kept { KeepsKernel desk.new.memory.view desk.new.file.table.now desk.new.found }
    ensures file { desk.new.file ≡ desk.old.file }
    ensures image { HasCause desk.old.memory.faults desk.new.memory.faults (IsErrOf result CommandFault.Image) }
    ensures out { HasCause (O.faults out.old) (O.faults out.new) (IsErrOf result CommandFault.Out) }
    ensures dump { HasCause (D.faults dump.old) (D.faults dump.new) (IsErrOf result CommandFault.Dump) }
{
    if has_dump {
        return run_with_dump(desk, command, out, dump, steps);
    }
    print_command(desk, command, out, steps)
}

// Writes and dumps what a command says where there is a file for dumps.
#[tactic(auto, using(crate::proofs::Pieces::writes_none), unfolding(crate::specs::Command::with_dump_said))]
fn run_with_dump<Y: Layer, O: Sink, D: Sink, L: Ledger>(
    desk: &mut Desk<'_, '_, Y>,
    command: &Command,
    out: &mut O,
    dump: &mut D,
    steps: &mut Steps<L>,
) -> Result<(), CommandFault>
    requires limits { KeepsLimits command.now }
    requires kept { KeepsKernel desk.old.memory.view desk.old.file.table.now desk.old.found }
    ensures text { IfSome desk.old.memory.view (λ view.
        Writes (O.written out.old) (O.written out.new) result (with_dump_said (evidence_in view desk.old.file.table.now) command.now).text) }
    ensures dumped { IfSome desk.old.memory.view (λ view.
        Writes (D.written dump.old) (D.written dump.new) result (with_dump_said (evidence_in view desk.old.file.table.now) command.now).dumped) }
    ensures memory { IsSameMemory desk.old.memory desk.new.memory }
    ensures kept { KeepsKernel desk.new.memory.view desk.new.file.table.now desk.new.found }
    ensures file { desk.new.file ≡ desk.old.file }
    ensures image { HasCause desk.old.memory.faults desk.new.memory.faults (IsErrOf result CommandFault.Image) }
    ensures out { HasCause (O.faults out.old) (O.faults out.new) (IsErrOf result CommandFault.Out) }
    ensures dump { HasCause (D.faults dump.old) (D.faults dump.new) (IsErrOf result CommandFault.Dump) }
{
    match command {
        Command::Dump { space, at, len } => dump_at(desk, *space, at, *len, out, dump, steps),
        _ => print_command(desk, command, out, steps),
    }
}

// Writes what a command prints that dumps nothing.
fn print_command<Y: Layer, O: Sink, L: Ledger>(
    desk: &mut Desk<'_, '_, Y>,
    command: &Command,
    out: &mut O,
    steps: &mut Steps<L>,
) -> Result<(), CommandFault>
    requires limits { KeepsLimits command.now }
    requires kept { KeepsKernel desk.old.memory.view desk.old.file.table.now desk.old.found }
    ensures writes { WritesOver O.written O.faults out.old out.new desk.old.memory desk.new.memory CommandFault.Image CommandFault.Out result
        (λ memory. command_text (evidence_at memory desk.old.file.table.now) command.now) }
    ensures kept { KeepsKernel desk.new.memory.view desk.new.file.table.now desk.new.found }
    ensures file { desk.new.file ≡ desk.old.file }
    ensures undumped { ¬ IsErrOf result CommandFault.Dump }
{
    write_command(desk, command, out, steps)?;
    Ok(())
}

// One line for each command, as in `command_text`.
#[tactic(auto, unfolding(crate::specs::Command::command_text))]
fn write_command<Y: Layer, O: Sink, L: Ledger>(
    desk: &mut Desk<'_, '_, Y>,
    command: &Command,
    out: &mut O,
    steps: &mut Steps<L>,
) -> Result<(), PluginFault>
    requires limits { KeepsLimits command.now }
    requires kept { KeepsKernel desk.old.memory.view desk.old.file.table.now desk.old.found }
    ensures writes { WritesOver O.written O.faults out.old out.new desk.old.memory desk.new.memory PluginFault.Device PluginFault.Out result
        (λ memory. command_text (evidence_at memory desk.old.file.table.now) command.now) }
    ensures kept { KeepsKernel desk.new.memory.view desk.new.file.table.now desk.new.found }
    ensures file { desk.new.file ≡ desk.old.file }
{
    match command {
        Command::Nothing | Command::Quit => Ok(()),
        Command::Read { space, at, len } => read_at(desk, *space, at, *len, out, steps),
        Command::Translate { space, at } => translate_at(desk, *space, at, out, steps),
        Command::Show {
            space,
            at,
            name,
            path,
        } => object_at(desk, *space, at, name.items(), path.items(), out, steps),
        Command::Scan {
            space,
            at,
            len,
            needle,
        } => scan_at(desk, *space, at, *len, needle.items(), out, steps),
        Command::Layout { name } => Ok(write_whole(
            out,
            &layout_text(desk.alloc, desk.file.table, name.items())?,
        )?),
        Command::Symbol { name } => {
            Ok(write_whole(
                out,
                &symbol_text(desk.alloc, desk.file.symbols, name.items())?,
            )?)
        }
        Command::Near { number } => {
            Ok(write_whole(out, &near_text(desk.alloc, desk.file.symbols, *number)?)?)
        }
        Command::Banners => write_banners(
            desk.alloc,
            &mut desk.memory,
            desk.chunk.bytes,
            out,
            steps,
        ),
        Command::Kernel => write_kernel(desk, out, steps),
        Command::Pslist => list_at_kernel(desk, KernelCommand::Pslist, out, steps),
        Command::Pstree => list_at_kernel(desk, KernelCommand::Pstree, out, steps),
        Command::Lsmod => list_at_kernel(desk, KernelCommand::Lsmod, out, steps),
        Command::CheckSyscall => list_at_kernel(desk, KernelCommand::CheckSyscall, out, steps),
        Command::Maps { pid } => {
            list_at_kernel(desk, KernelCommand::Maps { pid: *pid }, out, steps)
        }
        Command::Lsof { pid } => {
            list_at_kernel(desk, KernelCommand::Lsof { pid: *pid }, out, steps)
        }
        Command::Dump { .. } => Ok(write_whole(out, b"error: no dump file\n")?),
    }
}
