//! The commands that list what the kernel's memory holds.
ghost use Rattle.std.specs.Prelude.{◌≡◌};
ghost use Rattle.space_memory.specs.Writer.{WritesOver};
ghost use Rattle.session.specs.Evidence.{evidence_at};
ghost use Rattle.session.specs.Kernel.{KeepsKernel};
ghost use Rattle.session.specs.KernelCommand.{kernel_text, text_at_kernel};

use crate::desk::Desk;
use crate::kernel::kernel_of;
use crate::refusal::{NotRun, write_refusal};
use file_plugins::write_lsof;
use kernel_records::PluginFault;
use layer_base::{Layer, Sink, Steps};
use map_plugins::write_maps;
use module_plugins::{write_check_syscall, write_lsmod};
use space_memory::Memory;
use std::alloc::Global;
use std::sync::ledger::Ledger;
use task_plugins::{write_pslist, write_pstree};
use typed_object::Ground;

/// A command that lists what the kernel's memory holds.
#[derive(Clone, Copy, Debug)]
pub(crate) enum KernelCommand {
    Pslist,
    Pstree,
    Lsmod,
    CheckSyscall,
    Maps { pid: u64 },
    Lsof { pid: u64 },
}

// Writes what a command prints of a kernel.
#[tactic(auto, unfolding(crate::specs::KernelCommand::kernel_text))]
fn write_kernel_text<Y: Layer, O: Sink, L: Ledger>(
    alloc: Global,
    ground: Ground<'_, '_>,
    command: KernelCommand,
    memory: &mut Memory<Y>,
    out: &mut O,
    steps: &mut Steps<L>,
) -> Result<(), PluginFault>
    ensures writes { WritesOver O.written O.faults out.old out.new memory.old memory.new PluginFault.Device PluginFault.Out result
        (λ memory. kernel_text memory ground.entry.table.now command ground.entry.kernel) }
{
    match command {
        KernelCommand::Pslist => write_pslist(alloc, ground, memory, out, steps),
        KernelCommand::Pstree => write_pstree(alloc, ground, memory, out, steps),
        KernelCommand::Lsmod => write_lsmod(alloc, ground, memory, out, steps),
        KernelCommand::CheckSyscall => write_check_syscall(alloc, ground, memory, out, steps),
        KernelCommand::Maps { pid } => write_maps(alloc, ground, pid, memory, out, steps),
        KernelCommand::Lsof { pid } => write_lsof(alloc, ground, pid, memory, out, steps),
    }
}

/// Writes what a command prints of the kernel, or why there is none.
pub(crate) fn list_at_kernel<Y: Layer, O: Sink, L: Ledger>(
    desk: &mut Desk<'_, '_, Y>,
    command: KernelCommand,
    out: &mut O,
    steps: &mut Steps<L>,
) -> Result<(), PluginFault>
    requires kept { KeepsKernel desk.old.memory.view desk.old.file.table.now desk.old.found }
    ensures writes { WritesOver O.written O.faults out.old out.new desk.old.memory desk.new.memory PluginFault.Device PluginFault.Out result
        (λ memory. text_at_kernel (evidence_at memory desk.old.file.table.now) command) }
    ensures kept { KeepsKernel desk.new.memory.view desk.new.file.table.now desk.new.found }
    ensures file { desk.new.file ≡ desk.old.file }
{
    match kernel_of(desk, steps) {
        Ok(kernel) => write_kernel_text(
            desk.alloc,
            desk.file.ground(kernel),
            command,
            &mut desk.memory,
            out,
            steps,
        ),
        Err(NotRun::Refused(refusal)) => Ok(write_refusal(desk.alloc, &refusal, out)?),
        Err(NotRun::Fault(fault)) => Err(fault.into()),
    }
}
