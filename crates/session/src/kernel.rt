//! The kernel of the image. It is searched for the first command that needs it, and what the search came to is kept.
ghost use Rattle.std.specs.Prelude.{◌≡◌, IsErrOf, IfOk, IfSome};
ghost use Rattle.layer_base.specs.Counts.{HasCause};
ghost use Rattle.layer_base.specs.View.{physical};
ghost use Rattle.space_memory.specs.State.{IsSameMemory};
ghost use Rattle.space_memory.specs.Writer.{WritesOver};
ghost use Rattle.kernel_find.specs.Find.{find};
ghost use Rattle.kernel_find.specs.FoundText.{found_text};
ghost use Rattle.session.specs.Evidence.{evidence_in};
ghost use Rattle.session.specs.Kernel.{KeepsKernel, kernel_of, kernel_or_refusal};
ghost use Rattle.session.specs.Refusal.{AnswersAs};

use crate::desk::Desk;
use crate::refusal::{CommandRefusal, NotRun};
use kernel_find::{FindFault, Found, find, found_text};
use kernel_records::{Kernel, PluginFault, WalkFault};
use layer_base::{Layer, Sink, Steps, write_whole};
use std::sync::ledger::Ledger;

// Searches the kernel, and keeps what that came to. A fault keeps nothing.
fn search_kernel<Y: Layer, L: Ledger>(
    desk: &mut Desk<'_, '_, Y>,
    steps: &mut Steps<L>,
) -> Result<Found, WalkFault>
    requires kept { KeepsKernel desk.old.memory.view desk.old.file.table.now desk.old.found }
    ensures found { IfSome desk.old.memory.view (λ view. IfOk result (λ found. found ≡ find (physical view) desk.old.file.table.now)) }
    ensures kept { KeepsKernel desk.new.memory.view desk.new.file.table.now desk.new.found }
    ensures file { desk.new.file ≡ desk.old.file }
    ensures memory { IsSameMemory desk.old.memory desk.new.memory }
    ensures cause { HasCause desk.old.memory.faults desk.new.memory.faults (IsErrOf result WalkFault.Device) }
{
    match find(
        desk.alloc,
        &mut desk.memory,
        desk.file.table,
        desk.file.symbols,
        desk.chunk.bytes,
        steps,
    ) {
        Ok(found) => {
            desk.found = Some(found);
            Ok(found)
        }
        Err(FindFault::Device) => Err(WalkFault::Device),
        Err(FindFault::Memory) => Err(WalkFault::Memory),
    }
}

/// What the search for the kernel comes to. There is one search in a run, unless a fault cut it short.
pub(crate) fn found_kernel<Y: Layer, L: Ledger>(
    desk: &mut Desk<'_, '_, Y>,
    steps: &mut Steps<L>,
) -> Result<Found, WalkFault>
    requires kept { KeepsKernel desk.old.memory.view desk.old.file.table.now desk.old.found }
    ensures found { IfSome desk.old.memory.view (λ view. IfOk result (λ found. found ≡ find (physical view) desk.old.file.table.now)) }
    ensures kept { KeepsKernel desk.new.memory.view desk.new.file.table.now desk.new.found }
    ensures file { desk.new.file ≡ desk.old.file }
    ensures memory { IsSameMemory desk.old.memory desk.new.memory }
    ensures cause { HasCause desk.old.memory.faults desk.new.memory.faults (IsErrOf result WalkFault.Device) }
{
    match desk.found {
        Some(found) => Ok(found),
        None => search_kernel(desk, steps),
    }
}

fn kernel_or_refusal(found: Found) -> Result<Kernel, CommandRefusal>
    ensures { result ≡ kernel_or_refusal found }
{
    match found {
        Found::Kernel(kernel) => Ok(kernel),
        _ => Err(CommandRefusal::NoKernel(found)),
    }
}

/// The kernel, for a command that needs it.
pub(crate) fn kernel_of<Y: Layer, L: Ledger>(
    desk: &mut Desk<'_, '_, Y>,
    steps: &mut Steps<L>,
) -> Result<Kernel, NotRun>
    requires kept { KeepsKernel desk.old.memory.view desk.old.file.table.now desk.old.found }
    ensures kernel { IfSome desk.old.memory.view (λ view. AnswersAs (kernel_of (evidence_in view desk.old.file.table.now)) result) }
    ensures kept { KeepsKernel desk.new.memory.view desk.new.file.table.now desk.new.found }
    ensures file { desk.new.file ≡ desk.old.file }
    ensures memory { IsSameMemory desk.old.memory desk.new.memory }
    ensures cause { HasCause desk.old.memory.faults desk.new.memory.faults (IsErrOf result (NotRun.Fault WalkFault.Device)) }
{
    let found = found_kernel(desk, steps)?;
    Ok(kernel_or_refusal(found)?)
}

/// Writes the line that says where the kernel is, or why there is none.
pub(crate) fn write_kernel<Y: Layer, O: Sink, L: Ledger>(
    desk: &mut Desk<'_, '_, Y>,
    out: &mut O,
    steps: &mut Steps<L>,
) -> Result<(), PluginFault>
    requires kept { KeepsKernel desk.old.memory.view desk.old.file.table.now desk.old.found }
    ensures writes { WritesOver O.written O.faults out.old out.new desk.old.memory desk.new.memory PluginFault.Device PluginFault.Out result
        (λ memory. found_text (find memory desk.old.file.table.now)) }
    ensures kept { KeepsKernel desk.new.memory.view desk.new.file.table.now desk.new.found }
    ensures file { desk.new.file ≡ desk.old.file }
{
    let found = found_kernel(desk, steps)?;
    let line = found_text(desk.alloc, &found)?;
    write_whole(out, &line)?;
    Ok(())
}
