//! The commands that look at a place.
ghost use Rattle.std.specs.Prelude.{◌≡◌, ◌*◌, ◌<◌, ◌≤◌, length, IsErrOf, IfSome};
ghost use Rattle.layer_base.specs.Counts.{HasCause};
ghost use Rattle.layer_base.specs.Known.{Writes};
ghost use Rattle.layer_base.specs.View.{physical};
ghost use Rattle.space_memory.specs.State.{IsSameMemory};
ghost use Rattle.space_memory.specs.Writer.{WritesOver};
ghost use Rattle.command_words.specs.Limits.{most_line, most_path};
ghost use Rattle.session.specs.Command.{read_text, translate_text, type_text, hits_text};
ghost use Rattle.session.specs.Dump.{dump_said};
ghost use Rattle.session.specs.Evidence.{evidence_at, evidence_in};
ghost use Rattle.session.specs.Kernel.{KeepsKernel};
ghost use Rattle.session.specs.Place.{text_at, said_at};

use crate::desk::Desk;
use crate::dump::write_dump;
use crate::place::place_of;
use crate::read::write_read;
use crate::refusal::{NotRun, write_refusal};
use crate::status::CommandFault;
use crate::translate::write_translation;
use command_words::{AddrWord, SpaceWord};
use kernel_records::PluginFault;
use layer_base::{Layer, Name, Sink, Steps};
use object_text::write_object;
use scan_text::write_scan;
use std::sync::ledger::Ledger;

/// Writes the rows of so many bytes from a place on.
pub(crate) fn read_at<Y: Layer, O: Sink, L: Ledger>(
    desk: &mut Desk<'_, '_, Y>,
    space: SpaceWord,
    at: &AddrWord,
    len: u64,
    out: &mut O,
    steps: &mut Steps<L>,
) -> Result<(), PluginFault>
    requires kept { KeepsKernel desk.old.memory.view desk.old.file.table.now desk.old.found }
    ensures writes { WritesOver O.written O.faults out.old out.new desk.old.memory desk.new.memory PluginFault.Device PluginFault.Out result
        (λ memory. text_at (evidence_at memory desk.old.file.table.now) space at.now len (read_text memory len)) }
    ensures kept { KeepsKernel desk.new.memory.view desk.new.file.table.now desk.new.found }
    ensures file { desk.new.file ≡ desk.old.file }
{
    match place_of(desk, space, at, len, steps) {
        Ok(place) => write_read(&mut desk.memory, &mut desk.page, place, len, out, steps),
        Err(NotRun::Refused(refusal)) => Ok(write_refusal(desk.alloc, &refusal, out)?),
        Err(NotRun::Fault(fault)) => Err(fault.into()),
    }
}

/// Writes an address and where it is in physical memory.
pub(crate) fn translate_at<Y: Layer, O: Sink, L: Ledger>(
    desk: &mut Desk<'_, '_, Y>,
    space: SpaceWord,
    at: &AddrWord,
    out: &mut O,
    steps: &mut Steps<L>,
) -> Result<(), PluginFault>
    requires kept { KeepsKernel desk.old.memory.view desk.old.file.table.now desk.old.found }
    ensures writes { WritesOver O.written O.faults out.old out.new desk.old.memory desk.new.memory PluginFault.Device PluginFault.Out result
        (λ memory. text_at (evidence_at memory desk.old.file.table.now) space at.now 0 (translate_text memory)) }
    ensures kept { KeepsKernel desk.new.memory.view desk.new.file.table.now desk.new.found }
    ensures file { desk.new.file ≡ desk.old.file }
{
    match place_of(desk, space, at, 0, steps) {
        Ok(place) => write_translation(desk.alloc, &mut desk.memory, place, out, steps),
        Err(NotRun::Refused(refusal)) => Ok(write_refusal(desk.alloc, &refusal, out)?),
        Err(NotRun::Fault(fault)) => Err(fault.into()),
    }
}

/// Writes the object at a place, of the type that a name and a path of members lead to.
pub(crate) fn object_at<Y: Layer, O: Sink, L: Ledger>(
    desk: &mut Desk<'_, '_, Y>,
    space: SpaceWord,
    at: &AddrWord,
    name: &[u8],
    path: &[Name],
    out: &mut O,
    steps: &mut Steps<L>,
) -> Result<(), PluginFault>
    requires path { length path.now ≤ most_path }
    requires kept { KeepsKernel desk.old.memory.view desk.old.file.table.now desk.old.found }
    ensures writes { WritesOver O.written O.faults out.old out.new desk.old.memory desk.new.memory PluginFault.Device PluginFault.Out result
        (λ memory. text_at (evidence_at memory desk.old.file.table.now) space at.now 0 (type_text memory desk.old.file.table.now name.now path.now)) }
    ensures kept { KeepsKernel desk.new.memory.view desk.new.file.table.now desk.new.found }
    ensures file { desk.new.file ≡ desk.old.file }
{
    match place_of(desk, space, at, 0, steps) {
        Ok(place) => write_object(
            desk.alloc,
            desk.file.table,
            &mut desk.memory,
            place.space,
            place.at,
            name,
            path,
            out,
            steps,
        ),
        Err(NotRun::Refused(refusal)) => Ok(write_refusal(desk.alloc, &refusal, out)?),
        Err(NotRun::Fault(fault)) => Err(fault.into()),
    }
}

/// Writes the addresses of a needle among so many bytes from a place on, and how many they are.
pub(crate) fn scan_at<Y: Layer, O: Sink, L: Ledger>(
    desk: &mut Desk<'_, '_, Y>,
    space: SpaceWord,
    at: &AddrWord,
    len: u64,
    needle: &[u8],
    out: &mut O,
    steps: &mut Steps<L>,
) -> Result<(), PluginFault>
    requires some { 1 ≤ len }
    requires needle_some { 0 < length needle.now }
    requires needle_few { 2 * length needle.now ≤ most_line }
    requires kept { KeepsKernel desk.old.memory.view desk.old.file.table.now desk.old.found }
    ensures writes { WritesOver O.written O.faults out.old out.new desk.old.memory desk.new.memory PluginFault.Device PluginFault.Out result
        (λ memory. text_at (evidence_at memory desk.old.file.table.now) space at.now len (hits_text memory len needle.now)) }
    ensures kept { KeepsKernel desk.new.memory.view desk.new.file.table.now desk.new.found }
    ensures file { desk.new.file ≡ desk.old.file }
{
    match place_of(desk, space, at, len, steps) {
        Ok(place) => write_scan(
            desk.alloc,
            &mut desk.memory,
            place.space,
            place.at,
            len,
            needle,
            desk.chunk.bytes,
            out,
            steps,
        ),
        Err(NotRun::Refused(refusal)) => Ok(write_refusal(desk.alloc, &refusal, out)?),
        Err(NotRun::Fault(fault)) => Err(fault.into()),
    }
}

/// Dumps so many bytes from a place on, and writes how many they are.
pub(crate) fn dump_at<Y: Layer, O: Sink, D: Sink, L: Ledger>(
    desk: &mut Desk<'_, '_, Y>,
    space: SpaceWord,
    at: &AddrWord,
    len: u64,
    out: &mut O,
    dump: &mut D,
    steps: &mut Steps<L>,
) -> Result<(), CommandFault>
    requires some { 1 ≤ len }
    requires kept { KeepsKernel desk.old.memory.view desk.old.file.table.now desk.old.found }
    ensures text { IfSome desk.old.memory.view (λ view.
        Writes (O.written out.old) (O.written out.new) result (said_at (evidence_in view desk.old.file.table.now) space at.now len (dump_said (physical view) len)).text) }
    ensures dumped { IfSome desk.old.memory.view (λ view.
        Writes (D.written dump.old) (D.written dump.new) result (said_at (evidence_in view desk.old.file.table.now) space at.now len (dump_said (physical view) len)).dumped) }
    ensures memory { IsSameMemory desk.old.memory desk.new.memory }
    ensures kept { KeepsKernel desk.new.memory.view desk.new.file.table.now desk.new.found }
    ensures file { desk.new.file ≡ desk.old.file }
    ensures image { HasCause desk.old.memory.faults desk.new.memory.faults (IsErrOf result CommandFault.Image) }
    ensures out { HasCause (O.faults out.old) (O.faults out.new) (IsErrOf result CommandFault.Out) }
    ensures dump { HasCause (D.faults dump.old) (D.faults dump.new) (IsErrOf result CommandFault.Dump) }
{
    match place_of(desk, space, at, len, steps) {
        Ok(place) => write_dump(
            desk.alloc,
            &mut desk.memory,
            &mut desk.page.bytes,
            place,
            len,
            out,
            dump,
            steps,
        ),
        Err(NotRun::Refused(refusal)) => Ok(write_refusal(desk.alloc, &refusal, out)?),
        Err(NotRun::Fault(fault)) => Err(PluginFault::from(fault).into()),
    }
}
