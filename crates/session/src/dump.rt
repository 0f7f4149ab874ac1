//! The command that dumps memory. The bytes go to a sink of their own, a run of the memory after another, with zeros in the
//! place of those that are absent.
ghost use Rattle.std.specs.Prelude.{◌≡◌, ◌+◌, ◌^◌, ◌<◌, ◌≤◌, length, replicate, vec_len, IsErrOf, IfOk, IfSome, OnOk};
ghost use Rattle.layer_base.specs.Counts.{HasCause};
ghost use Rattle.layer_base.specs.Known.{Writes};
ghost use Rattle.layer_base.specs.View.{physical};
ghost use Rattle.space_memory.specs.InSpace.{in_space};
ghost use Rattle.space_memory.specs.State.{IsSameMemory};
ghost use Rattle.space_memory.specs.Writer.{WritesOver};
ghost use Rattle.session.specs.Dump.{dumped_bytes, absent_bytes, dumped_text, dump_said};
ghost use Rattle.session.specs.Dumped.{count_of};

use crate::place::Place;
use crate::status::CommandFault;
use cell_text::append_number;
use kernel_records::PluginFault;
use layer_base::{Layer, Run, Sink, SinkFault, Steps, room_within, write_whole};
use space_memory::Memory;
use std::alloc::{AllocError, Global};
use std::sync::ledger::Ledger;

// How many bytes are dumped at once.
const PIECE: usize = 65_536;

/// How many bytes were dumped in a row, and how many of them are absent.
#[derive(Clone, Copy, Debug)]
pub(crate) struct Passed {
    pub(crate) count: u64,
    pub(crate) absent: u64,
}

// Writes so many zeros, of which a piece is given.
fn write_zeros<D: Sink>(dump: &mut D, zeros: &[u8], count: u64) -> Result<(), SinkFault>
    requires some { 0 < length zeros.now }
    requires zeros { zeros.now ≡ replicate (length zeros.now) 0 }
    ensures bytes { Writes (D.written dump.old) (D.written dump.new) result (replicate count 0) }
    ensures cause { HasCause (D.faults dump.old) (D.faults dump.new) (IsErrOf result SinkFault.Failed) }
{
    let mut done = 0;
    while done < count {
        let n = room_within(count - done - 1, zeros.len());
        write_whole(dump, &zeros[..n])?;
        done += n as u64;
    }
    Ok(())
}

// Writes so many zeros for a hole, with which the buffer is filled first.
fn write_hole<D: Sink>(dump: &mut D, buf: &mut [u8], count: u64) -> Result<(), SinkFault>
    requires some { 0 < length buf.old }
    ensures bytes { Writes (D.written dump.old) (D.written dump.new) result (replicate count 0) }
    ensures cause { HasCause (D.faults dump.old) (D.faults dump.new) (IsErrOf result SinkFault.Failed) }
{
    buf.fill(0);
    write_zeros(dump, buf, count)
}

// Dumps as many bytes from a place on as the memory tells in one call, and at most so many.
fn dump_run<Y: Layer, D: Sink, L: Ledger>(
    memory: &mut Memory<Y>,
    place: Place,
    most: u64,
    buf: &mut [u8],
    dump: &mut D,
    steps: &mut Steps<L>,
) -> Result<Passed, PluginFault>
    requires some { 0 < most }
    requires buffer { 0 < length buf.old }
    ensures count { IfOk result (λ passed. 0 < passed.count) }
    ensures most { IfOk result (λ passed. passed.count ≤ most) }
    ensures few { IfOk result (λ passed. passed.absent ≤ passed.count) }
    ensures writes { WritesOver D.written D.faults dump.old dump.new memory.old memory.new PluginFault.Device PluginFault.Out result
        (λ memory. dumped_bytes (in_space memory place.space) place.at (count_of most result)) }
    ensures absent { IfSome memory.old.view (λ view. IfOk result (λ passed. passed.absent ≡ absent_bytes (in_space (physical view) place.space) place.at passed.count)) }
{
    let at = place.at;
    let room = room_within(most - 1, buf.len());
    match memory.run_at(place.space, at, &mut buf[..room], steps)? {
        Run::Present { count } => {
            write_whole(dump, &buf[..count])?;
            Ok(Passed {
                count: count as u64,
                absent: 0,
            })
        }
        Run::Absent { last } => {
            let count = (last - at).min(most - 1) + 1;
            let zeros = room_within(count - 1, buf.len());
            write_hole(dump, &mut buf[..zeros], count)?;
            Ok(Passed {
                count,
                absent: count,
            })
        }
    }
}

// Dumps so many bytes from a place on, and answers how many of them are absent.
fn dump_bytes<Y: Layer, D: Sink, L: Ledger>(
    memory: &mut Memory<Y>,
    place: Place,
    len: u64,
    buf: &mut [u8],
    dump: &mut D,
    steps: &mut Steps<L>,
) -> Result<u64, PluginFault>
    requires buffer { 0 < length buf.old }
    requires addresses { place.at + len ≤ 2 ^ 64 }
    ensures writes { WritesOver D.written D.faults dump.old dump.new memory.old memory.new PluginFault.Device PluginFault.Out result
        (λ memory. dumped_bytes (in_space memory place.space) place.at len) }
    ensures absent { IfSome memory.old.view (λ view. IfOk result (λ absent. absent ≡ absent_bytes (in_space (physical view) place.space) place.at len)) }
{
    let mut done = 0;
    let mut absent = 0;
    while done < len {
        let next = Place {
            space: place.space,
            at: place.at + done,
        };
        let passed = dump_run(memory, next, len - done, buf, dump, steps)?;
        done += passed.count;
        absent += passed.absent;
    }
    Ok(absent)
}

// Makes a buffer for so many bytes, and at most for a piece.
fn make_piece(buf: &mut Vec<u8>, len: u64) -> Result<(), AllocError>
    requires { 1 ≤ len }
    ensures { OnOk result (0 < vec_len buf.new) }
{
    buf.resize(room_within(len - 1, PIECE), 0)
}

// Dumps so many bytes from a place on by way of a buffer, and answers how many of them are absent.
fn dump_through<Y: Layer, D: Sink, L: Ledger>(
    memory: &mut Memory<Y>,
    buf: &mut Vec<u8>,
    place: Place,
    len: u64,
    dump: &mut D,
    steps: &mut Steps<L>,
) -> Result<u64, PluginFault>
    requires some { 1 ≤ len }
    requires addresses { place.at + len ≤ 2 ^ 64 }
    ensures writes { WritesOver D.written D.faults dump.old dump.new memory.old memory.new PluginFault.Device PluginFault.Out result
        (λ memory. dumped_bytes (in_space memory place.space) place.at len) }
    ensures absent { IfSome memory.old.view (λ view. IfOk result (λ absent. absent ≡ absent_bytes (in_space (physical view) place.space) place.at len)) }
{
    make_piece(buf, len)?;
    dump_bytes(memory, place, len, buf, dump, steps)
}

#[tactic(auto, unfolding(crate::specs::Dump::dumped_text))]
fn dumped_line(alloc: Global, len: u64, absent: u64) -> Result<Vec<u8>, AllocError>
    ensures { IfOk result (λ line. line.items ≡ dumped_text len absent) }
{
    let mut line = Vec::from_slice(alloc, b"dumped ")?;
    append_number(&mut line, len)?;
    line.extend_from_slice(b" bytes, ")?;
    append_number(&mut line, absent)?;
    line.extend_from_slice(b" absent\n")?;
    Ok(line)
}

// Writes how many bytes were dumped.
fn write_dumped<O: Sink>(alloc: Global, len: u64, absent: u64, out: &mut O) -> Result<(), SinkFault>
    ensures text { Writes (O.written out.old) (O.written out.new) result (dumped_text len absent) }
    ensures cause { HasCause (O.faults out.old) (O.faults out.new) (IsErrOf result SinkFault.Failed) }
{
    match dumped_line(alloc, len, absent) {
        Ok(line) => write_whole(out, &line),
        Err(_) => Err(SinkFault::Memory),
    }
}

/// Dumps so many bytes from a place on, and then writes a line that says how many they are. The buffer keeps the memory
/// that it took, which is at most that of a piece.
pub(crate) fn write_dump<Y: Layer, O: Sink, D: Sink, L: Ledger>(
    alloc: Global,
    memory: &mut Memory<Y>,
    buf: &mut Vec<u8>,
    place: Place,
    len: u64,
    out: &mut O,
    dump: &mut D,
    steps: &mut Steps<L>,
) -> Result<(), CommandFault>
    requires some { 1 ≤ len }
    requires addresses { place.at + len ≤ 2 ^ 64 }
    ensures text { IfSome memory.old.view (λ view. Writes (O.written out.old) (O.written out.new) result (dump_said (physical view) len place).text) }
    ensures dumped { IfSome memory.old.view (λ view. Writes (D.written dump.old) (D.written dump.new) result (dump_said (physical view) len place).dumped) }
    ensures memory { IsSameMemory memory.old memory.new }
    ensures image { HasCause memory.old.faults memory.new.faults (IsErrOf result CommandFault.Image) }
    ensures out { HasCause (O.faults out.old) (O.faults out.new) (IsErrOf result CommandFault.Out) }
    ensures dump { HasCause (D.faults dump.old) (D.faults dump.new) (IsErrOf result CommandFault.Dump) }
{
    match dump_through(memory, buf, place, len, dump, steps) {
        Ok(absent) => Ok(write_dumped(alloc, len, absent, out)?),
        Err(fault) => Err(CommandFault::of_dump(fault)),
    }
}
