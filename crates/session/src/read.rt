//! The command that prints memory. It reads a piece at a time and writes the rows of each.
ghost use Rattle.std.specs.Prelude.{◌≡◌, ◌+◌, ◌^◌, ◌<◌, ◌≤◌, [], ◌++◌, None, Some, map, length, replicate, vec_len, vec_capacity, IsErr, IfSome, OnOk};
ghost use Rattle.layer_base.specs.AddressSpace.{bytes_from};
ghost use Rattle.layer_base.specs.Counts.{HasCause};
ghost use Rattle.layer_base.specs.View.{physical};
ghost use Rattle.space_memory.specs.InSpace.{in_space};
ghost use Rattle.space_memory.specs.State.{IsSameMemory};
ghost use Rattle.space_memory.specs.Writer.{WritesOver};
ghost use Rattle.session.specs.Command.{read_text};
ghost use Rattle.session.specs.Read.{AddsCells, IsCountWithin};
ghost use Rattle.session.specs.declared.read.TheConstants.{PIECE};

use crate::place::Place;
use hex_text::append_rows;
use kernel_records::PluginFault;
use layer_base::{DeviceFailed, Layer, Run, Sink, Steps, write_whole};
use space_memory::Memory;
use std::alloc::{AllocError, Global};
use std::sync::ledger::Ledger;

// How many bytes are read before their rows are written: a whole number of rows.
const PIECE: usize = 65_536;

/// A piece of memory, and the rows of it. It takes no memory before the first piece, and then keeps what it took.
#[derive(Drop)]
pub(crate) struct Page {
    pub(crate) bytes: Vec<u8>,
    cells: Vec<Option<u8>>,
    text: Vec<u8>,
}

fn push_present(cells: &mut Vec<Option<u8>>, bytes: &[u8])
    requires { vec_len cells.old + length bytes.now ≤ vec_capacity cells.old }
    ensures items { cells.new.items ≡ cells.old.items ++ map Some bytes.now }
    ensures capacity { vec_capacity cells.new ≡ vec_capacity cells.old }
{
    for byte in bytes {
        cells.push_reserved(Some(*byte));
    }
}

fn push_absent(cells: &mut Vec<Option<u8>>, count: usize)
    requires { vec_len cells.old + count ≤ vec_capacity cells.old }
    ensures items { cells.new.items ≡ cells.old.items ++ replicate count None }
    ensures capacity { vec_capacity cells.new ≡ vec_capacity cells.old }
{
    for _ in 0..count {
        cells.push_reserved(None);
    }
}

// Adds the cells of as many addresses from `at` on as the memory tells in one call, and at most so many.
fn push_run<Y: Layer, L: Ledger>(
    memory: &mut Memory<Y>,
    place: Place,
    most: usize,
    buf: &mut [u8],
    cells: &mut Vec<Option<u8>>,
    steps: &mut Steps<L>,
) -> Result<(), DeviceFailed>
    requires some { 0 < most }
    requires buffer { most ≤ length buf.old }
    requires addresses { place.at + most ≤ 2 ^ 64 }
    requires room { vec_len cells.old + most ≤ vec_capacity cells.old }
    ensures count { OnOk result (IsCountWithin most cells.old.items cells.new.items) }
    ensures cells { IfSome memory.old.view (λ view. OnOk result (AddsCells (in_space (physical view) place.space) place.at cells.old.items cells.new.items)) }
    ensures capacity { vec_capacity cells.new ≡ vec_capacity cells.old }
    ensures memory { IsSameMemory memory.old memory.new }
    ensures cause { HasCause memory.old.faults memory.new.faults (IsErr result) }
{
    let at = place.at;
    match memory.run_at(place.space, at, &mut buf[..most], steps)? {
        Run::Present { count } => push_present(cells, &buf[..count]),
        Run::Absent { last } => {
            let others = (last - at).min(most as u64 - 1) as usize;
            push_absent(cells, others + 1);
        }
    }
    Ok(())
}

// Adds the cells of so many addresses from a place on.
fn push_cells<Y: Layer, L: Ledger>(
    memory: &mut Memory<Y>,
    place: Place,
    len: usize,
    buf: &mut [u8],
    cells: &mut Vec<Option<u8>>,
    steps: &mut Steps<L>,
) -> Result<(), DeviceFailed>
    requires buffer { len ≤ length buf.old }
    requires addresses { place.at + len ≤ 2 ^ 64 }
    requires empty { cells.old.items ≡ [] }
    requires room { len ≤ vec_capacity cells.old }
    ensures cells { IfSome memory.old.view (λ view. OnOk result (cells.new.items ≡ bytes_from (in_space (physical view) place.space) place.at len)) }
    ensures count { OnOk result (length cells.new.items ≡ len) }
    ensures capacity { vec_capacity cells.new ≡ vec_capacity cells.old }
    ensures memory { IsSameMemory memory.old memory.new }
    ensures cause { HasCause memory.old.faults memory.new.faults (IsErr result) }
{
    while cells.len() < len {
        let done = cells.len();
        let next = Place {
            space: place.space,
            at: place.at + done as u64,
        };
        push_run(memory, next, len - done, buf, cells, steps)?;
    }
    Ok(())
}

impl Page {
    pub(crate) fn new(alloc: Global) -> Page {
        Page {
            bytes: Vec::new(alloc),
            cells: Vec::new(alloc),
            text: Vec::new(alloc),
        }
    }

    // Writes the rows of so many bytes from a place on.
    fn write<Y: Layer, O: Sink, L: Ledger>(
        &mut self,
        memory: &mut Memory<Y>,
        place: Place,
        len: usize,
        out: &mut O,
        steps: &mut Steps<L>,
    ) -> Result<(), PluginFault>
        requires piece { len ≤ PIECE }
        requires addresses { place.at + len ≤ 2 ^ 64 }
        ensures writes { WritesOver O.written O.faults out.old out.new memory.old memory.new PluginFault.Device PluginFault.Out result
            (λ memory. read_text memory len place) }
    {
        self.bytes.resize(len, 0)?;
        self.cells.clear();
        self.cells.reserve(len)?;
        push_cells(memory, place, len, &mut self.bytes, &mut self.cells, steps)?;
        self.text.clear();
        append_rows(&mut self.text, place.at, &self.cells)?;
        write_whole(out, &self.text)?;
        Ok(())
    }
}

/// Writes the rows of so many bytes from a place on, a piece after another.
pub(crate) fn write_read<Y: Layer, O: Sink, L: Ledger>(
    memory: &mut Memory<Y>,
    page: &mut Page,
    place: Place,
    len: u64,
    out: &mut O,
    steps: &mut Steps<L>,
) -> Result<(), PluginFault>
    requires { place.at + len ≤ 2 ^ 64 }
    ensures writes { WritesOver O.written O.faults out.old out.new memory.old memory.new PluginFault.Device PluginFault.Out result
        (λ memory. read_text memory len place) }
{
    let mut done = 0;
    while done < len {
        let n = (len - done).min(PIECE as u64);
        let next = Place {
            space: place.space,
            at: place.at + done,
        };
        page.write(memory, next, n as usize, out, steps)?;
        done += n;
    }
    Ok(())
}
