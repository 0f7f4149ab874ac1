//! Buffers and numbers over two pages of a space, and how far its runs reach, in every cut of the layer.
ghost use Rattle.std.specs.Prelude.{◌≡◌, ◌<◌, ◌≤◌, ◌^◌};

use anyhow::{Context, Result};
use file_layer::FileLayer;
use layer_base::{Levels, MemDevice, Run, Space, Steps};
use space_memory::{Got, Memory};
use std::alloc::{AllocError, Global};
use std::marker::Brand;
use std::sync::ledger::{Blank, Ledger};

/// The spaces of a file in memory.
type FileMemory = Memory<FileLayer<MemDevice>>;

/// The tables from 0x1000 on, by the bytes of their entries: the pages at 0 and 0x1000 are the frames 0x5000 and 0, and
/// the one at 0x2000 is not there.
const ENTRIES: [(usize, u8, u8); 5] = [
    (0x1000, 0x03, 0x20),
    (0x2000, 0x03, 0x30),
    (0x3000, 0x03, 0x40),
    (0x4000, 0x03, 0x50),
    (0x4008, 0x03, 0x00),
];

fn put(bytes: &mut [u8], place: usize, new: &[u8]) {
    for (byte, to) in new.iter().zip(bytes.iter_mut().skip(place)) {
        *to = *byte;
    }
}

fn image(alloc: Global) -> Result<Vec<u8>, AllocError> {
    let mut bytes = Vec::new(alloc);
    bytes.resize(0x6000, 0)?;
    for (place, low, high) in ENTRIES {
        put(&mut bytes, place, &[low, high]);
    }
    put(&mut bytes, 0x5ffe, b"YZ");
    put(&mut bytes, 0, &[1, 2]);
    Ok(bytes)
}

fn memory(alloc: Global, cut: usize) -> Result<FileMemory> {
    let device = MemDevice::new(image(alloc)?, Vec::new(alloc), cut.max(1));
    Memory::new(alloc, FileLayer::new(alloc, device), 0)
        .ok()
        .context("out of memory")
}

// Prints the four bytes from an address on.
fn print_read<R: Print + Alloc<A = Global>, L: Ledger>(
    rt: &R,
    memory: &mut FileMemory,
    space: Space,
    at: u64,
    steps: &mut Steps<L>,
) -> Result<()>
    requires { at < 2 ^ 32 }
{
    let mut buf = [0xff; 4];
    let got = memory.read(space, at, &mut buf, steps);
    match got.ok().context("the device failed")? {
        Got::All => println!(rt; "  read {at:#x}: {buf:?}")?,
        Got::Hole { at: hole } => println!(rt; "  read {at:#x}: hole at {hole:#x}")?,
    }
    Ok(())
}

// Prints the number in the eight bytes from an address on.
fn print_word<R: Print + Alloc<A = Global>, L: Ledger>(
    rt: &R,
    memory: &mut FileMemory,
    space: Space,
    at: u64,
    steps: &mut Steps<L>,
) -> Result<()>
    requires { at < 2 ^ 32 }
{
    let word = memory.word(space, at, steps);
    match word.ok().context("the device failed")? {
        Some(number) => println!(rt; "  word {at:#x}: {number:#x}")?,
        None => println!(rt; "  word {at:#x}: none")?,
    }
    Ok(())
}

// Prints how many bytes the run at an address has, or how far it is a hole.
fn print_run<R: Print + Alloc<A = Global>, L: Ledger>(
    rt: &R,
    memory: &mut FileMemory,
    space: Space,
    at: u64,
    steps: &mut Steps<L>,
) -> Result<()> {
    let run = memory.run_at(space, at, &mut [0; 64], steps);
    match run.ok().context("the device failed")? {
        Run::Present { count } => println!(rt; "  run_at {at:#x}: count {count}")?,
        Run::Absent { last } => println!(rt; "  run_at {at:#x}: hole to {last:#x}")?,
    }
    Ok(())
}

// Prints the calls on a memory whose device gives so many bytes a call.
fn print_calls<R: Print + Alloc<A = Global>, L: Ledger>(
    rt: &R,
    cut: usize,
    blank: Blank,
) -> Result<()>
    requires name { blank.name ≡ L.name }
    requires parts { blank.parts ≡ L.parts }
    requires some { 0 < L.parts }
{
    let mut memory = memory(rt.alloc(), cut)?;
    let mut steps = Steps::<L>::new(blank);
    let space = Space::paged(0x1000, Levels::Four);
    println!(rt; "memory, cut {cut}")?;
    print_read(rt, &mut memory, space, 0x0ffe, &mut steps)?;
    print_read(rt, &mut memory, space, 0x1ffe, &mut steps)?;
    print_word(rt, &mut memory, space, 0x0ffc, &mut steps)?;
    print_word(rt, &mut memory, space, 0x1ffc, &mut steps)?;
    for at in [0x1ff0, 0x2001, 0x0000_8000_0000_0000] {
        print_run(rt, &mut memory, space, at, &mut steps)?;
    }
    Ok(())
}

fn print_cut<R: Print + Alloc<A = Global>>(rt: &R, cut: usize) -> Result<()> {
    print_calls::<R, Brand>(rt, cut, Blank::new(1))
}

/// Prints the calls in each cut.
pub(crate) fn print_memory<R: Print + Alloc<A = Global>>(rt: &R) -> Result<()> {
    for cut in [1, 3, 0x10000] {
        print_cut(rt, cut)?;
    }
    Ok(())
}
