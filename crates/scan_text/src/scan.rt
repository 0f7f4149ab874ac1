//! The command `scan`.
ghost use Rattle.std.specs.Prelude.{◌≡◌, ◌+◌, ◌^◌, ◌≤◌, ◌∷◌, [], length, IfOk};
ghost use Rattle.layer_base.specs.AddressSpace.{AddressSpace};
ghost use Rattle.space_memory.specs.InSpace.{in_space};
ghost use Rattle.space_memory.specs.Writer.{WritesOver};
ghost use Rattle.chunk_scanner.specs.Hits.{hits};
ghost use Rattle.chunk_scanner.specs.State.{hits_left, KeepsTrue};
ghost use Rattle.scan_text.specs.Scan.{scan_text};

use crate::listing::Listing;
use crate::rows::write_hits;
use chunk_scanner::Scanner;
use kernel_records::PluginFault;
use layer_base::{Layer, Sink, Space, Steps};
use needle_search::Needles;
use space_memory::Memory;
use std::alloc::{AllocError, Global};
use std::sync::ledger::Ledger;

/// A scanner of one needle in the addresses of a space from a first to a last one. It reads `chunk` bytes at a time.
pub(crate) fn scanner_of(
    alloc: Global,
    space: Space,
    first: u64,
    last: u64,
    needle: &[u8],
    chunk: usize,
) -> Result<Scanner, AllocError>
    requires order { first ≤ last }
    requires some { 1 ≤ length needle.now }
    requires few { length needle.now ≤ 4096 }
    requires least_chunk { 4096 ≤ chunk }
    requires most_chunk { chunk ≤ 16777216 }
    ensures hits { IfOk result (λ scanner. (memory : AddressSpace) → hits_left memory scanner ≡ hits (in_space memory space) first last (needle.now ∷ [])) }
    ensures kept { IfOk result (λ scanner. (memory : AddressSpace) → KeepsTrue memory scanner) }
{
    let mut needles = Needles::new(alloc);
    needles.add(needle)?;
    Scanner::new(alloc, space, first, last, needles, chunk)
}

/// Writes the address of each hit of a needle among so many addresses of a space from a first one on, and how many hits
/// there are. The lines of the hits that were found are written before a failure of the image is answered. The text is the
/// same for every `chunk`, which says how many bytes are read before they are searched.
pub fn write_scan<Y: Layer, O: Sink, L: Ledger>(
    alloc: Global,
    memory: &mut Memory<Y>,
    space: Space,
    at: u64,
    len: u64,
    needle: &[u8],
    chunk: usize,
    out: &mut O,
    steps: &mut Steps<L>,
) -> Result<(), PluginFault>
    requires some { 1 ≤ len }
    requires range { at + len ≤ 2 ^ 64 }
    requires needle_some { 1 ≤ length needle.now }
    requires needle_few { length needle.now ≤ 4096 }
    requires least_chunk { 4096 ≤ chunk }
    requires most_chunk { chunk ≤ 16777216 }
    ensures writes { WritesOver O.written O.faults out.old out.new memory.old memory.new PluginFault.Device PluginFault.Out result
        (λ memory. scan_text (in_space memory space) at len needle.now) }
{
    let mut scanner = scanner_of(alloc, space, at, at + (len - 1), needle, chunk)?;
    let mut text = Vec::new(alloc);
    write_hits(
        memory,
        &mut scanner,
        Listing::Addresses,
        &mut text,
        out,
        steps,
    )
}
