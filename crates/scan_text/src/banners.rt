//! The command `banners`.
ghost use Rattle.std.specs.Prelude.{◌≤◌};
ghost use Rattle.layer_base.specs.declared.space.Space.TheVariants.{Phys};
ghost use Rattle.space_memory.specs.InSpace.{in_space};
ghost use Rattle.space_memory.specs.Writer.{WritesOver};
ghost use Rattle.scan_text.specs.Banners.{banners_text};

use crate::listing::Listing;
use crate::rows::write_hits;
use crate::scan::scanner_of;
use kernel_records::PluginFault;
use layer_base::{Layer, Sink, Space, Steps};
use space_memory::Memory;
use std::alloc::Global;
use std::sync::ledger::Ledger;

/// Writes the address and the text of each banner of a Linux kernel in physical memory, below a line of the columns'
/// names. The lines of the banners that were found are written before a failure of the image is answered. The text is the
/// same for every `chunk`, which says how many bytes are read before they are searched.
pub fn write_banners<Y: Layer, O: Sink, L: Ledger>(
    alloc: Global,
    memory: &mut Memory<Y>,
    chunk: usize,
    out: &mut O,
    steps: &mut Steps<L>,
) -> Result<(), PluginFault>
    requires least_chunk { 4096 ≤ chunk }
    requires most_chunk { chunk ≤ 16777216 }
    ensures writes { WritesOver O.written O.faults out.old out.new memory.old memory.new PluginFault.Device PluginFault.Out result
        (λ memory. banners_text (in_space memory Phys)) }
{
    let mut scanner = scanner_of(alloc, Space::Phys, 0, u64::MAX, b"Linux version ", chunk)?;
    let mut text = Vec::from_slice(alloc, b"OFFSET\tBANNER\n")?;
    write_hits(
        memory,
        &mut scanner,
        Listing::Banners,
        &mut text,
        out,
        steps,
    )
}
