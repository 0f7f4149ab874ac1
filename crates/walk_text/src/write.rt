//! Writing a text of lines that come one by one.
ghost use Rattle.std.specs.Prelude.{◌++◌, IfSome, IsErrOf};
ghost use Rattle.layer_base.specs.Counts.{HasCause};
ghost use Rattle.layer_base.specs.Known.{Writes};
ghost use Rattle.layer_base.specs.View.{physical};
ghost use Rattle.space_memory.specs.State.{IsSameMemory};
ghost use Rattle.space_memory.specs.Writer.{WritesOver};

use crate::lines::Lines;
use crate::turn::turn;
use kernel_records::PluginFault;
use layer_base::{Layer, Sink, Steps, write_whole};
use space_memory::Memory;
use std::alloc::Global;
use std::sync::ledger::Ledger;

// Writes a text and the lines that are still to come behind it.
fn write_rest<N: Lines, Y: Layer, O: Sink, L: Ledger>(
    lines: &mut N,
    text: &mut Vec<u8>,
    memory: &mut Memory<Y>,
    out: &mut O,
    steps: &mut Steps<L>,
) -> Result<(), PluginFault>
    ensures writes { IfSome memory.old.view (λ view.
        Writes (O.written out.old) (O.written out.new) result (text.old.items ++ N.rest lines.old (physical view))) }
    ensures memory { IsSameMemory memory.old memory.new }
    ensures image { HasCause memory.old.faults memory.new.faults (IsErrOf result PluginFault.Device) }
    ensures out { HasCause (O.faults out.old) (O.faults out.new) (IsErrOf result PluginFault.Out) }
{
    'lines: while turn(lines, text, memory, out, steps)? {}
    write_whole(out, text)?;
    Ok(())
}

/// Writes a head, the lines that are still to come and the line of their stop, in pieces of at least 65,536 bytes but for
/// the last. What was made is written before a failure of the image is answered.
pub fn write_lines<N: Lines, Y: Layer, O: Sink, L: Ledger>(
    alloc: Global,
    head: &[u8],
    lines: &mut N,
    memory: &mut Memory<Y>,
    out: &mut O,
    steps: &mut Steps<L>,
) -> Result<(), PluginFault>
    ensures writes { WritesOver O.written O.faults out.old out.new memory.old memory.new PluginFault.Device PluginFault.Out result
        (λ memory. head.now ++ N.rest lines.old memory) }
{
    let mut text = Vec::from_slice(alloc, head)?;
    write_rest(lines, &mut text, memory, out, steps)
}
