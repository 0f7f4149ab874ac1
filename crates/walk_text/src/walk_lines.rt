//! The rows of the objects of a walk.
ghost use Rattle.std.specs.Prelude.{◌++◌};
ghost use Rattle.space_memory.specs.InSpace.{in_space};
ghost use Rattle.space_memory.specs.Writer.{WritesOver};
ghost use Rattle.walk_text.specs.WalkText.{walk_text};

use crate::lines::Lines;
use crate::object_row::ObjectRow;
use crate::write::write_lines;
use kernel_records::{PluginFault, Stop, WalkFault};
use layer_base::{Layer, Sink, Steps};
use list_walk::{Turn, Walk};
use space_memory::Memory;
use std::alloc::Global;
use std::sync::ledger::Ledger;

// The lines of a walk: a row for each object that it still gives.
#[derive(Drop)]
struct WalkLines<'r, R: ObjectRow> {
    walk: Walk,
    row: &'r R,
}

impl<R: ObjectRow> Lines for WalkLines<'_, R> {
    ghost use Rattle.space_memory.specs.InSpace.{in_space};
    ghost use Rattle.list_walk.specs.Objects.{links_left};
    ghost use Rattle.walk_text.specs.WalkText.{walk_text};

    ghost rest = { λ lines memory. walk_text (R.row_text lines.row.now memory) (in_space memory lines.walk.space) lines.walk };

    ghost left = { λ lines. links_left lines.walk };

    fn append_line<Y: Layer, L: Ledger>(
        &mut self,
        text: &mut Vec<u8>,
        memory: &mut Memory<Y>,
        steps: &mut Steps<L>,
    ) -> Result<Option<Stop>, WalkFault> {
        match self.walk.advance(memory, steps)? {
            Turn::Object { at } => {
                self.row.append_row(text, at, memory, steps)?;
                Ok(None)
            },
            Turn::Stopped(stop) => Ok(Some(stop)),
        }
    }
}

/// Writes a head, a row for each object that a walk still gives, and the line of its stop, in pieces of at least 65,536
/// bytes but for the last. What was made is written before a failure of the image is answered.
pub fn write_walk<R: ObjectRow, Y: Layer, O: Sink, L: Ledger>(
    alloc: Global,
    head: &[u8],
    walk: Walk,
    row: &R,
    memory: &mut Memory<Y>,
    out: &mut O,
    steps: &mut Steps<L>,
) -> Result<(), PluginFault>
    ensures writes { WritesOver O.written O.faults out.old out.new memory.old memory.new PluginFault.Device PluginFault.Out result
        (λ memory. head.now ++ walk_text (R.row_text row.now memory) (in_space memory walk.space) walk) }
{
    let mut lines = WalkLines { walk, row };
    write_lines(alloc, head, &mut lines, memory, out, steps)
}
