//! One line of a text.
ghost use Rattle.std.specs.Prelude.{◌≡◌, ◌++◌, ◌<◌, true, IfOk, IfSome, IsErrOf, OnOk, OnErr};
ghost use Rattle.std.specs.Io.{StartsWith};
ghost use Rattle.layer_base.specs.Counts.{HasCause};
ghost use Rattle.layer_base.specs.View.{physical};
ghost use Rattle.space_memory.specs.State.{IsSameMemory};
ghost use Rattle.walk_text.specs.Added.{AddsNext, end_line};
ghost use Rattle.walk_text.specs.Passed.{Passes};

use crate::lines::Lines;
use crate::piece::write_piece;
use cell_text::append_stop_line;
use kernel_records::{PluginFault, Stop, WalkFault};
use layer_base::{Layer, Sink, Steps, write_whole};
use space_memory::Memory;
use std::alloc::AllocError;
use std::sync::ledger::Ledger;

fn append_end(text: &mut Vec<u8>, stop: Stop) -> Result<(), AllocError>
    ensures ok { OnOk result (text.new.items ≡ text.old.items ++ end_line stop) }
    ensures err { OnErr result (StartsWith text.new.items text.old.items) }
{
    append_stop_line(text, stop)?;
    text.push(b'\n')?;
    Ok(())
}

// Appends the next line, or the line of the stop where none is left; answers whether more may come.
fn append_next<N: Lines, Y: Layer, L: Ledger>(
    lines: &mut N,
    text: &mut Vec<u8>,
    memory: &mut Memory<Y>,
    steps: &mut Steps<L>,
) -> Result<bool, WalkFault>
    ensures next { IfSome memory.old.view (λ view.
        AddsNext (N.rest lines.old (physical view)) (N.rest lines.new (physical view)) text.old.items text.new.items result) }
    ensures err { OnErr result (StartsWith text.new.items text.old.items) }
    ensures fewer { IfOk result (λ more. more ≡ true → N.left lines.new < N.left lines.old) }
    ensures memory { IsSameMemory memory.old memory.new }
    ensures cause { HasCause memory.old.faults memory.new.faults (IsErrOf result WalkFault.Device) }
{
    match lines.append_line(text, memory, steps)? {
        None => Ok(true),
        Some(stop) => {
            append_end(text, stop)?;
            Ok(false)
        },
    }
}

/// Passes one line; answers whether more may come. Before a failure to make it is answered, the text before it is written.
/// Where that fails too, its fault is the answer, since its count rose as well.
pub(crate) fn turn<N: Lines, Y: Layer, O: Sink, L: Ledger>(
    lines: &mut N,
    text: &mut Vec<u8>,
    memory: &mut Memory<Y>,
    out: &mut O,
    steps: &mut Steps<L>,
) -> Result<bool, PluginFault>
    ensures passes { IfSome memory.old.view (λ view.
        Passes (O.written out.old) (O.written out.new) (N.rest lines.old (physical view)) (N.rest lines.new (physical view)) text.old.items text.new.items result) }
    ensures fewer { IfOk result (λ more. more ≡ true → N.left lines.new < N.left lines.old) }
    ensures memory { IsSameMemory memory.old memory.new }
    ensures image { HasCause memory.old.faults memory.new.faults (IsErrOf result PluginFault.Device) }
    ensures out { HasCause (O.faults out.old) (O.faults out.new) (IsErrOf result PluginFault.Out) }
{
    let made = text.len();
    match append_next(lines, text, memory, steps) {
        Ok(more) => {
            write_piece(text, out)?;
            Ok(more)
        },
        Err(fault) => {
            text.truncate(made);
            write_whole(out, text)?;
            Err(PluginFault::from(fault))
        },
    }
}
