//! The lines of all hits, made in one buffer and written in large pieces.
ghost use Rattle.std.specs.Prelude.{◌≡◌, ◌<◌, true, IfOk, IfSome, IsErrOf, OnErr};
ghost use Rattle.layer_base.specs.Counts.{HasCause};
ghost use Rattle.layer_base.specs.Known.{Writes};
ghost use Rattle.layer_base.specs.View.{physical};
ghost use Rattle.space_memory.specs.State.{IsSameMemory};
ghost use Rattle.chunk_scanner.specs.State.{hits_left, pairs_left, KeepsTrue};
ghost use Rattle.scan_text.specs.Rows.{listing_text};
ghost use Rattle.scan_text.specs.Written.{AddsRow, Turns, WritesRows};

use crate::listing::{Listing, append_end, append_row};
use chunk_scanner::Scanner;
use kernel_records::{PluginFault, WalkFault};
use layer_base::{Layer, Sink, Steps, write_whole};
use space_memory::Memory;
use std::sync::ledger::Ledger;
use walk_text::write_piece;

// Finds the next hit and appends its line; answers whether there was one. After a failure the text is as before.
fn append_next<Y: Layer, L: Ledger>(
    memory: &mut Memory<Y>,
    scanner: &mut Scanner,
    listing: Listing,
    text: &mut Vec<u8>,
    steps: &mut Steps<L>,
) -> Result<bool, WalkFault>
    requires { IfSome memory.old.view (λ view. KeepsTrue (physical view) scanner.old) }
    ensures rows { IfSome memory.old.view (λ view.
        AddsRow listing (physical view) (hits_left (physical view) scanner.old) (hits_left (physical view) scanner.new) text.old.items text.new.items result) }
    ensures same { OnErr result (text.new.items ≡ text.old.items) }
    ensures kept { IfSome memory.old.view (λ view. KeepsTrue (physical view) scanner.new) }
    ensures fewer { IfOk result (λ found. found ≡ true → pairs_left scanner.new < pairs_left scanner.old) }
    ensures memory { IsSameMemory memory.old memory.new }
    ensures cause { HasCause memory.old.faults memory.new.faults (IsErrOf result WalkFault.Device) }
{
    let Some(hit) = scanner.next_hit(memory, steps)? else {
        return Ok(false);
    };
    let before = text.len();
    match append_row(text, listing, memory, hit.at, steps) {
        Ok(()) => Ok(true),
        Err(fault) => {
            text.truncate(before);
            Err(fault)
        }
    }
}

// Passes the next hit; answers whether there was one. Before a failure to find or to read it is answered, the lines of
// the hits before it are written. Where that fails too, its fault is the answer, since its count rose as well.
fn turn<Y: Layer, O: Sink, L: Ledger>(
    memory: &mut Memory<Y>,
    scanner: &mut Scanner,
    listing: Listing,
    text: &mut Vec<u8>,
    out: &mut O,
    steps: &mut Steps<L>,
) -> Result<bool, PluginFault>
    requires { IfSome memory.old.view (λ view. KeepsTrue (physical view) scanner.old) }
    ensures rows { IfSome memory.old.view (λ view.
        Turns listing (physical view) (O.written out.old) (O.written out.new) (hits_left (physical view) scanner.old) (hits_left (physical view) scanner.new) text.old.items text.new.items result) }
    ensures kept { IfSome memory.old.view (λ view. KeepsTrue (physical view) scanner.new) }
    ensures fewer { IfOk result (λ found. found ≡ true → pairs_left scanner.new < pairs_left scanner.old) }
    ensures memory { IsSameMemory memory.old memory.new }
    ensures image { HasCause memory.old.faults memory.new.faults (IsErrOf result PluginFault.Device) }
    ensures out { HasCause (O.faults out.old) (O.faults out.new) (IsErrOf result PluginFault.Out) }
{
    match append_next(memory, scanner, listing, text, steps) {
        Ok(found) => {
            write_piece(text, out)?;
            Ok(found)
        }
        Err(fault) => {
            write_whole(out, text)?;
            Err(PluginFault::from(fault))
        }
    }
}

// Writes a text and the lines of all hits behind it, and answers how many there are, as far as a u64 counts. The last
// lines are kept in the text, to be written with what follows them.
fn write_rows<Y: Layer, O: Sink, L: Ledger>(
    memory: &mut Memory<Y>,
    scanner: &mut Scanner,
    listing: Listing,
    text: &mut Vec<u8>,
    out: &mut O,
    steps: &mut Steps<L>,
) -> Result<u64, PluginFault>
    requires { IfSome memory.old.view (λ view. KeepsTrue (physical view) scanner.old) }
    ensures rows { IfSome memory.old.view (λ view.
        WritesRows listing (physical view) (O.written out.old) (O.written out.new) (hits_left (physical view) scanner.old) (hits_left (physical view) scanner.new) text.old.items text.new.items result) }
    ensures memory { IsSameMemory memory.old memory.new }
    ensures image { HasCause memory.old.faults memory.new.faults (IsErrOf result PluginFault.Device) }
    ensures out { HasCause (O.faults out.old) (O.faults out.new) (IsErrOf result PluginFault.Out) }
{
    let mut count: u64 = 0;
    while turn(memory, scanner, listing, text, out, steps)? {
        count = count.saturating_add(1);
    }
    Ok(count)
}

/// Writes a text, and behind it the lines of all hits that a scanner has left and what follows them.
pub(crate) fn write_hits<Y: Layer, O: Sink, L: Ledger>(
    memory: &mut Memory<Y>,
    scanner: &mut Scanner,
    listing: Listing,
    text: &mut Vec<u8>,
    out: &mut O,
    steps: &mut Steps<L>,
) -> Result<(), PluginFault>
    requires { IfSome memory.old.view (λ view. KeepsTrue (physical view) scanner.old) }
    ensures writes { IfSome memory.old.view (λ view.
        Writes (O.written out.old) (O.written out.new) result (listing_text listing (physical view) text.old.items (hits_left (physical view) scanner.old))) }
    ensures memory { IsSameMemory memory.old memory.new }
    ensures image { HasCause memory.old.faults memory.new.faults (IsErrOf result PluginFault.Device) }
    ensures out { HasCause (O.faults out.old) (O.faults out.new) (IsErrOf result PluginFault.Out) }
{
    let count = write_rows(memory, scanner, listing, text, out, steps)?;
    append_end(text, listing, count)?;
    write_whole(out, text)?;
    Ok(())
}
