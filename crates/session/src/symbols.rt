//! Taking the symbol file, and ending a run that refuses it.
ghost use Rattle.std.specs.Prelude.{◌≡◌, ◌≢◌, ◌<◌, ◌≤◌, ◌+◌, length, take, IsErrOf, IfOk, IfSome, OnOk};
ghost use Rattle.std.specs.Io.KnownBytes.{Consumes};
ghost use Rattle.layer_base.specs.Counts.{HasCause};
ghost use Rattle.layer_base.specs.Known.{Writes};
ghost use Rattle.isf_reader.specs.Table.{most_bytes};
ghost use Rattle.session.specs.Headline.{GaveAtMost, GavePrefix};
ghost use Rattle.session.specs.Ran.{IsTableEnd};
ghost use Rattle.symbol_texts.specs.Refusal.{symbols_refusal_text};
ghost use Rattle.session.specs.SymbolFile.{EndsRefused, TakesPiece, symbols_taken};
ghost use Rattle.session.specs.declared.symbols.SymbolsFault.TheVariants as faults;

use crate::Status;
use crate::status::status_after_line;
use isf_reader::IsfRefusal;
use layer_base::{Failed, Sink, SinkFault, Source, write_whole};
use std::alloc::{AllocError, Global};
use symbol_texts::symbols_refusal_text;

/// The most bytes of a symbol file that are taken: one more than it may have, so that a longer one shows.
const MOST_TAKEN: usize = 134_217_729;

/// How many bytes of room are made at once.
const PIECE: usize = 1 << 20;

/// Why a symbol file was not taken whole.
#[derive(Clone, Copy, Debug, PartialEq, Eq)]
pub(crate) enum SymbolsFault {
    Failed,
    Memory,
}

impl From<Failed> for SymbolsFault {
    ghost from_gives = { λ _ fault. fault ≡ faults.Failed };

    fn from(_: Failed) -> Self {
        SymbolsFault::Failed
    }
}

impl From<AllocError> for SymbolsFault {
    ghost from_gives = { λ _ fault. fault ≡ faults.Memory };

    fn from(_: AllocError) -> Self {
        SymbolsFault::Memory
    }
}

// Makes room for a piece behind the bytes that were taken, where none is left.
fn make_room(bytes: &mut Vec<u8>, taken: usize) -> Result<(), AllocError>
    requires within { taken ≤ length bytes.old.items }
    requires few { taken ≤ most_bytes }
    requires most { length bytes.old.items ≤ most_bytes + 1 }
    ensures kept { OnOk result (take taken bytes.new.items ≡ take taken bytes.old.items) }
    ensures room { OnOk result (taken < length bytes.new.items) }
    ensures most { OnOk result (length bytes.new.items ≤ most_bytes + 1) }
{
    if taken == bytes.len() {
        bytes.resize(taken + (MOST_TAKEN - taken).min(PIECE), 0)?;
    }
    Ok(())
}

// Takes bytes of the symbol file behind those that were taken before, and answers how many.
fn take_piece<J: Source>(
    symbols: &mut J,
    bytes: &mut Vec<u8>,
    taken: usize,
) -> Result<usize, SymbolsFault>
    requires { taken < length bytes.old.items }
    ensures taken { TakesPiece (J.left symbols.old) (J.left symbols.new) taken bytes.old.items bytes.new.items result }
    ensures cause { HasCause (J.faults symbols.old) (J.faults symbols.new) (IsErrOf result SymbolsFault.Failed) }
{
    Ok(symbols.read(&mut bytes[taken..])?)
}

/// Takes the symbol file to its end, but at most one byte more than it may have.
pub(crate) fn take_symbols<J: Source>(
    alloc: Global,
    symbols: &mut J,
) -> Result<Vec<u8>, SymbolsFault>
    ensures bytes { IfSome (J.left symbols.old) (λ held. IfOk result (λ bytes. bytes.items ≡ symbols_taken held)) }
    ensures taken { IfSome (J.left symbols.old) (λ held. OnOk result (Consumes (J.left symbols.old) (J.left symbols.new) (symbols_taken held))) }
    ensures front { IfSome (J.left symbols.old) (λ held. GavePrefix (J.left symbols.old) (J.left symbols.new) (symbols_taken held)) }
    ensures most { GaveAtMost (most_bytes + 1) (J.left symbols.old) (J.left symbols.new) }
    ensures cause { HasCause (J.faults symbols.old) (J.faults symbols.new) (IsErrOf result SymbolsFault.Failed) }
{
    let mut bytes = Vec::new(alloc);
    let mut taken = 0;
    while taken < MOST_TAKEN {
        make_room(&mut bytes, taken)?;
        let count = take_piece(symbols, &mut bytes, taken)?;
        if count == 0 {
            bytes.truncate(taken);
            return Ok(bytes);
        }
        taken += count;
    }
    bytes.truncate(taken);
    Ok(bytes)
}

// Writes the line that says the refusal.
fn write_refusal<O: Sink>(alloc: Global, refusal: &IsfRefusal, out: &mut O) -> Result<(), SinkFault>
    ensures text { Writes (O.written out.old) (O.written out.new) result (symbols_refusal_text refusal.now) }
    ensures cause { HasCause (O.faults out.old) (O.faults out.new) (IsErrOf result SinkFault.Failed) }
{
    match symbols_refusal_text(alloc, refusal) {
        Ok(line) => write_whole(out, &line),
        Err(_) => Err(SinkFault::Memory),
    }
}

/// Ends a run whose symbol file is refused, or for which memory ran out.
pub(crate) fn refuse_symbols<O: Sink>(alloc: Global, refusal: IsfRefusal, out: &mut O) -> Status
    ensures refused { EndsRefused refusal (O.written out.old) (O.written out.new) result }
    ensures end { IsTableEnd result }
    ensures image { result ≢ Status.ImageFault }
    ensures script { result ≢ Status.ScriptFault }
    ensures dump { result ≢ Status.DumpFault }
    ensures out { HasCause (O.faults out.old) (O.faults out.new) (result ≡ Status.OutFault) }
{
    if matches!(refusal, IsfRefusal::Memory) {
        return Status::Memory;
    }
    status_after_line(Status::SymbolsRefused, write_refusal(alloc, &refusal, out))
}
