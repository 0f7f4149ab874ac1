//! The top call: a run of a script over an image and a symbol file.
ghost use Rattle.std.specs.Prelude.{◌≡◌, ◌+◌, ◌≤◌, ◌⊎◌, map, string_bytes, IfSome};
ghost use Rattle.std.specs.Io.KnownBytes.{Appends, Consumes};
ghost use Rattle.layer_base.specs.Counts.{HasCause};
ghost use Rattle.layer_base.specs.Known.{AppendsPrefix};
ghost use Rattle.layer_base.specs.SameLayer.{IsSameLayer};
ghost use Rattle.layer_base.specs.View.{physical};
ghost use Rattle.isf_reader.specs.Table.{most_bytes, table_of};
ghost use Rattle.session.specs.Causes.{FaultsHaveCause, NothingFailed};
ghost use Rattle.session.specs.Evidence.{table_in, evidence_in, evidence_over};
ghost use Rattle.session.specs.Headline.{WhereTold, GaveAtMost, GavePrefix, HasWholeLines};
ghost use Rattle.session.specs.Limits.{most_script};
ghost use Rattle.session.specs.Line.{line_said, is_quit};
ghost use Rattle.session.specs.Ran.{IsScriptEnd, IsTableEnd, RanOver, Took};
ghost use Rattle.session.specs.Run.{run_of, table_run, memory_run, stack_run, shown_of, evidence_of};
ghost use Rattle.session.specs.Said.{text_part, dump_part};
ghost use Rattle.session.specs.Script.{script_run};
ghost use Rattle.session.specs.Stack.{stack_of, attached, KeepsOrAttaches, LeavesLayer, Shows};
ghost use Rattle.session.specs.Status.{IsAnswer};
ghost use Rattle.session.specs.SymbolFile.{symbols_taken};
ghost use Rattle.session.specs.Words.{name_dump};

use crate::Status;
use crate::desk::Desk;
use crate::read::Page;
use crate::script::run_script;
use crate::setup::Setup;
use crate::stack::{StackFault, attach_formats, write_refusal};
use crate::status::status_after_line;
use crate::symbol_file::SymbolFile;
use crate::symbols::{SymbolsFault, refuse_symbols, take_symbols};
use isf_reader::Table;
use layer_base::{Kind, Layer, Sink, Source, Steps, write_whole};
use program_words::{WordsFault, settings_of};
use space_memory::Memory;
use std::alloc::Global;
use std::sync::ledger::Ledger;
use symbol_index::Symbols;

/// How a run ended, and the layer that it was given.
#[derive(Drop)]
pub struct Ended {
    pub status: Status,
    pub layer: Box<dyn Layer>,
}

const USAGE: &[u8] = b"usage: memlens IMAGE SYMBOLS [DUMP] [--cache N] [--chunk N]\n";

// Runs the script over what the image shows and the symbol file.
#[tactic(auto, using(crate::proofs::AtMost::gave_none))]
fn run_file<Y: Layer, S: Source, O: Sink, D: Sink, L: Ledger>(
    alloc: Global,
    image: Y,
    file: SymbolFile<'_, '_>,
    setup: Setup,
    script: &mut S,
    out: &mut O,
    dump: &mut D,
    steps: &mut Steps<L>,
) -> (Status, Y)
    ensures ran { IfSome (Y.view image) (λ view. IfSome (S.left script.old) (λ bytes.
        RanOver (line_said setup.has_dump (evidence_in view file.entry.table.now)) (script_run (line_said setup.has_dump (evidence_in view file.entry.table.now)) is_quit bytes) bytes (S.left script.new)
        (O.written out.old) (O.written out.new) (D.written dump.old) (D.written dump.new) result.0)) }
    ensures most_script { GaveAtMost (most_script + 1) (S.left script.old) (S.left script.new) }
    ensures end { IsScriptEnd result.0 }
    ensures layer { IsSameLayer Y.view Y.kind Y.faults Y.calls image result.1 }
    ensures causes { FaultsHaveCause (Y.faults image) (Y.faults result.1) (S.faults script.old) (S.faults script.new) (O.faults out.old) (O.faults out.new) (D.faults dump.old) (D.faults dump.new) result.0 }
{
    match Memory::new(alloc, image, setup.cache) {
        Ok(memory) => {
            let mut desk = Desk {
                alloc,
                memory,
                file,
                chunk: setup.chunk,
                page: Page::new(alloc),
                found: None,
            };
            let status = run_script(&mut desk, script, setup.has_dump, out, dump, steps);
            (status, desk.memory.into_layer())
        }
        Err(refused) => (Status::Memory, refused.phys),
    }
}

// Makes the index of a table, and runs the script over what the image shows and both.
#[tactic(auto, using(crate::proofs::AtMost::gave_none))]
fn run_table<Y: Layer, S: Source, O: Sink, D: Sink, L: Ledger>(
    alloc: Global,
    image: Y,
    table: &Table,
    setup: Setup,
    script: &mut S,
    out: &mut O,
    dump: &mut D,
    steps: &mut Steps<L>,
) -> (Status, Y)
    ensures ran { IfSome (Y.view image) (λ view. IfSome (S.left script.old) (λ bytes.
        RanOver (line_said setup.has_dump (evidence_in view table.now)) (script_run (line_said setup.has_dump (evidence_in view table.now)) is_quit bytes) bytes (S.left script.new)
        (O.written out.old) (O.written out.new) (D.written dump.old) (D.written dump.new) result.0)) }
    ensures most_script { GaveAtMost (most_script + 1) (S.left script.old) (S.left script.new) }
    ensures end { IsScriptEnd result.0 }
    ensures layer { IsSameLayer Y.view Y.kind Y.faults Y.calls image result.1 }
    ensures causes { FaultsHaveCause (Y.faults image) (Y.faults result.1) (S.faults script.old) (S.faults script.new) (O.faults out.old) (O.faults out.new) (D.faults dump.old) (D.faults dump.new) result.0 }
{
    match Symbols::of(alloc, table) {
        Ok(symbols) => run_file(
            alloc,
            image,
            SymbolFile::of(table, &symbols),
            setup,
            script,
            out,
            dump,
            steps,
        ),
        Err(_) => (Status::Memory, image),
    }
}

// Runs the script over what the image shows and the bytes of the symbol file, or refuses these.
#[tactic(auto, using(crate::proofs::AtMost::gave_none))]
fn run_bytes<Y: Layer, S: Source, O: Sink, D: Sink, L: Ledger>(
    alloc: Global,
    image: Y,
    symbols: Vec<u8>,
    setup: Setup,
    script: &mut S,
    out: &mut O,
    dump: &mut D,
    steps: &mut Steps<L>,
) -> (Status, Y)
    ensures ran { IfSome (Y.view image) (λ view. IfSome (S.left script.old) (λ bytes.
        RanOver (line_said setup.has_dump (evidence_in view (table_in (table_of symbols.items)))) (table_run setup.has_dump (physical view) (table_of symbols.items) bytes) bytes (S.left script.new)
        (O.written out.old) (O.written out.new) (D.written dump.old) (D.written dump.new) result.0)) }
    ensures most_script { GaveAtMost (most_script + 1) (S.left script.old) (S.left script.new) }
    ensures end { IsTableEnd result.0 }
    ensures layer { IsSameLayer Y.view Y.kind Y.faults Y.calls image result.1 }
    ensures causes { FaultsHaveCause (Y.faults image) (Y.faults result.1) (S.faults script.old) (S.faults script.new) (O.faults out.old) (O.faults out.new) (D.faults dump.old) (D.faults dump.new) result.0 }
{
    let read = Table::read(alloc, &symbols);
    drop(symbols);
    match read {
        Ok(table) => run_table(alloc, image, &table, setup, script, out, dump, steps),
        Err(refusal) => (refuse_symbols(alloc, refusal, out), image),
    }
}

// Takes the symbol file, and runs the script over what it and the image show.
#[tactic(auto, using(crate::proofs::AtMost::gave_none))]
fn run_memory<Y: Layer, J: Source, S: Source, O: Sink, D: Sink, L: Ledger>(
    alloc: Global,
    image: Y,
    setup: Setup,
    symbols: &mut J,
    script: &mut S,
    out: &mut O,
    dump: &mut D,
    steps: &mut Steps<L>,
) -> (Status, Y)
    ensures ran { WhereTold (Y.view image) (J.left symbols.old) (S.left script.old) (λ view j s.
        RanOver (line_said setup.has_dump (evidence_over (physical view) j)) (memory_run setup.has_dump (physical view) j s) s (S.left script.new)
        (O.written out.old) (O.written out.new) (D.written dump.old) (D.written dump.new) result.0) }
    ensures took { IfSome (J.left symbols.old) (λ j. Took (symbols_taken j) (J.left symbols.old) (J.left symbols.new) result.0) }
    ensures most_symbols { GaveAtMost (most_bytes + 1) (J.left symbols.old) (J.left symbols.new) }
    ensures most_script { GaveAtMost (most_script + 1) (S.left script.old) (S.left script.new) }
    ensures layer { IsSameLayer Y.view Y.kind Y.faults Y.calls image result.1 }
    ensures symbols { HasCause (J.faults symbols.old) (J.faults symbols.new) (result.0 ≡ Status.SymbolsFault) }
    ensures causes { FaultsHaveCause (Y.faults image) (Y.faults result.1) (S.faults script.old) (S.faults script.new) (O.faults out.old) (O.faults out.new) (D.faults dump.old) (D.faults dump.new) result.0 }
{
    match take_symbols(alloc, symbols) {
        Ok(bytes) => run_bytes(alloc, image, bytes, setup, script, out, dump, steps),
        Err(SymbolsFault::Failed) => (Status::SymbolsFault, image),
        Err(SymbolsFault::Memory) => (Status::Memory, image),
    }
}

// Tries the formats on the image, and runs the script over what it shows then.
#[tactic(auto, using(crate::proofs::AtMost::gave_none))]
fn run_image<Y: Layer, J: Source, S: Source, O: Sink, D: Sink, L: Ledger>(
    alloc: Global,
    image: Y,
    formats: &[Kind],
    setup: Setup,
    symbols: &mut J,
    script: &mut S,
    out: &mut O,
    dump: &mut D,
    steps: &mut Steps<L>,
) -> (Status, Y)
    requires file { Y.kind image ≡ Kind.File }
    ensures ran { WhereTold (Y.view image) (J.left symbols.old) (S.left script.old) (λ before j s.
        RanOver (line_said setup.has_dump (evidence_of formats.now before j)) (stack_run setup.has_dump (stack_of formats.now before) j s) s (S.left script.new)
        (O.written out.old) (O.written out.new) (D.written dump.old) (D.written dump.new) result.0) }
    ensures took { WhereTold (Y.view image) (J.left symbols.old) (S.left script.old) (λ before j s.
        Took (stack_run setup.has_dump (stack_of formats.now before) j s).symbols_taken (J.left symbols.old) (J.left symbols.new) result.0) }
    ensures most_symbols { GaveAtMost (most_bytes + 1) (J.left symbols.old) (J.left symbols.new) }
    ensures most_script { GaveAtMost (most_script + 1) (S.left script.old) (S.left script.new) }
    ensures layer { LeavesLayer Y.view Y.kind Y.calls formats.now (attached formats.now) image result.1 result.0 }
    ensures symbols { HasCause (J.faults symbols.old) (J.faults symbols.new) (result.0 ≡ Status.SymbolsFault) }
    ensures causes { FaultsHaveCause (Y.faults image) (Y.faults result.1) (S.faults script.old) (S.faults script.new) (O.faults out.old) (O.faults out.new) (D.faults dump.old) (D.faults dump.new) result.0 }
{
    let mut image = image;
    match attach_formats(&mut image, formats) {
        Ok(()) => run_memory(alloc, image, setup, symbols, script, out, dump, steps),
        Err(StackFault::Refused(refusal)) => {
            let refused = write_refusal(alloc, refusal, out);
            (status_after_line(Status::ImageRefused, refused), image)
        }
        Err(StackFault::Device) => (Status::ImageFault, image),
        Err(StackFault::Memory) => (Status::Memory, image),
    }
}

// A run over a layer that may be unboxed.
#[tactic(auto, using(crate::proofs::AtMost::gave_none))]
pub(crate) fn run_over<Y: Layer, J: Source, S: Source, O: Sink, D: Sink, L: Ledger>(
    alloc: Global,
    words: &[String],
    image: Y,
    formats: &[Kind],
    symbols: &mut J,
    script: &mut S,
    out: &mut O,
    dump: &mut D,
    steps: &mut Steps<L>,
) -> (Status, Y)
    requires file { Y.kind image ≡ Kind.File }
    ensures ran { WhereTold (Y.view image) (J.left symbols.old) (S.left script.old) (λ before j s.
        RanOver (line_said (name_dump (map string_bytes words.now)) (evidence_of formats.now before j)) (run_of (map string_bytes words.now) formats.now before j s) s (S.left script.new)
        (O.written out.old) (O.written out.new) (D.written dump.old) (D.written dump.new) result.0) }
    ensures took { WhereTold (Y.view image) (J.left symbols.old) (S.left script.old) (λ before j s.
        Took (run_of (map string_bytes words.now) formats.now before j s).symbols_taken (J.left symbols.old) (J.left symbols.new) result.0) }
    ensures most_symbols { GaveAtMost (most_bytes + 1) (J.left symbols.old) (J.left symbols.new) }
    ensures most_script { GaveAtMost (most_script + 1) (S.left script.old) (S.left script.new) }
    ensures layer { LeavesLayer Y.view Y.kind Y.calls formats.now (shown_of (map string_bytes words.now) formats.now) image result.1 result.0 }
    ensures symbols { HasCause (J.faults symbols.old) (J.faults symbols.new) (result.0 ≡ Status.SymbolsFault) }
    ensures causes { FaultsHaveCause (Y.faults image) (Y.faults result.1) (S.faults script.old) (S.faults script.new) (O.faults out.old) (O.faults out.new) (D.faults dump.old) (D.faults dump.new) result.0 }
{
    match settings_of(alloc, words) {
        Ok(settings) => {
            let setup = Setup::of(&settings);
            run_image(
                alloc, image, formats, setup, symbols, script, out, dump, steps,
            )
        }
        Err(WordsFault::Usage) => {
            let written = write_whole(out, USAGE);
            (status_after_line(Status::Usage, written), image)
        }
        Err(WordsFault::Memory) => (Status::Memory, image),
    }
}

/// Runs a script over an image and a symbol file, and writes what its lines print and dump.
///
/// The words are those of the command line. Where they are accepted, the formats are tried on the image in their
/// order, and the first that it is of is attached; an image of none of them is read as it is. The symbol file is taken
/// to its end, or until one byte more was taken than it may have, and read as a table. The script is taken one byte at a
/// time, and a line is run before the next is read; the bytes behind the newline of a `quit` are left to the caller. The
/// kernel is searched for the first line that needs it, and what that came to is kept for the others. What the lines dump
/// goes to `dump` where the words name a file for dumps; where they name none, nothing is dumped. What is written and
/// dumped is the same for every size of the cache and of the chunks that the words name. A refusal of the words, of the
/// image, of the symbol file, or of a script that is too long, is a line of the text.
///
/// The clauses on content hold where the image, the symbol file and the script tell what they hold, and those on a
/// sink where it tells what was written. When `Memory` comes is left open.
pub fn run<J: Source, S: Source, O: Sink, D: Sink, L: Ledger>(
    alloc: Global,
    words: &[String],
    image: Box<dyn Layer>,
    formats: &[Kind],
    symbols: &mut J,
    script: &mut S,
    out: &mut O,
    dump: &mut D,
    steps: &mut Steps<L>,
) -> Ended
    requires file { kind image ≡ Kind.File }

    // However it ends, what was written, dumped and taken is a front of what the run comes to.
    ensures text { WhereTold (view image) (J.left symbols.old) (S.left script.old) (λ before j s.
        AppendsPrefix (O.written out.old) (O.written out.new) (run_of (map string_bytes words.now) formats.now before j s).text) }
    ensures dumped { WhereTold (view image) (J.left symbols.old) (S.left script.old) (λ before j s.
        AppendsPrefix (D.written dump.old) (D.written dump.new) (run_of (map string_bytes words.now) formats.now before j s).dumped) }
    ensures symbols_given { WhereTold (view image) (J.left symbols.old) (S.left script.old) (λ before j s.
        GavePrefix (J.left symbols.old) (J.left symbols.new) (run_of (map string_bytes words.now) formats.now before j s).symbols_taken) }
    ensures script_given { WhereTold (view image) (J.left symbols.old) (S.left script.old) (λ before j s.
        GavePrefix (S.left script.old) (S.left script.new) (run_of (map string_bytes words.now) formats.now before j s).script_taken) }

    // Of a source that tells what it gives no more than that is taken, whatever the other objects do.
    ensures most_symbols { GaveAtMost (most_bytes + 1) (J.left symbols.old) (J.left symbols.new) }
    ensures most_script { GaveAtMost (most_script + 1) (S.left script.old) (S.left script.new) }

    // Every line that was read, but for the last, has its whole text in what was written, and all that it dumps in what
    // was dumped.
    ensures whole_lines { WhereTold (view image) (J.left symbols.old) (S.left script.old) (λ before j s.
        HasWholeLines (text_part (line_said (name_dump (map string_bytes words.now)) (evidence_of formats.now before j))) (S.left script.old) (S.left script.new) (O.written out.old) (O.written out.new) result.status) }
    ensures whole_dumps { WhereTold (view image) (J.left symbols.old) (S.left script.old) (λ before j s.
        HasWholeLines (dump_part (line_said (name_dump (map string_bytes words.now)) (evidence_of formats.now before j))) (S.left script.old) (S.left script.new) (D.written dump.old) (D.written dump.new) result.status) }

    // A status other than a fault or out of memory is the one that the run comes to, and all was written and taken.
    ensures exact_status { WhereTold (view image) (J.left symbols.old) (S.left script.old) (λ before j s.
        IsAnswer result.status → result.status ≡ (run_of (map string_bytes words.now) formats.now before j s).status) }
    ensures exact_text { WhereTold (view image) (J.left symbols.old) (S.left script.old) (λ before j s.
        IsAnswer result.status → Appends (O.written out.old) (O.written out.new) (run_of (map string_bytes words.now) formats.now before j s).text) }
    ensures exact_dumped { WhereTold (view image) (J.left symbols.old) (S.left script.old) (λ before j s.
        IsAnswer result.status → Appends (D.written dump.old) (D.written dump.new) (run_of (map string_bytes words.now) formats.now before j s).dumped) }
    ensures exact_symbols { WhereTold (view image) (J.left symbols.old) (S.left script.old) (λ before j s.
        IsAnswer result.status → Consumes (J.left symbols.old) (J.left symbols.new) (run_of (map string_bytes words.now) formats.now before j s).symbols_taken) }
    ensures exact_script { WhereTold (view image) (J.left symbols.old) (S.left script.old) (λ before j s.
        IsAnswer result.status → Consumes (S.left script.old) (S.left script.new) (run_of (map string_bytes words.now) formats.now before j s).script_taken) }

    // A fault is answered only where a call on that object failed.
    ensures image_fault { HasCause (⟦<Box<dyn Layer> as Layer>⟧.faults image) (⟦<Box<dyn Layer> as Layer>⟧.faults result.layer) (result.status ≡ Status.ImageFault) }
    ensures symbols_fault { HasCause (J.faults symbols.old) (J.faults symbols.new) (result.status ≡ Status.SymbolsFault) }
    ensures script_fault { HasCause (S.faults script.old) (S.faults script.new) (result.status ≡ Status.ScriptFault) }
    ensures out_fault { HasCause (O.faults out.old) (O.faults out.new) (result.status ≡ Status.OutFault) }
    ensures dump_fault { HasCause (D.faults dump.old) (D.faults dump.new) (result.status ≡ Status.DumpFault) }

    // The layer is the image, and shows what it showed, or what the formats give where one of them was attached.
    // Under an answer it shows just what the run comes to.
    ensures layer_view { KeepsOrAttaches formats.now (view image) (kind image) (view result.layer) (kind result.layer) }
    ensures exact_layer { IfSome (view image) (λ before.
        IsAnswer result.status → Shows (shown_of (map string_bytes words.now) formats.now before) (view result.layer) (kind result.layer)) }
    ensures layer_calls { calls image ≤ calls result.layer }

    // Where nothing failed, the run comes to its end, unless memory runs out.
    ensures complete { WhereTold (view image) (J.left symbols.old) (S.left script.old) (λ before j s.
        NothingFailed (⟦<Box<dyn Layer> as Layer>⟧.faults image) (⟦<Box<dyn Layer> as Layer>⟧.faults result.layer) (J.faults symbols.old) (J.faults symbols.new) (S.faults script.old) (S.faults script.new)
        (O.faults out.old) (O.faults out.new) (D.faults dump.old) (D.faults dump.new)
        → (result.status ≡ (run_of (map string_bytes words.now) formats.now before j s).status) ⊎ (result.status ≡ Status.Memory)) }
{
    let (status, layer) = run_over(
        alloc, words, image, formats, symbols, script, out, dump, steps,
    );
    Ended { status, layer }
}
