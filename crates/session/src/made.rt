//! A run over a made image.
ghost use Rattle.std.specs.Prelude.{◌≡◌, ◌≤◌, ℕ, ◌++◌, map, string_bytes, IfOk, IsErrOf, OnOk};
ghost use Rattle.layer_base.specs.Counts.{HasCause};
ghost use Rattle.layer_base.specs.Known.{Writes};
ghost use Rattle.image_maker.specs.Image.{made_image};
ghost use Rattle.image_maker.specs.Script.{made_script};
ghost use Rattle.image_maker.specs.Symbols.{made_symbols};
ghost use Rattle.session.specs.Made.{three_words, made_run, line_count, outcome_cells, outcome_line, SaysAnswer, RanMade, CameTo};
ghost use Rattle.session.specs.Outcome.{Outcome};
ghost use Rattle.session.specs.Status.{IsAnswer, number_of_status};

use crate::Status;
use crate::ended::run_over;
use crate::status::status_after_line;
use cell_text::append_number;
use file_layer::FileLayer;
use image_maker::{Made, make};
use layer_base::{Kind, MemDevice, MemSink, MemSource, Sink, SinkFault, Steps, write_whole};
use std::alloc::{AllocError, Global};
use std::sync::ledger::Ledger;

// How a run over a made image ended, and what it printed and dumped.
#[derive(Drop)]
struct MadeRun {
    status: Status,
    text: MemSink,
    dumped: MemSink,
}

fn three_words(alloc: Global) -> Result<Vec<String>, AllocError>
    ensures { IfOk result (λ words. map string_bytes words.items ≡ three_words) }
{
    let mut words = Vec::new(alloc);
    words.push(String::from_str(alloc, "made")?)?;
    words.push(String::from_str(alloc, "made")?)?;
    words.push(String::from_str(alloc, "made")?)?;
    Ok(words)
}

// Runs the script of a made image over it, with objects that never fail.
fn run_objects<L: Ledger>(
    alloc: Global,
    made: &Made,
    steps: &mut Steps<L>,
) -> Result<MadeRun, AllocError>
    ensures ran { IfOk result (λ run. IsAnswer run.status → (number : ℕ) → made.now.image ≡ made_image number → made.now.symbols ≡ made_symbols number → made.now.script ≡ made_script
        → CameTo (made_run number) run.status run.text.bytes run.dumped.bytes) }
{
    let bytes = Vec::from_slice(alloc, made.image.items())?;
    let image = FileLayer::new(alloc, MemDevice::new(bytes, Vec::new(alloc), usize::MAX));
    let symbols = Vec::from_slice(alloc, made.symbols.items())?;
    let mut symbols = MemSource::new(symbols, Vec::new(alloc), usize::MAX);
    let script = Vec::from_slice(alloc, made.script.items())?;
    let mut script = MemSource::new(script, Vec::new(alloc), usize::MAX);
    let mut text = MemSink::new(alloc, None, usize::MAX);
    let mut dumped = MemSink::new(alloc, None, usize::MAX);
    let words = three_words(alloc)?;
    let (status, _) = run_over(
        alloc,
        &words,
        image,
        &[Kind::Lime],
        &mut symbols,
        &mut script,
        &mut text,
        &mut dumped,
        steps,
    );
    Ok(MadeRun {
        status,
        text,
        dumped,
    })
}

fn line_count(text: &[u8]) -> usize
    ensures { result ≡ line_count text.now }
{
    text.iter().filter(|byte| **byte == b'\n').count()
}

// Appends what is told of a run over the made image of a number.
#[tactic(auto, unfolding(crate::specs::Made::outcome_cells))]
fn append_outcome(
    line: &mut Vec<u8>,
    number: u64,
    status: Status,
    lines: usize,
    dumped: usize,
) -> Result<(), AllocError>
    ensures ok { OnOk result (line.new.items ≡ line.old.items ++ outcome_cells number status lines dumped) }
{
    line.extend_from_slice(b"made ")?;
    append_number(line, number)?;
    line.extend_from_slice(b": status ")?;
    append_number(line, u64::from(status.number()))?;
    line.extend_from_slice(b", ")?;
    append_number(line, lines as u64)?;
    line.extend_from_slice(b" lines, ")?;
    append_number(line, dumped as u64)?;
    line.extend_from_slice(b" dumped\n")?;
    Ok(())
}

// The line that tells what a run over the made image of a number came to.
fn outcome_line(alloc: Global, number: u64, run: &MadeRun) -> Result<Vec<u8>, AllocError>
    ensures { IfOk result (λ line. (outcome : Outcome) → CameTo outcome run.now.status run.now.text.bytes run.now.dumped.bytes → line.items ≡ outcome_line number outcome) }
{
    let lines = line_count(run.text.bytes());
    let mut line = Vec::new(alloc);
    append_outcome(
        &mut line,
        number,
        run.status,
        lines,
        run.dumped.bytes().len(),
    )?;
    Ok(line)
}

// Whether a status says what a run came to.
fn is_answer(status: Status) -> bool
    ensures { SaysAnswer result status }
{
    matches!(
        status,
        Status::Ok
            | Status::Usage
            | Status::ImageRefused
            | Status::SymbolsRefused
            | Status::ScriptTooLong
    )
}

// Runs over the made image of a number. None where the run came to no answer, which is out of memory too: none of its
// objects fails.
fn run_number<L: Ledger>(
    alloc: Global,
    number: u64,
    steps: &mut Steps<L>,
) -> Result<MadeRun, AllocError>
    requires least { 1 ≤ number }
    requires most { number ≤ 64 }
    ensures answer { IfOk result (λ run. IsAnswer run.status) }
    ensures ran { IfOk result (λ run. CameTo (made_run number) run.status run.text.bytes run.dumped.bytes) }
{
    let made = make(alloc, number)?;
    let run = run_objects(alloc, &made, steps)?;
    if is_answer(run.status) {
        Ok(run)
    } else {
        Err(AllocError)
    }
}

// Writes the line of a run over the made image of a number.
fn write_outcome<O: Sink>(
    alloc: Global,
    number: u64,
    run: &MadeRun,
    out: &mut O,
) -> Result<(), SinkFault>
    ensures line { (outcome : Outcome) → CameTo outcome run.now.status run.now.text.bytes run.now.dumped.bytes → Writes (O.written out.old) (O.written out.new) result (outcome_line number outcome) }
    ensures cause { HasCause (O.faults out.old) (O.faults out.new) (IsErrOf result SinkFault.Failed) }
{
    match outcome_line(alloc, number, run) {
        Ok(line) => write_whole(out, &line),
        Err(_) => Err(SinkFault::Memory),
    }
}

/// Makes the image of a number with its symbol file and its script, runs the script over them, and writes one line: the
/// status of that run, how many lines it printed, and how many bytes it dumped. It answers the status of the run, or
/// `OutFault` or `Memory`, and then a prefix of the line was written. `OutFault` comes only where a call on `out` failed.
pub fn run_made<O: Sink, L: Ledger>(
    alloc: Global,
    number: u64,
    out: &mut O,
    steps: &mut Steps<L>,
) -> Status
    requires least { 1 ≤ number }
    requires most { number ≤ 64 }
    ensures ran { RanMade number (O.written out.old) (O.written out.new) result }
    ensures cause { HasCause (O.faults out.old) (O.faults out.new) (result ≡ Status.OutFault) }
{
    match run_number(alloc, number, steps) {
        Ok(run) => status_after_line(run.status, write_outcome(alloc, number, &run, out)),
        Err(_) => Status::Memory,
    }
}
