//! What the program decides itself: which files it opens, the formats, and the code that it ends with.
ghost use Rattle.std.specs.Prelude.{◌≡◌, [], map, string_bytes, IfOk, IfSome, IfNone};
ghost use Rattle.std.specs.Io.KnownBytes.{Appends};
ghost use Rattle.std.specs.Option.{unwrap_or};
ghost use Rattle.std.specs.Process.{exit_status};
ghost use Rattle.layer_base.specs.Counts.{HasCause};
ghost use Rattle.layer_base.specs.Known.{AppendsPrefix};
ghost use Rattle.program_words.specs.Made.{made_of};
ghost use Rattle.program_words.specs.Settings.{settings_of};
ghost use Rattle.session.specs.Headline.{WhereTold};
ghost use Rattle.session.specs.Made.{RanMade};
ghost use Rattle.session.specs.Run.{run_of};
ghost use Rattle.session.specs.Status.{IsAnswer, number_of_status};
ghost use Rattle.memlens.specs.Formats.{formats};
ghost use Rattle.memlens.specs.Paths.{paths_by};

use layer_base::{Kind, Layer, PathWord, Sink, Source, Steps};
use program_words::{WordsFault, settings_of};
use session::{Status, program};
use std::alloc::{AllocError, Global};
use std::process::ExitCode;
use std::sync::ledger::Ledger;

/// The paths of the files that the program opens.
#[derive(Debug, Drop)]
pub struct Paths {
    pub image: PathWord,
    pub symbols: PathWord,
    pub dump: PathWord,
}

fn path_or_empty(alloc: Global, path: Option<PathWord>) -> Result<PathWord, AllocError>
    ensures { IfOk result (λ word. word ≡ unwrap_or path []) }
{
    match path {
        Some(path) => Ok(path),
        None => PathWord::of(alloc, ""),
    }
}

/// The paths that the words name. Without a word for a dump its path is empty, and so are all paths where the words are
/// refused.
pub fn paths_of(alloc: Global, words: &[String]) -> Result<Paths, AllocError>
    ensures { IfOk result (λ paths. paths ≡ paths_by (settings_of (map string_bytes words.now))) }
{
    match settings_of(alloc, words) {
        Ok(settings) => Ok(Paths {
            image: settings.image,
            symbols: settings.symbols,
            dump: path_or_empty(alloc, settings.dump)?,
        }),
        Err(WordsFault::Usage) => Ok(Paths {
            image: PathWord::of(alloc, "")?,
            symbols: PathWord::of(alloc, "")?,
            dump: PathWord::of(alloc, "")?,
        }),
        Err(WordsFault::Memory) => Err(AllocError),
    }
}

/// Does what the words ask for, over an image that may be in one of the program's formats.
pub fn run_with_formats<J: Source, S: Source, O: Sink, D: Sink, L: Ledger>(
    alloc: Global,
    words: &[String],
    image: Box<dyn Layer>,
    symbols: &mut J,
    script: &mut S,
    out: &mut O,
    dump: &mut D,
    steps: &mut Steps<L>,
) -> Status
    requires file { kind image ≡ Kind.File }

    // Where the words ask for a made image, the line of its run was written, or a front of it.
    ensures made { IfSome (made_of (map string_bytes words.now)) (λ number. RanMade number (O.written out.old) (O.written out.new) result) }

    // Else what was written and dumped is, however it ends, a prefix of what a run with these formats comes to.
    ensures text { IfNone (made_of (map string_bytes words.now)) (WhereTold (view image) (J.left symbols.old) (S.left script.old) (λ before j s.
        AppendsPrefix (O.written out.old) (O.written out.new) (run_of (map string_bytes words.now) formats before j s).text)) }

    ensures dumped { IfNone (made_of (map string_bytes words.now)) (WhereTold (view image) (J.left symbols.old) (S.left script.old) (λ before j s.
        AppendsPrefix (D.written dump.old) (D.written dump.new) (run_of (map string_bytes words.now) formats before j s).dumped)) }

    // A status other than a fault or out of memory is the one of that run, and all of it was written and dumped.
    ensures exact_status { IfNone (made_of (map string_bytes words.now)) (WhereTold (view image) (J.left symbols.old) (S.left script.old) (λ before j s.
        IsAnswer result → result ≡ (run_of (map string_bytes words.now) formats before j s).status)) }
    ensures exact_text { IfNone (made_of (map string_bytes words.now)) (WhereTold (view image) (J.left symbols.old) (S.left script.old) (λ before j s.
        IsAnswer result → Appends (O.written out.old) (O.written out.new) (run_of (map string_bytes words.now) formats before j s).text)) }
    ensures exact_dumped { IfNone (made_of (map string_bytes words.now)) (WhereTold (view image) (J.left symbols.old) (S.left script.old) (λ before j s.
        IsAnswer result → Appends (D.written dump.old) (D.written dump.new) (run_of (map string_bytes words.now) formats before j s).dumped)) }

    // A fault is the status only where a call on that object failed.
    ensures symbols_fault { HasCause (J.faults symbols.old) (J.faults symbols.new) (result ≡ Status.SymbolsFault) }
    ensures script_fault { HasCause (S.faults script.old) (S.faults script.new) (result ≡ Status.ScriptFault) }
    ensures out_fault { HasCause (O.faults out.old) (O.faults out.new) (result ≡ Status.OutFault) }
    ensures dump_fault { HasCause (D.faults dump.old) (D.faults dump.new) (result ≡ Status.DumpFault) }
{
    program(
        alloc,
        words,
        image,
        &[Kind::Lime],
        symbols,
        script,
        out,
        dump,
        steps,
    )
    .status
}

/// The code that the program ends with for a status.
pub fn exit_code(status: Status) -> ExitCode
    ensures { exit_status result ≡ number_of_status status }
{
    ExitCode::from(status.number())
}
