//! The program: a run over the image that the words name, or over a made image.
ghost use Rattle.std.specs.Prelude.{◌≡◌, map, string_bytes, IfSome, IfNone};
ghost use Rattle.program_words.specs.Made.{made_of};
ghost use Rattle.session.specs.Program.{KeepsRun, KeepsMade};

use crate::made::run_made;
use crate::{Ended, run};
use layer_base::{Kind, Layer, Sink, Source, Steps};
use program_words::made_words;
use std::alloc::Global;
use std::sync::ledger::Ledger;

/// Does what the words of the command line ask for. Where they are `--make N`, with N from 1 to 64, that is a run over a
/// made image, as `run_made` does it: its line goes to `out`, the layer is given back as it was with no call made on it,
/// and the other objects stay as they were. Else it is a run over the image, with all that `run` promises.
pub fn program<J: Source, S: Source, O: Sink, D: Sink, L: Ledger>(
    alloc: Global,
    words: &[String],
    image: Box<dyn Layer>,
    formats: &[Kind],
    symbols: &mut J,
    script: &mut S,
    out: &mut O,
    dump: &mut D,
    steps: &mut Steps<L>,
) -> Ended
    requires file { kind image ≡ Kind.File }
    ensures made { IfSome (made_of (map string_bytes words.now)) (λ number. KeepsMade number
        (record {
          image = record { view = view image; kind = kind image; faults = ⟦<Box<dyn Layer> as Layer>⟧.faults image; calls = calls image };
          symbols = record { bytes = J.left symbols.old; faults = J.faults symbols.old };
          script = record { bytes = S.left script.old; faults = S.faults script.old };
          out = record { bytes = O.written out.old; faults = O.faults out.old };
          dump = record { bytes = D.written dump.old; faults = D.faults dump.old };
        })
        (record {
          image = record { view = view result.layer; kind = kind result.layer; faults = ⟦<Box<dyn Layer> as Layer>⟧.faults result.layer; calls = calls result.layer };
          symbols = record { bytes = J.left symbols.new; faults = J.faults symbols.new };
          script = record { bytes = S.left script.new; faults = S.faults script.new };
          out = record { bytes = O.written out.new; faults = O.faults out.new };
          dump = record { bytes = D.written dump.new; faults = D.faults dump.new };
        })
        result.status) }
    ensures run { IfNone (made_of (map string_bytes words.now)) (KeepsRun (map string_bytes words.now) formats.now
        (record {
          image = record { view = view image; kind = kind image; faults = ⟦<Box<dyn Layer> as Layer>⟧.faults image; calls = calls image };
          symbols = record { bytes = J.left symbols.old; faults = J.faults symbols.old };
          script = record { bytes = S.left script.old; faults = S.faults script.old };
          out = record { bytes = O.written out.old; faults = O.faults out.old };
          dump = record { bytes = D.written dump.old; faults = D.faults dump.old };
        })
        (record {
          image = record { view = view result.layer; kind = kind result.layer; faults = ⟦<Box<dyn Layer> as Layer>⟧.faults result.layer; calls = calls result.layer };
          symbols = record { bytes = J.left symbols.new; faults = J.faults symbols.new };
          script = record { bytes = S.left script.new; faults = S.faults script.new };
          out = record { bytes = O.written out.new; faults = O.faults out.new };
          dump = record { bytes = D.written dump.new; faults = D.faults dump.new };
        })
        result.status) }
{
    match made_words(words) {
        Some(number) => Ended {
            status: run_made(alloc, number, out, steps),
            layer: image,
        },
        None => run(
            alloc, words, image, formats, symbols, script, out, dump, steps,
        ),
    }
}
