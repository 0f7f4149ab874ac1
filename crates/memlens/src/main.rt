//! The program: it reads its words, opens what they name, and runs one script of commands over an image.
#![tactic(auto)]

ghost use Rattle.std.specs.Prelude.{◌≡◌, ◌<◌};

mod program;

use file_layer::FileLayer;
use layer_base::{Layer, Steps};
use program::{exit_code, paths_of, run_with_formats};
use real_files::{RealDevice, RealInput, RealOutput, RealSink, RealSource, StandardOutput};
use session::Status;
use std::alloc::{AllocError, Global};
use std::env;
use std::io::ErrorKind;
use std::marker::Brand;
use std::process::ExitCode;
use std::rt::Runtime;
use std::sync::ledger::{Blank, Ledger};

// The words of the command line without the program's own name. If one is not UTF-8, none are answered, which the run
// refuses too.
fn read_words<R: Runtime<A = Global>>(rt: &R) -> Result<Vec<String>, AllocError> {
    let mut words = Vec::new(rt.alloc());
    let args = match env::args(rt) {
        Ok(args) => args,
        Err(error) if error.kind() == ErrorKind::OutOfMemory => return Err(AllocError),
        Err(_) => return Ok(words),
    };
    for arg in args.skip(1) {
        words.push(arg)?;
    }
    Ok(words)
}

// Lends the files and streams of the system to a run. Each file is opened at its first use.
fn run_files<L: Ledger>(rt: &HostRuntime, blank: Blank) -> Result<Status, AllocError>
    requires name { blank.name ≡ L.name }
    requires parts { blank.parts ≡ L.parts }
    requires some { 0 < L.parts }
{
    let mut script = RealInput::new(rt.clone()?);
    let mut out = RealOutput::new(StandardOutput::new(rt.stdout()));
    let alloc = rt.alloc();
    let words = read_words(rt)?;
    let paths = paths_of(alloc, &words)?;
    let device = RealDevice::new(rt.clone()?, paths.image);
    let image: Box<dyn Layer> = Box::new(alloc, FileLayer::new(alloc, device))?;
    let mut symbols = RealSource::new(rt.clone()?, paths.symbols);
    let mut dump = RealSink::new(rt.clone()?, paths.dump);
    let mut steps = Steps::<L>::new(blank);
    Ok(run_with_formats(
        alloc,
        &words,
        image,
        &mut symbols,
        &mut script,
        &mut out,
        &mut dump,
        &mut steps,
    ))
}

fn main(rt: HostRuntime) -> ExitCode {
    let status = run_files::<Brand>(&rt, Blank::new(1)).unwrap_or(Status::Memory);
    exit_code(status)
}
