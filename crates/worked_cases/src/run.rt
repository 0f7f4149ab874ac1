//! One run over objects in memory: what goes in, and what is seen of it.
ghost use Rattle.std.specs.Prelude.{◌≡◌, ◌<◌};

use crate::objects::{CountedDevice, CountedSource};
use file_layer::FileLayer;
use layer_base::{Kind, Layer, MemDevice, MemSink, MemSource, Source, Steps};
use session::program;
use std::alloc::{AllocError, Global};
use std::cell::Cell;
use std::marker::Brand;
use std::rc::Rc;
use std::sync::ledger::{Blank, Ledger};

/// More bytes than any object of a case has.
const UNCUT: usize = 1 << 30;

/// What a run is given.
#[derive(Clone, Copy)]
pub(crate) struct Inputs<'a> {
    pub(crate) words: &'a [String],
    pub(crate) image: &'a [u8],
    pub(crate) symbols: &'a [u8],
    pub(crate) script: &'a [u8],
}

/// How its objects behave: the call of each that fails, the bytes that the output and the dump have room for, and the most
/// bytes that any of them gives or takes a call.
#[derive(Clone, Copy)]
pub(crate) struct Plan {
    pub(crate) image_fails: Option<u64>,
    pub(crate) symbols_fails: Option<u64>,
    pub(crate) script_fails: Option<u64>,
    pub(crate) room: Option<u64>,
    pub(crate) dump_room: Option<u64>,
    pub(crate) cut: usize,
}

impl Plan {
    /// Nothing fails, and everything is given and taken at once.
    pub(crate) fn whole() -> Plan {
        Plan {
            image_fails: None,
            symbols_fails: None,
            script_fails: None,
            room: None,
            dump_room: None,
            cut: UNCUT,
        }
    }
}

/// What a run came to.
#[derive(Drop)]
pub(crate) struct Seen {
    pub(crate) status: u8,
    pub(crate) text: Vec<u8>,
    pub(crate) dumped: Vec<u8>,
    pub(crate) script_left: usize,
    pub(crate) symbols_left: usize,
    pub(crate) image_calls: u64,
    pub(crate) symbols_calls: u64,
    pub(crate) script_calls: u64,
}

fn fails_of(alloc: Global, call: Option<u64>) -> Result<Vec<u64>, AllocError> {
    let mut fails = Vec::new(alloc);
    if let Some(call) = call {
        fails.push(call)?;
    }
    Ok(fails)
}

fn device_of(
    alloc: Global,
    bytes: &[u8],
    plan: Plan,
    calls: Rc<Cell<u64>>,
) -> Result<CountedDevice, AllocError> {
    let fails = fails_of(alloc, plan.image_fails)?;
    Ok(CountedDevice {
        device: MemDevice::new(bytes.to_vec(alloc)?, fails, plan.cut.max(1)),
        calls,
    })
}

fn source_of(
    alloc: Global,
    bytes: &[u8],
    fails: Option<u64>,
    cut: usize,
) -> Result<CountedSource, AllocError> {
    let fails = fails_of(alloc, fails)?;
    Ok(CountedSource {
        source: MemSource::new(bytes.to_vec(alloc)?, fails, cut.max(1)),
        calls: 0,
    })
}

// How many bytes the source has left. A call that fails takes none.
fn count_left(source: &mut CountedSource) -> usize {
    let mut buf = [0; 4096];
    let mut left = 0usize;
    for _ in 0..u64::MAX {
        match source.read(&mut buf) {
            Ok(0) => return left,
            Ok(n) => left = left.saturating_add(n),
            Err(_) => {}
        }
    }
    left
}

fn run_with<L: Ledger>(
    alloc: Global,
    inputs: Inputs<'_>,
    plan: Plan,
    blank: Blank,
) -> Result<Seen, AllocError>
    requires name { blank.name ≡ L.name }
    requires parts { blank.parts ≡ L.parts }
    requires some { 0 < L.parts }
{
    let image_calls = Rc::new(alloc, Cell::new(0))?;
    let device = device_of(alloc, inputs.image, plan, image_calls.clone()?)?;
    let image: Box<dyn Layer> = Box::new(alloc, FileLayer::new(alloc, device))?;
    let mut symbols = source_of(alloc, inputs.symbols, plan.symbols_fails, plan.cut)?;
    let mut script = source_of(alloc, inputs.script, plan.script_fails, plan.cut)?;
    let mut out = MemSink::new(alloc, plan.room, plan.cut.max(1));
    let mut dump = MemSink::new(alloc, plan.dump_room, plan.cut.max(1));
    let mut steps = Steps::<L>::new(blank);
    let ended = program(
        alloc,
        inputs.words,
        image,
        &[Kind::Lime],
        &mut symbols,
        &mut script,
        &mut out,
        &mut dump,
        &mut steps,
    );
    let symbols_calls = symbols.calls;
    let script_calls = script.calls;
    Ok(Seen {
        status: ended.status.number(),
        text: out.bytes().to_vec(alloc)?,
        dumped: dump.bytes().to_vec(alloc)?,
        script_left: count_left(&mut script),
        symbols_left: count_left(&mut symbols),
        image_calls: image_calls.get(),
        symbols_calls,
        script_calls,
    })
}

pub(crate) fn run_once(alloc: Global, inputs: Inputs<'_>, plan: Plan) -> Result<Seen, AllocError> {
    run_with::<Brand>(alloc, inputs, plan, Blank::new(1))
}
