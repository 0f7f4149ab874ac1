//! A case: what a run is given, what it is to come to, and how often it is run.
use crate::image::Image;
use crate::run::Plan;
use std::alloc::Global;

/// A line of a script, with its newline, the text that it prints and the bytes that it dumps.
#[derive(Drop)]
pub(crate) struct ScriptLine {
    pub(crate) bytes: Vec<u8>,
    pub(crate) text: Vec<u8>,
    pub(crate) dumped: Vec<u8>,
}

/// The objects whose calls fail in turn.
#[derive(Clone, Copy)]
pub(crate) struct Sweeps {
    pub(crate) image: bool,
    pub(crate) symbols: bool,
    pub(crate) script: bool,
    pub(crate) room: bool,
    pub(crate) dump: bool,
}

/// A case, as its block says it.
#[derive(Drop)]
pub(crate) struct Case {
    /// The image, where the block says anything of it.
    pub(crate) image: Option<Image>,
    /// The lists of words that the block says, each of which is tried.
    pub(crate) words: Vec<Vec<String>>,
    /// The symbol file, in which each `@` stands for a value. Without one it is `{}`.
    pub(crate) symbols: Option<Vec<u8>>,
    pub(crate) values: Vec<Vec<u8>>,
    /// What is written before a line is taken.
    pub(crate) front: Vec<u8>,
    pub(crate) lines: Vec<ScriptLine>,
    /// The bytes of the script that the run leaves.
    pub(crate) rest: Vec<u8>,
    pub(crate) status: u8,
    pub(crate) symbols_left: Option<usize>,
    /// What fails in every run.
    pub(crate) plan: Plan,
    pub(crate) cuts: Vec<usize>,
    pub(crate) sweeps: Sweeps,
    pub(crate) is_each: bool,
    /// Each list of words makes fewer calls on the image than the one before.
    pub(crate) has_fewer_calls: bool,
    pub(crate) is_wrong: bool,
    pub(crate) has_last_newline: bool,
}

impl Case {
    pub(crate) fn new(alloc: Global) -> Case {
        Case {
            image: None,
            words: Vec::new(alloc),
            symbols: None,
            values: Vec::new(alloc),
            front: Vec::new(alloc),
            lines: Vec::new(alloc),
            rest: Vec::new(alloc),
            status: 0,
            symbols_left: None,
            plan: Plan::whole(),
            cuts: Vec::new(alloc),
            sweeps: Sweeps {
                image: false,
                symbols: false,
                script: false,
                room: false,
                dump: false,
            },
            is_each: false,
            has_fewer_calls: false,
            is_wrong: false,
            has_last_newline: true,
        }
    }
}
