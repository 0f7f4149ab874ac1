//! A file as a sink.
ghost use Rattle.std.specs.Prelude.{◌≡◌, ◌<◌, ◌≤◌, length, IfOk};

use crate::calls::{count_fault, write_some};
use layer_base::{PathWord, Sink, SinkFault};
use std::rt::Files;
use std::{fs, io};

/// A file that is written from its start. The first write creates it, or empties a file that is there. If that fails,
/// the next write tries again.
#[derive(Drop)]
pub struct RealSink<R: Files + Drop> {
    rt: R,
    path: PathWord,
    file: Option<R::File>,
    faults: u64,
}

impl<R: Files + Drop> RealSink<R> {
    /// The sink into the file at the path. It creates nothing yet.
    pub fn new(rt: R, path: PathWord) -> Self {
        RealSink {
            rt,
            path,
            file: None,
            faults: 0,
        }
    }

    fn try_write(&mut self, piece: &[u8]) -> io::Result<usize>
        ensures within { IfOk result (λ n. n ≤ length piece.now) }
        ensures some { IfOk result (λ n. 0 < length piece.now → 0 < n) }
        ensures faults { self.new.faults ≡ self.old.faults }
    {
        let mut file = match self.file.take() {
            Some(file) => file,
            None => fs::create(&self.rt, self.path.text())?,
        };
        let answer = write_some(&mut file, piece);
        self.file = Some(file);
        answer
    }
}

impl<R: Files + Drop> Sink for RealSink<R> {
    ghost use Rattle.std.specs.Prelude.{None};

    ghost written = { λ _. None };

    ghost faults = { λ sink. sink.faults };

    fn write(&mut self, piece: &[u8]) -> Result<usize, SinkFault> {
        let answer = self.try_write(piece);
        match count_fault(&mut self.faults, answer) {
            Ok(n) => Ok(n),
            Err(_) => Err(SinkFault::Failed),
        }
    }
}
