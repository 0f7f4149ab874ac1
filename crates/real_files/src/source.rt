//! A file as a source.
ghost use Rattle.std.specs.Prelude.{◌≡◌, ◌≤◌, length, IfOk};

use crate::ahead::Ahead;
use crate::calls::count_fault;
use layer_base::{Failed, PathWord, Source};
use std::rt::Files;
use std::{fs, io};

/// A file that is read from its start. The first read opens it. If that fails, the next read tries again.
#[derive(Drop)]
pub struct RealSource<R: Files + Drop> {
    rt: R,
    path: PathWord,
    file: Option<R::File>,
    ahead: Ahead,
    faults: u64,
}

impl<R: Files + Drop> RealSource<R> {
    /// The source of the file at the path. It opens nothing yet.
    pub fn new(rt: R, path: PathWord) -> Self {
        RealSource {
            rt,
            path,
            file: None,
            ahead: Ahead::new(),
            faults: 0,
        }
    }

    fn try_read(&mut self, buf: &mut [u8]) -> io::Result<usize>
        ensures within { IfOk result (λ n. n ≤ length buf.old) }
        ensures faults { self.new.faults ≡ self.old.faults }
    {
        let mut file = match self.file.take() {
            Some(file) => file,
            None => fs::open(&self.rt, self.path.text())?,
        };
        let answer = self.ahead.read(&mut file, buf);
        self.file = Some(file);
        answer
    }
}

impl<R: Files + Drop> Source for RealSource<R> {
    ghost use Rattle.std.specs.Prelude.{None};

    ghost left = { λ _. None };

    ghost faults = { λ source. source.faults };

    fn read(&mut self, buf: &mut [u8]) -> Result<usize, Failed> {
        let answer = self.try_read(buf);
        count_fault(&mut self.faults, answer)
    }
}
