//! Standard input as a source.
ghost use Rattle.std.specs.Prelude.{◌≡◌, ◌≤◌, length, IfOk};

use crate::ahead::Ahead;
use crate::calls::count_fault;
use crate::standard::{check_open, is_open};
use layer_base::{Failed, Source};
use std::io;
use std::os::fd::AsFd;

/// Standard input. If it was closed when this was made, each call on it fails. Nothing else may read it meanwhile,
/// since some of it is read ahead.
#[derive(Drop)]
pub struct RealInput<R: Input + Drop>
where
    R::Reader: AsFd,
{
    reader: R::Reader,
    is_open: bool,
    ahead: Ahead,
    faults: u64,
}

impl<R: Input + Drop> RealInput<R>
where
    R::Reader: AsFd,
{
    /// The source of what the runtime reads. It looks whether the input is open, and reads nothing yet.
    pub fn new(rt: R) -> Self {
        let reader = rt.reader();
        let is_open = is_open(&reader);
        RealInput {
            reader,
            is_open,
            ahead: Ahead::new(),
            faults: 0,
        }
    }

    fn try_read(&mut self, buf: &mut [u8]) -> io::Result<usize>
        ensures within { IfOk result (λ n. n ≤ length buf.old) }
        ensures faults { self.new.faults ≡ self.old.faults }
    {
        check_open(self.is_open)?;
        self.ahead.read(&mut self.reader, buf)
    }
}

impl<R: Input + Drop> Source for RealInput<R>
where
    R::Reader: AsFd,
{
    ghost use Rattle.std.specs.Prelude.{None};

    ghost left = { λ _. None };

    ghost faults = { λ source. source.faults };

    fn read(&mut self, buf: &mut [u8]) -> Result<usize, Failed> {
        let answer = self.try_read(buf);
        count_fault(&mut self.faults, answer)
    }
}
