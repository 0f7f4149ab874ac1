//! A file as a device.
ghost use Rattle.std.specs.Prelude.{◌≡◌};
ghost use Rattle.std.specs.Io.{ReadsAtMost};

use crate::calls::{count_fault, read_from};
use layer_base::{Device, Failed, PathWord};
use std::os::unix::fs::FileExt;
use std::rt::Files;
use std::{fs, io};

// A file has at most this many bytes, so no system call reads at this place or behind it.
const MOST_BYTES: u64 = (1 << 63) - 1;

/// A file that is read at any place. The first read opens it. If that fails, the next read tries again.
#[derive(Drop)]
pub struct RealDevice<R: Files + Drop>
where
    R::File: FileExt,
{
    rt: R,
    path: PathWord,
    file: Option<R::File>,
    faults: u64,
}

impl<R: Files + Drop> RealDevice<R>
where
    R::File: FileExt,
{
    /// The device of the file at the path. It opens nothing yet.
    pub fn new(rt: R, path: PathWord) -> Self {
        RealDevice {
            rt,
            path,
            file: None,
            faults: 0,
        }
    }

    fn try_read(&mut self, at: u64, buf: &mut [u8]) -> io::Result<usize>
        ensures within { ReadsAtMost result buf.new }
        ensures faults { self.new.faults ≡ self.old.faults }
    {
        let file = match self.file.take() {
            Some(file) => file,
            None => fs::open(&self.rt, self.path.text())?,
        };
        let answer = read_from(&file, at, buf);
        self.file = Some(file);
        answer
    }
}

impl<R: Files + Drop> Device for RealDevice<R>
where
    R::File: FileExt,
{
    ghost use Rattle.std.specs.Prelude.{None};

    ghost held = { λ _. None };

    ghost faults = { λ device. device.faults };

    fn read_at(&mut self, at: u64, buf: &mut [u8]) -> Result<usize, Failed> {
        if at >= MOST_BYTES {
            return Ok(0);
        }
        let room = (buf.len() as u64).min(MOST_BYTES - at) as usize;
        let answer = self.try_read(at, &mut buf[..room]);
        count_fault(&mut self.faults, answer)
    }
}
