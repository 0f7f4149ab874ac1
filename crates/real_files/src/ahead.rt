//! Bytes that were read ahead, so that a read of one byte does not cost a system call.
ghost use Rattle.std.specs.Prelude.{◌≤◌};

use crate::calls::read_next;
use std::io::{self, Read};

const ROOM: usize = 8192;

/// `bytes[start..end]` was read and not yet taken.
#[derive(Drop)]
pub struct Ahead {
    bytes: [u8; ROOM],
    start: usize,
    end: usize,
    ghost ordered: { start ≤ end },
    ghost in_bounds: { end ≤ 8192 },
}

impl Ahead {
    ghost use Rattle.std.specs.Prelude.{◌≡◌, ◌+◌, ◌-◌, ◌<◌, ◌++◌, length, take, drop, min, Ok, IfOk, OnOk};
    ghost use Rattle.std.specs.Io.KnownBytes.{IsAtEnd, Keeps, ReadConsumes};
    ghost use Rattle.real_files.specs.ReadAhead.{left_behind, unread};

    pub fn new() -> Ahead {
        Ahead {
            bytes: [0; ROOM],
            start: 0,
            end: 0,
        }
    }

    /// Gives the next of the bytes that were read ahead. If none are left, it makes one system call, which reads
    /// straight into a buffer of `ROOM` bytes or more.
    pub fn read<F: Read>(&mut self, file: &mut F, buf: &mut [u8]) -> io::Result<usize>
        ensures within { IfOk result (λ n. n ≤ length buf.old) }
        ensures ahead { self.old.start < self.old.end → result ≡ Ok (min (length buf.old) (self.old.end - self.old.start)) }
        ensures bytes { self.old.start < self.old.end → IfOk result (λ n. take n buf.new ≡ take n (drop self.old.start self.old.bytes)) }
        ensures start { self.old.start < self.old.end → IfOk result (λ n. self.new.start ≡ self.old.start + n) }
        ensures filled { length buf.old < 8192 → IfOk result (λ n. n ≤ self.new.start) }

        // Of what is unread and what the file has left, the bytes that are given are the front, and none is lost.
        ensures left { ReadConsumes (left_behind self.old (F.remaining file.old)) (left_behind self.new (F.remaining file.new)) result buf.new }
    {
        if self.start < self.end {
            return Ok(self.take(buf));
        }
        if buf.len() >= ROOM {
            return read_next(file, buf);
        }
        self.fill(file)?;
        Ok(self.take(buf))
    }

    // Reads ahead, where nothing is unread.
    fn fill<F: Read>(&mut self, file: &mut F) -> io::Result<()>
        requires { self.old.end ≤ self.old.start }
        ensures left { Keeps (left_behind self.old (F.remaining file.old)) (left_behind self.new (F.remaining file.new)) }
        ensures end { OnOk result (self.new.end ≤ self.new.start → IsAtEnd (F.remaining file.new)) }
    {
        self.start = 0;
        self.end = 0;
        let n = read_next(file, &mut self.bytes)?;
        self.end = n;
        Ok(())
    }

    fn take(&mut self, buf: &mut [u8]) -> usize
        ensures count { result ≡ min (length buf.old) (self.old.end - self.old.start) }
        ensures bytes { take result buf.new ≡ take result (drop self.old.start self.old.bytes) }
        ensures start { self.new.start ≡ self.old.start + result }
        ensures end { self.new.end ≡ self.old.end }
        ensures kept { self.new.bytes ≡ self.old.bytes }
        ensures rest { unread self.old ≡ take result buf.new ++ unread self.new }
    {
        let n = buf.len().min(self.end - self.start);
        buf[..n].copy_from_slice(&self.bytes[self.start..self.start + n]);
        self.start += n;
        n
    }
}
