//! Streams that a program may be started without.
//!
//! The system gives the number of a closed stream to the next file that is opened, and what is read from the stream or
//! written to it then goes to that file. So a stream is looked at before any file is opened.
ghost use Rattle.std.specs.Prelude.{IsErr, IsFalse};

use std::fmt::Display;
use std::io::{self, Error};
use std::os::fd::AsFd;

// The system's answer to a call on a descriptor that is closed.
const EBADF: i32 = 9;

/// Whether the stream is open: a descriptor that is closed can't be duplicated.
pub(crate) fn is_open<S: AsFd>(stream: &S) -> bool {
    stream.as_fd().try_clone_to_owned().is_ok()
}

/// Fails as a call on a closed stream does, if it was closed.
pub(crate) fn check_open(is_open: bool) -> io::Result<()>
    ensures closed { IsFalse is_open → IsErr result }
{
    if !is_open {
        return Err(Error::from_raw_os_error(EBADF));
    }
    Ok(())
}

/// Standard output. If it was closed when this was made, each call on it fails.
#[derive(Drop)]
pub struct StandardOutput<S> {
    stream: S,
    is_open: bool,
}

impl<S: AsFd> StandardOutput<S> {
    /// Looks whether the stream is open.
    pub fn new(stream: S) -> Self {
        let is_open = is_open(&stream);
        StandardOutput { stream, is_open }
    }
}

impl<S: Print> Print for StandardOutput<S> {
    ghost use Rattle.std.specs.Prelude.{◌≤◌, length, IfOk};

    fn print<D: Display + Drop>(&self, value: D) -> io::Result<()>
        ensures closed { IsFalse self.now.is_open → IsErr result }
    {
        check_open(self.is_open)?;
        self.stream.print(value)
    }

    fn println<D: Display + Drop>(&self, value: D) -> io::Result<()>
        ensures closed { IsFalse self.now.is_open → IsErr result }
    {
        check_open(self.is_open)?;
        self.stream.println(value)
    }

    fn write_all(&self, bytes: &[u8]) -> io::Result<()>
        ensures closed { IsFalse self.now.is_open → IsErr result }
    {
        check_open(self.is_open)?;
        self.stream.write_all(bytes)
    }

    fn write_some(&self, bytes: &[u8]) -> io::Result<usize>
        ensures bound { IfOk result (λ n. n ≤ length bytes.now) }
        ensures closed { IsFalse self.now.is_open → IsErr result }
    {
        check_open(self.is_open)?;
        self.stream.write_some(bytes)
    }
}
