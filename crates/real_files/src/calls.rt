//! Single system calls. A call that a signal interrupted is made again.
ghost use Rattle.std.specs.Prelude.{◌≡◌, ◌<◌, ◌≤◌, length, IfOk, OnErr, IsErr};
ghost use Rattle.std.specs.Io.{ReadsAtMost};
ghost use Rattle.std.specs.Io.KnownBytes.{ReadConsumes, WriteAppends};
ghost use Rattle.layer_base.specs.Counts.{HasCause};

use layer_base::Failed;
use std::io::{self, ErrorKind, Read, Write};
use std::os::unix::fs::FileExt;

// How many times one call is tried.
const TRIES: u32 = 1000;

/// Reads what comes next into the front of the buffer. A failed call takes nothing.
pub fn read_next<F: Read>(file: &mut F, buf: &mut [u8]) -> io::Result<usize>
    ensures within { ReadsAtMost result buf.new }
    ensures bytes { ReadConsumes (F.remaining file.old) (F.remaining file.new) result buf.new }
{
    for _ in 0..TRIES {
        match file.read(buf) {
            Err(error) if error.kind() == ErrorKind::Interrupted => {}
            answer => return answer,
        }
    }
    Err(ErrorKind::Interrupted.into())
}

/// Reads from a place of the file on into the front of the buffer.
pub fn read_from<F: FileExt>(file: &F, at: u64, buf: &mut [u8]) -> io::Result<usize>
    ensures { ReadsAtMost result buf.new }
{
    for _ in 0..TRIES {
        match file.read_at(buf, at) {
            Err(error) if error.kind() == ErrorKind::Interrupted => {}
            answer => return answer,
        }
    }
    Err(ErrorKind::Interrupted.into())
}

/// Writes the front of the piece. To take nothing of a piece that has bytes is an error.
pub fn write_some<F: Write>(file: &mut F, piece: &[u8]) -> io::Result<usize>
    ensures within { IfOk result (λ n. n ≤ length piece.now) }
    ensures some { IfOk result (λ n. 0 < length piece.now → 0 < n) }
    ensures bytes { WriteAppends (F.contents file.old) (F.contents file.new) result piece.now }
{
    for _ in 0..TRIES {
        match file.write(piece) {
            Err(error) if error.kind() == ErrorKind::Interrupted => {}
            Ok(0) if !piece.is_empty() => return Err(ErrorKind::WriteZero.into()),
            answer => return answer,
        }
    }
    Err(ErrorKind::Interrupted.into())
}

/// Counts a fault if the call failed.
pub fn count_fault(faults: &mut u64, answer: io::Result<usize>) -> Result<usize, Failed>
    ensures ok { IfOk result (λ n. answer ≡ Ok n) }
    ensures err { OnErr result (IsErr answer) }
    ensures cause { HasCause faults.old faults.new (IsErr result) }
{
    match answer {
        Ok(n) => Ok(n),
        Err(_) => {
            *faults = faults.saturating_add(1);
            Err(Failed)
        }
    }
}
