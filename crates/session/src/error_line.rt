//! The error lines of a script.
ghost use Rattle.std.specs.Prelude.{◌≡◌, string_bytes, IsErrOf, IfOk};
ghost use Rattle.layer_base.specs.Counts.{HasCause};
ghost use Rattle.layer_base.specs.Known.{Writes};
ghost use Rattle.session.specs.Fault.{wanted_text, unknown_text, fault_text};

use command_words::LineFault;
use layer_base::{Sink, SinkFault, write_whole};
use std::alloc::{AllocError, Global};

/// Writes the error line of a line that is no command.
pub(crate) fn write_fault<O: Sink>(
    alloc: Global,
    fault: LineFault,
    out: &mut O,
) -> Result<(), SinkFault>
    ensures text { Writes (O.written out.old) (O.written out.new) result (fault_text fault) }
    ensures cause { HasCause (O.faults out.old) (O.faults out.new) (IsErrOf result SinkFault.Failed) }
{
    match fault {
        LineFault::TooLong => write_whole(out, b"error: line too long\n"),
        LineFault::Unknown => write_unknown(out),
        LineFault::Words { wanted } => write_wanted(alloc, wanted, out),
        LineFault::SpaceName => write_whole(out, b"error: bad space\n"),
        LineFault::Number => write_whole(out, b"error: bad number\n"),
        LineFault::Hex => write_whole(out, b"error: bad hex\n"),
        LineFault::Range => write_whole(out, b"error: out of range\n"),
        LineFault::Memory => Err(SinkFault::Memory),
    }
}

// The error line of a command that wants another number of words.
#[tactic(auto, unfolding(crate::specs::Fault::wanted_text))]
fn wanted_line(alloc: Global, wanted: u32) -> Result<String, AllocError>
    ensures { IfOk result (λ line. string_bytes line ≡ wanted_text wanted) }
{
    format!(in alloc; "error: wanted {wanted} words\n")
}

fn write_wanted<O: Sink>(alloc: Global, wanted: u32, out: &mut O) -> Result<(), SinkFault>
    ensures text { Writes (O.written out.old) (O.written out.new) result (wanted_text wanted) }
    ensures cause { HasCause (O.faults out.old) (O.faults out.new) (IsErrOf result SinkFault.Failed) }
{
    match wanted_line(alloc, wanted) {
        Ok(line) => write_whole(out, line.as_bytes()),
        Err(_) => Err(SinkFault::Memory),
    }
}

/// Writes the error line of a line that is no command, or none that runs yet.
fn write_unknown<O: Sink>(out: &mut O) -> Result<(), SinkFault>
    ensures text { Writes (O.written out.old) (O.written out.new) result unknown_text }
    ensures cause { HasCause (O.faults out.old) (O.faults out.new) (IsErrOf result SinkFault.Failed) }
{
    write_whole(out, b"error: unknown command\n")
}
