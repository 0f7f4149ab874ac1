//! Why a command prints one line in place of its text.
ghost use Rattle.std.specs.Prelude.{◌≡◌, IsErrOf, IfOk};
ghost use Rattle.layer_base.specs.Counts.{HasCause};
ghost use Rattle.layer_base.specs.Known.{Writes};
ghost use Rattle.cell_text.specs.ErrorLine.{no_symbol_text, no_task_text, no_space_text};
ghost use Rattle.session.specs.Refusal.{refusal_text};
ghost use Rattle.session.specs.declared.refusal.NotRun.TheVariants as whys;
ghost use Rattle.kernel_records.specs.declared.fault.WalkFault.TheVariants as faults;

use cell_text::{append_no_space, append_no_symbol, append_no_task, missing_line};
use kernel_find::{Found, found_text};
use kernel_records::{Need, WalkFault};
use layer_base::{Name, Sink, SinkFault, write_whole};
use std::alloc::{AllocError, Global};

/// Why a command prints one line in place of its text.
#[derive(Debug, Drop)]
pub(crate) enum CommandRefusal {
    /// The kernel is needed, and this is what the search for it came to.
    NoKernel(Found),
    /// The symbol file lacks this name, the first of those that the space of a task needs.
    Missing(Need),
    /// No task has this PID.
    NoTask(u64),
    /// The task of this PID has no space.
    NoSpace(u64),
    /// No symbol has this name.
    NoSymbol(Name),
    /// The bytes pass the last address.
    OutOfRange,
}

/// Why a command is not run.
#[derive(Debug, Drop)]
pub(crate) enum NotRun {
    Refused(CommandRefusal),
    Fault(WalkFault),
}

impl From<CommandRefusal> for NotRun {
    ghost from_gives = { λ refusal why. why ≡ whys.Refused refusal };

    fn from(refusal: CommandRefusal) -> Self {
        NotRun::Refused(refusal)
    }
}

impl From<WalkFault> for NotRun {
    ghost from_gives = { λ fault why. why ≡ whys.Fault fault };

    fn from(fault: WalkFault) -> Self {
        NotRun::Fault(fault)
    }
}

impl From<AllocError> for NotRun {
    ghost from_gives = { λ _ why. why ≡ whys.Fault faults.Memory };

    fn from(_: AllocError) -> Self {
        NotRun::Fault(WalkFault::Memory)
    }
}

fn no_symbol_line(alloc: Global, name: &[u8]) -> Result<Vec<u8>, AllocError>
    ensures { IfOk result (λ line. line.items ≡ no_symbol_text name.now) }
{
    let mut line = Vec::new(alloc);
    append_no_symbol(&mut line, name)?;
    Ok(line)
}

fn no_task_line(alloc: Global, pid: u64) -> Result<Vec<u8>, AllocError>
    ensures { IfOk result (λ line. line.items ≡ no_task_text pid) }
{
    let mut line = Vec::new(alloc);
    append_no_task(&mut line, pid)?;
    Ok(line)
}

fn no_space_line(alloc: Global, pid: u64) -> Result<Vec<u8>, AllocError>
    ensures { IfOk result (λ line. line.items ≡ no_space_text pid) }
{
    let mut line = Vec::new(alloc);
    append_no_space(&mut line, pid)?;
    Ok(line)
}

#[tactic(auto, unfolding(crate::specs::Refusal::refusal_text))]
fn refusal_line(alloc: Global, refusal: &CommandRefusal) -> Result<Vec<u8>, AllocError>
    ensures { IfOk result (λ line. line.items ≡ refusal_text refusal.now) }
{
    match refusal {
        CommandRefusal::NoKernel(found) => found_text(alloc, found),
        CommandRefusal::Missing(need) => missing_line(alloc, *need),
        CommandRefusal::NoTask(pid) => no_task_line(alloc, *pid),
        CommandRefusal::NoSpace(pid) => no_space_line(alloc, *pid),
        CommandRefusal::NoSymbol(name) => no_symbol_line(alloc, name.items()),
        CommandRefusal::OutOfRange => Vec::from_slice(alloc, b"error: out of range\n"),
    }
}

/// Writes the line of a refusal.
pub(crate) fn write_refusal<O: Sink>(
    alloc: Global,
    refusal: &CommandRefusal,
    out: &mut O,
) -> Result<(), SinkFault>
    ensures text { Writes (O.written out.old) (O.written out.new) result (refusal_text refusal.now) }
    ensures cause { HasCause (O.faults out.old) (O.faults out.new) (IsErrOf result SinkFault.Failed) }
{
    match refusal_line(alloc, refusal) {
        Ok(line) => write_whole(out, &line),
        Err(_) => Err(SinkFault::Memory),
    }
}
