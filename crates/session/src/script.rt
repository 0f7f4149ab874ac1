//! Running a script: a byte is taken after another, and a line is run before the next is read.
ghost use Rattle.std.specs.Prelude.{◌≡◌, ◌+◌, option_to_list, IsErr, IsErrOf, IsNone, IfOk, IfSome, OnOk, OnErr};
ghost use Rattle.std.specs.Io.KnownBytes.{Consumes, Keeps, IsAtEnd};
ghost use Rattle.layer_base.specs.Counts.{HasCause};
ghost use Rattle.layer_base.specs.Known.{Writes};
ghost use Rattle.space_memory.specs.State.{IsSameMemory};
ghost use Rattle.session.specs.Causes.{FaultsHaveCause};
ghost use Rattle.session.specs.Evidence.{evidence_in};
ghost use Rattle.session.specs.Headline.{GaveAtMost};
ghost use Rattle.session.specs.Kernel.{KeepsKernel};
ghost use Rattle.session.specs.Limits.{most_script};
ghost use Rattle.session.specs.Line.{line_said, is_quit};
ghost use Rattle.session.specs.Ran.{IsScriptEnd, RanOver};
ghost use Rattle.session.specs.Said.{text_part, dump_part};
ghost use Rattle.session.specs.Script.{script_run};
ghost use Rattle.session.specs.Turn.{turn_part, turn_line, turn_flow, rest_part};

use crate::Status;
use crate::command::{Flow, run_line};
use crate::desk::Desk;
use crate::line_buffer::LineBuffer;
use crate::status::{CommandFault, status_after, status_after_line};
use layer_base::{Failed, Layer, Sink, Source, Steps, write_whole};
use std::sync::ledger::Ledger;

/// The most bytes of a script that are read, but for the one that shows that there are more.
pub(crate) const MAX_SCRIPT: usize = 16_777_216;

// The next byte, or nothing at the end.
fn take_byte<S: Source>(script: &mut S) -> Result<Option<u8>, Failed>
    ensures taken { IfOk result (λ byte. Consumes (S.left script.old) (S.left script.new) (option_to_list byte)) }
    ensures end { IfOk result (λ byte. IsNone byte → IsAtEnd (S.left script.new)) }
    ensures err { OnErr result (Keeps (S.left script.old) (S.left script.new)) }
    ensures most { GaveAtMost 1 (S.left script.old) (S.left script.new) }
    ensures cause { HasCause (S.faults script.old) (S.faults script.new) (IsErr result) }
{
    let mut byte = [0u8; 1];
    let count = script.read(&mut byte)?;
    Ok(if count == 0 { None } else { Some(byte[0]) })
}

// Takes a byte into the line, or runs the line that it ends. Answers whether the script goes on.
fn take_in<Y: Layer, O: Sink, D: Sink, L: Ledger>(
    desk: &mut Desk<'_, '_, Y>,
    line: &mut LineBuffer,
    byte: u8,
    has_dump: bool,
    out: &mut O,
    dump: &mut D,
    steps: &mut Steps<L>,
) -> Result<Flow, CommandFault>
    requires kept { KeepsKernel desk.old.memory.view desk.old.file.table.now desk.old.found }
    ensures text { IfSome desk.old.memory.view (λ view.
        Writes (O.written out.old) (O.written out.new) result (turn_part (text_part (line_said has_dump (evidence_in view desk.old.file.table.now))) line.old byte)) }
    ensures dumped { IfSome desk.old.memory.view (λ view.
        Writes (D.written dump.old) (D.written dump.new) result (turn_part (dump_part (line_said has_dump (evidence_in view desk.old.file.table.now))) line.old byte)) }
    ensures flow { IfOk result (λ flow. flow ≡ turn_flow is_quit line.old byte) }
    ensures line { OnOk result (line.new ≡ turn_line line.old byte) }
    ensures memory { IsSameMemory desk.old.memory desk.new.memory }
    ensures kept { KeepsKernel desk.new.memory.view desk.new.file.table.now desk.new.found }
    ensures file { desk.new.file ≡ desk.old.file }
    ensures image { HasCause desk.old.memory.faults desk.new.memory.faults (IsErrOf result CommandFault.Image) }
    ensures out { HasCause (O.faults out.old) (O.faults out.new) (IsErrOf result CommandFault.Out) }
    ensures dump { HasCause (D.faults dump.old) (D.faults dump.new) (IsErrOf result CommandFault.Dump) }
{
    if byte != b'\n' {
        line.add(byte);
        return Ok(Flow::NextLine);
    }
    let flow = run_line(desk, line.bytes(), has_dump, out, dump, steps)?;
    line.clear();
    Ok(flow)
}

// Runs the line that lacks its newline, if there is one.
fn run_rest<Y: Layer, O: Sink, D: Sink, L: Ledger>(
    desk: &mut Desk<'_, '_, Y>,
    line: &LineBuffer,
    has_dump: bool,
    out: &mut O,
    dump: &mut D,
    steps: &mut Steps<L>,
) -> Result<(), CommandFault>
    requires kept { KeepsKernel desk.old.memory.view desk.old.file.table.now desk.old.found }
    ensures text { IfSome desk.old.memory.view (λ view.
        Writes (O.written out.old) (O.written out.new) result (rest_part (text_part (line_said has_dump (evidence_in view desk.old.file.table.now))) line.now)) }
    ensures dumped { IfSome desk.old.memory.view (λ view.
        Writes (D.written dump.old) (D.written dump.new) result (rest_part (dump_part (line_said has_dump (evidence_in view desk.old.file.table.now))) line.now)) }
    ensures memory { IsSameMemory desk.old.memory desk.new.memory }
    ensures kept { KeepsKernel desk.new.memory.view desk.new.file.table.now desk.new.found }
    ensures file { desk.new.file ≡ desk.old.file }
    ensures image { HasCause desk.old.memory.faults desk.new.memory.faults (IsErrOf result CommandFault.Image) }
    ensures out { HasCause (O.faults out.old) (O.faults out.new) (IsErrOf result CommandFault.Out) }
    ensures dump { HasCause (D.faults dump.old) (D.faults dump.new) (IsErrOf result CommandFault.Dump) }
{
    if let rest @ [_, ..] = line.bytes() {
        run_line(desk, rest, has_dump, out, dump, steps)?;
    }
    Ok(())
}

/// Runs the lines of a script, one after another through the first `quit`, and writes what they print and dump.
#[tactic(auto, using(crate::proofs::AtMost::gave_none, crate::proofs::AtMost::gave_more))]
pub(crate) fn run_script<Y: Layer, S: Source, O: Sink, D: Sink, L: Ledger>(
    desk: &mut Desk<'_, '_, Y>,
    script: &mut S,
    has_dump: bool,
    out: &mut O,
    dump: &mut D,
    steps: &mut Steps<L>,
) -> Status
    requires kept { KeepsKernel desk.old.memory.view desk.old.file.table.now desk.old.found }
    ensures ran { IfSome desk.old.memory.view (λ view. IfSome (S.left script.old) (λ bytes.
        RanOver (line_said has_dump (evidence_in view desk.old.file.table.now)) (script_run (line_said has_dump (evidence_in view desk.old.file.table.now)) is_quit bytes) bytes (S.left script.new)
        (O.written out.old) (O.written out.new) (D.written dump.old) (D.written dump.new) result)) }
    ensures most { GaveAtMost (most_script + 1) (S.left script.old) (S.left script.new) }
    ensures end { IsScriptEnd result }
    ensures memory { IsSameMemory desk.old.memory desk.new.memory }
    ensures causes { FaultsHaveCause desk.old.memory.faults desk.new.memory.faults (S.faults script.old) (S.faults script.new) (O.faults out.old) (O.faults out.new) (D.faults dump.old) (D.faults dump.new) result }
{
    let mut line = LineBuffer::new();
    for _ in 0..MAX_SCRIPT {
        match take_byte(script) {
            Err(Failed) => return Status::ScriptFault,
            Ok(None) => {
                return status_after(
                    Status::Ok,
                    run_rest(desk, &line, has_dump, out, dump, steps),
                );
            }
            Ok(Some(byte)) => match take_in(desk, &mut line, byte, has_dump, out, dump, steps) {
                Ok(Flow::NextLine) => {}
                Ok(Flow::Quit) => return Status::Ok,
                Err(fault) => return fault.status(),
            },
        }
    }
    match take_byte(script) {
        Err(Failed) => Status::ScriptFault,
        Ok(None) => status_after(
            Status::Ok,
            run_rest(desk, &line, has_dump, out, dump, steps),
        ),
        Ok(Some(_)) => status_after_line(
            Status::ScriptTooLong,
            write_whole(out, b"script too long\n"),
        ),
    }
}
