//! Reading texts, a piece at a time: memory grows with the text, and not with the array that it stands in.
ghost use Rattle.std.specs.Prelude.{◌<◌, IfOk, IfErr, IfSome, IsErrOf};
ghost use Rattle.layer_base.specs.Counts.{HasCause};
ghost use Rattle.layer_base.specs.View.{physical};
ghost use Rattle.space_memory.specs.InSpace.{in_space};
ghost use Rattle.space_memory.specs.State.{IsSameMemory};
ghost use Rattle.typed_object.specs.Answers.{TextAnswersAs, TextFaultsAs, IsTextWithin};
ghost use Rattle.typed_object.specs.Text.{text_from, TakesBeforeZero, AddsText, GrowsWithin};

use crate::{ObjectFault, TextFault};
use layer_base::{Layer, Name, Run, Space, Steps, room_within};
use memchr::memchr;
use space_memory::Memory;
use std::alloc::{AllocError, Global};
use std::sync::ledger::Ledger;
use type_layout::TypeFault;

const PIECE: usize = 64;

// Puts the bytes before the first zero byte, or all, behind a text. Tells whether there is one.
fn append_before_zero(text: &mut Vec<u8>, bytes: &[u8]) -> Result<bool, AllocError>
    ensures { IfOk result (TakesBeforeZero text.old.items text.new.items bytes.now) }
{
    match memchr(0, bytes) {
        Some(end) => {
            text.extend_from_slice(&bytes[..end])?;
            Ok(true)
        },
        None => {
            text.extend_from_slice(bytes)?;
            Ok(false)
        },
    }
}

// Puts what one run of the memory has of a text behind the text so far, of which at most so many bytes more are missing.
// Tells whether the text has ended.
fn append_run<Y: Layer, L: Ledger>(
    memory: &mut Memory<Y>,
    space: Space,
    at: u64,
    missing: u64,
    text: &mut Vec<u8>,
    steps: &mut Steps<L>,
) -> Result<bool, TextFault>
    requires { 0 < missing }
    ensures adds { IfSome memory.old.view (λ told. IfOk result (AddsText (in_space (physical told) space) at missing text.old.items text.new.items)) }
    ensures grows { IfOk result (GrowsWithin missing text.old.items text.new.items) }
    ensures fault { IfSome memory.old.view (λ told. IfErr result (TextFaultsAs (text_from (in_space (physical told) space) at missing))) }
    ensures within { IfErr result (IsTextWithin at missing) }
    ensures memory { IsSameMemory memory.old memory.new }
    ensures cause { HasCause memory.old.faults memory.new.faults (IsErrOf result (TextFault.Object ObjectFault.Device)) }
{
    let mut buf = [0; PIECE];
    let room = room_within(missing - 1, buf.len());
    match memory.run_at(space, at, &mut buf[..room], steps)? {
        Run::Present { count } => Ok(append_before_zero(text, &buf[..count])?),
        Run::Absent { .. } => Err(TextFault::Object(ObjectFault::Hole { at })),
    }
}

/// The bytes of a space from an address on before the first zero byte, or so many. Errors: the first byte up to the first
/// zero byte that is absent, or `PastEnd` where none is absent and one lies above 2^64 - 1.
pub fn read_text<Y: Layer, L: Ledger>(
    alloc: Global,
    memory: &mut Memory<Y>,
    space: Space,
    at: u64,
    count: u64,
    steps: &mut Steps<L>,
) -> Result<Name, TextFault>
    ensures text { IfSome memory.old.view (λ told. TextAnswersAs (text_from (in_space (physical told) space) at count) result) }
    ensures within { IfErr result (IsTextWithin at count) }
    ensures memory { IsSameMemory memory.old memory.new }
    ensures cause { HasCause memory.old.faults memory.new.faults (IsErrOf result (TextFault.Object ObjectFault.Device)) }
{
    let mut text = Vec::new(alloc);
    'pieces: while (text.len() as u64) < count {
        let done = text.len() as u64;
        let Some(next) = at.checked_add(done) else {
            return Err(TextFault::Object(ObjectFault::Fault(TypeFault::PastEnd)));
        };
        if append_run(memory, space, next, count - done, &mut text, steps)? {
            return Ok(Name::from(text));
        }
    }
    Ok(Name::from(text))
}
