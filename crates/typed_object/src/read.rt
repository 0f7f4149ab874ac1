//! Reading the bytes of an object.
ghost use Rattle.std.specs.Prelude.{◌≡◌, ◌+◌, ◌^◌, ◌≤◌, length, nat_le, Ok, IfSome, IfErr, IsErrOf};
ghost use Rattle.layer_base.specs.Counts.{HasCause};
ghost use Rattle.layer_base.specs.View.{physical};
ghost use Rattle.space_memory.specs.InSpace.{in_space};
ghost use Rattle.space_memory.specs.State.{IsSameMemory};
ghost use Rattle.typed_object.specs.Answers.{AnswersAs, ReadsAs, IsWithin};
ghost use Rattle.typed_object.specs.Bytes.{bytes_of};
ghost use Rattle.typed_object.specs.Number.{number_by};

use crate::decode::decoded;
use crate::form::Form;
use crate::{ObjectFault, View};
use layer_base::{Layer, Number, Space, Steps};
use space_memory::{Got, Memory};
use std::sync::ledger::Ledger;
use type_layout::TypeFault;

const END: u128 = 1 << 64;

// Whether so many bytes from an address on end at the last address at most.
fn fits(at: u64, size: usize) -> bool
    ensures { result ≡ nat_le (at + size) (2 ^ 64) }
{
    u128::from(at) + size as u128 <= END
}

/// Fills a buffer with the bytes from an address on.
pub(crate) fn read_bytes<Y: Layer, L: Ledger>(
    memory: &mut Memory<Y>,
    space: Space,
    at: u64,
    buf: &mut [u8],
    steps: &mut Steps<L>,
) -> Result<(), ObjectFault>
    ensures bytes { IfSome memory.old.view (λ view.
        ReadsAs (bytes_of (in_space (physical view) space) at (length buf.old)) buf.new result) }
    ensures within { IfErr result (IsWithin at (length buf.old)) }
    ensures memory { IsSameMemory memory.old memory.new }
    ensures cause { HasCause memory.old.faults memory.new.faults (IsErrOf result ObjectFault.Device) }
{
    if !fits(at, buf.len()) {
        return Err(ObjectFault::Fault(TypeFault::PastEnd));
    }
    match memory.read(space, at, buf, steps)? {
        Got::All => Ok(()),
        Got::Hole { at } => Err(ObjectFault::Hole { at }),
    }
}

/// The number of a view's type in a form, whose bytes are read into the buffer.
pub(crate) fn read_number<Y: Layer, L: Ledger>(
    memory: &mut Memory<Y>,
    view: View<'_>,
    form: &Form,
    buf: &mut [u8],
    steps: &mut Steps<L>,
) -> Result<Number, ObjectFault>
    requires small { form.now.size ≤ 16 }
    requires whole { length buf.old ≡ form.now.size }
    ensures number { IfSome memory.old.view (λ told.
        AnswersAs (number_by (in_space (physical told) view.entry.space) view.entry.at view.entry.of.now (Ok form.now)) result) }
    ensures within { IfErr result (IsWithin view.entry.at form.now.size) }
    ensures memory { IsSameMemory memory.old memory.new }
    ensures cause { HasCause memory.old.faults memory.new.faults (IsErrOf result ObjectFault.Device) }
{
    read_bytes(memory, view.space, view.at, buf, steps)?;
    Ok(decoded(view.of, form, buf))
}
