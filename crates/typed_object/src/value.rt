//! Values of views.
ghost use Rattle.std.specs.Prelude.{◌≡◌, ◌≤◌, Some, length, IfSome, IfOk, IsErrOf};
ghost use Rattle.layer_base.specs.Counts.{HasCause};
ghost use Rattle.layer_base.specs.Number.{low_word};
ghost use Rattle.layer_base.specs.View.{physical};
ghost use Rattle.kernel_records.specs.declared.value.Value.TheVariants as values;
ghost use Rattle.space_memory.specs.InSpace.{in_space};
ghost use Rattle.space_memory.specs.State.{IsSameMemory};
ghost use Rattle.typed_object.specs.Number.{number};
ghost use Rattle.typed_object.specs.Text.{text_from};
ghost use Rattle.typed_object.specs.Value.{answer_of_fault, value_by, most_significant_first, float_value, base_value, enum_value, value_in, value};
ghost use Rattle.typed_object.specs.Bytes.{bytes_of};
ghost use Rattle.isf_reader.specs.declared.type_ref.TypeRef.{out-TypeRef};

use crate::constants::name_of;
use crate::read::read_bytes;
use crate::text::read_text;
use crate::types::is_character;
use crate::{ObjectFault, TextFault, ValueFault, View};
use isf_reader::{BaseKind, BaseType, EnumType, Table, TypeRef};
use kernel_records::Value;
use layer_base::{Layer, Name, Steps};
use space_memory::Memory;
use std::alloc::{AllocError, Global};
use std::sync::ledger::Ledger;
use type_layout::{TypeFault, size_of};

const MOST_BYTES: u64 = 16;

// The value of an object that has no number, bytes or text.
fn value_of_fault(fault: ObjectFault) -> Result<Value, ValueFault>
    ensures { result ≡ answer_of_fault fault }
{
    match fault {
        ObjectFault::Fault(TypeFault::PastEnd) | ObjectFault::Hole { .. } => Ok(Value::Absent),
        ObjectFault::Fault(_) => Ok(Value::Unknown),
        ObjectFault::Device => Err(ValueFault::Device),
    }
}

// The value of an object with a number.
fn number_value<Y: Layer, L: Ledger>(
    view: View<'_>,
    table: &Table,
    memory: &mut Memory<Y>,
    steps: &mut Steps<L>,
) -> Result<Value, ValueFault>
    ensures value { IfSome memory.old.view (λ told. IfOk result (λ v.
        v ≡ value_by values.Number (number (in_space (physical told) view.entry.space) table.now view.entry.at view.entry.of.now))) }
    ensures memory { IsSameMemory memory.old memory.new }
    ensures cause { HasCause memory.old.faults memory.new.faults (IsErrOf result ValueFault.Device) }
{
    match view.number(table, memory, steps) {
        Ok(number) => Ok(Value::Number(number)),
        Err(fault) => value_of_fault(fault),
    }
}

// The value of a pointer.
fn pointer_value<Y: Layer, L: Ledger>(
    view: View<'_>,
    table: &Table,
    memory: &mut Memory<Y>,
    steps: &mut Steps<L>,
) -> Result<Value, ValueFault>
    ensures value { IfSome memory.old.view (λ told. IfOk result (λ v.
        v ≡ value_by (λ m. values.Pointer (low_word m)) (number (in_space (physical told) view.entry.space) table.now view.entry.at view.entry.of.now))) }
    ensures memory { IsSameMemory memory.old memory.new }
    ensures cause { HasCause memory.old.faults memory.new.faults (IsErrOf result ValueFault.Device) }
{
    match view.number(table, memory, steps) {
        Ok(number) => Ok(Value::Pointer(number.low_word())),
        Err(fault) => value_of_fault(fault),
    }
}

// The value of an enum.
fn enum_value<Y: Layer, L: Ledger>(
    alloc: Global,
    view: View<'_>,
    table: &Table,
    enumeration: &EnumType,
    memory: &mut Memory<Y>,
    steps: &mut Steps<L>,
) -> Result<Value, ValueFault>
    ensures value { IfSome memory.old.view (λ told. IfOk result (λ v.
        v ≡ enum_value (number (in_space (physical told) view.entry.space) table.now view.entry.at view.entry.of.now) (Some enumeration.now))) }
    ensures memory { IsSameMemory memory.old memory.new }
    ensures cause { HasCause memory.old.faults memory.new.faults (IsErrOf result ValueFault.Device) }
{
    match view.number(table, memory, steps) {
        Ok(number) => Ok(Value::Enum {
            number,
            name: name_of(alloc, number, enumeration.constants.items())?,
        }),
        Err(fault) => value_of_fault(fault),
    }
}

// Bytes, the most significant one first.
fn most_significant_first(alloc: Global, big: bool, bytes: &[u8]) -> Result<Name, AllocError>
    ensures { IfOk result (λ name. name ≡ most_significant_first big bytes.now) }
{
    let mut ordered = Vec::from_slice(alloc, bytes)?;
    if !big {
        ordered.reverse();
    }
    Ok(Name::from(ordered))
}

// The value of a float, whose bytes are read into the buffer.
fn read_float<Y: Layer, L: Ledger>(
    alloc: Global,
    view: View<'_>,
    big: bool,
    memory: &mut Memory<Y>,
    buf: &mut [u8],
    steps: &mut Steps<L>,
) -> Result<Value, ValueFault>
    ensures value { IfSome memory.old.view (λ told. IfOk result (λ v.
        v ≡ value_by (λ bytes. values.Raw (most_significant_first big bytes)) (bytes_of (in_space (physical told) view.entry.space) view.entry.at (length buf.old)))) }
    ensures memory { IsSameMemory memory.old memory.new }
    ensures cause { HasCause memory.old.faults memory.new.faults (IsErrOf result ValueFault.Device) }
{
    match read_bytes(memory, view.space, view.at, buf, steps) {
        Ok(()) => Ok(Value::Raw {
            bytes: most_significant_first(alloc, big, buf)?,
        }),
        Err(fault) => value_of_fault(fault),
    }
}

// The value of a float, which is read where it has at most 16 bytes.
fn float_value<Y: Layer, L: Ledger>(
    alloc: Global,
    view: View<'_>,
    base: &BaseType,
    memory: &mut Memory<Y>,
    steps: &mut Steps<L>,
) -> Result<Value, ValueFault>
    ensures value { IfSome memory.old.view (λ told. IfOk result (λ v.
        v ≡ float_value (in_space (physical told) view.entry.space) view.entry.at base.now)) }
    ensures memory { IsSameMemory memory.old memory.new }
    ensures cause { HasCause memory.old.faults memory.new.faults (IsErrOf result ValueFault.Device) }
{
    if base.size > MOST_BYTES {
        return Ok(Value::Unknown);
    }
    let mut buf = [0; 16];
    read_float(
        alloc,
        view,
        base.big,
        memory,
        &mut buf[..base.size as usize],
        steps,
    )
}

// The value of a base type.
fn base_value<Y: Layer, L: Ledger>(
    alloc: Global,
    view: View<'_>,
    table: &Table,
    base: &BaseType,
    memory: &mut Memory<Y>,
    steps: &mut Steps<L>,
) -> Result<Value, ValueFault>
    ensures value { IfSome memory.old.view (λ told. IfOk result (λ v.
        v ≡ base_value (in_space (physical told) view.entry.space) view.entry.at
        (number (in_space (physical told) view.entry.space) table.now view.entry.at view.entry.of.now) (Some base.now))) }
    ensures memory { IsSameMemory memory.old memory.new }
    ensures cause { HasCause memory.old.faults memory.new.faults (IsErrOf result ValueFault.Device) }
{
    match base.kind {
        BaseKind::Int | BaseKind::Char | BaseKind::Bool => number_value(view, table, memory, steps),
        BaseKind::Float => float_value(alloc, view, base, memory, steps),
        BaseKind::Void => Ok(Value::Void),
    }
}

// The value of an array of characters.
fn text_value<Y: Layer, L: Ledger>(
    alloc: Global,
    view: View<'_>,
    count: u64,
    memory: &mut Memory<Y>,
    steps: &mut Steps<L>,
) -> Result<Value, ValueFault>
    ensures value { IfSome memory.old.view (λ told. IfOk result (λ v.
        v ≡ value_by values.Text (text_from (in_space (physical told) view.entry.space) view.entry.at count))) }
    ensures memory { IsSameMemory memory.old memory.new }
    ensures cause { HasCause memory.old.faults memory.new.faults (IsErrOf result ValueFault.Device) }
{
    match read_text(alloc, memory, view.space, view.at, count, steps) {
        Ok(text) => Ok(Value::Text(text)),
        Err(TextFault::Object(fault)) => value_of_fault(fault),
        Err(TextFault::Memory) => Err(ValueFault::Memory),
    }
}

// The value of a type whose size isn't at fault.
fn sized_value<Y: Layer, L: Ledger>(
    alloc: Global,
    view: View<'_>,
    table: &Table,
    memory: &mut Memory<Y>,
    steps: &mut Steps<L>,
) -> Result<Value, ValueFault>
    ensures value { IfSome memory.old.view (λ told. IfOk result (λ v.
        v ≡ value_in (in_space (physical told) view.entry.space) table.now view.entry.at
        (number (in_space (physical told) view.entry.space) table.now view.entry.at view.entry.of.now) (out-TypeRef view.entry.of.now))) }
    ensures memory { IsSameMemory memory.old memory.new }
    ensures cause { HasCause memory.old.faults memory.new.faults (IsErrOf result ValueFault.Device) }
{
    match view.of {
        TypeRef::Base(name) => match table.base(name.items()) {
            Some(base) => base_value(alloc, view, table, base, memory, steps),
            None => Ok(Value::Unknown),
        },
        TypeRef::Enum(name) => match table.enumeration(name.items()) {
            Some(enumeration) => enum_value(alloc, view, table, enumeration, memory, steps),
            None => Ok(Value::Unknown),
        },
        TypeRef::Pointer(_) => pointer_value(view, table, memory, steps),
        TypeRef::Bits { .. } => number_value(view, table, memory, steps),
        TypeRef::Array { count, of } => {
            if is_character(table, of.get()) {
                text_value(alloc, view, *count, memory, steps)
            } else {
                Ok(Value::Array { count: *count })
            }
        },
        TypeRef::Struct(_) | TypeRef::Union(_) | TypeRef::Class(_) => Ok(Value::Compound),
        TypeRef::Function => Ok(Value::Function),
    }
}

/// The value of a view.
#[tactic(auto, unfolding(crate::specs::Value::value))]
pub(crate) fn read_value<Y: Layer, L: Ledger>(
    alloc: Global,
    view: View<'_>,
    table: &Table,
    memory: &mut Memory<Y>,
    steps: &mut Steps<L>,
) -> Result<Value, ValueFault>
    ensures value { IfSome memory.old.view (λ told. IfOk result (λ v.
        v ≡ value (in_space (physical told) view.entry.space) table.now view.entry.at view.entry.of.now)) }
    ensures memory { IsSameMemory memory.old memory.new }
    ensures cause { HasCause memory.old.faults memory.new.faults (IsErrOf result ValueFault.Device) }
{
    if size_of(table, view.of).is_err() {
        return Ok(Value::Unknown);
    }
    sized_value(alloc, view, table, memory, steps)
}
