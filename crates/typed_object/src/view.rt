//! Views: places in memory, with the types that stand there.
ghost use Rattle.std.specs.Prelude.{◌≡◌, ◌≤◌, Ok, Err, IfSome, IfOk, IfErr, IfNone, IsErrOf};
ghost use Rattle.std.specs.Result.{result_map_both};
ghost use Rattle.layer_base.specs.Counts.{HasCause};
ghost use Rattle.layer_base.specs.View.{physical};
ghost use Rattle.isf_reader.specs.declared.type_ref.TypeRef.{out-TypeRef};
ghost use Rattle.space_memory.specs.InSpace.{in_space};
ghost use Rattle.space_memory.specs.State.{IsSameMemory};
ghost use Rattle.type_layout.specs.Member.{spot};
ghost use Rattle.typed_object.specs.Answers.{AnswersAs, TextAnswersAs, IsWithin, IsTextWithin};
ghost use Rattle.typed_object.specs.Form.{number_form};
ghost use Rattle.typed_object.specs.Number.{number};
ghost use Rattle.typed_object.specs.Place.{seen, placed, member_at, element_at};
ghost use Rattle.typed_object.specs.Target.{pointee, target};
ghost use Rattle.typed_object.specs.Text.{characters, text};
ghost use Rattle.typed_object.specs.Value.{value};

use crate::form::number_form;
use crate::read::read_number;
use crate::text::read_text;
use crate::types::characters;
use crate::value::read_value;
use crate::{ObjectFault, TextFault, ValueFault};
use isf_reader::{Table, TypeRef};
use kernel_records::Value;
use layer_base::{Layer, Name, Number, Space, Steps};
use space_memory::Memory;
use std::alloc::Global;
use std::sync::ledger::Ledger;
use type_layout::{Place, TypeFault, element, member};

/// An object in memory: a space of addresses, the object's address and its type.
#[derive(Clone, Copy, Debug)]
pub struct View<'t> {
    pub space: Space,
    pub at: u64,
    pub of: &'t TypeRef,
}

impl<'t> View<'t> {
    /// What stands at a place within the object. Whoever reads the same member of many objects asks the table for its
    /// place once. `PastEnd` comes exactly where the place is above 2^64 - 1.
    pub fn at_place(self, place: Place<'t>) -> Result<View<'t>, TypeFault>
        ensures place { result_map_both seen (λ fault. fault) result ≡ placed self.entry.at (spot place.entry) }
        ensures space { IfOk result (λ view. view.space ≡ self.entry.space) }
    {
        let at = self.at.checked_add(place.offset).ok_or(TypeFault::PastEnd)?;
        Ok(View {
            at,
            of: place.of,
            ..self
        })
    }

    /// The member of that name. Errors: those of `type_layout::member`, else `PastEnd` where its place is above 2^64 - 1.
    pub fn member(self, table: &'t Table, name: &[u8]) -> Result<View<'t>, TypeFault>
        ensures place { result_map_both seen (λ fault. fault) result ≡ member_at table.now self.entry.at self.entry.of.now name.now }
        ensures space { IfOk result (λ view. view.space ≡ self.entry.space) }
    {
        self.at_place(member(table, self.of, name)?)
    }

    /// The element of that index. Errors: those of `type_layout::element`, else `PastEnd` where its place is above 2^64 - 1.
    pub fn element(self, table: &'t Table, index: u64) -> Result<View<'t>, TypeFault>
        ensures place { result_map_both seen (λ fault. fault) result ≡ element_at table.now self.entry.at self.entry.of.now index }
        ensures space { IfOk result (λ view. view.space ≡ self.entry.space) }
    {
        self.at_place(element(table, self.of, index)?)
    }

    /// The number of the object. A fault of the type comes before any reading: `NotNumber`, `NoType`, and `TooBig` for a
    /// number of more than 16 bytes. Then come `PastEnd` where its bytes end above 2^64 - 1, and the first absent byte. It
    /// takes no memory.
    #[tactic(auto, unfolding(crate::specs::Number::number))]
    pub fn number<Y: Layer, L: Ledger>(
        self,
        table: &Table,
        memory: &mut Memory<Y>,
        steps: &mut Steps<L>,
    ) -> Result<Number, ObjectFault>
        ensures number { IfSome memory.old.view (λ told.
            AnswersAs (number (in_space (physical told) self.entry.space) table.now self.entry.at self.entry.of.now) result) }
        ensures type_fault { IfErr (number_form table.now self.entry.of.now) (λ fault. result ≡ Err (ObjectFault.Fault fault)) }
        ensures within { IfOk (number_form table.now self.entry.of.now) (λ form. IfErr result (IsWithin self.entry.at form.size)) }
        ensures memory { IsSameMemory memory.old memory.new }
        ensures cause { HasCause memory.old.faults memory.new.faults (IsErrOf result ObjectFault.Device) }
    {
        let form = number_form(table, self.of)?;
        let mut buf = [0; 16];
        read_number(memory, self, &form, &mut buf[..form.size as usize], steps)
    }

    /// What the pointer points to, in the same space. Errors: `NotPointer` for any other type, else those of `number`. It
    /// takes no memory.
    #[tactic(auto, unfolding(crate::specs::Target::target))]
    pub fn deref<Y: Layer, L: Ledger>(
        self,
        table: &'t Table,
        memory: &mut Memory<Y>,
        steps: &mut Steps<L>,
    ) -> Result<View<'t>, ObjectFault>
        ensures target { IfSome memory.old.view (λ told.
            AnswersAs (target (in_space (physical told) self.entry.space) table.now self.entry.at self.entry.of.now) (result_map_both seen (λ fault. fault) result)) }
        ensures space { IfOk result (λ view. view.space ≡ self.entry.space) }
        ensures not_pointer { IfErr (pointee (out-TypeRef self.entry.of.now)) (IsErrOf result) }
        ensures within { IfOk (number_form table.now self.entry.of.now) (λ form. IfErr result (IsWithin self.entry.at form.size)) }
        ensures memory { IsSameMemory memory.old memory.new }
        ensures cause { HasCause memory.old.faults memory.new.faults (IsErrOf result ObjectFault.Device) }
    {
        let TypeRef::Pointer(of) = self.of else {
            return Err(ObjectFault::Fault(TypeFault::NotPointer));
        };
        let number = self.number(table, memory, steps)?;
        Ok(View {
            at: number.low_word(),
            of: of.get(),
            ..self
        })
    }

    /// The text of the object, an array of characters of one byte: its bytes before the first zero byte, or all. Errors:
    /// `NotArray` for any other type, then the first byte up to the first zero byte that is absent, or `PastEnd` where
    /// none is absent and one lies above 2^64 - 1.
    pub fn text<Y: Layer, L: Ledger>(
        self,
        alloc: Global,
        table: &Table,
        memory: &mut Memory<Y>,
        steps: &mut Steps<L>,
    ) -> Result<Name, TextFault>
        ensures text { IfSome memory.old.view (λ told.
            TextAnswersAs (text (in_space (physical told) self.entry.space) table.now self.entry.at self.entry.of.now) result) }
        ensures not_array { IfNone (characters table.now self.entry.of.now) (IsErrOf result (TextFault.Object (ObjectFault.Fault TypeFault.NotArray))) }
        ensures within { IfSome (characters table.now self.entry.of.now) (λ count. IfErr result (IsTextWithin self.entry.at count)) }
        ensures memory { IsSameMemory memory.old memory.new }
        ensures cause { HasCause memory.old.faults memory.new.faults (IsErrOf result (TextFault.Object ObjectFault.Device)) }
    {
        match characters(table, self.of) {
            Some(count) => read_text(alloc, memory, self.space, self.at, count, steps),
            None => Err(TextFault::Object(ObjectFault::Fault(TypeFault::NotArray))),
        }
    }

    /// The value of the object, by its type: the number of a base type, a bit field, a pointer or an enum, with the first
    /// name that an enum has for it; the bytes of a float; the text of an array of characters; the count of another array.
    /// `Unknown` where the size of the type is at fault, where its number has a fault other than `PastEnd`, or for a float
    /// of more than 16 bytes; else `Absent` where a byte that the value needs is absent or lies above 2^64 - 1.
    pub fn value<Y: Layer, L: Ledger>(
        self,
        alloc: Global,
        table: &Table,
        memory: &mut Memory<Y>,
        steps: &mut Steps<L>,
    ) -> Result<Value, ValueFault>
        ensures value { IfSome memory.old.view (λ told. IfOk result (λ v.
            v ≡ value (in_space (physical told) self.entry.space) table.now self.entry.at self.entry.of.now)) }
        ensures memory { IsSameMemory memory.old memory.new }
        ensures cause { HasCause memory.old.faults memory.new.faults (IsErrOf result ValueFault.Device) }
    {
        read_value(alloc, self, table, memory, steps)
    }
}
