//! Members of objects whose type isn't told by a pointer: they are read as the table has them.
ghost use Rattle.std.specs.Prelude.{◌≡◌, option_map, Ok, Err, IfOk, IfSome, IsErr, IsErrOf};
ghost use Rattle.layer_base.specs.Counts.{HasCause};
ghost use Rattle.layer_base.specs.View.{physical};
ghost use Rattle.space_memory.specs.InSpace.{in_space};
ghost use Rattle.space_memory.specs.State.{IsSameMemory};
ghost use Rattle.type_layout.specs.Member.{spot};
ghost use Rattle.typed_object.specs.Members.{member_spot, member_number, member_word, member_text, offset_of, absent_stop};
ghost use Rattle.typed_object.specs.Place.{seen};

use crate::{ObjectFault, TextFault, View};
use isf_reader::Table;
use kernel_records::{Stop, WalkFault};
use layer_base::{DeviceFailed, Layer, Name, Number, Space, Steps};
use space_memory::Memory;
use std::alloc::Global;
use std::sync::ledger::Ledger;
use type_layout::Place;

/// How far a member stands from the start of its object; 0 where there is no such member.
pub fn offset_of(member: Option<Place<'_>>) -> u64
    ensures { result ≡ offset_of (option_map spot member.entry) }
{
    match member {
        Some(place) => place.offset,
        None => 0,
    }
}

/// Why a walk stops at an absent member of the object at an address: `Unreadable` at the member's place, or `Outside` at
/// the object where that place is above 2^64 - 1.
pub fn absent_stop(member: Option<Place<'_>>, at: u64) -> Stop
    ensures { result ≡ absent_stop (option_map spot member.entry) at }
{
    match at.checked_add(offset_of(member)) {
        Some(at) => Stop::Unreadable { at },
        None => Stop::Outside { at },
    }
}

/// The objects of a space, whose members are read by the places that a table has for them. A member that the table has
/// not is absent.
#[derive(Clone, Copy, Debug)]
pub struct Objects<'t> {
    pub table: &'t Table,
    pub space: Space,
}

impl<'t> Objects<'t> {
    // What stands at the place of a member.
    fn member<'p>(self, member: Option<Place<'p>>, at: u64) -> Option<View<'p>>
        ensures place { option_map seen result ≡ member_spot (option_map spot member.entry) at }
        ensures space { IfSome result (λ view. view.space ≡ self.entry.space) }
    {
        let place = member?;
        let at = at.checked_add(place.offset)?;
        Some(View {
            space: self.space,
            at,
            of: place.of,
        })
    }

    /// The number of a member of the object at an address. None where the member is absent, or its type has no number.
    /// `DeviceFailed` comes only where a call on the image's device failed. It takes no memory.
    pub fn number<Y: Layer, L: Ledger>(
        self,
        member: Option<Place<'_>>,
        at: u64,
        memory: &mut Memory<Y>,
        steps: &mut Steps<L>,
    ) -> Result<Option<Number>, DeviceFailed>
        ensures number { IfSome memory.old.view (λ told. IfOk result (λ n.
            n ≡ member_number (in_space (physical told) self.entry.space) self.entry.table.now (option_map spot member.entry) at)) }
        ensures memory { IsSameMemory memory.old memory.new }
        ensures cause { HasCause memory.old.faults memory.new.faults (IsErr result) }
    {
        let Some(view) = self.member(member, at) else {
            return Ok(None);
        };
        match view.number(self.table, memory, steps) {
            Ok(number) => Ok(Some(number)),
            Err(ObjectFault::Device) => Err(DeviceFailed),
            Err(ObjectFault::Fault(_) | ObjectFault::Hole { .. }) => Ok(None),
        }
    }

    /// The low 64 bits of the number of a member of the object at an address: an address, a word or a count. None where
    /// the member is absent, or its type has no number. It takes no memory.
    pub fn word<Y: Layer, L: Ledger>(
        self,
        member: Option<Place<'_>>,
        at: u64,
        memory: &mut Memory<Y>,
        steps: &mut Steps<L>,
    ) -> Result<Option<u64>, DeviceFailed>
        ensures word { IfSome memory.old.view (λ told. IfOk result (λ n.
            n ≡ member_word (in_space (physical told) self.entry.space) self.entry.table.now (option_map spot member.entry) at)) }
        ensures memory { IsSameMemory memory.old memory.new }
        ensures cause { HasCause memory.old.faults memory.new.faults (IsErr result) }
    {
        match self.number(member, at, memory, steps)? {
            Some(number) => Ok(Some(number.low_word())),
            None => Ok(None),
        }
    }

    /// The text of a member of the object at an address, an array of characters. None where one of the bytes that it needs
    /// is absent, or the member is no such array. `WalkFault.Device` comes only where a call on the image's device failed.
    pub fn text<Y: Layer, L: Ledger>(
        self,
        alloc: Global,
        member: Option<Place<'_>>,
        at: u64,
        memory: &mut Memory<Y>,
        steps: &mut Steps<L>,
    ) -> Result<Option<Name>, WalkFault>
        ensures text { IfSome memory.old.view (λ told. IfOk result (λ text.
            text ≡ member_text (in_space (physical told) self.entry.space) self.entry.table.now (option_map spot member.entry) at)) }
        ensures memory { IsSameMemory memory.old memory.new }
        ensures cause { HasCause memory.old.faults memory.new.faults (IsErrOf result WalkFault.Device) }
    {
        let Some(view) = self.member(member, at) else {
            return Ok(None);
        };
        match view.text(alloc, self.table, memory, steps) {
            Ok(text) => Ok(Some(text)),
            Err(TextFault::Object(ObjectFault::Device)) => Err(WalkFault::Device),
            Err(TextFault::Object(ObjectFault::Fault(_) | ObjectFault::Hole { .. })) => Ok(None),
            Err(TextFault::Memory) => Err(WalkFault::Memory),
        }
    }
}
