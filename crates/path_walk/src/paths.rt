//! What paths are read from.
ghost use Rattle.std.specs.Prelude.{◌≡◌, option_map, IfOk, IfSome, IsErr};
ghost use Rattle.layer_base.specs.Counts.{HasCause};
ghost use Rattle.layer_base.specs.View.{physical};
ghost use Rattle.space_memory.specs.State.{IsSameMemory};
ghost use Rattle.type_layout.specs.Member.{spot};
ghost use Rattle.typed_object.specs.Ground.{kernel_space, kernel_memory};
ghost use Rattle.typed_object.specs.Members.{member_number, member_word};
ghost use Rattle.path_walk.specs.Places.{ArePlaces, ArePlaces-prop, AreFunctions};

use crate::places::{Functions, Places, functions_of, places_of};
use isf_reader::Table;
use kernel_records::Kernel;
use layer_base::{DeviceFailed, Layer, Number, Space, Steps};
use space_memory::Memory;
use std::sync::ledger::Ledger;
use type_layout::Place;
use typed_object::{Ground, Objects};

/// The files, mounts and dentries of a kernel, whose members are looked up once.
#[derive(Clone, Copy, Debug)]
pub struct Paths<'t> {
    pub table: &'t Table,
    pub kernel: Kernel,
    pub(crate) space: Space,
    pub(crate) places: Places<'t>,
    pub(crate) functions: Functions,
    ghost same: { space ≡ kernel_space kernel },
    ghost found: { ArePlaces table.now places } by { ArePlaces-prop table.now places },
    ghost named: { AreFunctions table.now functions },
}

impl<'t> Paths<'t> {
    /// Looks up what paths need. It takes no memory.
    pub fn of(ground: &Ground<'_, 't>) -> Paths<'t>
        ensures table { result.table.now ≡ ground.now.table.now }
        ensures kernel { result.kernel ≡ ground.now.kernel }
    {
        let ground = *ground;
        Paths {
            table: ground.table,
            kernel: ground.kernel,
            space: ground.space(),
            places: places_of(ground),
            functions: functions_of(ground),
        }
    }

    // The number of a member of the object at an address.
    pub(crate) fn number<Y: Layer, L: Ledger>(
        &self,
        member: Option<Place<'_>>,
        at: u64,
        memory: &mut Memory<Y>,
        steps: &mut Steps<L>,
    ) -> Result<Option<Number>, DeviceFailed>
        ensures number { IfSome memory.old.view (λ told. IfOk result (λ n.
            n ≡ member_number (kernel_memory (physical told) self.now.kernel) self.now.table.now (option_map spot member.entry) at)) }
        ensures memory { IsSameMemory memory.old memory.new }
        ensures cause { HasCause memory.old.faults memory.new.faults (IsErr result) }
    {
        let objects = Objects {
            table: self.table,
            space: self.space,
        };
        objects.number(member, at, memory, steps)
    }

    // The number of a member as an address.
    pub(crate) fn word<Y: Layer, L: Ledger>(
        &self,
        member: Option<Place<'_>>,
        at: u64,
        memory: &mut Memory<Y>,
        steps: &mut Steps<L>,
    ) -> Result<Option<u64>, DeviceFailed>
        ensures word { IfSome memory.old.view (λ told. IfOk result (λ n.
            n ≡ member_word (kernel_memory (physical told) self.now.kernel) self.now.table.now (option_map spot member.entry) at)) }
        ensures memory { IsSameMemory memory.old memory.new }
        ensures cause { HasCause memory.old.faults memory.new.faults (IsErr result) }
    {
        let objects = Objects {
            table: self.table,
            space: self.space,
        };
        objects.word(member, at, memory, steps)
    }
}
