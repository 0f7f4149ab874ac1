//! Reading the areas of a process's memory.
ghost use Rattle.std.specs.Prelude.{◌≡◌, IfOk, IfSome, IsErr};
ghost use Rattle.layer_base.specs.Counts.{HasCause};
ghost use Rattle.layer_base.specs.View.{physical};
ghost use Rattle.space_memory.specs.InSpace.{in_space};
ghost use Rattle.space_memory.specs.State.{IsSameMemory};
ghost use Rattle.typed_object.specs.Ground.{kernel_space};
ghost use Rattle.vma_walk.specs.Area.{area_members, area_at};
ghost use Rattle.vma_walk.specs.Members.{members_of};

use kernel_records::{Area, Need};
use layer_base::{DeviceFailed, Layer, Steps};
use space_memory::Memory;
use std::sync::ledger::Ledger;
use type_layout::Place;
use typed_object::{Ground, Objects};

/// Reads areas. The places of their members are looked up once.
#[derive(Clone, Copy)]
pub struct AreaReader<'t> {
    pub objects: Objects<'t>,
    pub start: Option<Place<'t>>,
    pub end: Option<Place<'t>>,
    pub flags: Option<Place<'t>>,
    pub pgoff: Option<Place<'t>>,
    pub file: Option<Place<'t>>,
}

impl<'t> AreaReader<'t> {
    /// Looks the members up. It takes no memory.
    pub fn of(ground: Ground<'_, 't>) -> AreaReader<'t>
        ensures members { members_of result ≡ area_members ground.entry.table.now }
        ensures table { result.objects.table.now ≡ ground.entry.table.now }
        ensures space { result.objects.space ≡ kernel_space ground.entry.kernel }
    {
        AreaReader {
            objects: ground.objects(),
            start: ground.needed_member(Need::VmAreaStructVmStart),
            end: ground.needed_member(Need::VmAreaStructVmEnd),
            flags: ground.needed_member(Need::VmAreaStructVmFlags),
            pgoff: ground.needed_member(Need::VmAreaStructVmPgoff),
            file: ground.needed_member(Need::VmAreaStructVmFile),
        }
    }

    /// The area at an address. What is absent of it is none. `DeviceFailed` comes only where a call on the image's device
    /// failed. It takes no memory.
    #[tactic(auto, unfolding(crate::specs::Area::area_at))]
    pub fn area_at<Y: Layer, L: Ledger>(
        self,
        at: u64,
        memory: &mut Memory<Y>,
        steps: &mut Steps<L>,
    ) -> Result<Area, DeviceFailed>
        ensures area { IfSome memory.old.view (λ view. IfOk result (λ area.
            area ≡ area_at (in_space (physical view) self.entry.objects.space) self.entry.objects.table.now (members_of self.entry) at)) }
        ensures memory { IsSameMemory memory.old memory.new }
        ensures cause { HasCause memory.old.faults memory.new.faults (IsErr result) }
    {
        Ok(Area {
            start: self.objects.number(self.start, at, memory, steps)?,
            end: self.objects.number(self.end, at, memory, steps)?,
            flags: self.objects.number(self.flags, at, memory, steps)?,
            pgoff: self.objects.number(self.pgoff, at, memory, steps)?,
            file: self.objects.word(self.file, at, memory, steps)?,
        })
    }
}
