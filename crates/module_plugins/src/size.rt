//! The size of a module.
ghost use Rattle.std.specs.Prelude.{◌≡◌, ◌*◌, ◌^◌, ◌<◌, option_map, IfOk, IfSome, IsErr};
ghost use Rattle.layer_base.specs.Counts.{HasCause};
ghost use Rattle.layer_base.specs.View.{physical};
ghost use Rattle.space_memory.specs.InSpace.{in_space};
ghost use Rattle.space_memory.specs.State.{IsSameMemory};
ghost use Rattle.type_layout.specs.Member.{spot};
ghost use Rattle.module_plugins.specs.Places.{parts_at};
ghost use Rattle.module_plugins.specs.Size.{size_within, module_member, layout_size, size_parts, word_sum, size_at};

use isf_reader::Table;
use layer_base::{DeviceFailed, Layer, Steps};
use space_memory::Memory;
use std::sync::ledger::Ledger;
use type_layout::{Place, member};
use typed_object::{Ground, Objects};

/// Where the two parts of a module's size stand.
#[derive(Clone, Copy, Debug)]
pub(crate) struct SizePlaces<'t> {
    pub(crate) core: Option<Place<'t>>,
    pub(crate) initial: Option<Place<'t>>,
}

fn module_member<'t>(ground: Ground<'_, 't>, name: &[u8]) -> Option<Place<'t>>
    ensures place { option_map spot result ≡ module_member ground.entry.table.now name.now }
    ensures near { IfSome result (λ place. place.offset < 33 * 2 ^ 32) }
{
    ground.member(b"module", name)
}

// Where a layout has its size, by the type that the table gives the layout.
fn size_within<'t>(table: &'t Table, layout: Place<'t>) -> Option<Place<'t>>
    requires { layout.offset < 33 * 2 ^ 32 }
    ensures { option_map spot result ≡ size_within table.now (spot layout.entry) }
{
    let size = member(table, layout.of, b"size").ok()?;
    Some(Place {
        offset: layout.offset + size.offset,
        of: size.of,
    })
}

fn layout_size<'t>(ground: Ground<'_, 't>, name: &[u8]) -> Option<Place<'t>>
    ensures { option_map spot result ≡ layout_size ground.entry.table.now name.now }
{
    size_within(ground.table, module_member(ground, name)?)
}

/// Where a table has the two parts of a module's size: the sizes of `core_layout` and `init_layout` where modules have a
/// `core_layout`, else `core_size` and `init_size`.
pub(crate) fn size_places<'t>(ground: Ground<'_, 't>) -> SizePlaces<'t>
    ensures { parts_at result ≡ size_parts ground.entry.table.now }
{
    match module_member(ground, b"core_layout") {
        Some(layout) => SizePlaces {
            core: size_within(ground.table, layout),
            initial: layout_size(ground, b"init_layout"),
        },
        None => SizePlaces {
            core: module_member(ground, b"core_size"),
            initial: module_member(ground, b"init_size"),
        },
    }
}

// The sum of two words modulo 2^64, where both are present.
fn word_sum(a: Option<u64>, b: Option<u64>) -> Option<u64>
    ensures { result ≡ word_sum a b }
{
    Some(a?.wrapping_add(b?))
}

/// The size of the module at an address, or None where a part of it is absent. It takes no memory.
pub(crate) fn read_size<Y: Layer, L: Ledger>(
    objects: Objects<'_>,
    places: SizePlaces<'_>,
    at: u64,
    memory: &mut Memory<Y>,
    steps: &mut Steps<L>,
) -> Result<Option<u64>, DeviceFailed>
    ensures size { IfSome memory.old.view (λ view. IfOk result (λ size.
        size ≡ size_at (in_space (physical view) objects.entry.space) objects.entry.table.now (parts_at places.entry) at)) }
    ensures memory { IsSameMemory memory.old memory.new }
    ensures cause { HasCause memory.old.faults memory.new.faults (IsErr result) }
{
    let core = objects.word(places.core, at, memory, steps)?;
    let initial = objects.word(places.initial, at, memory, steps)?;
    Ok(word_sum(core, initial))
}
