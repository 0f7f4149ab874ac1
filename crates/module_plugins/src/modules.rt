//! The command `lsmod`.
ghost use Rattle.std.specs.Prelude.{◌≡◌, ◌++◌, option_map, IfSome, OnOk, OnErr};
ghost use Rattle.std.specs.Io.{StartsWith};
ghost use Rattle.std.specs.Option.{option_copied};
ghost use Rattle.layer_base.specs.declared.number.Number.TheVariants.{Unsigned};
ghost use Rattle.space_memory.specs.Writer.{WritesOver};
ghost use Rattle.type_layout.specs.Member.{spot};
ghost use Rattle.typed_object.specs.Ground.{kernel_memory, kernel_space};
ghost use Rattle.module_plugins.specs.Modules.{module_cells, modules_at, module_walk, modules_text, lsmod_text};

use crate::size::{SizePlaces, read_size, size_places};
use cell_text::{append_optional_number, append_optional_text, missing_line};
use hex_text::append_address;
use kernel_records::{Need, PluginFault, WalkFault, module_needs, need_text};
use layer_base::{Layer, Name, Number, Sink, Steps, write_whole};
use list_walk::{Shape, Walk};
use space_memory::Memory;
use std::alloc::{AllocError, Global};
use std::sync::ledger::Ledger;
use type_layout::Place;
use typed_object::{Ground, Objects, offset_of};
use walk_text::{ObjectRow, write_walk};

// What is read of a module: where its name stands, and the parts of its size.
#[derive(Clone, Copy)]
struct ModuleRow<'t> {
    alloc: Global,
    objects: Objects<'t>,
    name: Option<Place<'t>>,
    size: SizePlaces<'t>,
}

fn bytes_of(name: &Option<Name>) -> Option<&[u8]>
    ensures { option_copied result ≡ name.now }
{
    match name {
        Some(name) => Some(name.items()),
        None => None,
    }
}

fn unsigned(size: Option<u64>) -> Option<Number>
    ensures { result ≡ option_map Unsigned size }
{
    Some(Number::Unsigned(u128::from(size?)))
}

// Appends the address, the name and the size of a module.
fn append_module(
    text: &mut Vec<u8>,
    at: u64,
    name: Option<&[u8]>,
    size: Option<u64>,
) -> Result<(), AllocError>
    ensures ok { OnOk result (text.new.items ≡ text.old.items ++ module_cells at (option_copied name.entry) size) }
    ensures err { OnErr result (StartsWith text.new.items text.old.items) }
{
    append_address(text, at)?;
    text.push(b'\t')?;
    append_optional_text(text, name)?;
    text.push(b'\t')?;
    append_optional_number(text, unsigned(size))?;
    text.push(b'\n')?;
    Ok(())
}

impl ObjectRow for ModuleRow<'_> {
    ghost use Rattle.std.specs.Prelude.{option_map};
    ghost use Rattle.space_memory.specs.InSpace.{in_space};
    ghost use Rattle.type_layout.specs.Member.{spot};
    ghost use Rattle.module_plugins.specs.Modules.{module_row};
    ghost use Rattle.module_plugins.specs.Places.{parts_at};

    ghost row_text = { λ r memory at. module_row (in_space memory r.objects.space) r.objects.table.now (record { name = option_map spot r.name; size = parts_at r.size }) at };

    fn append_row<Y: Layer, L: Ledger>(
        &self,
        text: &mut Vec<u8>,
        at: u64,
        memory: &mut Memory<Y>,
        steps: &mut Steps<L>,
    ) -> Result<(), WalkFault> {
        let name = self.objects.text(self.alloc, self.name, at, memory, steps)?;
        let size = read_size(self.objects, self.size, at, memory, steps)?;
        append_module(text, at, bytes_of(&name), size)?;
        Ok(())
    }
}

// The address of the list of modules.
fn modules_at(ground: Ground<'_, '_>) -> u64
    ensures { result ≡ modules_at ground.entry.table.now ground.entry.kernel }
{
    let address = ground
        .symbol_address(need_text(Need::Modules).as_bytes())
        .unwrap_or(0);
    ground.kernel.shifted(address)
}

// The ring of modules.
fn module_walk(alloc: Global, ground: Ground<'_, '_>) -> Walk
    ensures { result ≡ module_walk ground.entry.table.now ground.entry.kernel }
{
    let shape = Shape {
        back: offset_of(ground.needed_member(Need::ModuleList)),
        next: offset_of(ground.needed_member(Need::ListHeadNext)),
    };
    Walk::ring(alloc, ground.space(), modules_at(ground), shape)
}

// Writes the modules of a kernel whose symbol file has all names that are needed.
fn write_modules<Y: Layer, O: Sink, L: Ledger>(
    alloc: Global,
    ground: Ground<'_, '_>,
    memory: &mut Memory<Y>,
    out: &mut O,
    steps: &mut Steps<L>,
) -> Result<(), PluginFault>
    ensures writes { WritesOver O.written O.faults out.old out.new memory.old memory.new PluginFault.Device PluginFault.Out result
        (λ memory. modules_text (kernel_memory memory ground.entry.kernel) ground.entry.table.now (module_walk ground.entry.table.now ground.entry.kernel)) }
{
    let row = ModuleRow {
        alloc,
        objects: ground.objects(),
        name: ground.needed_member(Need::ModuleName),
        size: size_places(ground),
    };
    let walk = module_walk(alloc, ground);
    write_walk(
        alloc,
        b"OFFSET\tNAME\tSIZE\n",
        walk,
        &row,
        memory,
        out,
        steps,
    )
}

/// Writes the modules of a kernel: a line of the columns' names, then the address, the name and the size of each module of
/// the ring at the symbol `modules`, then why the ring ended. Where the symbol file lacks a name that is needed, the line of
/// the first one is all that is written. The size is the sum modulo 2^64 of the sizes of `core_layout` and `init_layout`
/// where modules have a `core_layout`, else of `core_size` and `init_size`; it is `-` where a part is missing or absent.
/// What was found is written before a failure of the image is answered.
#[tactic(auto, unfolding(crate::specs::Modules::lsmod_text))]
pub fn write_lsmod<Y: Layer, O: Sink, L: Ledger>(
    alloc: Global,
    ground: Ground<'_, '_>,
    memory: &mut Memory<Y>,
    out: &mut O,
    steps: &mut Steps<L>,
) -> Result<(), PluginFault>
    ensures writes { WritesOver O.written O.faults out.old out.new memory.old memory.new PluginFault.Device PluginFault.Out result
        (λ memory. lsmod_text memory ground.entry.table.now ground.entry.kernel) }
{
    if let Some(need) = ground.first_missing(module_needs()) {
        let line = missing_line(alloc, need)?;
        write_whole(out, &line)?;
        return Ok(());
    }
    write_modules(alloc, ground, memory, out, steps)
}
