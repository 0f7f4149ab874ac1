//! Tasks, areas, paths and an object of the first made image, whose layout docs/made_images.md tells.
ghost use Rattle.std.specs.Prelude.{◌≡◌, ◌<◌};

use anyhow::{Context, Result};
use cell_text::type_cell;
use file_layer::FileLayer;
use image_maker::make;
use isf_reader::Table;
use kernel_records::{Kernel, path_needs};
use layer_base::{Kind, Layer, Levels, MemDevice, Steps};
use path_walk::path_of;
use space_memory::Memory;
use std::alloc::Global;
use std::marker::Brand;
use std::sync::ledger::{Blank, Ledger};
use symbol_index::Symbols;
use task_plugins::tasks;
use type_layout::Place;
use typed_object::{Ground, View};
use vma_walk::areas_by_chain;

/// The spaces of a file in memory.
type FileMemory = Memory<FileLayer<MemDevice>>;

/// The kernel of the image.
const KERNEL: Kernel = Kernel {
    task: 0xffffffff80e03000,
    physical: 0x400000,
    shift: 0xe00000,
    root: 0x401000,
    levels: Levels::Four,
};

/// Where the memory descriptor of the first process is.
const MM: u64 = 0xffffffff80f08100;

/// Where the part of the root mount is to which files point.
const MNT: u64 = 0xffffffff80e09010;

/// Where the name of the kernel's first task is.
const COMM: u64 = 0xffffffff80e03050;

/// Where the open file is.
const FILE: u64 = 0xffffffff80e09400;

/// The dentries of a file and of a pipe.
const DENTRIES: [u64; 2] = [0xffffffff80e09180, 0xffffffff80e091c0];

fn memory(alloc: Global, image: &[u8]) -> Result<FileMemory> {
    let device = MemDevice::new(Vec::from_slice(alloc, image)?, Vec::new(alloc), usize::MAX);
    let mut layer = FileLayer::new(alloc, device);
    layer
        .attach(Kind::Lime, 0)
        .ok()
        .context("the image is refused")?;
    Memory::new(alloc, layer, 0).ok().context("out of memory")
}

// Prints how many tasks there are, why their ring ended, and the last one.
fn print_tasks<R: Print + Alloc<A = Global>, L: Ledger>(
    rt: &R,
    ground: Ground<'_, '_>,
    memory: &mut FileMemory,
    steps: &mut Steps<L>,
) -> Result<()> {
    let found = tasks(rt.alloc(), ground, memory, steps);
    let found = found.ok().context("the tasks are missing")?;
    let (count, stop, last) = (
        found.rows.items().len(),
        found.stop,
        found.rows.items().last(),
    );
    println!(rt; "tasks: {count}, {stop:?}, {last:?}")?;
    Ok(())
}

// Prints the areas of the first process, and why their chain ended.
fn print_areas<R: Print + Alloc<A = Global>, L: Ledger>(
    rt: &R,
    ground: Ground<'_, '_>,
    memory: &mut FileMemory,
    steps: &mut Steps<L>,
) -> Result<()> {
    let found = areas_by_chain(rt.alloc(), ground, MM, memory, steps);
    let found = found.ok().context("the areas are missing")?;
    let (stop, areas) = (found.stop, found.rows.items());
    println!(rt; "areas_by_chain: {stop:?}, {areas:?}")?;
    Ok(())
}

// Prints the path of a dentry of the root mount, and why the walk along it ended.
fn print_path<R: Print + Alloc<A = Global>, L: Ledger>(
    rt: &R,
    ground: &Ground<'_, '_>,
    dentry: u64,
    memory: &mut FileMemory,
    steps: &mut Steps<L>,
) -> Result<()> {
    let path = path_of(rt.alloc(), ground, MNT, dentry, memory, steps);
    let path = path.ok().context("a path is missing")?;
    let (text, stop) = (
        String::from_utf8_lossy(rt.alloc(), path.text.items())?,
        path.stop,
    );
    println!(rt; "path_of {dentry:#x}: {text}, {stop:?}")?;
    Ok(())
}

// Prints where an object is, and its type.
fn print_view<R: Print + Alloc<A = Global>>(
    rt: &R,
    call: &str,
    view: Option<View<'_>>,
) -> Result<()> {
    let view = view.context("an object is missing")?;
    let cell = type_cell(rt.alloc(), view.of)?;
    let (at, of) = (view.at, String::from_utf8_lossy(rt.alloc(), cell.items())?);
    println!(rt; "{call}: {of} at {at:#x}")?;
    Ok(())
}

// The object of a member's type at an address.
fn view_at<'t>(ground: Ground<'_, 't>, member: Option<Place<'t>>, at: u64) -> Result<View<'t>> {
    Ok(View {
        space: ground.space(),
        at,
        of: member.context("a member is missing")?.of,
    })
}

// Prints an element of a task's name, a member of a file's path, and what that points to.
fn print_objects<R: Print + Alloc<A = Global>, L: Ledger>(
    rt: &R,
    ground: Ground<'_, '_>,
    memory: &mut FileMemory,
    steps: &mut Steps<L>,
) -> Result<()> {
    let comm = view_at(ground, ground.member(b"task_struct", b"comm"), COMM)?;
    let letter = comm.element(ground.table, 3).ok();
    print_view(rt, "View::element", letter)?;
    let path = view_at(ground, ground.member(b"file", b"f_path"), FILE)?;
    let dentry = path.member(ground.table, b"dentry").ok();
    print_view(rt, "View::member", dentry)?;
    let dentry = dentry.context("a dentry is missing")?;
    let target = dentry.deref(ground.table, memory, steps).ok();
    print_view(rt, "View::deref", target)
}

// Prints the calls over the memory of the image.
fn print_calls<'t, R: Print + Alloc<A = Global>, L: Ledger>(
    rt: &R,
    table: &'t Table,
    symbols: &Symbols<'t>,
    memory: &mut FileMemory,
    blank: Blank,
) -> Result<()>
    requires symbols { symbols.now ≡ table.now.symbols }
    requires name { blank.name ≡ L.name }
    requires parts { blank.parts ≡ L.parts }
    requires some { 0 < L.parts }
{
    let mut steps = Steps::<L>::new(blank);
    let ground = Ground {
        table,
        symbols,
        kernel: KERNEL,
    };
    print_tasks(rt, ground, memory, &mut steps)?;
    print_areas(rt, ground, memory, &mut steps)?;
    for dentry in DENTRIES {
        print_path(rt, &ground, dentry, memory, &mut steps)?;
    }
    print_objects(rt, ground, memory, &mut steps)
}

/// Prints the names that paths need, and the calls over the first made image.
pub(crate) fn print_machine<R: Print + Alloc<A = Global>>(rt: &R) -> Result<()> {
    let needs = path_needs();
    println!(rt; "path_needs: {needs:?}")?;
    let made = make(rt.alloc(), 1)?;
    let table = Table::read(rt.alloc(), made.symbols.items());
    let table = table.ok().context("the symbol file is refused")?;
    let symbols = Symbols::of(rt.alloc(), &table)?;
    let mut memory = memory(rt.alloc(), made.image.items())?;
    print_calls::<R, Brand>(rt, &table, &symbols, &mut memory, Blank::new(1))
}
