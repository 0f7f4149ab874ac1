//! The search for the kernel.
ghost use Rattle.std.specs.Prelude.{◌≡◌, ◌≤◌, Ok, IfOk, IfSome, IsErr, IsErrOf};
ghost use Rattle.layer_base.specs.Counts.{HasCause};
ghost use Rattle.layer_base.specs.View.{physical};
ghost use Rattle.space_memory.specs.State.{IsSameMemory};
ghost use Rattle.chunk_scanner.specs.State.{hits_left, KeepsTrue};
ghost use Rattle.kernel_records.specs.Groups.{find_needs};
ghost use Rattle.typed_object.specs.Needs.{first_missing};
ghost use Rattle.kernel_find.specs.Candidate.{first_accepted, kernel_in, kernel_named_at, task_names};
ghost use Rattle.kernel_find.specs.Find.{find, found_in, missing};
ghost use Rattle.kernel_find.specs.Layout.{IsLayout, table_of};

use crate::banner::{banner, banner_occurs};
use crate::candidate::kernel_named_at;
use crate::layout::Layout;
use crate::physical::physical_scanner;
use crate::{FindFault, Found};
use chunk_scanner::Scanner;
use isf_reader::Table;
use kernel_records::{Kernel, Meaning, Need, find_needs, meaning_of};
use layer_base::{DeviceFailed, Layer, Steps};
use needle_search::Needles;
use space_memory::Memory;
use std::alloc::{AllocError, Global};
use std::sync::ledger::Ledger;
use symbol_index::Symbols;
use typed_object::first_missing;

// The names of the first task.
fn task_names(alloc: Global) -> Result<Needles, AllocError>
    ensures { IfOk result (λ needles. needles ≡ task_names) }
{
    let mut needles = Needles::new(alloc);
    needles.add(b"swapper/0\0\0\0\0\0\0")?;
    needles.add(b"swapper\0\0\0\0\0\0\0\0")?;
    Ok(needles)
}

// The kernel of the first hit that is accepted. No hit behind it is looked for.
fn first_accepted<Y: Layer, L: Ledger>(
    layout: &Layout<'_>,
    scanner: &mut Scanner,
    memory: &mut Memory<Y>,
    steps: &mut Steps<L>,
) -> Result<Option<Kernel>, DeviceFailed>
    requires layout { IsLayout layout.now }
    requires kept { IfSome memory.old.view (λ view. KeepsTrue (physical view) scanner.old) }
    ensures kernel { IfSome memory.old.view (λ view. IfOk result (λ kernel.
        kernel ≡ first_accepted (kernel_named_at (physical view) (table_of layout.now)) (hits_left (physical view) scanner.old))) }
    ensures memory { IsSameMemory memory.old memory.new }
    ensures cause { HasCause memory.old.faults memory.new.faults (IsErr result) }
{
    while let Some(hit) = scanner.next_hit(memory, steps)? {
        let kernel = kernel_named_at(layout, hit.at, memory, steps)?;
        if kernel.is_some() {
            return Ok(kernel);
        }
    }
    Ok(None)
}

#[tactic(auto, unfolding(crate::specs::Candidate::kernel_in))]
fn kernel_in<Y: Layer, L: Ledger>(
    alloc: Global,
    memory: &mut Memory<Y>,
    layout: &Layout<'_>,
    chunk: usize,
    steps: &mut Steps<L>,
) -> Result<Option<Kernel>, FindFault>
    requires layout { IsLayout layout.now }
    requires least { 4096 ≤ chunk }
    requires most { chunk ≤ 16777216 }
    ensures kernel { IfSome memory.old.view (λ view. IfOk result (λ kernel.
        kernel ≡ kernel_in (physical view) (table_of layout.now))) }
    ensures memory { IsSameMemory memory.old memory.new }
    ensures cause { HasCause memory.old.faults memory.new.faults (IsErrOf result FindFault.Device) }
{
    let names = task_names(alloc)?;
    let mut scanner = physical_scanner(alloc, names, chunk)?;
    Ok(first_accepted(layout, &mut scanner, memory, steps)?)
}

// What the search finds once the symbol file has what it needs.
fn found_in<Y: Layer, L: Ledger>(
    alloc: Global,
    memory: &mut Memory<Y>,
    table: &Table,
    symbols: &Symbols<'_>,
    chunk: usize,
    steps: &mut Steps<L>,
) -> Result<Found, FindFault>
    requires symbols { symbols.now ≡ table.now.symbols }
    requires least { 4096 ≤ chunk }
    requires most { chunk ≤ 16777216 }
    ensures found { IfSome memory.old.view (λ view. IfOk result (λ found. found ≡ found_in (physical view) table.now)) }
    ensures memory { IsSameMemory memory.old memory.new }
    ensures cause { HasCause memory.old.faults memory.new.faults (IsErrOf result FindFault.Device) }
{
    if !banner_occurs(alloc, memory, banner(table), chunk, steps)? {
        return Ok(Found::NoBanner);
    }
    let layout = Layout::of(table, symbols);
    match kernel_in(alloc, memory, &layout, chunk, steps)? {
        Some(kernel) => Ok(Found::Kernel(kernel)),
        None => Ok(Found::NoTask),
    }
}

// The answer where a need is not met.
fn missing(need: Need) -> Found
    ensures { result ≡ missing need }
{
    match meaning_of(need) {
        Meaning::Symbol(_) | Meaning::RootSymbol => Found::NoSymbol { need },
        Meaning::Member { .. } => Found::NoMember { need },
    }
}

/// Searches physical memory for the kernel that a symbol file is for.
///
/// The first need of `find_needs` that the file does not meet is the answer, as a symbol or as a member. Else the banner of
/// the file must occur, where it has one: the constant data of its symbol `linux_banner` before the first zero byte, and at
/// most 4,096 bytes of it. Else the kernel is the first candidate that passes all tests, in rising order of address: a
/// candidate is where one of the two names of the first task stands, `swapper/0` or `swapper` with zero bytes up to the
/// fifteenth. It is read with at most `chunk` bytes at a time, and no further than to the first accepted candidate.
///
/// `Device` comes only where a call on the image's device failed, and `Memory` when out of memory. The memory is the same
/// after every answer.
#[tactic(auto, unfolding(crate::specs::Find::find))]
pub fn find<Y: Layer, L: Ledger>(
    alloc: Global,
    memory: &mut Memory<Y>,
    table: &Table,
    symbols: &Symbols<'_>,
    chunk: usize,
    steps: &mut Steps<L>,
) -> Result<Found, FindFault>
    requires symbols { symbols.now ≡ table.now.symbols }
    requires least { 4096 ≤ chunk }
    requires most { chunk ≤ 16777216 }
    ensures found { IfSome memory.old.view (λ view. IfOk result (λ found. found ≡ find (physical view) table.now)) }
    ensures missing { IfSome (first_missing table.now find_needs) (λ need. result ≡ Ok (missing need)) }
    ensures memory { IsSameMemory memory.old memory.new }
    ensures cause { HasCause memory.old.faults memory.new.faults (IsErrOf result FindFault.Device) }
{
    match first_missing(table, symbols, find_needs()) {
        Some(need) => Ok(missing(need)),
        None => found_in(alloc, memory, table, symbols, chunk, steps),
    }
}
