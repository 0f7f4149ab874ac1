//! The banner of the kernel that a symbol file is for.
ghost use Rattle.std.specs.Prelude.{◌≡◌, ◌≤◌, Some, length, IfOk, IfSome, IsErrOf};
ghost use Rattle.std.specs.List.{before_first};
ghost use Rattle.std.specs.Option.{option_copied};
ghost use Rattle.layer_base.specs.Counts.{HasCause};
ghost use Rattle.layer_base.specs.View.{physical};
ghost use Rattle.layer_base.specs.declared.space.Space.TheVariants.{Phys};
ghost use Rattle.isf_reader.specs.Depth.{entry_named};
ghost use Rattle.space_memory.specs.InSpace.{in_space};
ghost use Rattle.space_memory.specs.State.{IsSameMemory};
ghost use Rattle.kernel_find.specs.Banner.{banner, banner_occurs, constant_of, is_zero, text_of};

use crate::FindFault;
use crate::physical::physical_scanner;
use isf_reader::{Symbol, Table};
use layer_base::{Layer, Name, Steps};
use memchr::memchr;
use needle_search::Needles;
use space_memory::Memory;
use std::alloc::Global;
use std::sync::ledger::Ledger;

const MOST_BYTES: usize = 4096;

// The bytes before the first zero byte, or all.
fn before_zero(bytes: &[u8]) -> &[u8]
    ensures { result.now ≡ before_first is_zero bytes.now }
{
    match memchr(0, bytes) {
        Some(place) => &bytes[..place],
        None => bytes,
    }
}

// What stands before the first zero byte of data, and at most 4,096 bytes of it.
fn text_of(bytes: &[u8]) -> &[u8]
    ensures text { result.now ≡ text_of (Some bytes.now) }
    ensures few { length result.now ≤ 4096 }
{
    let text = before_zero(bytes);
    &text[..text.len().min(MOST_BYTES)]
}

// The symbol of a name.
fn symbol_named<'t>(symbols: &'t [(Name, Symbol)], name: &[u8]) -> Option<&'t Symbol>
    ensures { option_copied result ≡ entry_named name.now symbols.now }
{
    for (other, symbol) in symbols {
        if name.cmp(other.items()).is_eq() {
            return Some(symbol);
        }
    }
    None
}

/// The banner of a symbol file, which has no bytes where the file tells none.
#[tactic(auto, unfolding(crate::specs::Banner::banner))]
pub(crate) fn banner(table: &Table) -> &[u8]
    ensures banner { result.now ≡ banner table.now }
    ensures few { length result.now ≤ 4096 }
{
    let Some(symbol) = symbol_named(table.symbols(), b"linux_banner") else {
        return &[];
    };
    match &symbol.constant {
        Some(bytes) => text_of(bytes.items()),
        None => &[],
    }
}

/// Whether a banner occurs in physical memory. One without bytes is not looked for.
pub(crate) fn banner_occurs<Y: Layer, L: Ledger>(
    alloc: Global,
    memory: &mut Memory<Y>,
    banner: &[u8],
    chunk: usize,
    steps: &mut Steps<L>,
) -> Result<bool, FindFault>
    requires few { length banner.now ≤ 4096 }
    requires least { 4096 ≤ chunk }
    requires most { chunk ≤ 16777216 }
    ensures occurs { IfSome memory.old.view (λ view. IfOk result (λ occurs. occurs ≡ banner_occurs (in_space (physical view) Phys) banner.now)) }
    ensures memory { IsSameMemory memory.old memory.new }
    ensures cause { HasCause memory.old.faults memory.new.faults (IsErrOf result FindFault.Device) }
{
    if banner.is_empty() {
        return Ok(true);
    }
    let mut needles = Needles::new(alloc);
    needles.add(banner)?;
    let mut scanner = physical_scanner(alloc, needles, chunk)?;
    Ok(scanner.next_hit(memory, steps)?.is_some())
}
