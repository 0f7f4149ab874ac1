//! The walk through the tables.
ghost use Rattle.std.specs.Prelude.{◌≡◌, ◌+◌, ◌-◌, ◌*◌, ◌<◌, ◌≤◌, ◌^◌, true, false, IsErr, IfOk, IfSome};
ghost use Rattle.layer_base.specs.AddressSpace.{AddressSpace};
ghost use Rattle.layer_base.specs.Mapped.{Holds, IsAligned};
ghost use Rattle.layer_base.specs.Counts.{HasCause};
ghost use Rattle.layer_base.specs.SameLayer.{IsSameLayer};
ghost use Rattle.layer_base.specs.View.{physical};
ghost use Rattle.intel_paging.specs.Block.{block_of, block_from};
ghost use Rattle.intel_paging.specs.Entry.{IsEntryOf, entry_of};
ghost use Rattle.intel_paging.specs.Paging.{entry_address};
ghost use Rattle.intel_paging.specs.Walk.{IsBlock, asks_tables, levels_of};
ghost use Rattle.intel_paging.specs.Word.{word};

use crate::block::{block_around, entry_address};
use crate::entry::{Entry, entry_of};
use crate::levels::{count_of, is_canonical, non_canonical};
use crate::word::word_at;
use layer_base::{DeviceFailed, Layer, Mapped, Space, Steps, page_address};
use std::sync::ledger::Ledger;

/// The run around an address: the block of one entry with what it is mapped to, or with nothing where the entry maps
/// nothing; for physical memory all addresses, mapped to themselves; or all addresses that are not canonical, which
/// are mapped to nothing.
///
/// An entry is read in one call of the layer where that gives it whole, and in at most eight else. Each entry is one
/// step, of which there is one for each level at most, and none where the space is physical or the address is not
/// canonical. It takes no memory.
///
/// `DeviceFailed` comes only where a call of the layer failed, whose count of faults then rose. The layer shows the same
/// after every answer.
pub fn walk<Y: Layer, L: Ledger>(
    phys: &mut Y,
    space: Space,
    at: u64,
    steps: &mut Steps<L>,
) -> Result<Mapped, DeviceFailed>
    ensures holds { IfOk result (λ run. Holds run at) }
    ensures block { IfSome (Y.view phys.old) (λ view. IfOk result (IsBlock (physical view) space)) }
    ensures without_tables { asks_tables space at ≡ false → IfOk result (λ run. (memory : AddressSpace) → block_of memory space at ≡ run) }
    ensures aligned { asks_tables space at ≡ true → IfOk result IsAligned }
    ensures some_steps { asks_tables space at ≡ true → steps.old < steps.new }
    ensures most_steps { steps.new ≤ steps.old + levels_of space }
    ensures no_steps { asks_tables space at ≡ false → steps.new ≡ steps.old }
    ensures calls { Y.calls phys.new ≤ Y.calls phys.old + 8 * (steps.new - steps.old) }
    ensures layer { IsSameLayer Y.view Y.kind Y.faults Y.calls phys.old phys.new }
    ensures cause { HasCause (Y.faults phys.old) (Y.faults phys.new) (IsErr result) }
{
    let Space::Paged { root, levels } = space else {
        return Ok(Mapped {
            first: 0,
            last: u64::MAX,
            to: Some(0),
        });
    };
    if !is_canonical(levels, at) {
        return Ok(non_canonical(levels));
    }
    descend(phys, count_of(levels), page_address(root), at, steps)
}

/// Whether a walk reads tables at an address: the space is paged, and the address canonical.
pub fn asks_tables(space: Space, at: u64) -> bool
    ensures { result ≡ asks_tables space at }
{
    match space {
        Space::Phys => false,
        Space::Paged { levels, .. } => is_canonical(levels, at),
    }
}

// The block around an address that a table of a level maps, or that a table below it does.
fn descend<Y: Layer, L: Ledger>(
    phys: &mut Y,
    level: u32,
    table: u64,
    at: u64,
    steps: &mut Steps<L>,
) -> Result<Mapped, DeviceFailed>
    requires least { 1 ≤ level }
    requires most { level ≤ 5 }
    requires table { table < 2 ^ 52 }
    ensures holds { IfOk result (λ run. Holds run at) }
    ensures block { IfSome (Y.view phys.old) (λ view. IfOk result (λ run. run ≡ block_from (physical view) level table at)) }
    ensures aligned { IfOk result IsAligned }
    ensures some_steps { steps.old < steps.new }
    ensures most_steps { steps.new ≤ steps.old + level }
    ensures calls { Y.calls phys.new ≤ Y.calls phys.old + 8 * (steps.new - steps.old) }
    ensures layer { IsSameLayer Y.view Y.kind Y.faults Y.calls phys.old phys.new }
    ensures cause { HasCause (Y.faults phys.old) (Y.faults phys.new) (IsErr result) }
{
    match entry_at(phys, level, table, at, steps)? {
        Entry::Hole => Ok(block_around(level, at, None)),
        Entry::Frame { to } => Ok(block_around(level, at, Some(to))),
        Entry::Table { at: next } => descend(phys, level - 1, next, at, steps),
    }
}

// Reads the entry of an address in a table of a level, which is one step.
fn entry_at<Y: Layer, L: Ledger>(
    phys: &mut Y,
    level: u32,
    table: u64,
    at: u64,
    steps: &mut Steps<L>,
) -> Result<Entry, DeviceFailed>
    requires least { 1 ≤ level }
    requires most { level ≤ 5 }
    requires table { table < 2 ^ 52 }
    ensures entry { IfSome (Y.view phys.old) (λ view. IfOk result (λ entry. entry ≡ entry_of level (word (physical view) (entry_address level table at)))) }
    ensures fits { IfOk result (IsEntryOf level) }
    ensures step { steps.new ≡ steps.old + 1 }
    ensures calls { Y.calls phys.new ≤ Y.calls phys.old + 8 }
    ensures layer { IsSameLayer Y.view Y.kind Y.faults Y.calls phys.old phys.new }
    ensures cause { HasCause (Y.faults phys.old) (Y.faults phys.new) (IsErr result) }
{
    steps.tick();
    let number = word_at(phys, entry_address(level, table, at))?;
    Ok(entry_of(level, number))
}
