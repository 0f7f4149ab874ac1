//! The kernel that a hit gives.
ghost use Rattle.std.specs.Prelude.{◌≡◌, IfOk, IfSome, IsErr};
ghost use Rattle.layer_base.specs.Counts.{HasCause};
ghost use Rattle.layer_base.specs.View.{physical};
ghost use Rattle.space_memory.specs.State.{IsSameMemory};
ghost use Rattle.kernel_find.specs.Candidate.{by_levels, kernel_at, kernel_named_at, kernel_of, kernel_shifted};
ghost use Rattle.kernel_find.specs.Criteria.{physical_of};
ghost use Rattle.kernel_find.specs.Layout.{IsLayout, table_of};

use crate::criteria::{LINK_BASE, is_first_task, is_page, leads_to, physical_of, shift_of};
use crate::layout::Layout;
use kernel_records::Kernel;
use layer_base::{DeviceFailed, Layer, Levels, Steps};
use space_memory::Memory;
use std::sync::ledger::Ledger;

fn kernel_of(layout: &Layout<'_>, physical: u64, shift: u64, levels: Levels) -> Kernel
    requires { IsLayout layout.now }
    ensures { result ≡ kernel_of (table_of layout.now) physical shift levels }
{
    Kernel {
        task: layout.init_task.wrapping_add(shift),
        physical,
        shift,
        root: layout.root.wrapping_sub(LINK_BASE).wrapping_add(physical),
        levels,
    }
}

// The kernel whose page tables lead to its first task.
fn by_levels<Y: Layer, L: Ledger>(
    layout: &Layout<'_>,
    task: u64,
    shift: u64,
    memory: &mut Memory<Y>,
    steps: &mut Steps<L>,
) -> Result<Option<Kernel>, DeviceFailed>
    requires { IsLayout layout.now }
    ensures kernel { IfSome memory.old.view (λ view. IfOk result (λ kernel.
        kernel ≡ by_levels (physical view) task (kernel_of (table_of layout.now) (physical_of (table_of layout.now) task) shift))) }
    ensures memory { IsSameMemory memory.old memory.new }
    ensures cause { HasCause memory.old.faults memory.new.faults (IsErr result) }
{
    let physical = physical_of(layout, task);
    let four = kernel_of(layout, physical, shift, Levels::Four);
    if leads_to(task, &four, memory, steps)? {
        return Ok(Some(four));
    }
    let five = kernel_of(layout, physical, shift, Levels::Five);
    if leads_to(task, &five, memory, steps)? {
        return Ok(Some(five));
    }
    Ok(None)
}

fn kernel_shifted<Y: Layer, L: Ledger>(
    layout: &Layout<'_>,
    task: u64,
    shift: u64,
    memory: &mut Memory<Y>,
    steps: &mut Steps<L>,
) -> Result<Option<Kernel>, DeviceFailed>
    requires { IsLayout layout.now }
    ensures kernel { IfSome memory.old.view (λ view. IfOk result (λ kernel.
        kernel ≡ kernel_shifted (physical view) (table_of layout.now) task shift)) }
    ensures memory { IsSameMemory memory.old memory.new }
    ensures cause { HasCause memory.old.faults memory.new.faults (IsErr result) }
{
    if !is_page(shift) {
        return Ok(None);
    }
    if !is_first_task(layout, task, memory, steps)? {
        return Ok(None);
    }
    by_levels(layout, task, shift, memory, steps)
}

fn kernel_at<Y: Layer, L: Ledger>(
    layout: &Layout<'_>,
    task: u64,
    memory: &mut Memory<Y>,
    steps: &mut Steps<L>,
) -> Result<Option<Kernel>, DeviceFailed>
    requires { IsLayout layout.now }
    ensures kernel { IfSome memory.old.view (λ view. IfOk result (λ kernel.
        kernel ≡ kernel_at (physical view) (table_of layout.now) task)) }
    ensures memory { IsSameMemory memory.old memory.new }
    ensures cause { HasCause memory.old.faults memory.new.faults (IsErr result) }
{
    if !is_page(physical_of(layout, task)) {
        return Ok(None);
    }
    match shift_of(layout, task, memory, steps)? {
        Some(shift) => kernel_shifted(layout, task, shift, memory, steps),
        None => Ok(None),
    }
}

/// The kernel whose first task has its name at a physical address. Nothing is read of a task that an earlier test refused.
#[tactic(auto, unfolding(crate::specs::Candidate::kernel_named_at))]
pub(crate) fn kernel_named_at<Y: Layer, L: Ledger>(
    layout: &Layout<'_>,
    at: u64,
    memory: &mut Memory<Y>,
    steps: &mut Steps<L>,
) -> Result<Option<Kernel>, DeviceFailed>
    requires { IsLayout layout.now }
    ensures kernel { IfSome memory.old.view (λ view. IfOk result (λ kernel.
        kernel ≡ kernel_named_at (physical view) (table_of layout.now) at)) }
    ensures memory { IsSameMemory memory.old memory.new }
    ensures cause { HasCause memory.old.faults memory.new.faults (IsErr result) }
{
    if at < layout.name {
        return Ok(None);
    }
    kernel_at(layout, at - layout.name, memory, steps)
}
