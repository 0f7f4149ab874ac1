//! The tests that a candidate for the first task must pass. Each reads only what it needs.
ghost use Rattle.std.specs.Prelude.{◌≡◌, option_map, IfOk, IfSome, IsErr};
ghost use Rattle.layer_base.specs.Counts.{HasCause};
ghost use Rattle.layer_base.specs.View.{physical};
ghost use Rattle.layer_base.specs.declared.space.Space.TheVariants.{Phys};
ghost use Rattle.space_memory.specs.InSpace.{in_space};
ghost use Rattle.space_memory.specs.State.{IsSameMemory};
ghost use Rattle.type_layout.specs.Member.{spot};
ghost use Rattle.typed_object.specs.Members.{member_number};
ghost use Rattle.kernel_find.specs.Criteria.{is_first_task, is_page, is_present_zero, is_running, is_state_zero, leads_to, physical_of, shift_of};
ghost use Rattle.kernel_find.specs.Layout.{IsLayout, table_of};

use crate::layout::Layout;
use kernel_records::Kernel;
use layer_base::{DeviceFailed, Layer, Number, Space, Steps};
use space_memory::Memory;
use std::sync::ledger::Ledger;
use type_layout::Place;
use typed_object::Objects;

/// Where kernels are linked to begin; physical address 0 stands there before they are moved.
pub(crate) const LINK_BASE: u64 = 0xFFFF_FFFF_8000_0000;

const PAGE_SIZE: u64 = 1 << 12;

/// Whether the low 12 bits are zero.
pub(crate) fn is_page(address: u64) -> bool
    ensures { result ≡ is_page address }
{
    address % PAGE_SIZE == 0
}

/// How far the kernel stands from where it is linked to stand in physical memory, modulo 2^64, if its first task is at
/// this address.
pub(crate) fn physical_of(layout: &Layout<'_>, task: u64) -> u64
    requires { IsLayout layout.now }
    ensures { result ≡ physical_of (table_of layout.now) task }
{
    task.wrapping_sub(layout.init_task.wrapping_sub(LINK_BASE))
}

/// How far the kernel's addresses stand from those of its symbols, modulo 2^64, by where the task has its open files.
/// None where the task's member is absent.
pub(crate) fn shift_of<Y: Layer, L: Ledger>(
    layout: &Layout<'_>,
    task: u64,
    memory: &mut Memory<Y>,
    steps: &mut Steps<L>,
) -> Result<Option<u64>, DeviceFailed>
    requires { IsLayout layout.now }
    ensures shift { IfSome memory.old.view (λ view. IfOk result (λ shift.
        shift ≡ shift_of (in_space (physical view) Phys) (table_of layout.now) task)) }
    ensures memory { IsSameMemory memory.old memory.new }
    ensures cause { HasCause memory.old.faults memory.new.faults (IsErr result) }
{
    match layout.objects.word(layout.files, task, memory, steps)? {
        Some(files) => Ok(Some(files.wrapping_sub(layout.init_files))),
        None => Ok(None),
    }
}

fn is_present_zero(number: Option<Number>) -> bool
    ensures { result ≡ is_present_zero number }
{
    match number {
        Some(Number::Unsigned(number)) => number == 0,
        Some(Number::Signed(number)) => number == 0,
        None => false,
    }
}

// Whether a member of a task is a number that is there, and is 0.
fn is_member_zero<Y: Layer, L: Ledger>(
    objects: Objects<'_>,
    member: Option<Place<'_>>,
    task: u64,
    memory: &mut Memory<Y>,
    steps: &mut Steps<L>,
) -> Result<bool, DeviceFailed>
    ensures zero { IfSome memory.old.view (λ view. IfOk result (λ zero.
        zero ≡ is_present_zero (member_number (in_space (physical view) objects.entry.space) objects.entry.table.now (option_map spot member.entry) task))) }
    ensures memory { IsSameMemory memory.old memory.new }
    ensures cause { HasCause memory.old.faults memory.new.faults (IsErr result) }
{
    let number = objects.number(member, task, memory, steps)?;
    Ok(is_present_zero(number))
}

// Whether a state of a task is 0, where tasks have this state.
fn is_state_zero<Y: Layer, L: Ledger>(
    objects: Objects<'_>,
    state: Option<Place<'_>>,
    task: u64,
    memory: &mut Memory<Y>,
    steps: &mut Steps<L>,
) -> Result<bool, DeviceFailed>
    ensures zero { IfSome memory.old.view (λ view. IfOk result (λ zero.
        zero ≡ is_state_zero (in_space (physical view) objects.entry.space) objects.entry.table.now (option_map spot state.entry) task)) }
    ensures memory { IsSameMemory memory.old memory.new }
    ensures cause { HasCause memory.old.faults memory.new.faults (IsErr result) }
{
    match state {
        Some(_) => is_member_zero(objects, state, task, memory, steps),
        None => Ok(true),
    }
}

// Whether each state that tasks have is 0.
fn is_running<Y: Layer, L: Ledger>(
    layout: &Layout<'_>,
    task: u64,
    memory: &mut Memory<Y>,
    steps: &mut Steps<L>,
) -> Result<bool, DeviceFailed>
    requires { IsLayout layout.now }
    ensures running { IfSome memory.old.view (λ view. IfOk result (λ running.
        running ≡ is_running (in_space (physical view) Phys) (table_of layout.now) task)) }
    ensures memory { IsSameMemory memory.old memory.new }
    ensures cause { HasCause memory.old.faults memory.new.faults (IsErr result) }
{
    if !is_state_zero(layout.objects, layout.old_state, task, memory, steps)? {
        return Ok(false);
    }
    is_state_zero(layout.objects, layout.new_state, task, memory, steps)
}

/// Whether what the memory of a task holds is what that of the first one does: number 0, and each state 0.
pub(crate) fn is_first_task<Y: Layer, L: Ledger>(
    layout: &Layout<'_>,
    task: u64,
    memory: &mut Memory<Y>,
    steps: &mut Steps<L>,
) -> Result<bool, DeviceFailed>
    requires { IsLayout layout.now }
    ensures first { IfSome memory.old.view (λ view. IfOk result (λ first.
        first ≡ is_first_task (in_space (physical view) Phys) (table_of layout.now) task)) }
    ensures memory { IsSameMemory memory.old memory.new }
    ensures cause { HasCause memory.old.faults memory.new.faults (IsErr result) }
{
    if !is_member_zero(layout.objects, layout.pid, task, memory, steps)? {
        return Ok(false);
    }
    is_running(layout, task, memory, steps)
}

/// Whether the page tables of a kernel lead from the address of its first task to where that stands.
pub(crate) fn leads_to<Y: Layer, L: Ledger>(
    task: u64,
    kernel: &Kernel,
    memory: &mut Memory<Y>,
    steps: &mut Steps<L>,
) -> Result<bool, DeviceFailed>
    ensures leads { IfSome memory.old.view (λ view. IfOk result (λ leads. leads ≡ leads_to (physical view) task kernel.now)) }
    ensures memory { IsSameMemory memory.old memory.new }
    ensures cause { HasCause memory.old.faults memory.new.faults (IsErr result) }
{
    let space = Space::paged(kernel.root, kernel.levels);
    match memory.translate(space, kernel.task, steps)? {
        Some(address) => Ok(address == task),
        None => Ok(false),
    }
}
