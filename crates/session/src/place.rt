//! The places that a line names.
ghost use Rattle.std.specs.Prelude.{◌≡◌, ◌+◌, ◌^◌, ◌≤◌, IfOk, IfSome, IsErrOf};
ghost use Rattle.layer_base.specs.Counts.{HasCause};
ghost use Rattle.space_memory.specs.State.{IsSameMemory};
ghost use Rattle.session.specs.Evidence.{evidence_in};
ghost use Rattle.session.specs.Kernel.{KeepsKernel, kernel_of};
ghost use Rattle.session.specs.Place.{task_space_or_refusal, space_of_pid, space_of, address_of, in_range, place_of};
ghost use Rattle.session.specs.Refusal.{and_then, AnswersAs};

use crate::desk::Desk;
use crate::kernel::kernel_of;
use crate::refusal::{CommandRefusal, NotRun};
use command_words::{AddrWord, SpaceWord};
use kernel_records::{TaskFault, WalkFault};
use layer_base::{Layer, Name, Space, Steps};
use std::alloc::{AllocError, Global};
use std::sync::ledger::Ledger;
use task_plugins::{TaskSpace, space_of_task};

/// An address in a space.
#[derive(Clone, Copy, Debug)]
pub(crate) struct Place {
    pub(crate) space: Space,
    pub(crate) at: u64,
}

const END: u128 = 1 << 64;

fn task_space_or_refusal(pid: u64, space: TaskSpace) -> Result<Space, CommandRefusal>
    ensures { result ≡ task_space_or_refusal pid space }
{
    match space {
        TaskSpace::Found(space) => Ok(space),
        TaskSpace::NoTask => Err(CommandRefusal::NoTask(pid)),
        TaskSpace::NoSpace => Err(CommandRefusal::NoSpace(pid)),
    }
}

// The space of the task of a PID.
fn space_of_pid<Y: Layer, L: Ledger>(
    desk: &mut Desk<'_, '_, Y>,
    pid: u64,
    steps: &mut Steps<L>,
) -> Result<Space, NotRun>
    requires kept { KeepsKernel desk.old.memory.view desk.old.file.table.now desk.old.found }
    ensures space { IfSome desk.old.memory.view (λ view.
        AnswersAs (and_then (kernel_of (evidence_in view desk.old.file.table.now)) (space_of_pid (evidence_in view desk.old.file.table.now) pid)) result) }
    ensures kept { KeepsKernel desk.new.memory.view desk.new.file.table.now desk.new.found }
    ensures file { desk.new.file ≡ desk.old.file }
    ensures memory { IsSameMemory desk.old.memory desk.new.memory }
    ensures cause { HasCause desk.old.memory.faults desk.new.memory.faults (IsErrOf result (NotRun.Fault WalkFault.Device)) }
{
    let kernel = kernel_of(desk, steps)?;
    let ground = desk.file.ground(kernel);
    match space_of_task(desk.alloc, ground, pid, &mut desk.memory, steps) {
        Ok(space) => Ok(task_space_or_refusal(pid, space)?),
        Err(TaskFault::Missing { need }) => Err(NotRun::Refused(CommandRefusal::Missing(need))),
        Err(TaskFault::Device) => Err(NotRun::Fault(WalkFault::Device)),
        Err(TaskFault::Memory) => Err(NotRun::Fault(WalkFault::Memory)),
    }
}

#[tactic(auto, unfolding(crate::specs::Place::space_of))]
fn space_of<Y: Layer, L: Ledger>(
    desk: &mut Desk<'_, '_, Y>,
    word: SpaceWord,
    steps: &mut Steps<L>,
) -> Result<Space, NotRun>
    requires kept { KeepsKernel desk.old.memory.view desk.old.file.table.now desk.old.found }
    ensures space { IfSome desk.old.memory.view (λ view. AnswersAs (space_of (evidence_in view desk.old.file.table.now) word) result) }
    ensures kept { KeepsKernel desk.new.memory.view desk.new.file.table.now desk.new.found }
    ensures file { desk.new.file ≡ desk.old.file }
    ensures memory { IsSameMemory desk.old.memory desk.new.memory }
    ensures cause { HasCause desk.old.memory.faults desk.new.memory.faults (IsErrOf result (NotRun.Fault WalkFault.Device)) }
{
    match word {
        SpaceWord::Phys => Ok(Space::Phys),
        SpaceWord::Kernel => {
            let kernel = kernel_of(desk, steps)?;
            Ok(desk.file.ground(kernel).space())
        }
        SpaceWord::Task(pid) => space_of_pid(desk, pid, steps),
        SpaceWord::Root { root, levels } => Ok(Space::paged(root, levels)),
    }
}

// That no symbol has a name.
fn no_symbol(alloc: Global, name: &[u8]) -> Result<CommandRefusal, AllocError>
    ensures { IfOk result (λ refusal. refusal ≡ CommandRefusal.NoSymbol name.now) }
{
    let name = Vec::from_slice(alloc, name)?;
    Ok(CommandRefusal::NoSymbol(Name::from(name)))
}

#[tactic(auto, unfolding(crate::specs::Place::address_of))]
fn address_of<Y: Layer, L: Ledger>(
    desk: &mut Desk<'_, '_, Y>,
    word: &AddrWord,
    steps: &mut Steps<L>,
) -> Result<u64, NotRun>
    requires kept { KeepsKernel desk.old.memory.view desk.old.file.table.now desk.old.found }
    ensures address { IfSome desk.old.memory.view (λ view. AnswersAs (address_of (evidence_in view desk.old.file.table.now) word.now) result) }
    ensures kept { KeepsKernel desk.new.memory.view desk.new.file.table.now desk.new.found }
    ensures file { desk.new.file ≡ desk.old.file }
    ensures memory { IsSameMemory desk.old.memory desk.new.memory }
    ensures cause { HasCause desk.old.memory.faults desk.new.memory.faults (IsErrOf result (NotRun.Fault WalkFault.Device)) }
{
    match word {
        AddrWord::Number(at) => Ok(*at),
        AddrWord::Symbol(name) => {
            let kernel = kernel_of(desk, steps)?;
            match desk.file.ground(kernel).symbol_address(name.items()) {
                Some(at) => Ok(kernel.shifted(at)),
                None => Err(NotRun::Refused(no_symbol(desk.alloc, name.items())?)),
            }
        }
    }
}

// An address in a space, unless so many bytes from it on pass the last address.
fn in_range(len: u64, space: Space, at: u64) -> Result<Place, CommandRefusal>
    ensures place { result ≡ in_range len space at }
    ensures range { IfOk result (λ place. place.at + len ≤ 2 ^ 64) }
{
    if u128::from(at) + u128::from(len) <= END {
        Ok(Place { space, at })
    } else {
        Err(CommandRefusal::OutOfRange)
    }
}

/// The place of so many bytes from an address of a space on, or why there is none.
#[tactic(auto, unfolding(crate::specs::Place::place_of))]
pub(crate) fn place_of<Y: Layer, L: Ledger>(
    desk: &mut Desk<'_, '_, Y>,
    space: SpaceWord,
    at: &AddrWord,
    len: u64,
    steps: &mut Steps<L>,
) -> Result<Place, NotRun>
    requires kept { KeepsKernel desk.old.memory.view desk.old.file.table.now desk.old.found }
    ensures place { IfSome desk.old.memory.view (λ view. AnswersAs (place_of (evidence_in view desk.old.file.table.now) space at.now len) result) }
    ensures range { IfOk result (λ place. place.at + len ≤ 2 ^ 64) }
    ensures kept { KeepsKernel desk.new.memory.view desk.new.file.table.now desk.new.found }
    ensures file { desk.new.file ≡ desk.old.file }
    ensures memory { IsSameMemory desk.old.memory desk.new.memory }
    ensures cause { HasCause desk.old.memory.faults desk.new.memory.faults (IsErrOf result (NotRun.Fault WalkFault.Device)) }
{
    let space = space_of(desk, space, steps)?;
    let at = address_of(desk, at, steps)?;
    Ok(in_range(len, space, at)?)
}
