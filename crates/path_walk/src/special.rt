//! Dentries whose names a function of the kernel writes.
ghost use Rattle.std.specs.Prelude.{◌≡◌, ◌++◌, IfOk, IfSome, IsErr, IsErrOf, OnOk};
ghost use Rattle.layer_base.specs.Counts.{HasCause};
ghost use Rattle.layer_base.specs.View.{physical};
ghost use Rattle.space_memory.specs.State.{IsSameMemory};
ghost use Rattle.typed_object.specs.Ground.{kernel_memory};
ghost use Rattle.path_walk.specs.Special.{special_at, special_by_function, special_by_operations, special, inode_of, inode_by, name_of, name_by, numbered_text, name_or_dash, named_text, special_text};
ghost use Rattle.std.specs.Option.{option_copied};

use crate::Paths;
use crate::name::read_name;
use cell_text::append_optional_number;
use kernel_records::WalkFault;
use layer_base::{DeviceFailed, Layer, Name, Number, Steps};
use space_memory::Memory;
use std::alloc::{AllocError, Global};
use std::sync::ledger::Ledger;

/// What a dentry that has no place in a file system stands for.
#[derive(Clone, Copy, Debug, PartialEq, Eq)]
pub(crate) enum Special {
    Socket,
    Pipe,
    /// A file whose inode has no name.
    AnonInode,
}

// What the function at an address of the symbol file writes.
fn special_at(paths: &Paths<'_>, address: u64) -> Option<Special>
    ensures { result ≡ special_at paths.now.table.now address }
{
    if paths.functions.socket == Some(address) {
        Some(Special::Socket)
    } else if paths.functions.pipe == Some(address) {
        Some(Special::Pipe)
    } else if paths.functions.anon_inode == Some(address) {
        Some(Special::AnonInode)
    } else {
        None
    }
}

// What is special of a dentry that has its functions at an address.
fn special_by_operations<Y: Layer, L: Ledger>(
    paths: &Paths<'_>,
    operations: Option<u64>,
    memory: &mut Memory<Y>,
    steps: &mut Steps<L>,
) -> Result<Option<Special>, DeviceFailed>
    ensures special { IfSome memory.old.view (λ told. IfOk result (λ kind.
        kind ≡ special_by_operations (kernel_memory (physical told) paths.now.kernel) paths.now.table.now paths.now.kernel operations)) }
    ensures memory { IsSameMemory memory.old memory.new }
    ensures cause { HasCause memory.old.faults memory.new.faults (IsErr result) }
{
    let Some(operations) = operations else {
        return Ok(None);
    };
    if operations == 0 {
        return Ok(None);
    }
    match paths.word(paths.places.name_function, operations, memory, steps)? {
        Some(function) => Ok(special_at(paths, paths.kernel.unshifted(function))),
        None => Ok(None),
    }
}

/// What is special of a dentry.
#[tactic(auto, unfolding(crate::specs::Special::special))]
pub(crate) fn special_of<Y: Layer, L: Ledger>(
    paths: &Paths<'_>,
    dentry: u64,
    memory: &mut Memory<Y>,
    steps: &mut Steps<L>,
) -> Result<Option<Special>, DeviceFailed>
    ensures special { IfSome memory.old.view (λ told. IfOk result (λ kind.
        kind ≡ special (kernel_memory (physical told) paths.now.kernel) paths.now.table.now paths.now.kernel dentry)) }
    ensures memory { IsSameMemory memory.old memory.new }
    ensures cause { HasCause memory.old.faults memory.new.faults (IsErr result) }
{
    let operations = paths.word(paths.places.dentry_operations, dentry, memory, steps)?;
    special_by_operations(paths, operations, memory, steps)
}

// The number of the inode at an address.
fn inode_by<Y: Layer, L: Ledger>(
    paths: &Paths<'_>,
    inode: Option<u64>,
    memory: &mut Memory<Y>,
    steps: &mut Steps<L>,
) -> Result<Option<Number>, DeviceFailed>
    ensures number { IfSome memory.old.view (λ told. IfOk result (λ number.
        number ≡ inode_by (kernel_memory (physical told) paths.now.kernel) paths.now.table.now inode)) }
    ensures memory { IsSameMemory memory.old memory.new }
    ensures cause { HasCause memory.old.faults memory.new.faults (IsErr result) }
{
    match inode {
        Some(inode) => paths.number(paths.places.inode_number, inode, memory, steps),
        None => Ok(None),
    }
}

// The number of a dentry's inode.
#[tactic(auto, unfolding(crate::specs::Special::inode_of))]
fn inode_of<Y: Layer, L: Ledger>(
    paths: &Paths<'_>,
    dentry: u64,
    memory: &mut Memory<Y>,
    steps: &mut Steps<L>,
) -> Result<Option<Number>, DeviceFailed>
    ensures number { IfSome memory.old.view (λ told. IfOk result (λ number.
        number ≡ inode_of (kernel_memory (physical told) paths.now.kernel) paths.now.table.now dentry)) }
    ensures memory { IsSameMemory memory.old memory.new }
    ensures cause { HasCause memory.old.faults memory.new.faults (IsErr result) }
{
    let inode = paths.word(paths.places.dentry_inode, dentry, memory, steps)?;
    inode_by(paths, inode, memory, steps)
}

// The name at an address, where it is whole.
fn name_by<Y: Layer, L: Ledger>(
    alloc: Global,
    paths: &Paths<'_>,
    address: Option<u64>,
    memory: &mut Memory<Y>,
    steps: &mut Steps<L>,
) -> Result<Option<Name>, WalkFault>
    ensures name { IfSome memory.old.view (λ told. IfOk result (λ name.
        name ≡ name_by (kernel_memory (physical told) paths.now.kernel) address)) }
    ensures memory { IsSameMemory memory.old memory.new }
    ensures cause { HasCause memory.old.faults memory.new.faults (IsErrOf result WalkFault.Device) }
{
    match address {
        Some(at) => Ok(read_name(alloc, paths, at, memory, steps)?.ok()),
        None => Ok(None),
    }
}

// The name of a dentry, where it is whole.
#[tactic(auto, unfolding(crate::specs::Special::name_of))]
fn name_of<Y: Layer, L: Ledger>(
    alloc: Global,
    paths: &Paths<'_>,
    dentry: u64,
    memory: &mut Memory<Y>,
    steps: &mut Steps<L>,
) -> Result<Option<Name>, WalkFault>
    ensures name { IfSome memory.old.view (λ told. IfOk result (λ name.
        name ≡ name_of (kernel_memory (physical told) paths.now.kernel) paths.now.table.now dentry)) }
    ensures memory { IsSameMemory memory.old memory.new }
    ensures cause { HasCause memory.old.faults memory.new.faults (IsErrOf result WalkFault.Device) }
{
    let address = paths.word(paths.places.dentry_name, dentry, memory, steps)?;
    name_by(alloc, paths, address, memory, steps)
}

// The text of a word and a number, and a bracket behind them.
#[tactic(auto, unfolding(crate::specs::Special::numbered_text))]
fn numbered_text(alloc: Global, word: &[u8], number: Option<Number>) -> Result<Name, AllocError>
    ensures { IfOk result (λ text. text ≡ numbered_text word.now number) }
{
    let mut text = Vec::from_slice(alloc, word)?;
    append_optional_number(&mut text, number)?;
    text.push(b']')?;
    Ok(Name::from(text))
}

fn name_or_dash(name: Option<&Name>) -> &[u8]
    ensures { result.now ≡ name_or_dash (option_copied name.entry) }
{
    match name {
        Some(name) => name.items(),
        None => b"-",
    }
}

// The text of a file whose inode has no name of its own.
#[tactic(auto, unfolding(crate::specs::Special::named_text))]
fn named_text(alloc: Global, name: Option<&Name>) -> Result<Name, AllocError>
    ensures { IfOk result (λ text. text ≡ named_text (option_copied name.entry)) }
{
    let mut text = Vec::from_slice(alloc, b"anon_inode:")?;
    text.extend_from_slice(name_or_dash(name))?;
    Ok(Name::from(text))
}

/// The text of a special dentry.
#[tactic(auto, unfolding(crate::specs::Special::special_text))]
pub(crate) fn special_text<Y: Layer, L: Ledger>(
    alloc: Global,
    paths: &Paths<'_>,
    dentry: u64,
    kind: Special,
    memory: &mut Memory<Y>,
    steps: &mut Steps<L>,
) -> Result<Name, WalkFault>
    ensures text { IfSome memory.old.view (λ told. IfOk result (λ text.
        text ≡ special_text (kernel_memory (physical told) paths.now.kernel) paths.now.table.now dentry kind)) }
    ensures memory { IsSameMemory memory.old memory.new }
    ensures cause { HasCause memory.old.faults memory.new.faults (IsErrOf result WalkFault.Device) }
{
    match kind {
        Special::Socket => {
            let number = inode_of(paths, dentry, memory, steps)?;
            Ok(numbered_text(alloc, b"socket:[", number)?)
        }
        Special::Pipe => {
            let number = inode_of(paths, dentry, memory, steps)?;
            Ok(numbered_text(alloc, b"pipe:[", number)?)
        }
        Special::AnonInode => {
            let name = name_of(alloc, paths, dentry, memory, steps)?;
            Ok(named_text(alloc, name.as_ref())?)
        }
    }
}
