//! The error lines of a type that gives no object.
ghost use Rattle.std.specs.Prelude.{◌≡◌, IfOk};
ghost use Rattle.object_text.specs.Fault.{no_member_text, fault_text};

use cell_text::append_text;
use std::alloc::{AllocError, Global};
use type_layout::TypeFault;

/// The line of a fault, at the name of a path where it is a member's.
#[tactic(auto, unfolding(crate::specs::Fault::fault_text))]
pub(crate) fn fault_line(
    alloc: Global,
    name: &[u8],
    fault: TypeFault,
) -> Result<Vec<u8>, AllocError>
    ensures { IfOk result (λ line. line.items ≡ fault_text name.now fault) }
{
    match fault {
        TypeFault::NoType => Vec::from_slice(alloc, b"error: no type\n"),
        TypeFault::NoMember => no_member_line(alloc, name),
        TypeFault::NotCompound => Vec::from_slice(alloc, b"error: not a compound type\n"),
        TypeFault::PastEnd => Vec::from_slice(alloc, b"error: out of range\n"),
        TypeFault::TooBig => Vec::from_slice(alloc, b"error: too big\n"),
        TypeFault::NotArray | TypeFault::NotPointer | TypeFault::NotNumber => Ok(Vec::new(alloc)),
    }
}

#[tactic(auto, unfolding(crate::specs::Fault::no_member_text))]
fn no_member_line(alloc: Global, name: &[u8]) -> Result<Vec<u8>, AllocError>
    ensures { IfOk result (λ line. line.items ≡ no_member_text name.now) }
{
    let mut line = Vec::new(alloc);
    line.extend_from_slice(b"error: no member ")?;
    append_text(&mut line, name)?;
    line.push(b'\n')?;
    Ok(line)
}
