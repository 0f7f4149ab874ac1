//! Sizes of types.
ghost use Rattle.std.specs.Prelude.{◌≡◌, ◌^◌, ◌<◌, IfOk};
ghost use Rattle.type_layout.specs.Size.{base_size, enum_size, user_size, pointer_size, times, size_of};

use crate::TypeFault;
use isf_reader::{Table, TypeRef};

const LARGEST: u64 = (1 << 63) - 1;

// The size of the base type of that name.
fn base_size(table: &Table, name: &[u8]) -> Result<u64, TypeFault>
    ensures value { result ≡ base_size table.now name.now }
    ensures bound { IfOk result (λ size. size < 2 ^ 32) }
{
    match table.base(name) {
        Some(base) => Ok(base.size),
        None => Err(TypeFault::NoType),
    }
}

// The size of the enum of that name.
fn enum_size(table: &Table, name: &[u8]) -> Result<u64, TypeFault>
    ensures value { result ≡ enum_size table.now name.now }
    ensures bound { IfOk result (λ size. size < 2 ^ 32) }
{
    match table.enumeration(name) {
        Some(enumeration) => Ok(enumeration.size),
        None => Err(TypeFault::NoType),
    }
}

// The size of the user type of that name.
fn user_size(table: &Table, name: &[u8]) -> Result<u64, TypeFault>
    ensures value { result ≡ user_size table.now name.now }
    ensures bound { IfOk result (λ size. size < 2 ^ 32) }
{
    match table.user(name) {
        Some(user) => Ok(user.size),
        None => Err(TypeFault::NoType),
    }
}

// The size of a pointer.
fn pointer_size(table: &Table) -> u64
    ensures value { result ≡ pointer_size table.now }
    ensures bound { result < 2 ^ 32 }
{
    base_size(table, b"pointer").unwrap_or(8)
}

// The size of so many elements.
fn times(count: u64, size: u64) -> Result<u64, TypeFault>
    ensures value { result ≡ times count size }
    ensures bound { IfOk result (λ size. size < 2 ^ 63) }
{
    match count.checked_mul(size) {
        Some(total) if total <= LARGEST => Ok(total),
        _ => Err(TypeFault::TooBig),
    }
}

/// The size of a type in bytes: a base type, an enum and a user type have the size of their entry in the table, a
/// pointer that of the base type `pointer`, or 8, an array its count times the size of an element, a bit field that of
/// its type, and a function 0. Errors: `NoType` where nothing defines a name, and `TooBig` where an array has more than
/// 2^63 - 1 bytes.
pub fn size_of(table: &Table, of: &TypeRef) -> Result<u64, TypeFault>
    ensures value { result ≡ size_of table.now of.now }
    ensures bound { IfOk result (λ size. size < 2 ^ 63) }
{
    match of {
        TypeRef::Base(name) => base_size(table, name.items()),
        TypeRef::Pointer(_) => Ok(pointer_size(table)),
        TypeRef::Array { count, of } => times(*count, size_of(table, of.get())?),
        TypeRef::Struct(name) | TypeRef::Union(name) | TypeRef::Class(name) => {
            user_size(table, name.items())
        }
        TypeRef::Enum(name) => enum_size(table, name.items()),
        TypeRef::Bits { of, .. } => size_of(table, of.get()),
        TypeRef::Function => Ok(0),
    }
}
