//! The type that a name stands for.
ghost use Rattle.std.specs.Prelude.{◌≡◌, IfOk};
ghost use Rattle.object_text.specs.Named.{user_of, named_type};

use isf_reader::{Table, TypeRef, UserKind};
use layer_base::Name;
use std::alloc::{AllocError, Global};

fn user_of(kind: UserKind, name: Name) -> TypeRef
    ensures { result ≡ user_of kind name }
{
    match kind {
        UserKind::Struct => TypeRef::Struct(name),
        UserKind::Union => TypeRef::Union(name),
        UserKind::Class => TypeRef::Class(name),
    }
}

/// The user type of a name, else the enum, else the base type.
pub(crate) fn named_type(
    alloc: Global,
    table: &Table,
    name: &[u8],
) -> Result<Option<TypeRef>, AllocError>
    ensures { IfOk result (λ of. of ≡ named_type table.now name.now) }
{
    if let Some(user) = table.user(name) {
        return Ok(Some(user_of(user.kind, Name::of(alloc, name)?)));
    }
    if table.enumeration(name).is_some() {
        return Ok(Some(TypeRef::Enum(Name::of(alloc, name)?)));
    }
    match table.base(name) {
        Some(_) => Ok(Some(TypeRef::Base(Name::of(alloc, name)?))),
        None => Ok(None),
    }
}
