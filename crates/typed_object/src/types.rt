//! Arrays of characters.
ghost use Rattle.std.specs.Prelude.{◌≡◌};
ghost use Rattle.typed_object.specs.Text.{is_character, characters};

use isf_reader::{BaseKind, Table, TypeRef};

/// Whether a type is a base type of kind char and one byte.
pub(crate) fn is_character(table: &Table, of: &TypeRef) -> bool
    ensures { result ≡ is_character table.now of.now }
{
    match of {
        TypeRef::Base(name) => match table.base(name.items()) {
            Some(base) => base.kind == BaseKind::Char && base.size == 1,
            None => false,
        },
        _ => false,
    }
}

/// How many characters an array of characters has.
pub(crate) fn characters(table: &Table, of: &TypeRef) -> Option<u64>
    ensures { result ≡ characters table.now of.now }
{
    match of {
        TypeRef::Array { count, of } => {
            if is_character(table, of.get()) {
                Some(*count)
            } else {
                None
            }
        },
        _ => None,
    }
}
