//! Descriptors of types.
ghost use Rattle.std.specs.Prelude.{◌≡◌};
ghost use Rattle.std.specs.Option.{option_copied};
ghost use Rattle.isf_reader.specs.Depth.{user_name};

use layer_base::Name;
use sqlite_items::Boxed;

/// A type as a field or a symbol names it.
#[derive(Debug, Drop)]
pub enum TypeRef {
    Base(Name),
    Pointer(Boxed<TypeRef>),
    Array {
        count: u64,
        of: Boxed<TypeRef>,
    },
    Struct(Name),
    Union(Name),
    Class(Name),
    Enum(Name),
    Bits {
        position: u32,
        length: u32,
        of: Boxed<TypeRef>,
    },
    Function,
}

impl TypeRef {
    /// The name in a struct, union or class descriptor. None in any other.
    pub fn user_name(&self) -> Option<&Name>
        ensures { option_copied result ≡ user_name self.now }
    {
        match self {
            TypeRef::Struct(name) | TypeRef::Union(name) | TypeRef::Class(name) => Some(name),
            _ => None,
        }
    }
}
