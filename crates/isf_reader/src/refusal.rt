//! Why a symbol file is refused.

ghost use Rattle.std.specs.Prelude.{◌≡◌};

use layer_base::Name;
use std::alloc::AllocError;

/// A part of a symbol file.
#[derive(Clone, Copy, Debug, PartialEq, Eq)]
pub enum Section {
    File,
    BaseTypes,
    Enums,
    UserTypes,
    Symbols,
}

/// What is at fault: a key, or the whole.
#[derive(Clone, Copy, Debug, PartialEq, Eq)]
pub enum Key {
    Whole,
    Size,
    Signed,
    Kind,
    Endian,
    Base,
    Constants,
    Fields,
    Address,
    Of,
    ConstantData,
}

/// Why a symbol file is refused: its length, its text, the first entry at fault, or the first user type whose
/// anonymous fields are nested too deep. `Memory` is out of memory, and says nothing of the file.
#[derive(Debug, Drop)]
pub enum IsfRefusal {
    TooLarge {
        len: usize,
    },
    NotJson,
    BadEntry {
        section: Section,
        name: Name,
        key: Key,
    },
    AnonDepth {
        name: Name,
    },
    Memory,
}

impl From<AllocError> for IsfRefusal {
    ghost use Rattle.isf_reader.specs.declared.refusal.IsfRefusal.TheVariants.{Memory};

    ghost from_gives = { λ _ e. e ≡ Memory };

    fn from(_: AllocError) -> IsfRefusal {
        IsfRefusal::Memory
    }
}
